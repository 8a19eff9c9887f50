//! The credit of a line.
ghost use Rattle.std.specs.Prelude.{◌≡◌, ◌<◌, ◌^◌, length, sum_by, slice_get, All, true};
ghost use Rattle.std.specs.Option.{option_map_or};
ghost use Rattle.roster_model.specs.Ascending.{is_ascending};
ghost use Rattle.roster_model.specs.Timelines.{credit_of};

use crate::fixed::fixed_of;
use duty_calendar::Event;
use roster_model::{Line, Problem};

fn fixed_credit(events: &[Event]) -> u32
    requires room { sum_by (λ e. e.credit) events.now < 2 ^ 32 }
    ensures { result ≡ sum_by (λ e. e.credit) events.now }
{
    events.iter().map(|event| event.credit).sum()
}

fn credit_at(problem: &Problem, number: u32) -> u32
    requires known { number < length problem.now.base.pairings }
    ensures { result ≡ option_map_or (λ p. p.credit)
        (slice_get problem.now.base.pairings number) 0 }
{
    let pairings = problem.base.pairings.as_slice();
    pairings[number as usize].credit
}

fn line_credit(problem: &Problem, line: &[u32]) -> u32
    requires known { All (λ p. p < length problem.now.base.pairings) line.now }
    requires room { sum_by (λ n. option_map_or (λ p. p.credit)
        (slice_get problem.now.base.pairings n) 0) line.now < 2 ^ 32 }
    ensures { result ≡ sum_by (λ n. option_map_or (λ p. p.credit)
        (slice_get problem.now.base.pairings n) 0) line.now }
{
    line.iter().map(|number| credit_at(problem, *number)).sum()
}

/// The credit of the line's pairings and of the member's fixed events.
#[tactic(auto, using(crate::proofs::BusyLemmas::credit_is))]
pub fn credit_of(problem: &Problem, member: u32, line: &[u32]) -> u32
    requires member { member < length problem.now.base.members }
    requires known { All (λ p. p < length problem.now.base.pairings) line.now }
    requires room { credit_of problem.now member line.now < 2 ^ 32 }
    ensures { result ≡ credit_of problem.now member line.now }
{
    fixed_credit(fixed_of(problem, member)) + line_credit(problem, line)
}

/// The credit of a line in minutes, with that of the member's fixed events.
#[tactic(auto, using(roster_model::proofs::Bounds::credit_bound))]
pub fn credit(problem: &Problem, member: u32, line: &Line) -> u32
    requires member { member < length problem.now.base.members }
    requires known { All (λ p. p < length problem.now.base.pairings) line.now }
    ensures value { result ≡ credit_of problem.now member line.now }
{
    credit_of(problem, member, line.pairings())
}
