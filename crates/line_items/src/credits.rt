//! Credit of fixed events, and credit rounded to a lens's grain.
ghost use Rattle.std.specs.Prelude.{◌≡◌, ◌<◌, ◌≤◌, ◌^◌, true, length, slice_get, sum_by};
ghost use Rattle.std.specs.Option.{option_map_or};
ghost use Rattle.roster_model.specs.Lenses.{ceil_to, floor_to, is_grain};
ghost use Rattle.roster_model.specs.Timelines.{fixed_of};

use crate::member::fixed_of;
use duty_calendar::Event;
use label_lattice::{Span, SpanEnd};
use lens_classes::Terms;
use roster_model::Problem;

/// The credit rounded down to a multiple of the grain, all in minutes.
pub fn floor_to(grain: u32, credit: u32) -> u32
    requires grain { is_grain grain ≡ true }
    requires few { credit ≤ 12000 }
    ensures rounded { result ≡ floor_to grain credit }
{
    credit / grain * grain
}

/// The credit rounded up to a multiple of the grain, all in minutes.
pub fn ceil_to(grain: u32, credit: u32) -> u32
    requires grain { is_grain grain ≡ true }
    requires few { credit ≤ 12000 }
    ensures rounded { result ≡ ceil_to grain credit }
{
    (credit + (grain - 1)) / grain * grain
}

/// The credit of events.
fn event_credit(events: &[Event]) -> u32
    requires room { sum_by (λ e. e.credit) events.now < 2 ^ 32 }
    ensures sum { result ≡ sum_by (λ e. e.credit) events.now }
{
    events.iter().map(|event| event.credit).sum()
}

/// The credit of the member's fixed events, in minutes.
#[tactic(auto, using(crate::proofs::MaskParts::fixed_bound))]
pub(crate) fn fixed_credit(problem: &Problem, member: u32) -> u32
    requires member { member < length problem.now.base.members }
    ensures credit { result ≡ sum_by (λ e. e.credit) (fixed_of problem.now member) }
{
    event_credit(fixed_of(problem, member))
}

/// The credit that a line is to come up to.
pub fn credit_end(terms: &Terms) -> SpanEnd
    ensures low { result.low ≡ terms.now.low }
{
    SpanEnd { low: terms.low }
}

/// The credit at the source.
pub fn first_credit(problem: &Problem, member: u32) -> Span
    requires member { member < length problem.now.base.members }
    ensures credit { result ≡ record {
      down = sum_by (λ e. e.credit) (fixed_of problem.now member);
      up = sum_by (λ e. e.credit) (fixed_of problem.now member);
    } }
{
    let credit = fixed_credit(problem, member);
    Span {
        down: credit,
        up: credit,
    }
}
