//! Bids that a line grants, and its score.
ghost use Rattle.std.specs.Prelude.{◌≡◌, ◌<◌, ◌^◌, length, count_by, sum_by, not, All, if◌then◌else◌};
ghost use Rattle.std.specs.List.{list_any};
ghost use Rattle.roster_model.specs.Filters.{is_kept};
ghost use Rattle.roster_model.specs.Scores.{is_flown, is_granting, is_granted, bids_of, score_of};
ghost use Rattle.roster_model.specs.Timelines.{credit_of};

use crate::credits::credit_of;
use crate::free::{days_off_of, is_free};
use roster_model::{Bid, Filter, Line, Problem, Wish, holds};

/// Whether the line has the pairing.
fn flies(line: &[u32], pairing: u32) -> bool
    ensures { result ≡ is_flown line.now pairing }
{
    line.iter().any(|q| *q == pairing)
}

/// Whether the filter keeps some pairing of the line.
fn keeps_some(problem: &Problem, filter: &Filter, line: &[u32]) -> bool
    requires known { All (λ p. p < length problem.now.base.pairings) line.now }
    ensures { result ≡ list_any (is_kept problem.now filter.now) line.now }
{
    line.iter().any(|p| holds(problem, filter, *p))
}

/// Whether the filter keeps no pairing of the line.
fn avoids(problem: &Problem, filter: &Filter, line: &[u32]) -> bool
    requires known { All (λ p. p < length problem.now.base.pairings) line.now }
    ensures { result ≡ not (list_any (is_kept problem.now filter.now) line.now) }
{
    !keeps_some(problem, filter, line)
}

/// How many pairings of the line the filter keeps.
fn count_kept(problem: &Problem, filter: &Filter, line: &[u32]) -> usize
    requires known { All (λ p. p < length problem.now.base.pairings) line.now }
    ensures { result ≡ count_by (is_kept problem.now filter.now) line.now }
{
    line.iter().filter(|p| holds(problem, filter, **p)).count()
}

/// Whether the line grants the wish.
fn grants(problem: &Problem, member: u32, line: &[u32], wish: &Wish) -> bool
    requires member { member < length problem.now.base.members }
    requires known { All (λ p. p < length problem.now.base.pairings) line.now }
    requires room { credit_of problem.now member line.now < 2 ^ 32 }
    ensures { result ≡ is_granting problem.now member line.now wish.now }
{
    match wish {
        Wish::Fly(pairing) => flies(line, *pairing),
        Wish::Avoid(filter) => avoids(problem, filter, line),
        Wish::Prefer(least, filter) => *least as usize <= count_kept(problem, filter, line),
        Wish::Off(first, last) => is_free(problem, member, line, *first, *last),
        Wish::CreditBelow(minutes) => credit_of(problem, member, line) < *minutes,
        Wish::CreditAbove(minutes) => *minutes < credit_of(problem, member, line),
        Wish::DaysOff(days) => *days <= days_off_of(problem, member, line),
    }
}

/// Whether the line grants the member's bid of this number.
#[tactic(auto, using(roster_model::proofs::Bounds::credit_bound))]
pub fn granted(problem: &Problem, member: u32, bid: u32, line: &Line) -> bool
    requires member { member < length problem.now.base.members }
    requires bid { bid < length (bids_of problem.now member) }
    requires known { All (λ p. p < length problem.now.base.pairings) line.now }
    ensures { result ≡ is_granted problem.now member bid line.now }
{
    let lists = problem.bids.as_slice();
    let bids = lists[member as usize].as_slice();
    grants(problem, member, line.pairings(), &bids[bid as usize].wish)
}

/// What a bid adds to the score.
fn worth(problem: &Problem, member: u32, line: &[u32], bid: &Bid) -> u32
    requires member { member < length problem.now.base.members }
    requires known { All (λ p. p < length problem.now.base.pairings) line.now }
    requires room { credit_of problem.now member line.now < 2 ^ 32 }
    ensures { result ≡ (if is_granting problem.now member line.now bid.now.wish then bid.now.weight
        else 0) }
{
    if grants(problem, member, line, &bid.wish) {
        bid.weight
    } else {
        0
    }
}

fn total_worth(problem: &Problem, member: u32, line: &[u32], bids: &[Bid]) -> u32
    requires member { member < length problem.now.base.members }
    requires known { All (λ p. p < length problem.now.base.pairings) line.now }
    requires room { credit_of problem.now member line.now < 2 ^ 32 }
    requires fits { sum_by (λ b. if is_granting problem.now member line.now b.wish then b.weight
        else 0) bids.now < 2 ^ 32 }
    ensures { result ≡ sum_by (λ b. if is_granting problem.now member line.now b.wish then b.weight
        else 0) bids.now }
{
    bids.iter()
        .map(|bid| worth(problem, member, line, bid))
        .sum()
}

#[tactic(auto, unfolding(roster_model::specs::Scores::score_of))]
fn score_of(problem: &Problem, member: u32, line: &[u32]) -> u32
    requires member { member < length problem.now.base.members }
    requires known { All (λ p. p < length problem.now.base.pairings) line.now }
    requires room { credit_of problem.now member line.now < 2 ^ 32 }
    requires fits { score_of problem.now member line.now < 2 ^ 32 }
    ensures { result ≡ score_of problem.now member line.now }
{
    let lists = problem.bids.as_slice();
    let bids = lists[member as usize].as_slice();
    total_worth(problem, member, line, bids)
}

/// The sum of the weights of the member's bids that the line grants.
#[tactic(auto, using(roster_model::proofs::Bounds::credit_bound, roster_model::proofs::Bounds::score_bound))]
pub fn score(problem: &Problem, member: u32, line: &Line) -> u32
    requires member { member < length problem.now.base.members }
    requires known { All (λ p. p < length problem.now.base.pairings) line.now }
    ensures { result ≡ score_of problem.now member line.now }
{
    score_of(problem, member, line.pairings())
}
