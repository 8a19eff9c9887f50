//! Awards from the second place on, and once more where the junior bids otherwise.
ghost use Rattle.std.specs.Prelude.{◌≡◌, ◌≤◌, ◌∷◌, [], length, All};
ghost use Rattle.duty_calendar.specs.declared.horizon.Horizon.{Horizon as Month};
ghost use Rattle.roster_model.specs.declared.bid.Wish.TheVariants.{DaysOff, Fly};
ghost use Rattle.roster_model.specs.Valid.{IsBid};
ghost use Rattle.what_if.specs.Reused.{AgreeBut};

use award_loop::{Outcome, award, award_from};
use branch_log::{FreshCloser, Ledger};
use duty_calendar::{Copied, List};
use june_months::{contest, first_pairing, one, pair};
use plain_guide::PlainGuide;
use roster_model::{Awarded, Bid, Problem, Roster, Wish};
use std::alloc::Global;
use std::process::Abort;
use weight_certificates::Rounds;
use what_if::what_if;

/// The bid for thirty days off.
fn days_off(rt: &impl Abort, alloc: Global) -> List<Bid>
    ensures bid { result ≡ record { weight = 10; wish = DaysOff 30 } ∷ [] }
{
    let bid = Bid {
        weight: 10,
        wish: Wish::DaysOff(30),
    };
    one(alloc, bid).expect(rt, "memory")
}

/// The month of the base of another one with one pairing, which the first of two members wants to fly, while the second
/// bids so.
fn with_junior(rt: &impl Abort, alloc: Global, month: &Problem, junior: List<Bid>) -> Problem
    requires members { length month.now.base.members ≡ 2 }
    requires pairings { length month.now.base.pairings ≡ 1 }
    requires few { length junior ≤ 64 }
    requires bids { (h : Month) → All (IsBid h 1) junior }
    ensures base { result.base ≡ month.now.base }
    ensures bids { result.bids ≡ (record { weight = 10; wish = Fly 0 } ∷ []) ∷ junior ∷ [] }
{
    let senior = first_pairing(alloc).expect(rt, "memory");
    Problem {
        base: month.base.copy(alloc).expect(rt, "memory"),
        bids: pair(alloc, senior, junior).expect(rt, "memory"),
    }
}

/// The award of a month from the second place on, and the ledger of its searches.
fn later(rt: &impl Abort, alloc: Global, problem: &Problem) -> (Outcome, Ledger)
    requires members { length problem.now.base.members ≡ 2 }
{
    let mut closer: Rounds<PlainGuide> = Rounds::new(alloc, problem, 400).expect(rt, "memory");
    let mut first = Ledger::new(alloc, 100, 400).expect(rt, "memory");
    let done = award(alloc, problem, &mut closer, &mut first).expect(rt, "memory");
    let Outcome::Award(kept, _proofs) = done else {
        panic!(rt; "an award");
    };
    let mut ledger = Ledger::new(alloc, 100, 400).expect(rt, "memory");
    let done = award_from(alloc, problem, &mut closer, &mut ledger, &kept, 1);
    (done.expect(rt, "memory"), ledger)
}

/// The award of a month once more, in which the second member bids otherwise, and the ledger of its searches.
fn again(rt: &impl Abort, alloc: Global, old: &Problem, new: &Problem) -> (Outcome, Ledger)
    requires agree { AgreeBut old.now new.now 1 }
{
    assert!(rt; old.base.members.len() == 2);
    let mut closer: Rounds<PlainGuide> = Rounds::new(alloc, old, 400).expect(rt, "memory");
    let mut first = Ledger::new(alloc, 100, 400).expect(rt, "memory");
    let done = award(alloc, old, &mut closer, &mut first).expect(rt, "memory");
    let Outcome::Award(kept, proofs) = done else {
        panic!(rt; "an award");
    };
    let awarded = Awarded {
        proofs,
        shown: List::new(alloc),
    };
    let mut fresh: Rounds<PlainGuide> = Rounds::new(alloc, new, 400).expect(rt, "memory");
    let mut ledger = Ledger::new(alloc, 100, 400).expect(rt, "memory");
    let done = what_if(alloc, old, new, &awarded, &kept, 1, &mut fresh, &mut ledger);
    (done.expect(rt, "memory"), ledger)
}

/// Whether the senior flies the pairing and the junior does not.
fn is_seniors(roster: &Roster) -> bool {
    match roster.as_slice() {
        [senior, junior] => senior.pairings().len() == 1 && junior.pairings().is_empty(),
        _ => false,
    }
}

/// How many proofs come with an award of the pairing to the senior.
fn proofs_of(done: &Outcome) -> Option<usize> {
    match done {
        Outcome::Award(best, proofs) if is_seniors(best) => Some(proofs.len()),
        _ => None,
    }
}

/// Whether there are searches, each with a floor for the second member.
fn are_later(ledger: &Ledger) -> bool {
    !ledger.goals().is_empty() && ledger.goals().iter().all(|goal| goal.floors.len() == 2)
}

/// The proof of the second place comes alone.
#[test]
fn an_award_begins_at_the_second_place(rt: HostRuntime) {
    let problem = contest(rt.alloc()).expect(&rt, "memory");
    let (done, ledger) = later(&rt, rt.alloc(), &problem);
    assert!(rt; proofs_of(&done) == Some(1));
    assert!(rt; are_later(&ledger));
}

/// Nothing is asked of the first member alone.
#[test]
fn a_junior_who_rests_is_awarded_again(rt: HostRuntime) {
    let alloc = rt.alloc();
    let month = contest(alloc).expect(&rt, "memory");
    let junior = first_pairing(alloc).expect(&rt, "memory");
    let old = with_junior(&rt, alloc, &month, junior);
    let new = with_junior(&rt, alloc, &month, days_off(&rt, alloc));
    let (done, ledger) = again(&rt, alloc, &old, &new);
    assert!(rt; proofs_of(&done) == Some(2));
    assert!(rt; are_later(&ledger));
}
