//! Months whose crew is too small, with as few vacant lines as they need, and the judge of awards with such lines.
ghost use Rattle.std.specs.Prelude.{◌≡◌, ◌≤◌, ◌∷◌, [], IfOk, length};
ghost use Rattle.roster_model.specs.declared.proof.Item.TheVariants.{Count, Fixed, Split};
ghost use Rattle.weight_certificates.specs.Setup.{IsMadeFor};

use branch_log::FreshCloser;
use duty_calendar::{List, Memory};
use june_months::{first_line, month, one, pair, shared, single, tenth, with};
use open_time::{OpenFault, OpenNo, Opened, fewest, judge_open};
use plain_guide::PlainGuide;
use roster_model::{Awarded, Item, Line, Problem, Proof, Reasons};
use std::alloc::Global;
use std::process::Abort;
use weight_certificates::Rounds;

/// The fewest vacant lines, up to a ceiling, with ledgers of so many nodes.
fn opened(alloc: Global, problem: &Problem, ceiling: u32, nodes: u32) -> Result<Opened, OpenFault>
    requires few { ceiling ≤ 50 }
{
    let make = |month: &Problem| -> Result<Rounds<PlainGuide>, Memory>
        ensures rounds { IfOk result (λ closer. closer.rounds ≡ 400) }
        ensures fits { IfOk result (λ closer. IsMadeFor closer month.now) }
    { Rounds::new(alloc, month, 400) };
    fewest(alloc, problem, ceiling, nodes, make)
}

#[test]
fn two_members_and_one_vacant_line_are_a_crew_of_three(rt: HostRuntime) -> Result<(), OpenFault> {
    let alloc = rt.alloc();
    let problem = shared(alloc, 1, 3, 0, 5400)?;
    match &opened(alloc, &problem, 2, 100)? {
        Opened::Award(count, none, roster, awarded, reasons, ledger) => {
            assert!(rt; *count == 1);
            assert!(rt; *none == Some(one(alloc, Item::Count(0))?));
            assert!(rt; roster.len() == 3);
            assert!(rt; roster.as_slice()[2].pairings() == [0].as_slice());
            assert!(rt; awarded.proofs.len() == 3);
            assert!(rt; reasons.len() == 0);
            assert!(rt; ledger.cap() == 100);
        }
        _ => panic!(rt; "one vacant line is enough"),
    }
    Ok(())
}

#[test]
fn no_vacant_line_is_not_enough(rt: HostRuntime) -> Result<(), OpenFault> {
    let alloc = rt.alloc();
    let problem = shared(alloc, 1, 3, 0, 5400)?;
    match &opened(alloc, &problem, 0, 100)? {
        Opened::NoRoster(proof, ledger) => {
            assert!(rt; *proof == one(alloc, Item::Count(0))?);
            assert!(rt; ledger.len() == 0);
        }
        _ => panic!(rt; "two members are no crew of three"),
    }
    Ok(())
}

/// The month of one member without bids, and of one pairing.
fn idle(rt: &impl Abort, alloc: Global) -> Problem
    ensures members { length result.base.members ≡ 1 }
    ensures pairings { length result.base.pairings ≡ 1 }
{
    let pairings = tenth(alloc, 300).expect(rt, "memory");
    let members = single(alloc, 0, 5400).expect(rt, "memory");
    let bids = one(alloc, List::new(alloc)).expect(rt, "memory");
    month(pairings, members, bids).expect(rt, "memory")
}

/// The proof that a member without bids has no score above 0, whether it flies the one pairing or not.
fn pointless(rt: &impl Abort, alloc: Global) -> Proof
    ensures value { result ≡ Split 0 0 ∷ Fixed 0 ∷ Count 0 ∷ [] }
{
    let proof = pair(alloc, Item::Split(0, 0), Item::Fixed(0)).expect(rt, "memory");
    with(proof, Item::Count(0)).expect(rt, "memory")
}

/// That proof, which shows all of an award of the month.
fn shown(rt: &impl Abort, alloc: Global) -> Awarded
    ensures value { result ≡ record {
      proofs = (Split 0 0 ∷ Fixed 0 ∷ Count 0 ∷ []) ∷ [];
      shown = [];
    } }
{
    Awarded {
        proofs: one(alloc, pointless(rt, alloc)).expect(rt, "memory"),
        shown: List::new(alloc),
    }
}

/// The line without pairings.
fn empty_line(rt: &impl Abort, alloc: Global) -> Line
    ensures value { result ≡ [] }
{
    Line::new(List::new(alloc)).expect(rt, "a line")
}

/// With no vacant line the award stands; with one a proof is due that none is not enough.
#[test]
fn awards_with_vacant_lines_are_judged(rt: HostRuntime) {
    let alloc = rt.alloc();
    let problem = idle(&rt, alloc);
    let awarded = shown(&rt, alloc);
    let reasons: Reasons = List::new(alloc);
    let flown = first_line(alloc).expect(&rt, "memory");
    let narrow = one(alloc, flown).expect(&rt, "memory");
    let none = judge_open(alloc, &problem, 0, None, &narrow, &reasons, &awarded);
    assert!(rt; none == Ok(()));
    let wide = with(narrow, empty_line(&rt, alloc)).expect(&rt, "memory");
    let some = judge_open(alloc, &problem, 1, None, &wide, &reasons, &awarded);
    assert!(rt; some == Err(OpenNo::NoneProof));
}
