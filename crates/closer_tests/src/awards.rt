//! Months that are awarded with the reasons of denials, that no roster fills, and that one node is
//! too few for.
ghost use Rattle.std.specs.Prelude.{◌≡◌, ◌≤◌, ◌∷◌, [], IfOk};
ghost use Rattle.roster_model.specs.declared.bid.Wish.TheVariants.{CreditAbove, Fly};

use duty_calendar::{List, Memory};
use june_months::{
    first_pairing, month, one, pair, pairings, rivals, shared, single, smallest, with,
};
use month_award::{MonthAward, award_month};
use plain_guide::PlainGuide;
use roster_model::{Bid, BidRef, Cause, Certificate, Denial, Item, Problem, Reasons, Wish};
use std::alloc::Global;
use weight_certificates::Rounds;

/// The bids to fly the first pairing and to fly the second, of one weight.
fn either_pairing(alloc: Global) -> Result<List<Bid>, Memory>
    ensures bids { IfOk result (λ list. list ≡ record { weight = 10; wish = Fly 0 } ∷ record
        { weight = 10; wish = Fly 1 } ∷ []) }
{
    let bid = Bid {
        weight: 10,
        wish: Wish::Fly(1),
    };
    with(first_pairing(alloc)?, bid)
}

/// The bid for more than five hours of credit.
fn more_credit(alloc: Global) -> Result<List<Bid>, Memory>
    ensures bid { IfOk result (λ list. list ≡ record { weight = 10; wish = CreditAbove 300 } ∷ []) }
{
    let bid = Bid {
        weight: 10,
        wish: Wish::CreditAbove(300),
    };
    one(alloc, bid)
}

/// The month of one member who is to fly the one pairing of five hours, and wants more.
fn greedy(alloc: Global) -> Result<Problem, Memory> {
    let bids = one(alloc, more_credit(alloc)?)?;
    month(pairings(alloc, 1, 1)?, single(alloc, 300, 300)?, bids)
}

/// The month of two members who are to fly one of two pairings each: the senior wants either, the
/// junior the first.
fn generous(alloc: Global) -> Result<Problem, Memory> {
    let senior = either_pairing(alloc)?;
    let junior = first_pairing(alloc)?;
    let bids = pair(alloc, senior, junior)?;
    let members = rivals(alloc, 300, 300)?;
    month(pairings(alloc, 2, 1)?, members, bids)
}

/// The same month with a junior who wants nothing.
fn tie(alloc: Global) -> Result<Problem, Memory> {
    let senior = either_pairing(alloc)?;
    let bids = pair(alloc, senior, List::new(alloc))?;
    let members = rivals(alloc, 300, 300)?;
    month(pairings(alloc, 2, 1)?, members, bids)
}

/// The reason of a bid of the first member, alone.
fn reason(alloc: Global, bid: u32, cause: Cause) -> Result<Reasons, Memory> {
    let bid = BidRef { member: 0, bid };
    one(alloc, Denial { bid, cause })
}

/// What the month comes to with a ledger of so many nodes.
fn awarded(alloc: Global, problem: &Problem, nodes: u32) -> Result<MonthAward, Memory>
    requires some_nodes { 1 ≤ nodes }
    requires few_nodes { nodes ≤ 20000 }
{
    award_month::<Rounds<PlainGuide>>(alloc, problem, nodes)
}

/// How many proofs show an award, and how many parts show its denials.
fn parts(certificate: &Certificate) -> Option<(usize, usize)> {
    match certificate {
        Certificate::Award(awarded) => Some((awarded.proofs.len(), awarded.shown.len())),
        Certificate::NoRoster(_proof) => None,
    }
}

#[test]
fn the_one_pairing_is_awarded(rt: HostRuntime) -> Result<(), Memory> {
    let alloc = rt.alloc();
    let problem = smallest(alloc)?;
    match &awarded(alloc, &problem, 1)? {
        MonthAward::Award(month) => {
            assert!(rt; parts(&month.certificate) == Some((1, 0)));
            assert!(rt; month.roster.len() == 1);
            assert!(rt; month.roster.as_slice()[0].pairings() == [0].as_slice());
            assert!(rt; month.reasons.len() == 0);
            assert!(rt; month.ledger.len() == 0);
        }
        _ => panic!(rt; "the member can fly the pairing"),
    }
    Ok(())
}

#[test]
fn a_crew_of_three_is_not_to_be_had(rt: HostRuntime) -> Result<(), Memory> {
    let alloc = rt.alloc();
    let problem = shared(alloc, 1, 3, 0, 5400)?;
    match &awarded(alloc, &problem, 1)? {
        MonthAward::NoRoster(month) => {
            let proof = one(alloc, Item::Count(0))?;
            assert!(rt; month.certificate == Certificate::NoRoster(proof));
            assert!(rt; month.ledger.len() == 0);
        }
        _ => panic!(rt; "two members are no crew of three"),
    }
    Ok(())
}

#[test]
fn the_junior_is_the_reason_where_the_senior_does_not_care(rt: HostRuntime) -> Result<(), Memory> {
    let alloc = rt.alloc();
    let problem = generous(alloc)?;
    match &awarded(alloc, &problem, 20_000)? {
        MonthAward::Award(month) => {
            assert!(rt; parts(&month.certificate) == Some((2, 1)));
            assert!(rt; month.roster.len() == 2);
            assert!(rt; month.roster.as_slice()[0].pairings() == [1].as_slice());
            assert!(rt; month.roster.as_slice()[1].pairings() == [0].as_slice());
            assert!(rt; month.reasons == reason(alloc, 0, Cause::Place(2))?);
        }
        _ => panic!(rt; "each member can fly one"),
    }
    Ok(())
}

#[test]
fn one_of_two_wishes_is_a_tie(rt: HostRuntime) -> Result<(), Memory> {
    let alloc = rt.alloc();
    let problem = tie(alloc)?;
    match &awarded(alloc, &problem, 20_000)? {
        MonthAward::Award(month) => {
            assert!(rt; parts(&month.certificate) == Some((2, 1)));
            let first = reason(alloc, 0, Cause::Tie)?;
            let second = reason(alloc, 1, Cause::Tie)?;
            assert!(rt; month.reasons == first || month.reasons == second);
        }
        _ => panic!(rt; "each member can fly one"),
    }
    Ok(())
}

#[test]
fn one_node_is_too_few_for_a_branch(rt: HostRuntime) -> Result<(), Memory> {
    let alloc = rt.alloc();
    let problem = greedy(alloc)?;
    match &awarded(alloc, &problem, 1)? {
        MonthAward::Budget(ledger) => assert!(rt; ledger.len() == 1),
        _ => panic!(rt; "the member's bids need a branch"),
    }
    match &awarded(alloc, &problem, 20_000)? {
        MonthAward::Award(month) => {
            assert!(rt; parts(&month.certificate) == Some((1, 1)));
            assert!(rt; month.reasons == reason(alloc, 0, Cause::Place(0))?);
            assert!(rt; month.ledger.len() >= 1);
        }
        _ => panic!(rt; "the member can fly the pairing"),
    }
    Ok(())
}
