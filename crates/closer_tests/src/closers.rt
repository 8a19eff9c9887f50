//! Nodes that are closed, solved, and open.
ghost use Rattle.std.specs.Prelude.{◌≡◌, ◌<◌, ◌≤◌, All, IfOk, length};
ghost use Rattle.duty_calendar.specs.Calendar.{month_days};
ghost use Rattle.duty_calendar.specs.declared.horizon.Horizon.{Horizon as Month};
ghost use Rattle.duty_calendar.specs.Checks.{ArePairings, IsPairing};
ghost use Rattle.roster_model.specs.Valid.{IsBid};

use branch_log::{Closer, FreshCloser, Verdict};
use duty_calendar::{List, Memory, Name, Pairing, Station};
use june_months::{
    contest, month, no_pairing, one, pair, pairings, rivals, shared, shift, single, two_floors,
    with_pairing,
};
use plain_guide::PlainGuide;
use roster_model::{Atom, Bid, Goal, Item, Node, Problem, Test, Wish};
use std::alloc::Global;
use weight_certificates::Rounds;

/// A pairing of two duties with a night at the stop between them, by its first day.
fn trip(alloc: Global, name: &[u8], day: u32, stop: [u8; 3]) -> Result<Pairing, Memory>
    requires from { 1 ≤ day }
    requires to { day < 30 }
    ensures form { IfOk result (λ p. (h : Month) → 30 ≤ month_days h → IsPairing h p) }
{
    let (Some(dublin), Some(stop)) = (Station::new(*b"DUB"), Station::new(stop)) else {
        return Err(Memory::NoMemory);
    };
    let Some(name) = Name::new(name) else {
        return Err(Memory::NoMemory);
    };
    let morning = 525_600 + 1440 * (day - 1) + 480;
    let out = shift(alloc, morning, dublin, stop, Some(stop))?;
    let back = shift(alloc, morning + 1560, stop, dublin, None)?;
    Ok(Pairing {
        name,
        need: 1,
        credit: 600,
        duties: pair(alloc, out, back)?,
    })
}

/// Four trips, with nights in Chicago and in Denver by turns.
fn trips(alloc: Global) -> Result<List<Pairing>, Memory>
    ensures count { IfOk result (λ list. length list ≡ 4) }
    ensures form { IfOk result (λ list. (h : Month) → 30 ≤ month_days h → ArePairings h list) }
{
    let first = with_pairing(no_pairing(alloc), trip(alloc, b"P1", 3, *b"ORD")?)?;
    let second = with_pairing(first, trip(alloc, b"P2", 6, *b"DEN")?)?;
    let third = with_pairing(second, trip(alloc, b"P3", 13, *b"ORD")?)?;
    with_pairing(third, trip(alloc, b"P4", 16, *b"DEN")?)
}

/// The bid to have the days off, by their numbers.
fn off(first: u32, last: u32) -> Bid
    requires from { 365 ≤ first }
    requires order { first ≤ last }
    requires to { last < 395 }
    ensures form { (h : Month) → 30 ≤ month_days h → IsBid h 4 result }
{
    Bid {
        weight: 10,
        wish: Wish::Off(first, last),
    }
}

/// The bid to have no night at the stop.
fn avoid(alloc: Global, stop: [u8; 3]) -> Result<Bid, Memory>
    ensures form { IfOk result (λ bid. (h : Month) → 30 ≤ month_days h → IsBid h 4 bid) }
{
    let Some(stop) = Station::new(stop) else {
        return Err(Memory::NoMemory);
    };
    let atom = Atom {
        negated: false,
        test: Test::Layover(stop),
    };
    Ok(Bid {
        weight: 10,
        wish: Wish::Avoid(one(alloc, atom)?),
    })
}

/// Two bids.
fn two_bids(alloc: Global, first: Bid, second: Bid) -> Result<List<Bid>, Memory>
    requires first { (h : Month) → 30 ≤ month_days h → IsBid h 4 first }
    requires second { (h : Month) → 30 ≤ month_days h → IsBid h 4 second }
    ensures few { IfOk result (λ list. length list ≤ 64) }
    ensures form { IfOk result (λ list. (h : Month) → 30 ≤ month_days h → All (IsBid h 4) list) }
{
    pair(alloc, first, second)
}

/// The month of one member and no pairing.
fn empty(alloc: Global) -> Result<Problem, Memory>
    ensures members { IfOk result (λ p. length p.base.members ≡ 1) }
{
    let bids = one(alloc, List::new(alloc))?;
    month(pairings(alloc, 0, 1)?, single(alloc, 0, 5400)?, bids)
}

/// The month of two members who are to fly two of four trips each, of which no weights tell that
/// what the senior wishes leaves the junior no wish.
fn halved(alloc: Global) -> Result<Problem, Memory>
    ensures members { IfOk result (λ p. length p.base.members ≡ 2) }
{
    let senior = two_bids(alloc, off(367, 371), off(377, 381))?;
    let junior = two_bids(alloc, avoid(alloc, *b"ORD")?, avoid(alloc, *b"DEN")?)?;
    let bids = pair(alloc, senior, junior)?;
    let members = rivals(alloc, 1200, 1200)?;
    month(trips(alloc)?, members, bids)
}

/// What a closer says of the empty node.
fn close_root<C: Closer>(
    alloc: Global,
    closer: &mut C,
    problem: &Problem,
    floors: List<u32>,
) -> Result<Verdict, Memory>
    requires fits { C.fits closer.old problem.now }
    requires floors { length floors ≤ length problem.now.base.members }
{
    let goal = Goal {
        floors,
        grant: None,
    };
    let node = Node::new(alloc);
    closer.close(alloc, problem, &goal, &node)
}

/// What 400 rounds say of the empty node.
fn verdict(alloc: Global, problem: &Problem, floors: List<u32>) -> Result<Verdict, Memory>
    requires floors { length floors ≤ length problem.now.base.members }
{
    let mut closer: Rounds<PlainGuide> = Rounds::new(alloc, problem, 400)?;
    close_root(alloc, &mut closer, problem, floors)
}

#[test]
fn a_crew_of_three_is_not_to_be_had(rt: HostRuntime) -> Result<(), Memory> {
    let alloc = rt.alloc();
    let problem = shared(alloc, 1, 3, 0, 5400)?;
    let verdict = verdict(alloc, &problem, List::new(alloc))?;
    assert!(rt; matches!(verdict, Verdict::Closed(Item::Count(0))));
    Ok(())
}

#[test]
fn an_empty_line_is_a_roster(rt: HostRuntime) -> Result<(), Memory> {
    let alloc = rt.alloc();
    let problem = empty(alloc)?;
    match &verdict(alloc, &problem, List::new(alloc))? {
        Verdict::Whole(roster) => {
            assert!(rt; roster.len() == 1);
            assert!(rt; roster.as_slice()[0].pairings().is_empty());
        }
        _ => panic!(rt; "the empty roster is whole"),
    }
    Ok(())
}

#[test]
fn two_cannot_fly_the_one_pairing(rt: HostRuntime) -> Result<(), Memory> {
    let alloc = rt.alloc();
    let problem = contest(alloc)?;
    match &verdict(alloc, &problem, two_floors(alloc)?)? {
        Verdict::Closed(Item::Weights(weights, lenses)) => {
            assert!(rt; weights.as_slice().iter().all(|weight| *weight < 0));
            assert!(rt; lenses.len() == 2);
        }
        _ => panic!(rt; "the pairing weighs too much"),
    }
    Ok(())
}

#[test]
fn halves_of_good_lines_leave_a_node_open(rt: HostRuntime) -> Result<(), Memory> {
    let alloc = rt.alloc();
    let problem = halved(alloc)?;
    match &verdict(alloc, &problem, two_floors(alloc)?)? {
        Verdict::Branch(member, pairing) => {
            assert!(rt; *member < 2);
            assert!(rt; *pairing < 4);
        }
        _ => panic!(rt; "no weights close the node, and no roster solves it"),
    }
    Ok(())
}
