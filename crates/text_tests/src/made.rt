//! Made months: what is drawn, their sizes, and a month without pairings.

use duty_calendar::Pairing;
use instance_maker::make;
use roster_model::{Bid, Problem, Wish};
use std::process::Abort;

/// How many duties the first pairing has.
fn duties_of_first(pairings: &[Pairing]) -> usize {
    match pairings.first() {
        Some(pairing) => pairing.duties.len(),
        None => 0,
    }
}

/// Whether each member has three bids.
fn all_have_three(problem: &Problem) -> bool {
    problem.bids.as_slice().iter().all(|list| list.len() == 3)
}

fn has_fly(bids: &[Bid]) -> bool {
    bids.iter().any(|bid| matches!(&bid.wish, Wish::Fly(_)))
}

fn some_fly(problem: &Problem) -> bool {
    problem
        .bids
        .as_slice()
        .iter()
        .any(|list| has_fly(list.as_slice()))
}

/// Says how many members and pairings a made month has, each member with three bids.
fn assert_sizes(rt: &impl Abort, problem: &Problem, members: usize, pairings: usize) {
    assert!(rt; problem.base.members.len() == members);
    assert!(rt; problem.base.pairings.len() == pairings);
    assert!(rt; problem.bids.len() == members && all_have_three(problem));
}

#[test]
fn numbers_are_drawn(rt: HostRuntime) {
    let problem = make(rt.alloc(), 7, 8, 24).expect(&rt, "memory");
    assert!(rt; duties_of_first(problem.base.pairings.as_slice()) == 3);
}

#[test]
fn months_have_their_sizes(rt: HostRuntime) {
    let large = make(rt.alloc(), 1, 200, 600).expect(&rt, "memory");
    assert_sizes(&rt, &large, 200, 600);
    assert!(rt; some_fly(&large));
    let empty = make(rt.alloc(), 2, 50, 0).expect(&rt, "memory");
    assert_sizes(&rt, &empty, 50, 0);
    assert!(rt; !some_fly(&empty));
}
