//! Searches below an award.
ghost use Rattle.std.specs.Prelude.{◌≡◌, None};

use crate::runs::{problem_of, shelf_of};
use branch_log::{FreshCloser, Ledger};
use completion_search::{Finding, search};
use plain_guide::PlainGuide;
use roster_model::{Goal, Item, Problem, Proof};
use std::alloc::Global;
use std::process::Abort;
use weight_certificates::Rounds;

/// The goal of these floors.
fn goal_of(rt: &impl Abort, alloc: Global, floors: &[u32]) -> Goal
    ensures grant { result.grant ≡ None }
{
    match floors.split_last() {
        Some((floor, before)) => Goal::reaching(alloc, before, *floor).expect(rt, "memory"),
        None => Goal::new(alloc),
    }
}

/// How many items of a proof are splits.
fn splits_of(proof: &Proof) -> u32 {
    let mut splits: u32 = 0;
    for item in proof.as_slice() {
        if let Item::Split(_, _) = item {
            splits = splits.saturating_add(1);
        }
    }
    splits
}

/// How a search ended, how many items and how many splits its proof has, and how many entries its ledger has then.
#[derive(Clone, Copy)]
struct Ended {
    how: &'static str,
    items: usize,
    splits: u32,
    entries: u32,
}

fn end_of(found: &Finding, entries: u32) -> Ended {
    let (how, items, splits) = match found {
        Finding::Found(_roster) => ("found", 0, 0),
        Finding::Refuted(proof) => ("refuted", proof.len(), splits_of(proof)),
        Finding::Spent => ("spent", 0, 0),
    };
    Ended {
        how,
        items,
        splits,
        entries,
    }
}

/// How a search for a roster of the month with these floors ends.
fn searched(rt: &impl Abort, alloc: Global, problem: &Problem, floors: &[u32], cap: u32) -> Ended {
    let goal = goal_of(rt, alloc, floors);
    assert!(rt; goal.floors.len() <= problem.base.members.len());
    let mut closer: Rounds<PlainGuide> = Rounds::new(alloc, problem, 400).expect(rt, "memory");
    let mut ledger = Ledger::new(alloc, cap, 400).expect(rt, "memory");
    let found = search(alloc, problem, &mut closer, &goal, None, &mut ledger).expect(rt, "memory");
    end_of(&found, ledger.len())
}

/// The month that a head names.
fn month_of(rt: &impl Abort, alloc: Global, head: &str) -> Problem {
    problem_of(rt, alloc, &mut shelf_of(rt, alloc, head))
}

/// The month is spent with one node, and refuted by fewer splits than nodes with enough.
#[test]
fn searches_count_open_nodes(rt: HostRuntime) {
    let alloc = rt.alloc();
    let problem = month_of(&rt, alloc, "smallest branching");
    let spent = searched(&rt, alloc, &problem, &[10, 1], 1);
    assert!(rt; spent.how == "spent" && spent.entries == 1);
    let refuted = searched(&rt, alloc, &problem, &[10, 1], 20_000);
    assert!(rt; refuted.how == "refuted" && refuted.entries < 20_000);
    assert!(rt; refuted.splits <= refuted.entries);
}

#[test]
fn a_root_that_is_closed_is_no_node(rt: HostRuntime) {
    let problem = month_of(&rt, rt.alloc(), "smallest three-wanted");
    let closed = searched(&rt, rt.alloc(), &problem, &[], 1);
    assert!(rt; closed.how == "refuted" && closed.items == 1);
    assert!(rt; closed.splits == 0 && closed.entries == 0);
}
