//! Months that are made, awarded with few nodes, and asked for once more.

use crate::runs::{assert_prints, place, run_over};
use duty_calendar::List;
use shelf::MemoryShelf;
use std::alloc::Global;
use std::process::Abort;

/// The words that make a month, award it and try it, and what is printed of the award, of its judgement, and where the
/// bids are asked for as they are.
type Made = (
    &'static [&'static str],
    &'static [&'static str],
    &'static [&'static str],
    &'static str,
    &'static str,
    &'static str,
);

/// The scores are those that another program found.
const MADE_MONTHS: [Made; 2] = [
    (
        &["make", "57", "2", "3"],
        &["award", "--nodes", "1"],
        &["trial", "57", "2", "3", "--nodes", "1"],
        "award\nvector 34 38\nnodes 0\ndenials 1\n",
        "yes\nvector 34 38\n",
        "whatif\nvector 34 38\nnodes 0\n",
    ),
    (
        &["make", "7", "8", "24"],
        &["award", "--nodes", "20"],
        &["trial", "7", "8", "24", "--nodes", "20"],
        "award\nvector 16 19 29 14 35 38 53 20\nnodes 0\ndenials 1\n",
        "yes\nvector 16 19 29 14 35 38 53 20\n",
        "whatif\nvector 16 19 29 14 35 38 53 20\nnodes 0\n",
    ),
];

/// Puts the bids of the month into the file of other bids.
fn ask_as_it_is(rt: &impl Abort, alloc: Global, shelf: &mut MemoryShelf) {
    let bids = match shelf.file("bids.txt") {
        Some(bids) => bids.to_vec(alloc).expect(rt, "memory"),
        None => Vec::new(alloc),
    };
    place(rt, alloc, shelf, "bids2.txt", &bids);
}

/// Says what is printed of a made month.
fn assert_made(
    rt: &impl Abort,
    alloc: Global,
    (make, award, trial, awarded, judged, asked): &Made,
) {
    let mut shelf = MemoryShelf::new(alloc, List::new(alloc));
    assert_prints(rt, &run_over(rt, alloc, trial, &mut shelf), awarded);
    run_over(rt, alloc, make, &mut shelf);
    assert_prints(rt, &run_over(rt, alloc, award, &mut shelf), awarded);
    assert_prints(rt, &run_over(rt, alloc, &["check"], &mut shelf), judged);
    ask_as_it_is(rt, alloc, &mut shelf);
    let outcome = run_over(rt, alloc, &["whatif", "M2", "--nodes", "1"], &mut shelf);
    assert_prints(rt, &outcome, asked);
}

#[test]
fn made_months_need_few_nodes(rt: HostRuntime) {
    for month in &MADE_MONTHS {
        assert_made(&rt, rt.alloc(), month);
    }
}
