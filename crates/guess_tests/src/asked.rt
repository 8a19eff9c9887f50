//! Months that need no node.

use crate::months::{File, GIVEN, MONTH, SHARED, UNWANTED};
use crate::runs::{assert_prints, place_all, run_over};
use duty_calendar::List;
use shelf::MemoryShelf;
use std::alloc::Global;
use std::process::Abort;

/// Words, and what is printed then.
type Row = (&'static [&'static str], &'static str);

/// Each member flies one of two pairings.
const OF_SHARED: [Row; 2] = [
    (
        &["award", "--nodes", "1"],
        "award\nvector 0 0\nnodes 0\ndenials 0\n",
    ),
    (&["check"], "yes\nvector 0 0\n"),
];

/// The senior member has the pairing, and would give it away.
const OF_MONTH: [Row; 2] = [
    (&["award"], "award\nvector 10 0\nnodes 0\ndenials 1\n"),
    (
        &["whatif", "--nodes=20000", "M1"],
        "whatif\nvector 10 10\nnodes 0\n",
    ),
];

/// No vacant line is needed.
const OF_COVERED: [Row; 4] = [
    (&["open", "0"], "open 0\nvector 10 0\nnodes 0\n"),
    (&["opencheck", "0"], "yes open 0\nvector 10 0\n"),
    (&["open", "5"], "open 0\nvector 10 0\nnodes 0\n"),
    (&["opencheck", "0"], "yes open 0\nvector 10 0\n"),
];

/// One vacant line is enough, and needed.
const OF_UNWANTED: [Row; 2] = [
    (
        &["open", "50", "--nodes=20000"],
        "open 1\nvector 10 10 0\nnodes 0\nopen P1 1\nopen P2 1 M1 M2\n",
    ),
    (&["opencheck", "1"], "yes open 1\nvector 10 10 0\n"),
];

/// The month with these files in place of its own, and these words, one after the other: says what each prints.
fn assert_rows(rt: &impl Abort, alloc: Global, changed: &[File], rows: &[Row]) -> MemoryShelf {
    let mut shelf = MemoryShelf::new(alloc, List::new(alloc));
    place_all(rt, alloc, &mut shelf, &MONTH);
    place_all(rt, alloc, &mut shelf, changed);
    for (words, text) in rows {
        assert_prints(rt, &run_over(rt, alloc, words, &mut shelf), text);
    }
    shelf
}

#[test]
fn two_share_two_pairings(rt: HostRuntime) {
    assert_rows(&rt, rt.alloc(), &SHARED, &OF_SHARED);
}

/// Says what the file of the other roster holds.
fn assert_given(rt: &impl Abort, shelf: &MemoryShelf) {
    assert!(rt; shelf.file("whatif-roster.csv") == Some(GIVEN.as_bytes()));
}

#[test]
fn other_bids_are_answered(rt: HostRuntime) {
    let shelf = assert_rows(&rt, rt.alloc(), &[], &OF_MONTH);
    assert_given(&rt, &shelf);
}

/// Says that there is no proof that fewer vacant lines are too few.
fn assert_unproved(rt: &impl Abort, shelf: &MemoryShelf) {
    assert!(rt; shelf.file("open-none.txt").is_none());
}

#[test]
fn a_month_needs_no_vacant_line(rt: HostRuntime) {
    let shelf = assert_rows(&rt, rt.alloc(), &[], &OF_COVERED);
    assert_unproved(&rt, &shelf);
}

#[test]
fn a_month_is_opened(rt: HostRuntime) {
    assert_rows(&rt, rt.alloc(), &UNWANTED, &OF_UNWANTED);
}
