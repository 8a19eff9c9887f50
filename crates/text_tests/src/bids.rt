//! A month of one member, whose bid is written and read.

use crate::fixtures::{File, month_with};
use bid_language::{print_bids, put_bid, read_bids};
use duty_calendar::List;
use roster_model::{BidRef, Problem};
use std::alloc::Global;
use std::process::Abort;

/// No pairing, and a bid for twelve days off.
const RESTING: [File; 4] = [
    ("pairings.csv", "pairing,need,credit\n"),
    ("duties.csv", "pairing,no,report,parked,release,layover\n"),
    ("legs.csv", "pairing,no,from,to,out,in\n"),
    ("bids.txt", "member M1\n3 daysoff 12\n"),
];

/// Says how the one bid of a month is put.
fn assert_bid(rt: &impl Abort, alloc: Global, problem: &Problem, due: &[u8]) {
    assert!(rt; problem.base.members.len() == 1);
    assert!(rt; problem.bids.as_slice()[0].len() == 1);
    let mut text = List::new(alloc);
    put_bid(&mut text, problem, BidRef { member: 0, bid: 0 }).expect(rt, "memory");
    assert!(rt; text.as_slice() == due);
}

/// Says how the bids of a month are printed, and that they are read from that.
fn assert_bids(rt: &impl Abort, alloc: Global, problem: &Problem, due: &[u8]) {
    let text = print_bids(alloc, problem).expect(rt, "memory");
    assert!(rt; text.as_slice() == due);
    assert!(rt; due.len() <= 100);
    let bids = read_bids(alloc, due, &problem.base).expect(rt, "bids");
    assert!(rt; bids == problem.bids);
}

#[test]
fn a_bid_is_put_and_read(rt: HostRuntime) {
    let problem = month_with(&rt, rt.alloc(), &RESTING);
    assert_bid(&rt, rt.alloc(), &problem, b"3 daysoff 12");
    assert_bids(&rt, rt.alloc(), &problem, b"member M1\n3 daysoff 12\n");
}
