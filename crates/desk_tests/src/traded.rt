//! The command `trade` over files in memory.

use crate::june::{Month, TIE, TIE_ROSTER, place, shelf_of};
use desk_commands::{TradeStop, Traded, Untraded, trade};
use line_legality::{Illegal, RosterFault};
use month_files::{File, Unread};
use roster_text::{RosterTextCode, RosterTextFault};
use shelf::MemoryShelf;
use std::alloc::Global;
use std::process::Abort;
use trade_desk::{Refusal, TradeCode, TradeFault, TradeVerdict};

/// A shelf with a month, its roster and trades.
fn desk(rt: &impl Abort, alloc: Global, month: &Month, roster: &str, trades: &str) -> MemoryShelf {
    let mut shelf = shelf_of(rt, alloc, month);
    place(rt, alloc, &mut shelf, "roster.csv", roster.as_bytes());
    place(rt, alloc, &mut shelf, "trades.txt", trades.as_bytes());
    shelf
}

/// Says what comes of trades, with which scores, and which roster stands in the folder afterwards.
fn assert_trades(
    rt: &impl Abort,
    alloc: Global,
    trades: &str,
    verdicts: &[TradeVerdict],
    scores: &[u32],
    roster: &str,
) {
    let mut shelf = desk(rt, alloc, &TIE, TIE_ROSTER, trades);
    let traded = trade(alloc, &mut shelf).ok().expect(rt, "trades");
    assert!(rt; traded.verdicts.as_slice() == verdicts);
    assert!(rt; traded.scores.as_slice() == scores);
    assert!(rt; shelf.file("roster.csv") == Some(roster.as_bytes()));
}

#[test]
fn trades_are_taken_and_the_roster_is_written(rt: HostRuntime) {
    let alloc = rt.alloc();
    let twice = [
        TradeVerdict::Accepted,
        TradeVerdict::Refused(Refusal::NotHeld(0, 1)),
    ];
    let swapped = "member,pairings,credit,score\nM1,P1,5:00,10\nM2,P2,5:00,0\n";
    let text = "swap M1 P2 M2 P1\nswap M1 P2 M2 P1\n";
    assert_trades(&rt, alloc, text, &twice, &[10, 0], swapped);
    let refused = [
        TradeVerdict::Refused(Refusal::Line(0, Illegal::Credit(0))),
        TradeVerdict::Refused(Refusal::SameMember),
    ];
    let text = "move M1 P2 M2\nswap M1 P2 M1 P2\n";
    assert_trades(&rt, alloc, text, &refused, &[10, 10], TIE_ROSTER);
    assert_trades(&rt, alloc, "", &[], &[10, 10], TIE_ROSTER);
}

/// What the command says against trading.
fn no_of(rt: &impl Abort, end: Result<Traded, TradeStop>) -> Untraded {
    match end {
        Err(TradeStop::No(why)) => why,
        _ => panic!(rt; "a no"),
    }
}

/// Says why nothing is traded, and that the roster stays as it was.
fn assert_no(rt: &impl Abort, alloc: Global, roster: &str, trades: &str, why: Untraded) {
    let mut shelf = desk(rt, alloc, &TIE, roster, trades);
    let end = trade(alloc, &mut shelf);
    assert!(rt; no_of(rt, end) == why);
    assert!(rt; shelf.file("roster.csv") == Some(roster.as_bytes()));
}

#[test]
fn the_first_reason_against_trading_is_said(rt: HostRuntime) {
    let alloc = rt.alloc();
    let turned = "member,pairings,credit,score\nM2,P1,5:00,10\nM1,P2,5:00,10\n";
    let fault = RosterTextFault {
        row: 2,
        code: RosterTextCode::Member,
    };
    assert_no(&rt, alloc, turned, "x", Untraded::Roster(fault));
    let idle = "member,pairings,credit,score\nM1,,0:00,0\nM2,P1,5:00,10\n";
    let fault = RosterFault::Line(0, Illegal::Credit(0));
    assert_no(&rt, alloc, idle, "x", Untraded::Incomplete(fault));
    let twice = "member,pairings,credit,score\nM1,P1,5:00,10\nM2,P1,5:00,10\n";
    let fault = RosterFault::Cover(0, 2);
    assert_no(&rt, alloc, twice, "x", Untraded::Incomplete(fault));
    let fault = TradeFault {
        line: 2,
        code: TradeCode::Member,
    };
    let text = "move M1 P2 M2\nmove M9 P2 M2\n";
    assert_no(&rt, alloc, TIE_ROSTER, text, Untraded::Trades(fault));
}

#[test]
fn a_missing_file_of_trades_is_said(rt: HostRuntime) {
    let alloc = rt.alloc();
    let mut shelf = shelf_of(&rt, alloc, &TIE);
    place(&rt, alloc, &mut shelf, "roster.csv", b"x");
    match trade(alloc, &mut shelf) {
        Err(TradeStop::Unread(why)) => assert!(&rt; why == Unread::Missing(File::Trades)),
        _ => panic!(&rt; "a missing file"),
    }
}
