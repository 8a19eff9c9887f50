//! Trades judged, alone and in order.
ghost use Rattle.roster_model.specs.Rosters.{IsComplete};

use crate::june::{TIE, TIE_ROSTER, TOGETHER, TOGETHER_ROSTER, problem_of, roster_of};
use line_legality::Illegal;
use roster_model::{Problem, Roster};
use std::alloc::Global;
use std::process::Abort;
use trade_desk::{Refusal, TradeVerdict, judge_trade, read_trades, run_trades, trade_laws};

/// Trades where one pairing is flown together, and what stands against them.
static JUDGED: [(&[u8], Result<(), Refusal>); 9] = [
    (b"swap M1 P2 M2 P1\n", Ok(())),
    (b"swap M1 P2 M1 P2\n", Err(Refusal::SameMember)),
    (b"move M1 P1 M2\n", Err(Refusal::NotHeld(0, 0))),
    (b"swap M1 P2 M2 P2\n", Err(Refusal::NotHeld(1, 1))),
    (b"move M1 P3 M2\n", Err(Refusal::Held(1, 2))),
    (b"swap M1 P2 M2 P3\n", Err(Refusal::Held(0, 2))),
    (
        b"move M2 P1 M1\n",
        Err(Refusal::Line(1, Illegal::Credit(300))),
    ),
    (
        b"move M1 P2 M2\n",
        Err(Refusal::Line(1, Illegal::Credit(900))),
    ),
    (b"swap M2 P1 M1 P2\n", Ok(())),
];

/// Says what is answered of each trade of a text.
fn assert_judged(
    rt: &impl Abort,
    alloc: Global,
    problem: &Problem,
    roster: &Roster,
    text: &[u8],
    answer: Result<(), Refusal>,
)
    requires complete { IsComplete problem.now roster.now }
{
    let trades = read_trades(alloc, text, problem).expect(rt, "trades");
    for trade in trades.as_slice() {
        assert!(rt; judge_trade(alloc, problem, roster, trade) == answer);
    }
}

/// Says that each row of the table has its answer.
fn assert_all_judged(rt: &impl Abort, alloc: Global, problem: &Problem, roster: &Roster)
    requires complete { IsComplete problem.now roster.now }
{
    for (text, answer) in &JUDGED {
        assert_judged(rt, alloc, problem, roster, text, *answer);
    }
}

#[test]
fn judges_trades(rt: HostRuntime) {
    let problem = problem_of(&rt, rt.alloc(), &TOGETHER);
    let roster = roster_of(&rt, rt.alloc(), &problem, TOGETHER_ROSTER);
    assert_all_judged(&rt, rt.alloc(), &problem, &roster);
    trade_laws(&problem);
}

/// Says what comes of the trades of a text, and which roster they leave.
fn assert_taken(
    rt: &impl Abort,
    alloc: Global,
    problem: &Problem,
    text: &[u8],
    verdicts: &[TradeVerdict],
    left: &str,
) {
    let roster = roster_of(rt, alloc, problem, TIE_ROSTER);
    let trades = read_trades(alloc, text, problem).expect(rt, "trades");
    let desk = run_trades(alloc, problem, &roster, trades.as_slice()).expect(rt, "memory");
    assert!(rt; desk.verdicts.as_slice() == verdicts);
    assert!(rt; desk.roster == roster_of(rt, alloc, problem, left));
}

#[test]
fn takes_trades_in_order(rt: HostRuntime) {
    let alloc = rt.alloc();
    let problem = problem_of(&rt, alloc, &TIE);
    let swapped = "member,pairings,credit,score\nM1,P1,5:00,10\nM2,P2,5:00,0\n";
    let twice = [
        TradeVerdict::Accepted,
        TradeVerdict::Refused(Refusal::NotHeld(0, 1)),
    ];
    let text = b"swap M1 P2 M2 P1\nswap M1 P2 M2 P1\n";
    assert_taken(&rt, alloc, &problem, text, &twice, swapped);
    let back = [TradeVerdict::Accepted, TradeVerdict::Accepted];
    let text = b"swap M1 P2 M2 P1\nswap M1 P1 M2 P2\n";
    assert_taken(&rt, alloc, &problem, text, &back, TIE_ROSTER);
    let refused = [
        TradeVerdict::Refused(Refusal::Line(0, Illegal::Credit(0))),
        TradeVerdict::Refused(Refusal::SameMember),
    ];
    let text = b"move M1 P2 M2\nswap M1 P2 M1 P2\n";
    assert_taken(&rt, alloc, &problem, text, &refused, TIE_ROSTER);
    assert_taken(&rt, alloc, &problem, b"", &[], TIE_ROSTER);
}
