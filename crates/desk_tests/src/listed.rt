//! Lists of trades as text.

use crate::june::{TIE, problem_of};
use roster_model::Problem;
use std::alloc::Global;
use std::process::Abort;
use trade_desk::{Trade, TradeCode, TradeFault, read_trades};

/// Texts that are no lists of trades, with their faults.
static FAULTS: [(&[u8], u32, TradeCode); 23] = [
    (b"\n", 1, TradeCode::Shape),
    (b"move M1 P2 M2", 1, TradeCode::Shape),
    (b"move M1 P2 M2\r\n", 1, TradeCode::Shape),
    (b"move M1 P2 M2 \n", 1, TradeCode::Shape),
    (b" move M1 P2 M2\n", 1, TradeCode::Shape),
    (b"move  M1 P2 M2\n", 1, TradeCode::Shape),
    (b"move M1\tP2 M2\n", 1, TradeCode::Shape),
    (b"Move M1 P2 M2\n", 1, TradeCode::Shape),
    (b"move M1 P2\n", 1, TradeCode::Shape),
    (b"move M1 P2 M2 P1\n", 1, TradeCode::Shape),
    (b"swap M1 P2 M2\n", 1, TradeCode::Shape),
    (b"swap M1 P2 M2 P1 M1\n", 1, TradeCode::Shape),
    (b"swap M1 P2 M.2 P1\n", 1, TradeCode::Shape),
    (b"swap M9 P9 M2 P12345678901234567\n", 1, TradeCode::Shape),
    (b"move M9 P9 M2\n", 1, TradeCode::Member),
    (b"move M1 P9 M9\n", 1, TradeCode::Pairing),
    (b"move M1 P2 M9\n", 1, TradeCode::Member),
    (b"swap M1 P2 M9 P9\n", 1, TradeCode::Member),
    (b"swap M1 P2 M2 P9\n", 1, TradeCode::Pairing),
    (b"move M1 P2 m2\n", 1, TradeCode::Member),
    (b"move M1 P2 M2\n\n", 2, TradeCode::Shape),
    (b"move M1 P2 M2\nmove M1 P9 M2\nx", 2, TradeCode::Pairing),
    (b"move M1 P2 M2\nmove M1 P2 M2", 2, TradeCode::Shape),
];

/// Says what is the first fault of a text.
fn assert_fault(
    rt: &impl Abort,
    alloc: Global,
    problem: &Problem,
    text: &[u8],
    line: u32,
    code: TradeCode,
) {
    let fault = TradeFault { line, code };
    assert!(rt; read_trades(alloc, text, problem).err() == Some(fault));
}

/// Says that each row of the table has its fault.
fn assert_faults(rt: &impl Abort, alloc: Global, problem: &Problem) {
    for (text, line, code) in &FAULTS {
        assert_fault(rt, alloc, problem, text, *line, *code);
    }
}

#[test]
fn says_the_first_fault(rt: HostRuntime) {
    let problem = problem_of(&rt, rt.alloc(), &TIE);
    assert_faults(&rt, rt.alloc(), &problem);
}

/// Says which trades a text has.
fn assert_trades(rt: &impl Abort, alloc: Global, problem: &Problem, text: &[u8], trades: &[Trade]) {
    let read = read_trades(alloc, text, problem).expect(rt, "trades");
    assert!(rt; read.as_slice() == trades);
}

#[test]
fn reads_trades(rt: HostRuntime) {
    let problem = problem_of(&rt, rt.alloc(), &TIE);
    let trades = [Trade::Swap(0, 1, 1, 0), Trade::Move(1, 0, 0)];
    let text = b"swap M1 P2 M2 P1\nmove M2 P1 M1\n";
    assert_trades(&rt, rt.alloc(), &problem, text, &trades);
    assert_trades(&rt, rt.alloc(), &problem, b"", &[]);
}

/// So many lines of one trade.
fn lines(rt: &impl Abort, alloc: Global, count: u32) -> String {
    let mut text = String::new(alloc);
    for _line in 0..count {
        text.push_str("move M1 P2 M2\n").expect(rt, "memory");
    }
    text
}

/// Says that 10,000 lines are read, and no further byte is.
fn assert_limit(rt: &impl Abort, alloc: Global, problem: &Problem) {
    let mut text = lines(rt, alloc, 10_000);
    let read = read_trades(alloc, text.as_bytes(), problem).expect(rt, "trades");
    assert!(rt; read.len() == 10_000);
    text.push_str("m").expect(rt, "memory");
    assert_fault(
        rt,
        alloc,
        problem,
        text.as_bytes(),
        10_001,
        TradeCode::Limit,
    );
}

#[test]
fn reads_ten_thousand_lines(rt: HostRuntime) {
    let problem = problem_of(&rt, rt.alloc(), &TIE);
    assert_limit(&rt, rt.alloc(), &problem);
}
