//! Reading trades.
ghost use Rattle.std.specs.Prelude.{◌≡◌, ◌≤◌, ◌<◌, ◌^◌, All, IfOk, length};
ghost use Rattle.trade_desk.specs.Reading.{trade_in, trade_on, trade_at, trades_in, Answers};
ghost use Rattle.trade_desk.specs.Seen.{row_seen};
ghost use Rattle.trade_desk.specs.Trades.{IsTrade};

use crate::fault::{TradeCode, TradeFault};
use crate::names::named;
use crate::trade::Trade;
use crate::words::{Row, is_spelt, next_row, sentence_of};
use duty_calendar::List;
use roster_model::Problem;
use std::alloc::Global;

/// The trade of a line.
#[tactic(auto, unfolding(crate::specs::Reading::trade_in))]
fn trade_in(problem: &Problem, line: &[u8]) -> Result<Trade, TradeCode>
    requires few_members { length problem.now.base.members < 2 ^ 32 }
    requires few_pairings { length problem.now.base.pairings < 2 ^ 32 }
    ensures value { result ≡ trade_in problem.now line.now }
    ensures known { IfOk result (IsTrade problem.now) }
{
    let Some(sentence) = sentence_of(line) else {
        return Err(TradeCode::Shape);
    };
    if !is_spelt(&sentence) {
        return Err(TradeCode::Shape);
    }
    named(problem, &sentence)
}

/// The trade of a line that is to have its line feed.
#[tactic(auto, unfolding(crate::specs::Reading::trade_on))]
fn trade_on(problem: &Problem, row: &Row) -> Result<Trade, TradeCode>
    requires few_members { length problem.now.base.members < 2 ^ 32 }
    requires few_pairings { length problem.now.base.pairings < 2 ^ 32 }
    ensures value { result ≡ trade_on problem.now (row_seen row.now) }
    ensures known { IfOk result (IsTrade problem.now) }
{
    if !row.ended {
        return Err(TradeCode::Shape);
    }
    trade_in(problem, row.bytes)
}

/// The trade of the line of this number.
#[tactic(auto, unfolding(crate::specs::Reading::trade_at))]
fn trade_at(problem: &Problem, line: u32, row: &Row) -> Result<Trade, TradeFault>
    requires few_members { length problem.now.base.members < 2 ^ 32 }
    requires few_pairings { length problem.now.base.pairings < 2 ^ 32 }
    ensures value { result ≡ trade_at problem.now line (row_seen row.now) }
    ensures known { IfOk result (IsTrade problem.now) }
    ensures few { IfOk result (λ _. line ≤ 10000) }
{
    if line > 10_000 {
        return Err(TradeFault {
            line,
            code: TradeCode::Limit,
        });
    }
    match trade_on(problem, row) {
        Ok(trade) => Ok(trade),
        Err(code) => Err(TradeFault { line, code }),
    }
}

/// The trades of the lines of a text.
fn trades_of(alloc: Global, text: &[u8], problem: &Problem) -> Result<List<Trade>, TradeFault>
    requires few_members { length problem.now.base.members < 2 ^ 32 }
    requires few_pairings { length problem.now.base.pairings < 2 ^ 32 }
    ensures read { Answers result (trades_in problem.now text.now) }
    ensures known { IfOk result (All (IsTrade problem.now)) }
    ensures few { IfOk result (λ trades. length trades ≤ 10000) }
{
    let mut trades = List::new(alloc);
    let mut rest = text;
    let mut line = 1;
    while !rest.is_empty() {
        let (row, after) = next_row(rest);
        let trade = match trade_at(problem, line, &row) {
            Ok(trade) => trade,
            Err(fault) => return Err(fault),
        };
        if trades.push(trade).is_err() {
            return Err(TradeFault {
                line: 0,
                code: TradeCode::NoMemory,
            });
        }
        rest = after;
        line += 1;
    }
    Ok(trades)
}

/// The trades of a text of lines `swap A P B Q` and `move A P B`, or the first line with a fault:
/// of A and B, which are members, the first gives pairing P to the second and gets Q from it.
pub fn read_trades(alloc: Global, text: &[u8], problem: &Problem) -> Result<List<Trade>, TradeFault>
    ensures read { Answers result (trades_in problem.now text.now) }
    ensures known { IfOk result (All (IsTrade problem.now)) }
    ensures few { IfOk result (λ trades. length trades ≤ 10000) }
{
    trades_of(alloc, text, problem)
}
