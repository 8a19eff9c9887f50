//! How a run of `trade` ends, and what it prints.
ghost use Rattle.std.specs.Prelude.{◌≡◌, ◌∷◌, ◌++◌, codes, IfOk, OnOk};
ghost use Rattle.answer_texts.specs.Lines.{line_of};
ghost use Rattle.trade_desk.specs.declared.refusal.Refusal.TheVariants.{Line};
ghost use Rattle.trade_desk.specs.declared.refusal.TradeVerdict.TheVariants.{Accepted};
ghost use Rattle.answer_texts.specs.TradeTexts.{refusal_numbers, shortfall_text, trade_status, trade_text, traded_text, untraded_text, verdict_line, verdict_lines};

use crate::check_ends::no_line;
use crate::lines::{numbered, put_count, put_vector};
use crate::month_ends::{bad_input_text, input_status, unread_status, unread_text};
use crate::status::Status;
use crate::write_ends::{unwritten_text, write_status};
use cert_checker::No;
use desk_commands::{TradeStop, Traded, Untraded};
use duty_calendar::{List, Memory};
use field_text::put_bytes;
use line_legality::{Illegal, RosterFault, illegal_numbers};
use std::alloc::Global;
use trade_desk::{Refusal, TradeVerdict};

/// How a run of `trade` ends.
pub fn trade_status(end: &Result<Traded, TradeStop>) -> Status
    ensures value { result ≡ trade_status end.now }
{
    match end {
        Ok(_) => Status::Done,
        Err(TradeStop::Unread(why)) => unread_status(*why),
        Err(TradeStop::BadInput(why)) => input_status(why),
        Err(TradeStop::No(_)) => Status::No,
        Err(TradeStop::Unwritten(_, stop)) => write_status(stop.why),
        Err(TradeStop::NoMemory) => Status::NoMemory,
    }
}

/// The line of a trade that was allowed.
fn accepted_line(alloc: Global, number: u64) -> Result<List<u8>, Memory>
    ensures value { IfOk result (λ t. t ≡ verdict_line number Accepted) }
{
    let mut out = List::new(alloc);
    put_bytes(&mut out, b"trade ")?;
    put_count(&mut out, number)?;
    put_bytes(&mut out, b" ok\n")?;
    Ok(out)
}

/// The line of a trade that a new line forbids.
fn illegal_line(alloc: Global, number: u64, member: u32, why: Illegal) -> Result<List<u8>, Memory>
    ensures value { IfOk result (λ t. t ≡ line_of (codes "trade")
        (number ∷ refusal_numbers (Line member why))) }
{
    let [code, place] = illegal_numbers(why);
    numbered(
        alloc,
        b"trade",
        &[number, 4, u64::from(member) + 1, code, place],
    )
}

/// The line of a trade that was refused.
fn refused_line(alloc: Global, number: u64, why: Refusal) -> Result<List<u8>, Memory>
    ensures value { IfOk result (λ t. t ≡ line_of (codes "trade")
        (number ∷ refusal_numbers why)) }
{
    match why {
        Refusal::NoMemory => numbered(alloc, b"trade", &[number, 0]),
        Refusal::SameMember => numbered(alloc, b"trade", &[number, 1]),
        Refusal::NotHeld(member, pairing) => {
            let list = [number, 2, u64::from(member) + 1, u64::from(pairing) + 1];
            numbered(alloc, b"trade", &list)
        }
        Refusal::Held(member, pairing) => {
            let list = [number, 3, u64::from(member) + 1, u64::from(pairing) + 1];
            numbered(alloc, b"trade", &list)
        }
        Refusal::Line(member, why) => illegal_line(alloc, number, member, why),
    }
}

/// The line of what became of a trade.
fn verdict_line(alloc: Global, number: u64, verdict: TradeVerdict) -> Result<List<u8>, Memory>
    ensures value { IfOk result (λ t. t ≡ verdict_line number verdict) }
{
    match verdict {
        TradeVerdict::Accepted => accepted_line(alloc, number),
        TradeVerdict::Refused(why) => refused_line(alloc, number, why),
    }
}

/// Appends a line for each trade, which count from 1.
fn put_verdicts(alloc: Global, out: &mut List<u8>, verdicts: &[TradeVerdict]) -> Result<(), Memory>
    ensures whole { OnOk result (out.new ≡ out.old ++ verdict_lines 1 verdicts.now) }
{
    for (i, verdict) in verdicts.iter().enumerate() {
        let line = verdict_line(alloc, i as u64 + 1, *verdict)?;
        put_bytes(out, line.as_slice())?;
    }
    Ok(())
}

/// The lines of trades that were taken, and the scores of the roster that they left.
fn traded_text(alloc: Global, traded: &Traded) -> Result<List<u8>, Memory>
    ensures value { IfOk result (λ t. t ≡ traded_text traded.now.verdicts traded.now.scores) }
{
    let mut out = List::new(alloc);
    put_verdicts(alloc, &mut out, traded.verdicts.as_slice())?;
    put_vector(&mut out, traded.scores.as_slice())?;
    Ok(out)
}

/// The line of a roster that is not complete.
fn shortfall_line(alloc: Global, why: RosterFault) -> Result<List<u8>, Memory>
    ensures value { IfOk result (λ t. t ≡ shortfall_text why) }
{
    match why {
        RosterFault::NoMemory => no_line(alloc, No::NoMemory),
        RosterFault::Line(member, illegal) => no_line(alloc, No::Member(member, illegal)),
        RosterFault::Cover(pairing, count) => no_line(alloc, No::Cover(pairing, count)),
    }
}

/// The line of a no.
fn untraded_line(alloc: Global, why: Untraded) -> Result<List<u8>, Memory>
    ensures value { IfOk result (λ t. t ≡ untraded_text why) }
{
    match why {
        Untraded::Roster(fault) => numbered(
            alloc,
            b"no roster",
            &[u64::from(fault.row), u64::from(fault.code.code())],
        ),
        Untraded::Incomplete(fault) => shortfall_line(alloc, fault),
        Untraded::Trades(fault) => numbered(
            alloc,
            b"no trades",
            &[u64::from(fault.line), u64::from(fault.code.code())],
        ),
    }
}

/// The text of a run of `trade`.
pub fn trade_text(alloc: Global, end: &Result<Traded, TradeStop>) -> Result<List<u8>, Memory>
    ensures value { IfOk result (λ t. t ≡ trade_text end.now) }
{
    match end {
        Ok(traded) => traded_text(alloc, traded),
        Err(TradeStop::Unread(why)) => unread_text(alloc, *why),
        Err(TradeStop::BadInput(why)) => bad_input_text(alloc, why),
        Err(TradeStop::No(why)) => untraded_line(alloc, *why),
        Err(TradeStop::Unwritten(_, stop)) => unwritten_text(alloc, *stop),
        Err(TradeStop::NoMemory) => Ok(List::new(alloc)),
    }
}
