//! How a run of `opencheck` ends, and what it prints.
ghost use Rattle.std.specs.Prelude.{◌≡◌, ◌++◌, codes, IfOk, OnOk};
ghost use Rattle.answer_texts.specs.Lines.{line};
ghost use Rattle.answer_texts.specs.OpenCheckTexts.{open_check_status, open_check_text, open_no_text, opened_text, unopened_text};

use crate::check_ends::put_no;
use crate::lines::{numbered, put_numbers, put_vector};
use crate::month_ends::{bad_input_text, input_status, unread_status, unread_text};
use crate::open_ends::put_fault;
use crate::status::Status;
use duty_calendar::{List, Memory};
use field_text::put_bytes;
use open_commands::{OpenCheckStop, Unopened};
use open_time::OpenNo;
use std::alloc::Global;

/// How a run of `opencheck` ends.
pub fn open_check_status(end: &Result<List<u32>, OpenCheckStop>) -> Status
    ensures value { result ≡ open_check_status end.now }
{
    match end {
        Ok(_) => Status::Done,
        Err(OpenCheckStop::Unread(why)) => unread_status(*why),
        Err(OpenCheckStop::BadInput(why)) => input_status(why),
        Err(OpenCheckStop::No(_)) => Status::No,
        Err(OpenCheckStop::NoMemory) => Status::NoMemory,
    }
}

/// Appends the judge's first failing test.
fn put_open_no(out: &mut List<u8>, why: OpenNo) -> Result<(), Memory>
    ensures whole { OnOk result (out.new ≡ out.old ++ open_no_text why) }
{
    match why {
        OpenNo::NoMemory => put_numbers(out, &[0]),
        OpenNo::Open(fault) => {
            put_numbers(out, &[1])?;
            put_fault(out, fault)
        }
        OpenNo::NoneProof => put_numbers(out, &[2]),
        OpenNo::Fewer(no) => {
            put_numbers(out, &[3])?;
            put_no(out, no)
        }
        OpenNo::Award(no) => {
            put_numbers(out, &[4])?;
            put_no(out, no)
        }
    }
}

/// The line of the judge's first failing test.
fn open_no_line(alloc: Global, why: OpenNo) -> Result<List<u8>, Memory>
    ensures value { IfOk result (λ t. t ≡ line (codes "no open" ++ open_no_text why)) }
{
    let mut out = List::new(alloc);
    put_bytes(&mut out, b"no open")?;
    put_open_no(&mut out, why)?;
    put_bytes(&mut out, b"\n")?;
    Ok(out)
}

/// The line of a no.
fn unopened_line(alloc: Global, why: &Unopened) -> Result<List<u8>, Memory>
    ensures value { IfOk result (λ t. t ≡ unopened_text why.now) }
{
    match why {
        Unopened::Open(fault) => open_no_line(alloc, OpenNo::Open(*fault)),
        Unopened::Certificate(fault) => numbered(
            alloc,
            b"no certificate",
            &[u64::from(fault.line), u64::from(fault.code.code())],
        ),
        Unopened::Form => numbered(alloc, b"no certificate", &[0, 2]),
        Unopened::Reasons(fault) => numbered(
            alloc,
            b"no reasons",
            &[u64::from(fault.line), u64::from(fault.code.code())],
        ),
        Unopened::Roster(fault) => numbered(
            alloc,
            b"no roster",
            &[u64::from(fault.row), u64::from(fault.code.code())],
        ),
        Unopened::Judged(no) => open_no_line(alloc, *no),
    }
}

/// The lines of so many vacant lines that are accepted.
fn opened_text(alloc: Global, lines: u32, scores: &List<u32>) -> Result<List<u8>, Memory>
    ensures value { IfOk result (λ t. t ≡ opened_text lines scores.now) }
{
    let mut out = numbered(alloc, b"yes open", &[u64::from(lines)])?;
    put_vector(&mut out, scores.as_slice())?;
    Ok(out)
}

/// The text of a run of `opencheck` with so many vacant lines.
pub fn open_check_text(
    alloc: Global,
    lines: u32,
    end: &Result<List<u32>, OpenCheckStop>,
) -> Result<List<u8>, Memory>
    ensures value { IfOk result (λ t. t ≡ open_check_text lines end.now) }
{
    match end {
        Ok(scores) => opened_text(alloc, lines, scores),
        Err(OpenCheckStop::Unread(why)) => unread_text(alloc, *why),
        Err(OpenCheckStop::BadInput(why)) => bad_input_text(alloc, why),
        Err(OpenCheckStop::No(why)) => unopened_line(alloc, why),
        Err(OpenCheckStop::NoMemory) => Ok(List::new(alloc)),
    }
}
