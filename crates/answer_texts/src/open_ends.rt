//! How a run of `open` ends, and what it prints.
ghost use Rattle.std.specs.Prelude.{◌≡◌, ◌∷◌, ◌++◌, codes, IfOk, OnOk};
ghost use Rattle.answer_texts.specs.Lines.{line_of, numbers};
ghost use Rattle.answer_texts.specs.OpenTexts.{fault_numbers, open_lines, open_status, open_text, opening_status, opening_text, row_line, row_lines, spaced, vacant_text};

use crate::lines::{budget_line, line_text, numbered, put_numbers, put_vector};
use crate::month_ends::{bad_input_text, input_status, unread_status, unread_text};
use crate::status::Status;
use crate::write_ends::{unwritten_text, write_status};
use duty_calendar::{List, Memory, Name};
use field_text::put_bytes;
use open_commands::{OpenFinding, OpenRow, OpenStop, Opening};
use open_time::OpenFault;
use std::alloc::Global;

/// How a run ends where this was found and written.
fn opening_status(found: &Opening) -> Status
    ensures value { result ≡ opening_status found.now }
{
    match found {
        Opening::Award(_, _, _) => Status::Done,
        Opening::NoRoster => Status::NoRoster,
    }
}

/// How a run of `open` ends.
pub fn open_status(end: &Result<OpenFinding, OpenStop>) -> Status
    ensures value { result ≡ open_status end.now }
{
    match end {
        Ok(finding) => opening_status(&finding.found),
        Err(OpenStop::Unread(why)) => unread_status(*why),
        Err(OpenStop::BadInput(why)) => input_status(why),
        Err(OpenStop::No(_)) => Status::No,
        Err(OpenStop::Budget(_)) => Status::Budget,
        Err(OpenStop::Unwritten(_, stop)) => write_status(stop.why),
        Err(OpenStop::NoMemory) => Status::NoMemory,
    }
}

/// Appends a name behind a space.
fn put_name(out: &mut List<u8>, name: &Name) -> Result<(), Memory>
    ensures whole { OnOk result (out.new ≡ out.old ++ 32 ∷ name.now) }
{
    put_bytes(out, b" ")?;
    put_bytes(out, name.bytes())
}

/// Appends each name behind a space.
fn put_names(out: &mut List<u8>, names: &[Name]) -> Result<(), Memory>
    ensures whole { OnOk result (out.new ≡ out.old ++ spaced names.now) }
{
    for name in names {
        put_name(out, name)?;
    }
    Ok(())
}

/// The line of a pairing that vacant lines have.
fn row_line(alloc: Global, row: &OpenRow) -> Result<List<u8>, Memory>
    ensures value { IfOk result (λ t. t ≡ row_line row.now) }
{
    let mut out = List::new(alloc);
    put_bytes(&mut out, b"open ")?;
    put_bytes(&mut out, row.pairing.bytes())?;
    put_numbers(&mut out, &[u64::from(row.count)])?;
    put_names(&mut out, row.members.as_slice())?;
    put_bytes(&mut out, b"\n")?;
    Ok(out)
}

/// Appends a line for each pairing that vacant lines have.
fn put_rows(alloc: Global, out: &mut List<u8>, rows: &[OpenRow]) -> Result<(), Memory>
    ensures whole { OnOk result (out.new ≡ out.old ++ row_lines rows.now) }
{
    for row in rows {
        let line = row_line(alloc, row)?;
        put_bytes(out, line.as_slice())?;
    }
    Ok(())
}

/// How many vacant lines there are, and the scores with them.
fn opening_text(alloc: Global, found: &Opening) -> Result<List<u8>, Memory>
    ensures value { IfOk result (λ t. t ≡ opening_text found.now) }
{
    match found {
        Opening::Award(count, scores, _) => {
            let mut out = numbered(alloc, b"open", &[u64::from(*count)])?;
            put_vector(&mut out, scores.as_slice())?;
            Ok(out)
        }
        Opening::NoRoster => line_text(alloc, b"no roster"),
    }
}

/// Appends the lines of the pairings that vacant lines have.
fn put_vacant(alloc: Global, out: &mut List<u8>, found: &Opening) -> Result<(), Memory>
    ensures whole { OnOk result (out.new ≡ out.old ++ vacant_text found.now) }
{
    match found {
        Opening::Award(_, _, rows) => put_rows(alloc, out, rows.as_slice()),
        Opening::NoRoster => Ok(()),
    }
}

/// The lines of what was found, with so many nodes counted.
fn open_lines(alloc: Global, found: &Opening, nodes: u32) -> Result<List<u8>, Memory>
    ensures value { IfOk result (λ t. t ≡ open_lines found.now nodes) }
{
    let mut out = opening_text(alloc, found)?;
    let counted = numbered(alloc, b"nodes", &[u64::from(nodes)])?;
    put_bytes(&mut out, counted.as_slice())?;
    put_vacant(alloc, &mut out, found)?;
    Ok(out)
}

/// Appends the fault of vacant lines that cannot be added.
pub(crate) fn put_fault(out: &mut List<u8>, why: OpenFault) -> Result<(), Memory>
    ensures whole { OnOk result (out.new ≡ out.old ++ numbers (fault_numbers why)) }
{
    match why {
        OpenFault::NoMemory => put_numbers(out, &[0]),
        OpenFault::Members(total) => put_numbers(out, &[1, u64::from(total)]),
        OpenFault::NameTaken(member) => put_numbers(out, &[2, u64::from(member) + 1]),
    }
}

/// The line of vacant lines that cannot be added.
fn refused_line(alloc: Global, why: OpenFault) -> Result<List<u8>, Memory>
    ensures value { IfOk result (λ t. t ≡ line_of (codes "no open") (fault_numbers why)) }
{
    let mut out = List::new(alloc);
    put_bytes(&mut out, b"no open")?;
    put_fault(&mut out, why)?;
    put_bytes(&mut out, b"\n")?;
    Ok(out)
}

/// The text of a run of `open`.
pub fn open_text(alloc: Global, end: &Result<OpenFinding, OpenStop>) -> Result<List<u8>, Memory>
    ensures value { IfOk result (λ t. t ≡ open_text end.now) }
{
    match end {
        Ok(finding) => open_lines(alloc, &finding.found, finding.ledger.len()),
        Err(OpenStop::Unread(why)) => unread_text(alloc, *why),
        Err(OpenStop::BadInput(why)) => bad_input_text(alloc, why),
        Err(OpenStop::No(why)) => refused_line(alloc, *why),
        Err(OpenStop::Budget(ledger)) => budget_line(alloc, ledger),
        Err(OpenStop::Unwritten(_, stop)) => unwritten_text(alloc, *stop),
        Err(OpenStop::NoMemory) => Ok(List::new(alloc)),
    }
}
