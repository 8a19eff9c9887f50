//! How a run of `check` ends, and what it prints.
ghost use Rattle.std.specs.Prelude.{◌≡◌, ◌+◌, [], ◌∷◌, ◌++◌, codes, IfOk, OnOk};
ghost use Rattle.answer_texts.specs.CheckTexts.{check_status, check_text, yes_text, lens_numbers, sum_text, item_text, no_text, refusal_text};
ghost use Rattle.answer_texts.specs.Lines.{line, line_of, numbers};

use crate::lines::{line_text, numbered, put_count, put_numbers, put_vector};
use crate::month_ends::{bad_input_text, input_status, unread_status, unread_text};
use crate::status::Status;
use cert_checker::{ItemFault, No};
use duty_calendar::{List, Memory};
use field_text::put_bytes;
use line_legality::illegal_numbers;
use line_lens::LensFault;
use month_commands::{CheckStop, Refusal, Verdict};
use std::alloc::Global;

/// How a run of `check` ends.
pub fn check_status(end: &Result<Verdict, CheckStop>) -> Status
    ensures value { result ≡ check_status end.now }
{
    match end {
        Ok(_) => Status::Done,
        Err(CheckStop::Unread(why)) => unread_status(*why),
        Err(CheckStop::BadInput(why)) => input_status(why),
        Err(CheckStop::No(_)) => Status::No,
        Err(CheckStop::NoMemory) => Status::NoMemory,
    }
}

/// Appends a lens's fault.
fn put_lens_fault(out: &mut List<u8>, why: LensFault) -> Result<(), Memory>
    ensures whole { OnOk result (out.new ≡ out.old ++ numbers (lens_numbers why)) }
{
    match why {
        LensFault::Untrackable(bid) => put_numbers(out, &[1, u64::from(bid) + 1]),
        LensFault::Windows(count) => put_numbers(out, &[2, u64::from(count)]),
        LensFault::Window(index) => put_numbers(out, &[3, u64::from(index) + 1]),
        LensFault::Grain => put_numbers(out, &[4]),
    }
}

/// Appends a sum of weights behind a space.
fn put_sum(out: &mut List<u8>, sum: i64) -> Result<(), Memory>
    ensures whole { OnOk result (out.new ≡ out.old ++ sum_text sum) }
{
    if sum < 0 {
        put_bytes(out, b" -")?;
        return put_count(out, sum.unsigned_abs());
    }
    put_bytes(out, b" ")?;
    put_count(out, sum.unsigned_abs())
}

/// Appends an item's fault.
fn put_item_fault(out: &mut List<u8>, why: ItemFault) -> Result<(), Memory>
    ensures whole { OnOk result (out.new ≡ out.old ++ item_text why) }
{
    match why {
        ItemFault::Index => put_numbers(out, &[1]),
        ItemFault::Decided => put_numbers(out, &[2]),
        ItemFault::Covered => put_numbers(out, &[3]),
        ItemFault::Undecided(pairing) => put_numbers(out, &[4, u64::from(pairing) + 1]),
        ItemFault::Fits => put_numbers(out, &[5]),
        ItemFault::Lens(member, why) => {
            put_numbers(out, &[6, u64::from(member) + 1])?;
            put_lens_fault(out, why)
        }
        ItemFault::Line(member) => put_numbers(out, &[7, u64::from(member) + 1]),
        ItemFault::Nothing(member) => put_numbers(out, &[8, u64::from(member) + 1]),
        ItemFault::Sum(lines, needs) => {
            put_numbers(out, &[9])?;
            put_sum(out, lines)?;
            put_sum(out, needs)
        }
        ItemFault::Width(weights, lenses) => {
            put_numbers(out, &[10, u64::from(weights), u64::from(lenses)])
        }
    }
}

/// Appends the judge's first failing test.
pub(crate) fn put_no(out: &mut List<u8>, why: No) -> Result<(), Memory>
    ensures whole { OnOk result (out.new ≡ out.old ++ no_text why) }
{
    match why {
        No::NoMemory => put_numbers(out, &[0]),
        No::Member(member, illegal) => {
            let [code, place] = illegal_numbers(illegal);
            put_numbers(out, &[1, u64::from(member) + 1, code, place])
        }
        No::Cover(pairing, count) => {
            put_numbers(out, &[2, u64::from(pairing) + 1, u64::from(count)])
        }
        No::Amount(found) => put_numbers(out, &[3, u64::from(found)]),
        No::Item(search, at, fault) => {
            put_numbers(out, &[4, u64::from(search) + 1, u64::from(at) + 1])?;
            put_item_fault(out, fault)
        }
        No::Left(search) => put_numbers(out, &[5, u64::from(search) + 1]),
        No::Reason(member, bid) => {
            put_numbers(out, &[6, u64::from(member) + 1, u64::from(bid) + 1])
        }
        No::Shown(member, bid) => {
            put_numbers(out, &[7, u64::from(member) + 1, u64::from(bid) + 1])
        }
    }
}

/// The line of the judge's first failing test.
pub(crate) fn no_line(alloc: Global, why: No) -> Result<List<u8>, Memory>
    ensures value { IfOk result (λ t. t ≡ line (codes "no" ++ no_text why)) }
{
    let mut out = List::new(alloc);
    put_bytes(&mut out, b"no")?;
    put_no(&mut out, why)?;
    put_bytes(&mut out, b"\n")?;
    Ok(out)
}

/// The line of a no.
fn refusal_line(alloc: Global, why: &Refusal) -> Result<List<u8>, Memory>
    ensures value { IfOk result (λ t. t ≡ refusal_text why.now) }
{
    match why {
        Refusal::Certificate(fault) => numbered(
            alloc,
            b"no certificate",
            &[u64::from(fault.line), u64::from(fault.code.code())],
        ),
        Refusal::Roster(fault) => numbered(
            alloc,
            b"no roster",
            &[u64::from(fault.row), u64::from(fault.code.code())],
        ),
        Refusal::Reasons(fault) => numbered(
            alloc,
            b"no reasons",
            &[u64::from(fault.line), u64::from(fault.code.code())],
        ),
        Refusal::Judged(no) => no_line(alloc, *no),
    }
}

/// The lines of an accepted award.
fn award_text(alloc: Global, scores: &List<u32>) -> Result<List<u8>, Memory>
    ensures value { IfOk result (λ t. t ≡ line (codes "yes") ++ line_of
        (codes "vector") scores.now) }
{
    let mut out = line_text(alloc, b"yes")?;
    put_vector(&mut out, scores.as_slice())?;
    Ok(out)
}

/// The lines of a yes.
fn verdict_text(alloc: Global, shown: &Verdict) -> Result<List<u8>, Memory>
    ensures value { IfOk result (λ t. t ≡ yes_text shown.now) }
{
    match shown {
        Verdict::Award(scores) => award_text(alloc, scores),
        Verdict::NoRoster => line_text(alloc, b"yes none"),
    }
}

/// The text of a run of `check`.
pub fn check_text(alloc: Global, end: &Result<Verdict, CheckStop>) -> Result<List<u8>, Memory>
    ensures value { IfOk result (λ t. t ≡ check_text end.now) }
{
    match end {
        Ok(shown) => verdict_text(alloc, shown),
        Err(CheckStop::Unread(why)) => unread_text(alloc, *why),
        Err(CheckStop::BadInput(why)) => bad_input_text(alloc, why),
        Err(CheckStop::No(why)) => refusal_line(alloc, why),
        Err(CheckStop::NoMemory) => Ok(List::new(alloc)),
    }
}
