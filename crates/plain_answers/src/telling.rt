//! The sentence of an answer.

use crate::bad_bids::put_bid_flaw;
use crate::bad_rows::{put_row_flaw, row_mark};
use crate::bad_rules::{put_rule_flaw, rule_mark};
use crate::done_words::put_done;
use crate::held::{Held, row_file, text_file};
use crate::judge_words::put_judged;
use crate::refusals::{put_denied, put_open, put_refused, put_trouble};
use crate::text_words::{put_text_flaw, text_mark};
use crate::windows::put_reasons;
use duty_calendar::Memory;
use field_text::FileFault;
use file_places::{Place, Prose, cell_bytes, cells_of, line_at, line_place};
use line_legality::Illegal;
use printed_lines::{Answer, BidPlace, Judged, RuleFlaw, TextFault, TextFile, words_of};
use roster_model::Problem;
use std::alloc::Global;

/// Appends the name of a file, and a line of it.
fn put_line(prose: &mut Prose, name: &[u8], line: u64) -> Result<(), Memory> {
    prose.text(name)?;
    prose.say(b", line ")?;
    prose.number(line)
}

/// Appends the name of a file and a place in it, before what is said of it.
fn put_head(prose: &mut Prose, name: &[u8], place: &Place<'_>) -> Result<(), Memory> {
    put_line(prose, name, place.line)?;
    prose.say(b", column ")?;
    prose.number(place.column)?;
    prose.say(b": ")
}

/// Appends the fault of a row, of which the text is not there.
fn tell_far_row(prose: &mut Prose, fault: FileFault) -> Result<(), Memory> {
    prose.text(row_file(fault.file))?;
    prose.say(b", row ")?;
    prose.number(u64::from(fault.row))?;
    prose.say(b": ")?;
    put_row_flaw(prose, fault, b"")?;
    prose.say(b"\n")
}

/// Appends the fault of a row at its place.
fn tell_near_row(prose: &mut Prose, fault: FileFault, place: &Place<'_>) -> Result<(), Memory> {
    put_head(prose, row_file(fault.file), place)?;
    put_row_flaw(prose, fault, place.word)?;
    prose.say(b"\n")?;
    prose.mark(place)
}

/// Appends the fault of a row.
fn tell_row(alloc: Global, prose: &mut Prose, held: &Held, fault: FileFault) -> Result<(), Memory> {
    let Some(text) = &held.text else {
        return tell_far_row(prose, fault);
    };
    match row_mark(alloc, text, fault)? {
        Some(place) => tell_near_row(prose, fault, &place),
        None => tell_far_row(prose, fault),
    }
}

/// The place of a flaw of the rules, where their text is there and has it.
fn rule_place<'a>(held: &'a Held, flaw: RuleFlaw, key: &[u8]) -> Option<Place<'a>> {
    match &held.text {
        Some(text) => rule_mark(text, flaw, key),
        None => None,
    }
}

/// Appends the fault of the rules.
fn tell_rules(prose: &mut Prose, held: &Held, flaw: RuleFlaw, key: &[u8]) -> Result<(), Memory> {
    let place = rule_place(held, flaw, key);
    match &place {
        Some(place) => put_head(prose, b"rules.toml", place)?,
        None => prose.say(b"rules.toml: ")?,
    }
    put_rule_flaw(prose, flaw, key)?;
    prose.say(b"\n")?;
    match &place {
        Some(place) => prose.mark(place),
        None => Ok(()),
    }
}

/// Appends the fault of a file of bids.
fn tell_bids(prose: &mut Prose, held: &Held, name: &[u8], at: BidPlace) -> Result<(), Memory> {
    let text: &[u8] = match &held.text {
        Some(text) => text.as_slice(),
        None => b"",
    };
    let place = line_place(text, at.line, at.column);
    put_line(prose, name, at.line)?;
    prose.say(b", column ")?;
    prose.number(at.column)?;
    prose.say(b": ")?;
    put_bid_flaw(prose, at.flaw, &place)?;
    prose.say(b"\n")?;
    if held.text.is_some() {
        prose.mark(&place)?;
    }
    Ok(())
}

/// Appends the line of a file at which a text does not go on.
fn mark_text(prose: &mut Prose, held: &Held, fault: TextFault) -> Result<(), Memory> {
    match &held.text {
        Some(text) => prose.mark(&text_mark(text, fault)),
        None => Ok(()),
    }
}

/// Appends the fault of a text.
fn tell_text(prose: &mut Prose, held: &Held, fault: TextFault) -> Result<(), Memory> {
    let name = text_file(fault.file);
    if fault.line == 0 {
        prose.text(name)?;
        prose.say(b": ")?;
        put_text_flaw(prose, fault)?;
        return prose.say(b"\n");
    }
    put_line(prose, name, fault.line)?;
    prose.say(b": ")?;
    put_text_flaw(prose, fault)?;
    prose.say(b"\n")?;
    mark_text(prose, held, fault)
}

/// Appends the row of a pilot in the roster, with its pairings marked.
fn mark_row(prose: &mut Prose, held: &Held, member: u32) -> Result<(), Memory> {
    let Some(roster) = &held.roster else {
        return Ok(());
    };
    let fault = TextFault {
        file: TextFile::Roster,
        line: u64::from(member).saturating_add(1),
        code: 4,
    };
    prose.mark(&text_mark(roster, fault))
}

/// The pairings that the row of a pilot, by place from 0, has in the text of a roster, by number from 0; without those that the
/// month does not have.
fn flown_by(
    alloc: Global,
    problem: &Problem,
    text: &[u8],
    place: usize,
) -> Result<Vec<u32>, Memory> {
    let row = line_at(text, (place as u64).saturating_add(2));
    let mut flown = Vec::new(alloc);
    let cells = cells_of(alloc, row)?;
    let Some(cell) = cells.get(1).copied() else {
        return Ok(flown);
    };
    let names = words_of(alloc, cell_bytes(row, cell))?;
    for word in 0..names.len() {
        if let Some(number) = number_of(problem, names.word(word)) {
            flown.push(number)?;
        }
    }
    Ok(flown)
}

/// The number of a pairing of this name, from 0.
fn number_of(problem: &Problem, name: &[u8]) -> Option<u32> {
    let pairings = problem.base.pairings.as_slice();
    let place = pairings
        .iter()
        .position(|known| known.name.bytes() == name)?;
    u32::try_from(place).ok()
}

/// Appends what stands in the window of the rule that the line of a pilot breaks.
fn put_line_reasons(
    alloc: Global,
    prose: &mut Prose,
    problem: &Problem,
    text: &[u8],
    member: u32,
    why: Illegal,
) -> Result<(), Memory> {
    let place = member.saturating_sub(1) as usize;
    let line = flown_by(alloc, problem, text, place)?;
    put_reasons(alloc, prose, problem, place, &line, why)
}

/// Appends what more is known of a line that is not legal.
fn tell_line(
    alloc: Global,
    prose: &mut Prose,
    held: &Held,
    member: u32,
    why: Illegal,
) -> Result<(), Memory> {
    mark_row(prose, held, member)?;
    let Some(problem) = &held.month else {
        return Ok(());
    };
    match &held.roster {
        Some(text) => put_line_reasons(alloc, prose, problem, text, member, why),
        None => Ok(()),
    }
}

/// Appends what the judge says.
fn tell_judged(
    alloc: Global,
    prose: &mut Prose,
    held: &Held,
    verdict: Judged,
) -> Result<(), Memory> {
    prose.say(b"the award is not accepted: ")?;
    put_judged(prose, held.month.as_ref(), verdict)?;
    prose.say(b"\n")?;
    match verdict {
        Judged::Member(member, why) => tell_line(alloc, prose, held, member, why),
        _ => Ok(()),
    }
}

/// Appends the sentence of an answer that points to no text.
fn tell_plain(prose: &mut Prose, held: &Held, answer: &Answer<'_>) -> Result<(), Memory> {
    let month = held.month.as_ref();
    match answer {
        Answer::Done(done) => put_done(prose, *done)?,
        Answer::File(trouble, name) => {
            prose.text(name)?;
            prose.say(b": ")?;
            put_trouble(prose, *trouble)?;
        }
        Answer::Denied(denied) => put_denied(prose, *denied)?,
        Answer::Open(open) => put_open(prose, month, *open)?,
        Answer::Trade(number, why) => put_refused(prose, month, *number, *why)?,
        Answer::Usage => prose.say(
            b"the words behind the folder are no command of pbs: a word too many or too few, another command, a number that is missing or out of its range, or the folder was forgotten",
        )?,
        Answer::PageUsage => prose.say(b"pbs-page takes one word, which is a folder")?,
        _ => {}
    }
    prose.say(b"\n")
}

/// Appends the sentence of an answer, and below it the text that it points to, with a mark.
pub fn tell(
    alloc: Global,
    prose: &mut Prose,
    held: &Held,
    answer: &Answer<'_>,
) -> Result<(), Memory> {
    match answer {
        Answer::Row(fault) => tell_row(alloc, prose, held, *fault),
        Answer::Rules(flaw, key) => tell_rules(prose, held, *flaw, key),
        Answer::Bids(place) => tell_bids(prose, held, b"bids.txt", *place),
        Answer::OtherBids(place) => tell_bids(prose, held, b"bids2.txt", *place),
        Answer::Text(fault) => tell_text(prose, held, *fault),
        Answer::Judged(verdict) => tell_judged(alloc, prose, held, *verdict),
        _ => tell_plain(prose, held, answer),
    }
}
