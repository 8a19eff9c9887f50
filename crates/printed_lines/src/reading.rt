//! Reading a line.

use crate::answer::{Answer, Denied, Open, Refused, TextFault, TextFile, Trouble};
use crate::done::{Done, View};
use crate::faults::{BidPlace, bid_flaw, file_code, file_name, number_at, rule_flaw, small_at};
use crate::heads::{Head, head_of};
use crate::judged::{illegal_of, judgement_of};
use crate::words::Words;
use duty_calendar::Memory;
use field_text::FileFault;
use std::alloc::Global;

/// Whether a word looks like a day: ten bytes with dashes where a day has them.
fn is_day(word: &[u8]) -> bool {
    word.len() == 10 && word.get(4) == Some(&b'-') && word.get(7) == Some(&b'-')
}

/// The line of a pairing of a vacant line, or of their number.
fn open_line<'a>(words: &Words<'a>) -> Option<Done<'a>> {
    if words.len() == 2 {
        return Some(Done::Open(words.count(1)?));
    }
    let pilots = words.len().saturating_sub(3) as u64;
    Some(Done::OpenTrip(words.word(1), words.count(2)?, pilots))
}

/// A `yes`.
fn yes_line<'a>(words: &Words<'a>) -> Option<Done<'a>> {
    if words.len() == 1 {
        return Some(Done::Yes);
    }
    if words.is(1, b"none") {
        return Some(Done::YesNone);
    }
    if words.is(1, b"open") {
        return Some(Done::YesOpen(words.count(2)?));
    }
    None
}

/// A bid of the month of a member.
fn bid_line<'a>(words: &Words<'a>) -> Option<Done<'a>> {
    if words.is(2, b"granted") {
        return Some(Done::View(View::Granted));
    }
    if words.is(2, b"denied") {
        return Some(Done::View(View::Denied));
    }
    None
}

/// The number behind the first word.
fn counted<'a>(words: &Words<'a>, head: Head) -> Option<Done<'a>> {
    let count = words.count(1)?;
    match head {
        Head::Nodes => Some(Done::Nodes(count)),
        Head::Denials => Some(Done::Denials(count)),
        Head::Budget => Some(Done::Budget(count)),
        Head::Migrated => Some(Done::Migrated(count)),
        Head::Page => Some(Done::Page(count)),
        Head::Made => Some(Done::Made(count, words.count(3)?)),
        _ => None,
    }
}

/// What was done, where a line of this first word says so.
fn done_of<'a>(words: &Words<'a>, head: Head) -> Option<Done<'a>> {
    match head {
        Head::Award => Some(Done::Award),
        Head::WhatIf => Some(Done::WhatIf),
        Head::Vector => Some(Done::Vector(words.len().saturating_sub(1) as u64)),
        Head::Yes => yes_line(words),
        Head::Open => open_line(words),
        Head::Calendar => Some(Done::Calendar(words.word(1), words.count(2)?)),
        Head::Member => Some(Done::View(View::Sums)),
        Head::Bid => bid_line(words),
        _ => counted(words, head),
    }
}

/// A day of the month of a member.
fn day_line<'a>(words: &Words<'a>) -> Option<Answer<'a>> {
    if is_day(words.word(0)) {
        return Some(Answer::Done(Done::View(View::Day)));
    }
    None
}

/// What became of a file, where a line says so.
fn trouble_of<'a>(words: &Words<'a>) -> Option<Answer<'a>> {
    if words.is(0, b"missing") {
        return Some(Answer::File(Trouble::Missing, words.word(1)));
    }
    if words.is(0, b"read") && words.is(1, b"fault") {
        return Some(Answer::File(Trouble::ReadFault, words.word(2)));
    }
    if words.is(0, b"write") && words.is(1, b"fault") {
        return Some(Answer::File(Trouble::WriteFault, words.word(2)));
    }
    if words.is(0, b"too") && words.is(1, b"long") {
        return Some(Answer::File(Trouble::TooLong, words.word(2)));
    }
    None
}

/// A usage line.
fn usage_line<'a>(words: &Words<'a>) -> Option<Answer<'a>> {
    if words.is(1, b"pbs") {
        return Some(Answer::Usage);
    }
    if words.is(1, b"pbs-page") {
        return Some(Answer::PageUsage);
    }
    None
}

/// The place of a fault of bids.
fn bid_place(words: &Words<'_>) -> Option<BidPlace> {
    Some(BidPlace {
        line: words.count(2)?,
        column: words.count(3)?,
        flaw: bid_flaw(words.count(4)?)?,
    })
}

/// The fault of a file of rows.
fn row_of<'a>(words: &Words<'a>, numbers: &[i64]) -> Option<Answer<'a>> {
    Some(Answer::Row(FileFault {
        file: file_name(words.word(1))?,
        row: small_at(numbers, 0)?,
        code: file_code(numbers, 1)?,
    }))
}

/// The fault of an input.
fn bad_line<'a>(alloc: Global, words: &Words<'a>) -> Result<Option<Answer<'a>>, Memory> {
    if words.is(1, b"rules.toml") {
        return Ok(bad_rules(words));
    }
    if words.is(1, b"bids.txt") {
        return Ok(bid_place(words).map(|place| Answer::Bids(place)));
    }
    if words.is(1, b"bids2.txt") {
        return Ok(bid_place(words).map(|place| Answer::OtherBids(place)));
    }
    match words.numbers(alloc, 2)? {
        Some(numbers) => Ok(row_of(words, &numbers)),
        None => Ok(None),
    }
}

/// The fault of the rules.
fn bad_rules<'a>(words: &Words<'a>) -> Option<Answer<'a>> {
    Some(Answer::Rules(rule_flaw(words.count(2)?)?, words.word(3)))
}

/// The fault of a text.
fn text_of<'a>(words: &Words<'a>, file: TextFile) -> Option<Answer<'a>> {
    Some(Answer::Text(TextFault {
        file,
        line: words.count(2)?,
        code: words.count(3)?,
    }))
}

/// No complete roster, or a roster that does not read.
fn roster_line<'a>(words: &Words<'a>) -> Option<Answer<'a>> {
    if words.len() == 2 {
        return Some(Answer::Done(Done::NoRoster));
    }
    text_of(words, TextFile::Roster)
}

/// Why vacant lines are not added: with the number of the fault in front of them, or without.
fn not_added(numbers: &[i64], from: usize) -> Option<Open> {
    let next = from.saturating_add(1);
    match number_at(numbers, from)? {
        1 => Some(Open::Members(small_at(numbers, next)?)),
        2 => Some(Open::NameTaken(small_at(numbers, next)?)),
        _ => None,
    }
}

/// Why an award with vacant lines is not made or not accepted.
fn no_open(numbers: &[i64]) -> Option<Open> {
    if numbers.len() == 2 {
        if let Some(open) = not_added(numbers, 0) {
            return Some(open);
        }
    }
    match number_at(numbers, 0)? {
        1 => not_added(numbers, 1),
        2 => Some(Open::NoneProof),
        3 => Some(Open::Fewer(judgement_of(numbers, 1)?)),
        4 => Some(Open::Award(judgement_of(numbers, 1)?)),
        _ => None,
    }
}

/// What the judge says, or what an award with vacant lines comes to.
fn no_numbers<'a>(alloc: Global, words: &Words<'a>) -> Result<Option<Answer<'a>>, Memory> {
    if words.is(1, b"open") {
        let Some(numbers) = words.numbers(alloc, 2)? else {
            return Ok(None);
        };
        return Ok(no_open(&numbers).map(|open| Answer::Open(open)));
    }
    let Some(numbers) = words.numbers(alloc, 1)? else {
        return Ok(None);
    };
    Ok(judgement_of(&numbers, 0).map(|no| Answer::Judged(no)))
}

/// A `no` about a text.
fn no_text<'a>(words: &Words<'a>) -> Option<Answer<'a>> {
    if words.is(1, b"certificate") {
        return text_of(words, TextFile::Certificate);
    }
    if words.is(1, b"roster") {
        return roster_line(words);
    }
    if words.is(1, b"reasons") {
        return text_of(words, TextFile::Reasons);
    }
    if words.is(1, b"trades") {
        return text_of(words, TextFile::Trades);
    }
    None
}

/// A `no` about what is not there.
fn no_thing<'a>(words: &Words<'a>) -> Option<Answer<'a>> {
    if words.is(1, b"award") {
        return Some(Answer::Denied(Denied::Award));
    }
    if words.is(1, b"events") {
        return Some(Answer::Denied(Denied::Events(words.word(2))));
    }
    if words.is(1, b"bids") {
        return Some(Answer::Denied(Denied::Bids(words.word(2))));
    }
    if words.is(1, b"member") {
        return Some(Answer::Denied(Denied::Member(words.word(2))));
    }
    None
}

/// A `no`.
fn no_line<'a>(alloc: Global, words: &Words<'a>) -> Result<Option<Answer<'a>>, Memory> {
    if let Some(answer) = no_text(words) {
        return Ok(Some(answer));
    }
    if let Some(answer) = no_thing(words) {
        return Ok(Some(answer));
    }
    no_numbers(alloc, words)
}

/// Why a trade was refused.
fn refused_of(numbers: &[i64]) -> Option<Refused> {
    match number_at(numbers, 0)? {
        1 => Some(Refused::SameMember),
        2 => Some(Refused::NotHeld(small_at(numbers, 1)?, small_at(numbers, 2)?)),
        3 => Some(Refused::Held(small_at(numbers, 1)?, small_at(numbers, 2)?)),
        4 => Some(Refused::Line(
            small_at(numbers, 1)?,
            illegal_of(number_at(numbers, 2)?, number_at(numbers, 3)?)?,
        )),
        _ => None,
    }
}

/// What became of a trade.
fn trade_line<'a>(alloc: Global, words: &Words<'a>) -> Result<Option<Answer<'a>>, Memory> {
    let Some(number) = words.count(1) else {
        return Ok(None);
    };
    if words.is(2, b"ok") {
        return Ok(Some(Answer::Done(Done::Traded(number))));
    }
    let Some(numbers) = words.numbers(alloc, 2)? else {
        return Ok(None);
    };
    Ok(refused_of(&numbers).map(|why| Answer::Trade(number, why)))
}

/// What a line says, or nothing where `pbs` prints no such line.
pub fn answer_of<'a>(alloc: Global, words: &Words<'a>) -> Result<Option<Answer<'a>>, Memory> {
    match head_of(words.word(0)) {
        Some(Head::Bad) => bad_line(alloc, words),
        Some(Head::No) => no_line(alloc, words),
        Some(Head::Trade) => trade_line(alloc, words),
        Some(Head::Usage) => Ok(usage_line(words)),
        Some(Head::File) => Ok(trouble_of(words)),
        Some(head) => Ok(done_of(words, head).map(|done| Answer::Done(done))),
        None => Ok(day_line(words)),
    }
}
