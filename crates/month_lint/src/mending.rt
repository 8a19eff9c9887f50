//! A fault is noted, and what has it is taken out, so that what is behind it is read.

use crate::drawer::Drawer;
use crate::findings::Findings;
use crate::lines::{silence, silence_bid};
use crate::rows::name_in;
use bid_language::{BidCode, BidFault, Word};
use duty_calendar::Memory;
use field_text::{FileCode, FileFault, FileName};
use file_places::line_place;
use folder_answers::{bid_place, file_of, rule_answer};
use month_files::{File, InputFault};
use plain_answers::{put_bid_flaw, put_row_flaw, put_rule_flaw, row_mark, rule_mark};
use printed_lines::{Answer, BidPlace, RuleFlaw};
use rules_file::RuleFault;

/// Whether the month can be read once more.
#[derive(Clone, Copy)]
pub enum Mended {
    Again,
    Stop,
}

/// Notes the fault of a row.
fn note_row(found: &mut Findings, drawer: &Drawer, fault: FileFault) -> Result<(), Memory> {
    let mut words = found.words();
    match row_mark(found.alloc(), drawer.text_of(fault.file), fault)? {
        Some(mark) => {
            put_row_flaw(&mut words, fault, mark.word)?;
            found.add(file_of(fault.file), mark.line, words)
        }
        None => {
            put_row_flaw(&mut words, fault, b"")?;
            found.add(file_of(fault.file), 0, words)
        }
    }
}

/// Whether nothing more of the files of its kind can be read behind a fault.
fn ends_all(fault: FileFault) -> bool {
    match fault.code {
        FileCode::Header | FileCode::Limit(1) | FileCode::Limit(2) => true,
        _ => fault.row == 1,
    }
}

/// Gives up the files of a kind.
fn give_up(drawer: &mut Drawer, file: FileName) -> Result<(), Memory> {
    match file {
        FileName::Crew | FileName::History | FileName::Fixed => drawer.lose_crew(),
        FileName::Pairings | FileName::Duties | FileName::Legs => drawer.lose_trips(),
    }
}

/// Whether rows elsewhere that have the name of a row with a fault are not looked at.
fn spoils_name(fault: FileFault) -> bool {
    match fault.file {
        FileName::History | FileName::Fixed => false,
        _ => fault.code != FileCode::Duplicate,
    }
}

/// Whether a fault may follow from another one of the same name: not what is wrong in a row by itself.
fn may_follow(code: FileCode) -> bool {
    !matches!(
        code,
        FileCode::Field(_, _) | FileCode::Width | FileCode::Utf8
    )
}

/// Notes a fault of a row, unless it may follow from one that was noted.
fn note_first(found: &mut Findings, drawer: &mut Drawer, fault: FileFault) -> Result<(), Memory> {
    let alloc = found.alloc();
    let mut name = Vec::new(alloc);
    name.extend_from_slice(name_in(alloc, drawer.text_of(fault.file), fault.row)?)?;
    if may_follow(fault.code) && drawer.is_spoilt(&name) {
        return Ok(());
    }
    if spoils_name(fault) {
        drawer.spoil(&name)?;
    }
    note_row(found, drawer, fault)
}

/// Notes a fault of a file of rows, and takes out what has it.
fn mend_rows(found: &mut Findings, drawer: &mut Drawer, fault: FileFault) -> Result<(), Memory> {
    if ends_all(fault) {
        note_row(found, drawer, fault)?;
        return give_up(drawer, fault.file);
    }
    note_first(found, drawer, fault)?;
    drawer.take(fault.file, fault.row)
}

/// Whether a fault of bids follows from one that was said already.
fn follows(drawer: &Drawer, code: BidCode, word: &[u8]) -> bool {
    match code {
        BidCode::UnknownMember => drawer.no_crew || drawer.is_spoilt(word),
        BidCode::UnknownPairing => drawer.no_trips || drawer.is_spoilt(word),
        _ => false,
    }
}

/// Whether a fault of a line of bids goes for the lines below it too.
fn goes_on(place: BidPlace, code: BidCode) -> bool {
    match code {
        BidCode::Expected(Word::MemberLine) => true,
        BidCode::TooMany => place.column == 1,
        _ => false,
    }
}

/// Notes a fault of the bids, and makes comments of the lines that have it.
fn mend_bids(found: &mut Findings, drawer: &mut Drawer, fault: &BidFault) -> Result<(), Memory> {
    let Some(at) = bid_place(fault) else {
        return Err(Memory::NoMemory);
    };
    let place = line_place(&drawer.texts.bids, at.line, at.column);
    if !follows(drawer, fault.code, place.word) {
        let mut words = found.words();
        put_bid_flaw(&mut words, at.flaw, &place)?;
        found.add(File::Bids, at.line, words)?;
    }
    silence_bid(&mut drawer.texts.bids, at.line, goes_on(at, fault.code));
    Ok(())
}

/// What is read for a rule that is missing or out of its range, where no other file hangs on it.
fn stand_in(key: &[u8]) -> Option<&'static [u8]> {
    if key == b"base".as_slice() {
        return Some(b"\nbase = \"AAA\"\n");
    }
    if key == b"seat".as_slice() {
        return Some(b"\nseat = \"AAA\"\n");
    }
    if key == b"days_off".as_slice() {
        return Some(b"\ndays_off = 0\n");
    }
    None
}

/// Puts a rule in the place of one that is missing or was out of its range.
fn mend_value(drawer: &mut Drawer, key: &[u8]) -> Result<Mended, Memory> {
    match stand_in(key) {
        Some(line) => {
            drawer.no_base = drawer.no_base || key == b"base".as_slice();
            drawer.texts.rules.extend_from_slice(line)?;
            Ok(Mended::Again)
        }
        None => Ok(Mended::Stop),
    }
}

/// Takes a fault of this line out of the rules; line 0 is none of them.
fn mend_flaw(drawer: &mut Drawer, flaw: RuleFlaw, key: &[u8], line: u64) -> Result<Mended, Memory> {
    match flaw {
        RuleFlaw::NotToml => return Ok(Mended::Stop),
        RuleFlaw::MissingKey => return mend_value(drawer, key),
        RuleFlaw::UnknownKey | RuleFlaw::Range => {}
    }
    if line == 0 {
        return Ok(Mended::Stop);
    }
    silence(&mut drawer.texts.rules, line);
    match flaw {
        RuleFlaw::Range => mend_value(drawer, key),
        _ => Ok(Mended::Again),
    }
}

/// Notes a fault of the rules, and takes it out.
fn mend_rules(
    found: &mut Findings,
    drawer: &mut Drawer,
    fault: &RuleFault,
) -> Result<Mended, Memory> {
    let Some(Answer::Rules(flaw, key)) = rule_answer(fault) else {
        return Err(Memory::NoMemory);
    };
    let line = match rule_mark(&drawer.texts.rules, flaw, key) {
        Some(place) => place.line,
        None => 0,
    };
    let mut words = found.words();
    put_rule_flaw(&mut words, flaw, key)?;
    found.add(File::Rules, line, words)?;
    let mended = mend_flaw(drawer, flaw, key, line)?;
    if let Mended::Stop = mended {
        let text = b"the other files are looked at once this is mended";
        found.say(File::Rules, line, text)?;
    }
    Ok(mended)
}

/// Notes the first fault of a month, and takes out what has it.
pub fn mend(
    found: &mut Findings,
    drawer: &mut Drawer,
    fault: &InputFault,
) -> Result<Mended, Memory> {
    match fault {
        InputFault::Rules(fault) => return mend_rules(found, drawer, fault),
        InputFault::Pairings(fault) | InputFault::Members(fault) => {
            mend_rows(found, drawer, *fault)?
        }
        InputFault::Bids(fault) => mend_bids(found, drawer, fault)?,
    }
    Ok(Mended::Again)
}
