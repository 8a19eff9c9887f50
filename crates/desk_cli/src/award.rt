//! The month and the roster in a folder, or what is wrong with them in words.
ghost use Rattle.std.specs.Prelude.{◌≡◌, IfOk};
ghost use Rattle.std.specs.Option.{ForSome};
ghost use Rattle.month_files.specs.Reading.{AreShort, view_texts};
ghost use Rattle.roster_text.specs.RosterText.{IsRoster};
ghost use Rattle.shelf.specs.Names.{IsName};

use duty_calendar::Memory;
use file_places::Prose;
use folder_answers::{input_answer, tell_answer, unread_answer};
use month_files::{BadInput, InputFault, Texts, Unread, read_month, read_texts};
use plain_answers::{Held, put_trouble, tell};
use printed_lines::{Answer, TextFault, TextFile, Trouble};
use roster_model::{Problem, Roster};
use roster_text::{RosterTextCode, RosterTextFault, read_roster};
use shelf::{Shelf, ShelfFault};
use std::alloc::Global;

/// A month, and a roster of it.
#[derive(Drop)]
pub struct Award {
    pub problem: Problem,
    pub roster: Roster,
}

/// Appends a fault of the inputs in a folder.
fn tell_input<S: Shelf>(
    alloc: Global,
    shelf: &mut S,
    prose: &mut Prose,
    fault: &InputFault,
) -> Result<(), Memory>
    ensures kept { S.holds shelf.new ≡ S.holds shelf.old }
{
    match input_answer(fault) {
        Some(answer) => tell_answer(alloc, shelf, prose, &answer),
        None => Err(Memory::NoMemory),
    }
}

/// The month that texts name; where they name none, their fault is appended.
fn month_of<S: Shelf>(
    alloc: Global,
    shelf: &mut S,
    prose: &mut Prose,
    texts: &Texts,
) -> Result<Option<Problem>, Memory>
    requires short { AreShort (view_texts texts.now) }
    ensures kept { S.holds shelf.new ≡ S.holds shelf.old }
{
    match read_month(alloc, texts) {
        Ok(problem) => Ok(Some(problem)),
        Err(BadInput::NoMemory) => Err(Memory::NoMemory),
        Err(BadInput::Fault(fault)) => {
            tell_input(alloc, shelf, prose, &fault)?;
            Ok(None)
        }
    }
}

/// Appends why a file was not read.
fn tell_unread(alloc: Global, prose: &mut Prose, why: Unread) -> Result<(), Memory> {
    let held = Held {
        text: None,
        month: None,
        roster: None,
    };
    match unread_answer(why) {
        Some(answer) => tell(alloc, prose, &held, &answer),
        None => Err(Memory::NoMemory),
    }
}

/// The month in a folder; where there is none, why is appended. No file is written.
pub fn tell_month<S: Shelf>(
    alloc: Global,
    shelf: &mut S,
    prose: &mut Prose,
) -> Result<Option<Problem>, Memory>
    ensures kept { S.holds shelf.new ≡ S.holds shelf.old }
{
    match read_texts(alloc, shelf) {
        Ok(texts) => month_of(alloc, shelf, prose, &texts),
        Err(why) => {
            tell_unread(alloc, prose, why)?;
            Ok(None)
        }
    }
}

/// Appends the fault of a roster's text.
fn tell_roster(
    alloc: Global,
    prose: &mut Prose,
    text: Vec<u8>,
    fault: RosterTextFault,
) -> Result<(), Memory> {
    if fault.code == RosterTextCode::NoMemory {
        return Err(Memory::NoMemory);
    }
    let held = Held {
        text: Some(text),
        month: None,
        roster: None,
    };
    let answer = Answer::Text(TextFault {
        file: TextFile::Roster,
        line: u64::from(fault.row),
        code: u64::from(fault.code.code()),
    });
    tell(alloc, prose, &held, &answer)
}

/// The roster of a text; where there is none, its fault is appended.
fn roster_of(
    alloc: Global,
    prose: &mut Prose,
    problem: &Problem,
    text: Vec<u8>,
) -> Result<Option<Roster>, Memory>
    ensures valid { IfOk result (λ found. ForSome found (IsRoster problem.now)) }
{
    match read_roster(alloc, &text, problem) {
        Ok(roster) => Ok(Some(roster)),
        Err(fault) => {
            tell_roster(alloc, prose, text, fault)?;
            Ok(None)
        }
    }
}

/// Appends what became of a file.
fn tell_trouble(prose: &mut Prose, name: &str, fault: ShelfFault) -> Result<(), Memory> {
    let trouble = match fault {
        ShelfFault::NoMemory => return Err(Memory::NoMemory),
        ShelfFault::Missing => Trouble::Missing,
        ShelfFault::TooLong => Trouble::TooLong,
        ShelfFault::ReadFailed | ShelfFault::WriteFailed => Trouble::ReadFault,
    };
    prose.text(name.as_bytes())?;
    prose.say(b": ")?;
    put_trouble(prose, trouble)?;
    prose.say(b"\n")
}

/// The roster of a month in a file; where there is none, why is appended. No file is written.
pub fn tell_roster_in<S: Shelf>(
    alloc: Global,
    shelf: &mut S,
    prose: &mut Prose,
    name: &str,
    problem: &Problem,
) -> Result<Option<Roster>, Memory>
    requires name { IsName name.now }
    ensures kept { S.holds shelf.new ≡ S.holds shelf.old }
    ensures valid { IfOk result (λ found. ForSome found (IsRoster problem.now)) }
{
    match shelf.read(alloc, name, 67_108_864) {
        Ok(text) => roster_of(alloc, prose, problem, text),
        Err(fault) => {
            tell_trouble(prose, name, fault)?;
            Ok(None)
        }
    }
}

/// The month in a folder and its roster; where one of them is not there, why is appended. No file is written.
pub fn tell_award<S: Shelf>(
    alloc: Global,
    shelf: &mut S,
    prose: &mut Prose,
) -> Result<Option<Award>, Memory>
    ensures kept { S.holds shelf.new ≡ S.holds shelf.old }
    ensures valid { IfOk result (λ found. ForSome found (λ award.
        IsRoster award.problem award.roster)) }
{
    let Some(problem) = tell_month(alloc, shelf, prose)? else {
        return Ok(None);
    };
    match tell_roster_in(alloc, shelf, prose, "roster.csv", &problem)? {
        Some(roster) => Ok(Some(Award { problem, roster })),
        None => Ok(None),
    }
}
