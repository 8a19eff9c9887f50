//! What is read of a folder for a sentence.
ghost use Rattle.std.specs.Prelude.{◌≡◌};
ghost use Rattle.month_files.specs.Reading.{AreShort, view_texts};

use duty_calendar::Memory;
use field_text::FileName;
use month_files::{BadInput, File, Texts, Unread, read_file, read_month, read_texts};
use plain_answers::Held;
use printed_lines::{Answer, TextFile};
use roster_model::Problem;
use shelf::Shelf;
use std::alloc::Global;

/// The bytes of a file, where it is read.
fn read_some<S: Shelf>(alloc: Global, shelf: &mut S, file: File) -> Result<Option<Vec<u8>>, Memory>
    ensures kept { S.holds shelf.new ≡ S.holds shelf.old }
{
    match read_file(alloc, shelf, file) {
        Ok(bytes) => Ok(Some(bytes)),
        Err(Unread::NoMemory) => Err(Memory::NoMemory),
        Err(Unread::Missing(_)) => Ok(None),
        Err(Unread::ReadFault(_)) => Ok(None),
        Err(Unread::TooLong(_)) => Ok(None),
    }
}

/// The month that texts name, where they name one.
fn month_of(alloc: Global, texts: &Texts) -> Result<Option<Problem>, Memory>
    requires short { AreShort (view_texts texts.now) }
{
    match read_month(alloc, texts) {
        Ok(problem) => Ok(Some(problem)),
        Err(BadInput::NoMemory) => Err(Memory::NoMemory),
        Err(BadInput::Fault(_)) => Ok(None),
    }
}

/// The month in the folder, where there is one.
fn read_problem<S: Shelf>(alloc: Global, shelf: &mut S) -> Result<Option<Problem>, Memory>
    ensures kept { S.holds shelf.new ≡ S.holds shelf.old }
{
    match read_texts(alloc, shelf) {
        Ok(texts) => month_of(alloc, &texts),
        Err(Unread::NoMemory) => Err(Memory::NoMemory),
        Err(Unread::Missing(_)) => Ok(None),
        Err(Unread::ReadFault(_)) => Ok(None),
        Err(Unread::TooLong(_)) => Ok(None),
    }
}

/// A file of rows.
pub fn file_of(name: FileName) -> File {
    match name {
        FileName::Pairings => File::Pairings,
        FileName::Duties => File::Duties,
        FileName::Legs => File::Legs,
        FileName::Crew => File::Crew,
        FileName::History => File::History,
        FileName::Fixed => File::Fixed,
    }
}

/// A file of text.
pub fn text_file_of(name: TextFile) -> File {
    match name {
        TextFile::Certificate => File::Certificate,
        TextFile::Roster => File::Roster,
        TextFile::Reasons => File::Reasons,
        TextFile::Trades => File::Trades,
    }
}

/// The file that an answer is about, where it is about a place in one.
fn file_in(answer: &Answer<'_>) -> Option<File> {
    match answer {
        Answer::Row(fault) => Some(file_of(fault.file)),
        Answer::Rules(_, _) => Some(File::Rules),
        Answer::Bids(_) => Some(File::Bids),
        Answer::OtherBids(_) => Some(File::OtherBids),
        Answer::Text(fault) => Some(text_file_of(fault.file)),
        Answer::Done(_)
        | Answer::File(_, _)
        | Answer::Judged(_)
        | Answer::Denied(_)
        | Answer::Open(_)
        | Answer::Trade(_, _)
        | Answer::Usage
        | Answer::PageUsage => None,
    }
}

/// Whether an answer names pilots or pairings by number.
fn names_numbers(answer: &Answer<'_>) -> bool {
    matches!(
        answer,
        Answer::Judged(_) | Answer::Open(_) | Answer::Trade(_, _)
    )
}

/// The text of the file that an answer is about.
fn read_text<S: Shelf>(
    alloc: Global,
    shelf: &mut S,
    answer: &Answer<'_>,
) -> Result<Option<Vec<u8>>, Memory>
    ensures kept { S.holds shelf.new ≡ S.holds shelf.old }
{
    match file_in(answer) {
        Some(file) => read_some(alloc, shelf, file),
        None => Ok(None),
    }
}

/// The month and the text of its roster.
fn read_named<S: Shelf>(alloc: Global, shelf: &mut S) -> Result<Held, Memory>
    ensures kept { S.holds shelf.new ≡ S.holds shelf.old }
{
    let month = read_problem(alloc, shelf)?;
    let roster = read_some(alloc, shelf, File::Roster)?;
    Ok(Held {
        text: None,
        month,
        roster,
    })
}

/// Reads what the sentence of an answer wants. No file is written.
pub fn read_held<S: Shelf>(
    alloc: Global,
    shelf: &mut S,
    answer: &Answer<'_>,
) -> Result<Held, Memory>
    ensures kept { S.holds shelf.new ≡ S.holds shelf.old }
{
    if names_numbers(answer) {
        return read_named(alloc, shelf);
    }
    let text = read_text(alloc, shelf, answer)?;
    Ok(Held {
        text,
        month: None,
        roster: None,
    })
}
