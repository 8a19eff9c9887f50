//! How a run ends, and what it prints, where a file was not read or the inputs name no problem.
ghost use Rattle.std.specs.Prelude.{◌≡◌, [], ◌∷◌, ◌++◌, IfOk};
ghost use Rattle.bid_language.specs.Codes.{bid_code};
ghost use Rattle.month_files.specs.declared.file.File.TheVariants.{Rules, Bids};
ghost use Rattle.answer_texts.specs.Lines.{line, line_of, numbers};
ghost use Rattle.answer_texts.specs.MonthEnds.{unread_status, unread_text, input_status, bad_input_text, field_numbers, code_numbers, csv_file, bad_words, rule_text, input_text};

use crate::lines::{named, numbered, put_numbers};
use crate::status::Status;
use bid_language::BidFault;
use duty_calendar::{List, Memory};
use field_text::{FieldFault, FileCode, FileFault, FileName, put_bytes};
use month_files::{BadInput, File, InputFault, Unread};
use rules_file::{Key, RuleFault};
use std::alloc::Global;

/// How a run ends where a file was not read.
pub fn unread_status(why: Unread) -> Status
    ensures value { result ≡ unread_status why }
{
    match why {
        Unread::Missing(_) => Status::Missing,
        Unread::ReadFault(_) => Status::ReadFault,
        Unread::TooLong(_) => Status::TooLong,
        Unread::NoMemory => Status::NoMemory,
    }
}

/// How a run ends where the inputs name no problem.
pub fn input_status(why: &BadInput) -> Status
    ensures value { result ≡ input_status why.now }
{
    match why {
        BadInput::Fault(_) => Status::BadInput,
        BadInput::NoMemory => Status::NoMemory,
    }
}

/// The line of a file that was not read.
pub fn unread_text(alloc: Global, why: Unread) -> Result<List<u8>, Memory>
    ensures value { IfOk result (λ t. t ≡ unread_text why) }
{
    match why {
        Unread::Missing(file) => named(alloc, b"missing ", file),
        Unread::ReadFault(file) => named(alloc, b"read fault ", file),
        Unread::TooLong(file) => named(alloc, b"too long ", file),
        Unread::NoMemory => Ok(List::new(alloc)),
    }
}

/// The file of records that has a fault.
fn csv_file(name: FileName) -> File
    ensures value { result ≡ csv_file name }
{
    match name {
        FileName::Pairings => File::Pairings,
        FileName::Duties => File::Duties,
        FileName::Legs => File::Legs,
        FileName::Crew => File::Crew,
        FileName::History => File::History,
        FileName::Fixed => File::Fixed,
    }
}

/// The words before a fault's numbers.
fn bad_words(alloc: Global, file: File) -> Result<List<u8>, Memory>
    ensures value { IfOk result (λ t. t ≡ bad_words file) }
{
    let mut out = List::new(alloc);
    put_bytes(&mut out, b"bad ")?;
    put_bytes(&mut out, file.name().as_bytes())?;
    Ok(out)
}

/// The line of a field's fault.
fn field_line(
    alloc: Global,
    word: &[u8],
    row: u64,
    column: u64,
    why: FieldFault,
) -> Result<List<u8>, Memory>
    ensures value { IfOk result (λ t. t ≡ line_of word.now (row ∷ 4 ∷ column ∷ field_numbers why)) }
{
    match why {
        FieldFault::Empty => numbered(alloc, word, &[row, 4, column, 1]),
        FieldFault::Shape(at) => numbered(alloc, word, &[row, 4, column, 2, u64::from(at)]),
        FieldFault::Range => numbered(alloc, word, &[row, 4, column, 3]),
        FieldFault::NoSuchDay => numbered(alloc, word, &[row, 4, column, 4]),
        FieldFault::OutsideHorizon => numbered(alloc, word, &[row, 4, column, 5]),
    }
}

/// The line of a row's fault.
fn row_line(alloc: Global, word: &[u8], row: u64, code: FileCode) -> Result<List<u8>, Memory>
    ensures value { IfOk result (λ t. t ≡ line_of word.now (row ∷ code_numbers code)) }
{
    match code {
        FileCode::NoMemory => numbered(alloc, word, &[row, 0]),
        FileCode::Header => numbered(alloc, word, &[row, 1]),
        FileCode::Utf8 => numbered(alloc, word, &[row, 2]),
        FileCode::Width => numbered(alloc, word, &[row, 3]),
        FileCode::Field(column, why) => field_line(alloc, word, row, u64::from(column), why),
        FileCode::Duplicate => numbered(alloc, word, &[row, 5]),
        FileCode::Unknown => numbered(alloc, word, &[row, 6]),
        FileCode::Order => numbered(alloc, word, &[row, 7]),
        FileCode::OutsideMonth => numbered(alloc, word, &[row, 8]),
        FileCode::InnerRest => numbered(alloc, word, &[row, 9]),
        FileCode::Limit(number) => numbered(alloc, word, &[row, 10, u64::from(number)]),
        FileCode::Empty => numbered(alloc, word, &[row, 11]),
    }
}

/// The line of a fault in a file of records.
fn file_line(alloc: Global, fault: &FileFault) -> Result<List<u8>, Memory>
    ensures value { IfOk result (λ t. t ≡ line_of (bad_words (csv_file fault.now.file))
        (fault.now.row ∷ code_numbers fault.now.code)) }
{
    let word = bad_words(alloc, csv_file(fault.file))?;
    row_line(alloc, word.as_slice(), u64::from(fault.row), fault.code)
}

/// The line of a fault of the rules at a key.
fn key_line(alloc: Global, code: u64, key: &Key) -> Result<List<u8>, Memory>
    ensures value { IfOk result (λ t. t ≡ line
        (bad_words Rules ++ numbers (code ∷ []) ++ 32 ∷ key.now)) }
{
    let mut out = bad_words(alloc, File::Rules)?;
    put_numbers(&mut out, &[code])?;
    put_bytes(&mut out, b" ")?;
    put_bytes(&mut out, key.text.as_slice())?;
    put_bytes(&mut out, b"\n")?;
    Ok(out)
}

/// The line of a fault of the rules.
fn rule_line(alloc: Global, fault: &RuleFault) -> Result<List<u8>, Memory>
    ensures value { IfOk result (λ t. t ≡ line (bad_words Rules ++ rule_text fault.now)) }
{
    match fault {
        RuleFault::NoMemory => numbered(alloc, b"bad rules.toml", &[0]),
        RuleFault::NotToml => numbered(alloc, b"bad rules.toml", &[1]),
        RuleFault::MissingKey(key) => key_line(alloc, 2, key),
        RuleFault::UnknownKey(key) => key_line(alloc, 3, key),
        RuleFault::Range(key) => key_line(alloc, 4, key),
    }
}

/// The line of a fault of the bids.
fn bid_line(alloc: Global, fault: &BidFault) -> Result<List<u8>, Memory>
    ensures value { IfOk result (λ t. t ≡ line_of (bad_words Bids)
        (fault.now.line ∷ fault.now.column ∷ bid_code fault.now.code ∷ [])) }
{
    numbered(
        alloc,
        b"bad bids.txt",
        &[
            u64::from(fault.line),
            u64::from(fault.column),
            u64::from(fault.code.code()),
        ],
    )
}

/// The line of the inputs' first fault.
fn input_line(alloc: Global, fault: &InputFault) -> Result<List<u8>, Memory>
    ensures value { IfOk result (λ t. t ≡ input_text fault.now) }
{
    match fault {
        InputFault::Rules(fault) => rule_line(alloc, fault),
        InputFault::Pairings(fault) => file_line(alloc, fault),
        InputFault::Members(fault) => file_line(alloc, fault),
        InputFault::Bids(fault) => bid_line(alloc, fault),
    }
}

/// The line of inputs that name no problem.
pub fn bad_input_text(alloc: Global, why: &BadInput) -> Result<List<u8>, Memory>
    ensures value { IfOk result (λ t. t ≡ bad_input_text why.now) }
{
    match why {
        BadInput::Fault(fault) => input_line(alloc, fault),
        BadInput::NoMemory => Ok(List::new(alloc)),
    }
}
