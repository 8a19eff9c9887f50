//! The rows of `crew.csv`.
ghost use Rattle.std.specs.Prelude.{◌≡◌, ◌≢◌, ◌≤◌, ◌+◌, length, true, false, Ok, Err, IfErr, OnOk, ◌++◌, ◌∷◌, []};
ghost use Rattle.csv.specs.Records.{fields_of};
ghost use Rattle.field_text.specs.Sizes.{longest};
ghost use Rattle.field_text.specs.Records.{AreWithin};
ghost use Rattle.field_text.specs.Rows.{Fails, rows_from, same_record};
ghost use Rattle.field_text.specs.declared.file_fault.FileName.TheVariants as file;
ghost use Rattle.field_text.specs.declared.file_fault.FileCode.TheVariants.{NoMemory};
ghost use Rattle.crew_files.specs.Crew.{crew_header, crew_row, crew_columns, member_checked, is_named, new_member};
ghost use Rattle.crew_files.specs.Files.{crew_file};

use crate::crew::Crew;
use csv::ByteRecord;
use duty_calendar::Name;
use field_text::{
    FileCode, FileFault, FileName, Records, as_text, at_row, field_is, in_column, next,
    read_minutes, read_name, text_at,
};
use std::alloc::Global;

/// How many members there are at most.
const MEMBERS: usize = 200;

/// The greatest credit in minutes of a month, a pairing or an event.
pub const CREDIT: u32 = 12_000;

/// The numbers of the limits on members and on credit.
const MEMBERS_LIMIT: u32 = 1;

pub const CREDIT_LIMIT: u32 = 6;

/// Whether a member may come after those that are there.
fn check_member(crew: &Crew, name: &Name, low: u32, high: u32) -> Result<(), FileCode>
    ensures ok { OnOk result (member_checked crew.now name.now low high
        ≡ Ok (crew.now ++ new_member name.now low high ∷ [])) }
    ensures new { OnOk result (is_named name.now crew.now ≡ false) }
    ensures fault { IfErr result (λ e. member_checked crew.now name.now low high ≡ Err e) }
{
    if crew.is_named(name) {
        return Err(FileCode::Duplicate);
    }
    if low > high {
        return Err(FileCode::Order);
    }
    if crew.len() >= MEMBERS {
        return Err(FileCode::Limit(MEMBERS_LIMIT));
    }
    if high > CREDIT {
        return Err(FileCode::Limit(CREDIT_LIMIT));
    }
    Ok(())
}

/// Adds the member that three fields name.
fn add_member(
    alloc: Global,
    crew: &mut Crew,
    name: &str,
    low: &str,
    high: &str,
) -> Result<(), FileCode>
    requires name_short { length name.now ≤ longest }
    requires low_short { length low.now ≤ longest }
    requires high_short { length high.now ≤ longest }
    ensures ok { OnOk result (crew_columns crew.old name.now low.now high.now ≡ Ok crew.new) }
    ensures fault { IfErr result (λ e. e ≢ NoMemory
        → crew_columns crew.old name.now low.now high.now ≡ Err e) }
{
    let name = in_column(1, read_name(name))?;
    let low = in_column(2, read_minutes(low))?;
    let high = in_column(3, read_minutes(high))?;
    check_member(crew, &name, low, high)?;
    crew.push(alloc, name, low, high)
}

/// Adds the member of a row.
fn add_row(alloc: Global, crew: &mut Crew, raw: ByteRecord) -> Result<(), FileCode>
    requires short { AreWithin longest (fields_of raw) }
    ensures ok { OnOk result (crew_row crew.old (fields_of raw) ≡ Ok crew.new) }
    ensures fault { IfErr result (λ e. e ≢ NoMemory → crew_row crew.old (fields_of raw) ≡ Err e) }
{
    let row = as_text(raw)?;
    if row.len() != 3 {
        return Err(FileCode::Width);
    }
    add_member(
        alloc,
        crew,
        text_at(&row, 0),
        text_at(&row, 1),
        text_at(&row, 2),
    )
}

/// Adds the members of the rows from the second on.
fn read_rows(alloc: Global, crew: &mut Crew, records: &mut Records<'_>) -> Result<(), FileFault>
    requires few { length records.old ≤ longest }
    ensures ok { OnOk result (rows_from file.Crew crew_row 2 crew.old records.old ≡ Ok crew.new) }
    ensures fault { IfErr result (λ e. Fails e.code e
        (rows_from file.Crew crew_row 2 crew.old records.old)) }
    ensures no_row { IfErr result (λ e. e.code ≡ NoMemory → e.row ≡ 0) }
    ensures named_file { IfErr result (λ e. e.file ≡ file.Crew) }
{
    let mut row = 2;
    'rows: while let Some(record) = next(alloc, FileName::Crew, records)? {
        match add_row(alloc, crew, record) {
            Ok(()) => row += 1,
            Err(code) => return Err(at_row(FileName::Crew, row, code)),
        }
    }
    Ok(())
}

/// Whether a record is the header of `crew.csv`.
fn is_header(row: &ByteRecord) -> bool
    ensures value { result ≡ same_record (fields_of row.now) crew_header }
{
    if row.len() != 3 {
        return false;
    }
    if !field_is(row, 0, b"member".as_slice()) {
        return false;
    }
    if !field_is(row, 1, b"low".as_slice()) {
        return false;
    }
    field_is(row, 2, b"high".as_slice())
}

/// Adds the members of `crew.csv`, without their events.
pub fn read_crew(alloc: Global, text: &[u8], crew: &mut Crew) -> Result<(), FileFault>
    requires short { length text.now ≤ longest }
    ensures ok { OnOk result (crew_file text.now crew.old ≡ Ok crew.new) }
    ensures fault { IfErr result (λ e. Fails e.code e (crew_file text.now crew.old)) }
    ensures no_row { IfErr result (λ e. e.code ≡ NoMemory → e.row ≡ 0) }
    ensures named_file { IfErr result (λ e. e.file ≡ file.Crew) }
{
    let mut records = Records::new(alloc, text);
    let Some(header) = next(alloc, FileName::Crew, &mut records)? else {
        return Err(at_row(FileName::Crew, 1, FileCode::Header));
    };
    if !is_header(&header) {
        return Err(at_row(FileName::Crew, 1, FileCode::Header));
    }
    read_rows(alloc, crew, &mut records)
}
