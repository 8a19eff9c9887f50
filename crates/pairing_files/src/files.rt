//! The rows of each file, one after another.
ghost use Rattle.std.specs.Prelude.{◌≡◌, ◌≢◌, ◌≤◌, ◌<◌, ◌+◌, [], ◌∷◌, length, map, true, false, IfOk, IfErr, OnOk, MatchResult};
ghost use Rattle.csv.specs.Records.{fields_of};
ghost use Rattle.field_text.specs.Sizes.{longest};
ghost use Rattle.field_text.specs.Rows.{file, rows_from, same_record};
ghost use Rattle.field_text.specs.declared.file_fault.FileCode.TheVariants.{NoMemory};
ghost use Rattle.field_text.specs.declared.file_fault.FileName.TheVariants.{Pairings, Duties, Legs};
ghost use Rattle.pairing_files.specs.Columns.{pairings_header, duties_header, legs_header};
ghost use Rattle.pairing_files.specs.Drafts.{draft_of, IsNamed};
ghost use Rattle.pairing_files.specs.Files.{pairing_row, duty_row, leg_row, pairings_file, duties_file, legs_file};
ghost use Rattle.pairing_files.specs.Steps.{Adds, BeginsWith, IsHeaderFault};

use crate::steps::{add_duty_row, add_leg_row, add_pairing_row};
use crate::tables::Tables;
use csv::ByteRecord;
use duty_calendar::Horizon;
use field_text::{FileCode, FileFault, FileName, Records, at_row, bytes_at, next};
use std::alloc::Global;

static PAIRINGS_HEADER: [&[u8]; 3] = [b"pairing", b"need", b"credit"];

static DUTIES_HEADER: [&[u8]; 6] = [
    b"pairing", b"no", b"report", b"parked", b"release", b"layover",
];

static LEGS_HEADER: [&[u8]; 6] = [b"pairing", b"no", b"from", b"to", b"out", b"in"];

/// Whether the record has just these fields.
fn has_fields(row: &ByteRecord, header: &[&[u8]]) -> bool
    ensures value { result ≡ same_record (fields_of row.now) (map (λ f. f.now) header.now) }
{
    if row.len() != header.len() {
        return false;
    }
    for (i, field) in header.iter().enumerate() {
        if bytes_at(row, i) != *field {
            return false;
        }
    }
    true
}

/// Takes the header off.
fn read_header(
    alloc: Global,
    file: FileName,
    records: &mut Records<'_>,
    header: &[&[u8]],
) -> Result<(), FileFault>
    ensures there { OnOk result (BeginsWith (map (λ f. f.now) header.now) records.old records.new) }
    ensures fault { IfErr result (λ e. e.code ≢ NoMemory
        → IsHeaderFault file (map (λ f. f.now) header.now) records.old e) }
    ensures no_row { IfErr result (λ e. e.code ≡ NoMemory → e.row ≡ 0) }
    ensures named_file { IfErr result (λ e. e.file ≡ file) }
{
    let Some(row) = next(alloc, file, records)? else {
        return Err(at_row(file, 1, FileCode::Header));
    };
    if !has_fields(&row, header) {
        return Err(at_row(file, 1, FileCode::Header));
    }
    Ok(())
}

/// The rows of pairings from the second on.
fn read_pairing_rows(
    alloc: Global,
    tables: &mut Tables,
    records: &mut Records<'_>,
) -> Result<(), FileFault>
    requires short { length records.old ≤ longest }
    requires named { IsNamed tables.old }
    ensures rows { Adds tables.old tables.new result
        (λ d. rows_from Pairings pairing_row 2 d records.old) }
    ensures named { OnOk result (IsNamed tables.new) }
    ensures no_row { IfErr result (λ e. e.code ≡ NoMemory → e.row ≡ 0) }
    ensures named_file { IfErr result (λ e. e.file ≡ Pairings) }
{
    let mut row = 2;
    'rows: while let Some(raw) = next(alloc, FileName::Pairings, records)? {
        if let Err(code) = add_pairing_row(alloc, tables, raw) {
            return Err(at_row(FileName::Pairings, row, code));
        }
        row += 1;
    }
    Ok(())
}

/// The rows of duties from the second on.
fn read_duty_rows(
    alloc: Global,
    tables: &mut Tables,
    records: &mut Records<'_>,
    horizon: &Horizon,
) -> Result<(), FileFault>
    requires short { length records.old ≤ longest }
    requires named { IsNamed tables.old }
    ensures rows { Adds tables.old tables.new result
        (λ d. rows_from Duties (duty_row horizon.now) 2 d records.old) }
    ensures named { OnOk result (IsNamed tables.new) }
    ensures no_row { IfErr result (λ e. e.code ≡ NoMemory → e.row ≡ 0) }
    ensures named_file { IfErr result (λ e. e.file ≡ Duties) }
{
    let mut row = 2;
    'rows: while let Some(raw) = next(alloc, FileName::Duties, records)? {
        if let Err(code) = add_duty_row(alloc, tables, raw, horizon) {
            return Err(at_row(FileName::Duties, row, code));
        }
        row += 1;
    }
    Ok(())
}

/// The rows of legs from the second on.
fn read_leg_rows(
    alloc: Global,
    tables: &mut Tables,
    records: &mut Records<'_>,
    horizon: &Horizon,
) -> Result<(), FileFault>
    requires short { length records.old ≤ longest }
    requires named { IsNamed tables.old }
    ensures rows { Adds tables.old tables.new result
        (λ d. rows_from Legs (leg_row horizon.now) 2 d records.old) }
    ensures named { OnOk result (IsNamed tables.new) }
    ensures no_row { IfErr result (λ e. e.code ≡ NoMemory → e.row ≡ 0) }
    ensures named_file { IfErr result (λ e. e.file ≡ Legs) }
{
    let mut row = 2;
    'rows: while let Some(raw) = next(alloc, FileName::Legs, records)? {
        if let Err(code) = add_leg_row(tables, raw, horizon) {
            return Err(at_row(FileName::Legs, row, code));
        }
        row += 1;
    }
    Ok(())
}

/// The records of pairings: the header, and the rows.
fn read_pairing_records(
    alloc: Global,
    tables: &mut Tables,
    records: &mut Records<'_>,
) -> Result<(), FileFault>
    requires short { length records.old ≤ longest + 1 }
    requires named { IsNamed tables.old }
    ensures file { Adds tables.old tables.new result
        (λ d. file Pairings pairings_header pairing_row d records.old) }
    ensures named { OnOk result (IsNamed tables.new) }
    ensures no_row { IfErr result (λ e. e.code ≡ NoMemory → e.row ≡ 0) }
    ensures named_file { IfErr result (λ e. e.file ≡ Pairings) }
{
    if let Err(fault) = read_header(alloc, FileName::Pairings, records, &PAIRINGS_HEADER) {
        return Err(fault);
    }
    read_pairing_rows(alloc, tables, records)
}

/// The file of pairings.
pub fn read_pairing_file(alloc: Global, tables: &mut Tables, text: &[u8]) -> Result<(), FileFault>
    requires short { length text.now ≤ longest }
    requires named { IsNamed tables.old }
    ensures file { Adds tables.old tables.new result (pairings_file text.now) }
    ensures named { OnOk result (IsNamed tables.new) }
    ensures no_row { IfErr result (λ e. e.code ≡ NoMemory → e.row ≡ 0) }
    ensures named_file { IfErr result (λ e. e.file ≡ Pairings) }
{
    let mut records = Records::new(alloc, text);
    read_pairing_records(alloc, tables, &mut records)
}

/// The records of duties: the header, and the rows.
fn read_duty_records(
    alloc: Global,
    tables: &mut Tables,
    records: &mut Records<'_>,
    horizon: &Horizon,
) -> Result<(), FileFault>
    requires short { length records.old ≤ longest + 1 }
    requires named { IsNamed tables.old }
    ensures file { Adds tables.old tables.new result
        (λ d. file Duties duties_header (duty_row horizon.now) d records.old) }
    ensures named { OnOk result (IsNamed tables.new) }
    ensures no_row { IfErr result (λ e. e.code ≡ NoMemory → e.row ≡ 0) }
    ensures named_file { IfErr result (λ e. e.file ≡ Duties) }
{
    if let Err(fault) = read_header(alloc, FileName::Duties, records, &DUTIES_HEADER) {
        return Err(fault);
    }
    read_duty_rows(alloc, tables, records, horizon)
}

/// The file of duties, after that of pairings.
pub fn read_duty_file(
    alloc: Global,
    tables: &mut Tables,
    text: &[u8],
    horizon: &Horizon,
) -> Result<(), FileFault>
    requires short { length text.now ≤ longest }
    requires named { IsNamed tables.old }
    ensures file { Adds tables.old tables.new result (duties_file horizon.now text.now) }
    ensures named { OnOk result (IsNamed tables.new) }
    ensures no_row { IfErr result (λ e. e.code ≡ NoMemory → e.row ≡ 0) }
    ensures named_file { IfErr result (λ e. e.file ≡ Duties) }
{
    let mut records = Records::new(alloc, text);
    read_duty_records(alloc, tables, &mut records, horizon)
}

/// The records of legs: the header, and the rows.
fn read_leg_records(
    alloc: Global,
    tables: &mut Tables,
    records: &mut Records<'_>,
    horizon: &Horizon,
) -> Result<(), FileFault>
    requires short { length records.old ≤ longest + 1 }
    requires named { IsNamed tables.old }
    ensures file { Adds tables.old tables.new result
        (λ d. file Legs legs_header (leg_row horizon.now) d records.old) }
    ensures named { OnOk result (IsNamed tables.new) }
    ensures no_row { IfErr result (λ e. e.code ≡ NoMemory → e.row ≡ 0) }
    ensures named_file { IfErr result (λ e. e.file ≡ Legs) }
{
    if let Err(fault) = read_header(alloc, FileName::Legs, records, &LEGS_HEADER) {
        return Err(fault);
    }
    read_leg_rows(alloc, tables, records, horizon)
}

/// The file of legs, after the other two.
pub fn read_leg_file(
    alloc: Global,
    tables: &mut Tables,
    text: &[u8],
    horizon: &Horizon,
) -> Result<(), FileFault>
    requires short { length text.now ≤ longest }
    requires named { IsNamed tables.old }
    ensures file { Adds tables.old tables.new result (legs_file horizon.now text.now) }
    ensures named { OnOk result (IsNamed tables.new) }
    ensures no_row { IfErr result (λ e. e.code ≡ NoMemory → e.row ≡ 0) }
    ensures named_file { IfErr result (λ e. e.file ≡ Legs) }
{
    let mut records = Records::new(alloc, text);
    read_leg_records(alloc, tables, &mut records, horizon)
}
