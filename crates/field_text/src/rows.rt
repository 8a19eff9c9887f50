//! Records, and the fields of a record.
ghost use Rattle.std.specs.Prelude.{◌≡◌, ◌≢◌, ◌≤◌, ◌<◌, [], length, get_or, IfOk, IfErr, is_ok};
ghost use Rattle.std.specs.List.{list_all};
ghost use Rattle.std.specs.Str.{is_utf8, bytes_eq};
ghost use Rattle.csv.specs.Records.{fields_of};
ghost use Rattle.field_text.specs.Sizes.{longest};
ghost use Rattle.field_text.specs.Records.{AreWithin, IfRow, Takes};
ghost use Rattle.field_text.specs.Rows.{in_column};
ghost use Rattle.field_text.specs.declared.file_fault.FileCode.TheVariants.{NoMemory, Utf8};

use crate::field_fault::FieldFault;
use crate::file_fault::{FileCode, FileFault, FileName};
use crate::records::Records;
use csv::{ByteRecord, StringRecord};
use std::alloc::Global;

/// The record as text, where each of its fields is UTF-8.
pub fn as_text(row: ByteRecord) -> Result<StringRecord, FileCode>
    ensures fields { IfOk result (λ text. fields_of text ≡ fields_of row) }
    ensures utf8 { is_ok result ≡ list_all is_utf8 (fields_of row) }
    ensures fault { IfErr result (λ e. e ≡ Utf8) }
{
    match StringRecord::from_byte_record(row) {
        Ok(text) => Ok(text),
        Err(_) => Err(FileCode::Utf8),
    }
}

/// The text of a field, counted from 0.
pub fn text_at(row: &StringRecord, i: usize) -> &str
    requires in_range { i < length (fields_of row.now) }
    requires short { AreWithin longest (fields_of row.now) }
    ensures value { result.now ≡ get_or (fields_of row.now) i [] }
    ensures short { length result.now ≤ longest }
{
    match row.get(i) {
        Some(field) => field,
        None => unreachable!(),
    }
}

/// The bytes of a field, counted from 0.
pub fn bytes_at(row: &ByteRecord, i: usize) -> &[u8]
    requires in_range { i < length (fields_of row.now) }
    ensures value { result.now ≡ get_or (fields_of row.now) i [] }
{
    match row.get(i) {
        Some(field) => field,
        None => unreachable!(),
    }
}

/// Whether a field, counted from 0, is this word.
pub fn field_is(row: &ByteRecord, i: usize, word: &[u8]) -> bool
    requires in_range { i < length (fields_of row.now) }
    ensures value { result ≡ bytes_eq (get_or (fields_of row.now) i []) word.now }
{
    bytes_at(row, i) == word
}

/// A field's fault with its column, from 1.
pub fn in_column<T>(column: u32, read: Result<T, FieldFault>) -> Result<T, FileCode>
    ensures value { result ≡ in_column column read }
{
    match read {
        Ok(value) => Ok(value),
        Err(fault) => Err(FileCode::Field(column, fault)),
    }
}

/// A row's fault with its file and its number. Want of memory is no fault of a row: it is of row 0.
pub fn at_row(file: FileName, row: u32, code: FileCode) -> FileFault
    ensures code { result.code ≡ code }
    ensures file { result.file ≡ file }
    ensures value { code ≢ NoMemory → result ≡ record { file = file; row = row; code = code } }
    ensures no_row { result.code ≡ NoMemory → result.row ≡ 0 }
{
    if matches!(code, FileCode::NoMemory) {
        return FileFault { file, row: 0, code };
    }
    FileFault { file, row, code }
}

/// The next record of a file, if there is one. After an error no record is left.
pub fn next(
    alloc: Global,
    file: FileName,
    records: &mut Records<'_>,
) -> Result<Option<ByteRecord>, FileFault>
    ensures next { IfOk result (Takes records.old records.new) }
    ensures short { IfOk result (IfRow (AreWithin longest)) }
    ensures memory { IfErr result (λ e. e ≡ record { file = file; row = 0; code = NoMemory }) }
    ensures ended { IfErr result (λ _. records.new ≡ []) }
{
    match records.read(alloc) {
        Ok(next) => Ok(next),
        Err(_) => Err(FileFault {
            file,
            row: 0,
            code: FileCode::NoMemory,
        }),
    }
}
