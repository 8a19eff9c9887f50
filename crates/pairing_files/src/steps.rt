//! One row of each file, after the rows before it.
ghost use Rattle.std.specs.Prelude.{◌≡◌, ◌≢◌, [], ◌∷◌, ◌≤◌, ◌<◌, length, true, Ok, Err, OnOk, IfOk, IfErr, IfSome, slice_get, option_copied, Some};
ghost use Rattle.std.specs.List.{list_all};
ghost use Rattle.std.specs.Result.{result_map_both};
ghost use Rattle.csv.specs.Records.{fields_of};
ghost use Rattle.field_text.specs.Sizes.{longest};
ghost use Rattle.field_text.specs.Records.{AreWithin};
ghost use Rattle.field_text.specs.declared.file_fault.FileCode.TheVariants.{NoMemory};
ghost use Rattle.pairing_files.specs.Drafts.{draft_of, place_of, IsNamed};
ghost use Rattle.pairing_files.specs.Faults.{numbered};
ghost use Rattle.pairing_files.specs.Files.{pairing_row, duty_row, leg_row, place_pairing, place_duty, place_leg};
ghost use Rattle.field_text.specs.Rows.{text_row};

use crate::fault::{duty_fault, leg_fault};
use crate::row::{DutyRow, LegRow, duty_columns, leg_columns, pairing_columns};
use crate::tables::Tables;
use csv::{ByteRecord, StringRecord};
use duty_calendar::{Duty, Horizon, Pairing};
use field_text::{FileCode, as_text};
use std::alloc::Global;

/// A record of so many fields as text.
fn text_of(raw: ByteRecord, width: usize) -> Result<StringRecord, FileCode>
    ensures value { result_map_both fields_of (λ e. e) result
        ≡ text_row width (fields_of raw) (Ok (fields_of raw)) }
{
    let row = as_text(raw)?;
    if row.len() != width {
        return Err(FileCode::Width);
    }
    Ok(row)
}

/// Adds a pairing, where nothing is wrong with it.
fn place_pairing(alloc: Global, tables: &mut Tables, pairing: Pairing) -> Result<(), FileCode>
    requires named { IsNamed tables.old }
    ensures ok { OnOk result (place_pairing (draft_of tables.old) pairing
        ≡ Ok (draft_of tables.new)) }
    ensures fault { IfErr result (λ e. e ≢ NoMemory
        → place_pairing (draft_of tables.old) pairing ≡ Err e) }
    ensures named { OnOk result (IsNamed tables.new) }
{
    if let Some(code) = tables.pairing_fault(&pairing) {
        return Err(code);
    }
    tables.add_pairing(alloc, pairing)
}

/// Adds the pairing of a row.
pub fn add_pairing_row(alloc: Global, tables: &mut Tables, raw: ByteRecord) -> Result<(), FileCode>
    requires short { AreWithin longest (fields_of raw) }
    requires named { IsNamed tables.old }
    ensures ok { OnOk result (pairing_row (draft_of tables.old) (fields_of raw)
        ≡ Ok (draft_of tables.new)) }
    ensures fault { IfErr result (λ e. e ≢ NoMemory
        → pairing_row (draft_of tables.old) (fields_of raw) ≡ Err e) }
    ensures named { OnOk result (IsNamed tables.new) }
{
    let row = text_of(raw, 3)?;
    let pairing = pairing_columns(alloc, &row)?;
    place_pairing(alloc, tables, pairing)
}

/// The pairing at a place, if there is one.
fn pairing_at(tables: &Tables, place: usize) -> Option<&Pairing>
    ensures value { option_copied result ≡ slice_get tables.now.list place }
{
    tables.list.as_slice().get(place)
}

/// The duty of a number, from 1.
fn numbered(duties: &[Duty], number: u32) -> Option<&Duty>
    ensures value { option_copied result ≡ numbered duties.now number }
    ensures within { IfSome result (λ _. (1 ≤ number) × (number ≤ length duties.now)) }
{
    if number == 0 {
        return None;
    }
    duties.get(number as usize - 1)
}

/// Adds a duty, where nothing is wrong with it.
fn place_duty(tables: &mut Tables, row: DutyRow, horizon: &Horizon) -> Result<(), FileCode>
    requires named { IsNamed tables.old }
    ensures ok { OnOk result (place_duty horizon.now (draft_of tables.old) row
        ≡ Ok (draft_of tables.new)) }
    ensures fault { IfErr result (λ e. e ≢ NoMemory
        → place_duty horizon.now (draft_of tables.old) row ≡ Err e) }
    ensures named { OnOk result (IsNamed tables.new) }
{
    let Some(place) = tables.place_of(&row.name) else {
        return Err(FileCode::Unknown);
    };
    let Some(pairing) = pairing_at(tables, place) else {
        return Err(FileCode::Unknown);
    };
    if let Some(code) = duty_fault(horizon, pairing, row.number, &row.duty) {
        return Err(code);
    }
    tables.add_duty(place, row.duty)
}

/// Adds the duty of a row.
pub fn add_duty_row(
    alloc: Global,
    tables: &mut Tables,
    raw: ByteRecord,
    horizon: &Horizon,
) -> Result<(), FileCode>
    requires short { AreWithin longest (fields_of raw) }
    requires named { IsNamed tables.old }
    ensures ok { OnOk result (duty_row horizon.now (draft_of tables.old) (fields_of raw)
        ≡ Ok (draft_of tables.new)) }
    ensures fault { IfErr result (λ e. e ≢ NoMemory
        → duty_row horizon.now (draft_of tables.old) (fields_of raw) ≡ Err e) }
    ensures named { OnOk result (IsNamed tables.new) }
{
    let row = text_of(raw, 6)?;
    let read = duty_columns(alloc, &row, horizon)?;
    place_duty(tables, read, horizon)
}

/// Adds a leg, where nothing is wrong with it.
fn place_leg(tables: &mut Tables, row: &LegRow) -> Result<(), FileCode>
    requires named { IsNamed tables.old }
    ensures ok { OnOk result (place_leg (draft_of tables.old) row.now
        ≡ Ok (draft_of tables.new)) }
    ensures fault { IfErr result (λ e. e ≢ NoMemory
        → place_leg (draft_of tables.old) row.now ≡ Err e) }
    ensures named { OnOk result (IsNamed tables.new) }
{
    let Some(place) = tables.place_of(&row.name) else {
        return Err(FileCode::Unknown);
    };
    let Some(pairing) = pairing_at(tables, place) else {
        return Err(FileCode::Unknown);
    };
    let Some(duty) = numbered(pairing.duties.as_slice(), row.number) else {
        return Err(FileCode::Unknown);
    };
    if let Some(code) = leg_fault(duty, &row.leg) {
        return Err(code);
    }
    tables.add_leg(place, row.number as usize - 1, row.leg)
}

/// Adds the leg of a row.
pub fn add_leg_row(tables: &mut Tables, raw: ByteRecord, horizon: &Horizon) -> Result<(), FileCode>
    requires short { AreWithin longest (fields_of raw) }
    requires named { IsNamed tables.old }
    ensures ok { OnOk result (leg_row horizon.now (draft_of tables.old) (fields_of raw)
        ≡ Ok (draft_of tables.new)) }
    ensures fault { IfErr result (λ e. e ≢ NoMemory
        → leg_row horizon.now (draft_of tables.old) (fields_of raw) ≡ Err e) }
    ensures named { OnOk result (IsNamed tables.new) }
{
    let row = text_of(raw, 6)?;
    let read = leg_columns(&row, horizon)?;
    place_leg(tables, &read)
}
