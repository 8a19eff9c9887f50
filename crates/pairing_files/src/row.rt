//! What the columns of a row say by themselves.
ghost use Rattle.std.specs.Prelude.{◌≡◌, ◌≢◌, [], ◌∷◌, ◌≤◌, length, option_map};
ghost use Rattle.csv.specs.Records.{fields_of};
ghost use Rattle.field_text.specs.Sizes.{longest};
ghost use Rattle.field_text.specs.Records.{AreWithin};
ghost use Rattle.pairing_files.specs.Columns.{layover_field, pairing_columns, duty_columns, leg_columns};

use csv::StringRecord;
use duty_calendar::{Duty, Flown, Horizon, Leg, List, Name, Pairing, Station};
use field_text::{
    FieldFault, FileCode, in_column, read_minutes, read_moment, read_name, read_number,
    read_station, text_at,
};
use std::alloc::Global;

/// A duty without legs, with its pairing's name and its number in the pairing, from 1.
#[derive(Drop)]
pub struct DutyRow {
    pub name: Name,
    pub number: u32,
    pub duty: Duty,
}

/// A leg, with its pairing's name and its duty's number in the pairing, from 1.
#[derive(Drop)]
pub struct LegRow {
    pub name: Name,
    pub number: u32,
    pub leg: Leg,
}

/// A station, or none where the field is empty.
fn read_layover(text: &str) -> Result<Option<Station>, FieldFault>
    requires short { length text.now ≤ longest }
    ensures value { result ≡ layover_field text.now }
{
    if text.is_empty() {
        return Ok(None);
    }
    match read_station(text) {
        Ok(station) => Ok(Some(station)),
        Err(fault) => Err(fault),
    }
}

/// The pairing of a row, without duties.
pub fn pairing_columns(alloc: Global, row: &StringRecord) -> Result<Pairing, FileCode>
    requires width { length (fields_of row.now) ≡ 3 }
    requires short { AreWithin longest (fields_of row.now) }
    ensures value { result ≡ pairing_columns (fields_of row.now) }
{
    let name = in_column(1, read_name(text_at(row, 0)))?;
    let need = in_column(2, read_number(text_at(row, 1)))?;
    let credit = in_column(3, read_minutes(text_at(row, 2)))?;
    Ok(Pairing {
        name,
        need,
        credit,
        duties: List::new(alloc),
    })
}

/// The duty of a row, without legs.
pub fn duty_columns(
    alloc: Global,
    row: &StringRecord,
    horizon: &Horizon,
) -> Result<DutyRow, FileCode>
    requires width { length (fields_of row.now) ≡ 6 }
    requires short { AreWithin longest (fields_of row.now) }
    ensures value { result ≡ duty_columns horizon.now (fields_of row.now) }
{
    let name = in_column(1, read_name(text_at(row, 0)))?;
    let number = in_column(2, read_number(text_at(row, 1)))?;
    let report = in_column(3, read_moment(text_at(row, 2), horizon))?;
    let parked = in_column(4, read_moment(text_at(row, 3), horizon))?;
    let release = in_column(5, read_moment(text_at(row, 4), horizon))?;
    let layover = in_column(6, read_layover(text_at(row, 5)))?;
    let legs = List::new(alloc);
    Ok(DutyRow {
        name,
        number,
        duty: Duty {
            report,
            parked,
            release,
            layover,
            legs,
        },
    })
}

/// The leg of a row.
pub fn leg_columns(row: &StringRecord, horizon: &Horizon) -> Result<LegRow, FileCode>
    requires width { length (fields_of row.now) ≡ 6 }
    requires short { AreWithin longest (fields_of row.now) }
    ensures value { result ≡ leg_columns horizon.now (fields_of row.now) }
{
    let name = in_column(1, read_name(text_at(row, 0)))?;
    let number = in_column(2, read_number(text_at(row, 1)))?;
    let from = in_column(3, read_station(text_at(row, 2)))?;
    let to = in_column(4, read_station(text_at(row, 3)))?;
    let out_at = in_column(5, read_moment(text_at(row, 4), horizon))?;
    let in_at = in_column(6, read_moment(text_at(row, 5), horizon))?;
    let flown = Flown { out_at, in_at };
    Ok(LegRow {
        name,
        number,
        leg: Leg { from, to, flown },
    })
}
