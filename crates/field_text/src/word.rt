//! Reading names and stations.
ghost use Rattle.std.specs.Prelude.{◌≡◌, ◌≤◌, length, IfNone, IsTrue};
ghost use Rattle.duty_calendar.specs.Forms.{is_name};
ghost use Rattle.field_text.specs.Sizes.{longest};
ghost use Rattle.field_text.specs.Form.{fault_from};
ghost use Rattle.field_text.specs.Fields.{name, name_field, station_field, station_of};

use crate::field_fault::FieldFault;
use crate::form::{Class, row_fault};
use duty_calendar::{Name, Station};

static STATION: [Class; 3] = [Class::Capital, Class::Capital, Class::Capital];

/// The first column at which a text that is not empty is no name.
fn name_fault(text: &[u8]) -> Option<u32>
    requires some { 1 ≤ length text.now }
    ensures value { result ≡ fault_from 1 name text.now }
    ensures form { IfNone result (IsTrue (is_name text.now)) }
{
    for (i, b) in text.iter().enumerate() {
        if i == 16 {
            return Some(17);
        }
        if !Class::NameByte.contains(*b) {
            return Some(i as u32 + 1);
        }
    }
    None
}

/// A name of 1 to 16 letters, digits, dashes and underscores.
pub fn read_name(text: &str) -> Result<Name, FieldFault>
    requires short { length text.now ≤ longest }
    ensures value { result ≡ name_field text.now }
{
    let bytes = text.as_bytes();
    if bytes.is_empty() {
        return Err(FieldFault::Empty);
    }
    if let Some(column) = name_fault(bytes) {
        return Err(FieldFault::Shape(column));
    }
    match Name::new(bytes) {
        Some(name) => Ok(name),
        None => unreachable!(),
    }
}

/// A station of three capital letters.
pub fn read_station(text: &str) -> Result<Station, FieldFault>
    requires short { length text.now ≤ longest }
    ensures value { result ≡ station_field text.now }
{
    let bytes = text.as_bytes();
    if bytes.is_empty() {
        return Err(FieldFault::Empty);
    }
    if let Some(column) = row_fault(&STATION, bytes, 1) {
        return Err(FieldFault::Shape(column));
    }
    match Station::new([bytes[0], bytes[1], bytes[2]]) {
        Some(station) => Ok(station),
        None => unreachable!(),
    }
}

/// The station of these letters, where they are three capital letters.
pub fn station_of(text: &[u8]) -> Option<Station>
    ensures value { result ≡ station_of text.now }
{
    if text.len() != 3 {
        return None;
    }
    Station::new([text[0], text[1], text[2]])
}
