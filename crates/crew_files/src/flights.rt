//! The flights of an event: `out/in` moments, joined by one blank.
ghost use Rattle.std.specs.Prelude.{◌≡◌, ◌≢◌, ◌≤◌, ◌+◌, ◌/◌, ◌%◌, length, Ok, Err, IfOk, IfErr, IfNone, OnOk};
ghost use Rattle.std.specs.Option.{option_map_or};
ghost use Rattle.field_text.specs.Sizes.{longest};
ghost use Rattle.field_text.specs.Rows.{in_column};
ghost use Rattle.field_text.specs.declared.file_fault.FileCode.TheVariants.{NoMemory};
ghost use Rattle.crew_files.specs.Flights.{flights_fault, earlier, joined, flown, followed, gathered, flight_value, flights_value, flights_field};

use duty_calendar::{Flown, Horizon, Kind, List};
use field_text::{Class, FieldFault, FileCode, moment_of};
use std::alloc::Global;

const D: Class = Class::Digit;

const DASH: Class = Class::Byte(b'-');

const T: Class = Class::Byte(b'T');

const COLON: Class = Class::Byte(b':');

const Z: Class = Class::Byte(b'Z');

const SLASH: Class = Class::Byte(b'/');

const BLANK: Class = Class::Byte(b' ');

// The bytes of a flight and the blank behind it.
static FLIGHT: [Class; 36] = [
    D, D, D, D, DASH, D, D, DASH, D, D, T, D, D, COLON, D, D, Z, SLASH, D, D, D, D, DASH, D, D,
    DASH, D, D, T, D, D, COLON, D, D, Z, BLANK,
];

/// The first column at which the text is no list of flights.
fn flights_fault(text: &[u8]) -> Option<u32>
    requires short { length text.now ≤ longest }
    ensures column { result ≡ flights_fault 0 text.now }
    ensures whole { IfNone result (length text.now % 36 ≡ 35) }
{
    for (i, b) in text.iter().enumerate() {
        if !FLIGHT[i % 36].contains(*b) {
            return Some(i as u32 + 1);
        }
    }
    if text.len() % 36 == 35 {
        None
    } else {
        Some(text.len() as u32 + 1)
    }
}

/// Of two faults the one with the lower code.
fn earlier(a: FieldFault, b: FieldFault) -> FieldFault
    ensures value { result ≡ earlier a b }
{
    if a.code() <= b.code() { a } else { b }
}

/// A flight of its two moments.
fn joined(
    out_at: Result<u32, FieldFault>,
    in_at: Result<u32, FieldFault>,
) -> Result<Flown, FieldFault>
    ensures value { result ≡ joined flown out_at in_at }
{
    let out_at = match out_at {
        Ok(out_at) => out_at,
        Err(first) => {
            return match in_at {
                Ok(_) => Err(first),
                Err(second) => Err(earlier(first, second)),
            };
        }
    };
    match in_at {
        Ok(in_at) => Ok(Flown { out_at, in_at }),
        Err(fault) => Err(fault),
    }
}

/// The flight of 35 bytes.
fn flight_value(text: &[u8], horizon: &Horizon) -> Result<Flown, FieldFault>
    requires long { length text.now ≡ 35 }
    ensures value { result ≡ flight_value horizon.now text.now }
{
    joined(
        moment_of(&text[..17], horizon),
        moment_of(&text[18..35], horizon),
    )
}

/// Of a fault that came before, if one did, and a later one, the one with the lower code.
fn first_fault(before: Option<FieldFault>, later: FieldFault) -> FieldFault
    ensures value { result ≡ option_map_or (λ first. earlier first later) before later }
{
    match before {
        Some(first) => earlier(first, later),
        None => later,
    }
}

/// Adds a flight to those that were read, or a fault to that of those that were not.
fn gather(
    flights: &mut List<Flown>,
    fault: &mut Option<FieldFault>,
    found: Result<Flown, FieldFault>,
) -> Result<(), FileCode>
    ensures ok { OnOk result (gathered fault.new flights.new
        ≡ joined followed (gathered fault.old flights.old) found) }
    ensures fault { IfErr result (λ e. e ≡ NoMemory) }
{
    match found {
        Ok(flight) => match flights.push(flight) {
            Ok(()) => Ok(()),
            Err(_) => Err(FileCode::NoMemory),
        },
        Err(later) => {
            *fault = Some(first_fault(*fault, later));
            Ok(())
        }
    }
}

/// The flights of a text of whole ones, or the fault with the lowest code.
fn flights_value(alloc: Global, text: &[u8], horizon: &Horizon) -> Result<List<Flown>, FileCode>
    requires whole { length text.now % 36 ≡ 35 }
    requires short { length text.now ≤ longest }
    ensures ok { IfOk result (λ list. flights_value horizon.now
        ((length text.now + 1) / 36) text.now ≡ Ok list) }
    ensures fault { IfErr result (λ e. e ≢ NoMemory
        → in_column 6 (flights_value horizon.now ((length text.now + 1) / 36) text.now) ≡ Err e) }
{
    let mut flights = List::new(alloc);
    let mut fault = None;
    for i in 0..(text.len() + 1) / 36 {
        let found = flight_value(&text[36 * i..36 * i + 35], horizon);
        gather(&mut flights, &mut fault, found)?;
    }
    match fault {
        Some(fault) => Err(FileCode::Field(6, fault)),
        None => Ok(flights),
    }
}

/// The flights of a field of an event.
pub fn read_flights(
    alloc: Global,
    text: &str,
    kind: Kind,
    horizon: &Horizon,
) -> Result<List<Flown>, FileCode>
    requires short { length text.now ≤ longest }
    ensures ok { IfOk result (λ list. flights_field horizon.now kind text.now ≡ Ok list) }
    ensures fault { IfErr result (λ e. e ≢ NoMemory
        → in_column 6 (flights_field horizon.now kind text.now) ≡ Err e) }
{
    let bytes = text.as_bytes();
    if bytes.is_empty() {
        return match kind {
            Kind::Flight => Err(FileCode::Field(6, FieldFault::Empty)),
            Kind::Ground => Ok(List::new(alloc)),
            Kind::Leave => Ok(List::new(alloc)),
        };
    }
    if let Some(column) = flights_fault(bytes) {
        return Err(FileCode::Field(6, FieldFault::Shape(column)));
    }
    flights_value(alloc, bytes, horizon)
}
