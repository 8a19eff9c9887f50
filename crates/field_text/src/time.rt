//! Reading clocks, days and moments.
ghost use Rattle.std.specs.Prelude.{◌≡◌, ◌≤◌, ◌+◌, ◌<◌, length, slice_index, slice_range, true, option_map, IfSome};
ghost use Rattle.std.specs.Result.{result_map_both};
ghost use Rattle.jiff.specs.Words.{epoch_day};
ghost use Rattle.field_text.specs.declared.form.Class.TheVariants.{Digit};
ghost use Rattle.field_text.specs.Sizes.{longest};
ghost use Rattle.field_text.specs.Form.{is_in, IsRow};
ghost use Rattle.field_text.specs.Fields.{two_digits, clock, clock_value, clock_field, day, day_value, day_field, moment_field};

use crate::field_fault::FieldFault;
use crate::form::{Class, row_fault};
use duty_calendar::Horizon;
use jiff::civil::Date;

static CLOCK: [Class; 5] = [
    Class::Digit,
    Class::Digit,
    Class::Byte(b':'),
    Class::Digit,
    Class::Digit,
];

static DAY: [Class; 10] = [
    Class::Digit,
    Class::Digit,
    Class::Digit,
    Class::Digit,
    Class::Byte(b'-'),
    Class::Digit,
    Class::Digit,
    Class::Byte(b'-'),
    Class::Digit,
    Class::Digit,
];

static MOMENT: [Class; 17] = [
    Class::Digit,
    Class::Digit,
    Class::Digit,
    Class::Digit,
    Class::Byte(b'-'),
    Class::Digit,
    Class::Digit,
    Class::Byte(b'-'),
    Class::Digit,
    Class::Digit,
    Class::Byte(b'T'),
    Class::Digit,
    Class::Digit,
    Class::Byte(b':'),
    Class::Digit,
    Class::Digit,
    Class::Byte(b'Z'),
];

/// The number that two digits write.
pub fn two_digits(text: &[u8], at: usize) -> u32
    requires in_range { at + 1 < length text.now }
    requires first { is_in Digit (slice_index text.now at) ≡ true }
    requires second { is_in Digit (slice_index text.now (at + 1)) ≡ true }
    ensures value { result ≡ two_digits text.now at }
    ensures bound { result < 100 }
{
    u32::from(text[at] - b'0') * 10 + u32::from(text[at + 1] - b'0')
}

/// The minute of the day that a clock shows, where there is one.
fn clock_value(text: &[u8]) -> Option<u32>
    requires form { IsRow clock text.now }
    ensures value { result ≡ clock_value text.now }
    ensures bound { IfSome result (λ minute. minute < 1440) }
{
    let hour = two_digits(text, 0);
    let minute = two_digits(text, 3);
    if hour < 24 && minute < 60 {
        Some(60 * hour + minute)
    } else {
        None
    }
}

/// The date of a day, where the calendar has it.
fn day_value(text: &[u8]) -> Option<Date>
    requires form { IsRow day text.now }
    ensures value { option_map epoch_day result ≡ day_value text.now }
{
    let year = 100 * two_digits(text, 0) + two_digits(text, 2);
    let month = two_digits(text, 5);
    let day = two_digits(text, 8);
    match Date::new(year as i16, month as i8, day as i8) {
        Ok(date) => Some(date),
        Err(_) => None,
    }
}

/// The day of a moment.
fn day_part(text: &[u8]) -> &[u8]
    requires whole { length text.now ≡ 17 }
    ensures value { result.now ≡ slice_range text.now 0 10 }
{
    &text[..10]
}

/// The clock of a moment.
fn clock_part(text: &[u8]) -> &[u8]
    requires whole { length text.now ≡ 17 }
    ensures value { result.now ≡ slice_range text.now 11 16 }
{
    &text[11..16]
}

/// The minute of the day of a clock `HH:MM`.
pub fn read_clock(text: &str) -> Result<u32, FieldFault>
    requires short { length text.now ≤ longest }
    ensures value { result ≡ clock_field text.now }
{
    let bytes = text.as_bytes();
    if bytes.is_empty() {
        return Err(FieldFault::Empty);
    }
    if let Some(column) = row_fault(&CLOCK, bytes, 1) {
        return Err(FieldFault::Shape(column));
    }
    match clock_value(bytes) {
        Some(minute) => Ok(minute),
        None => Err(FieldFault::Range),
    }
}

/// A day `YYYY-MM-DD` of the calendar. A date is known by its number of days since 1 January 1970.
pub fn read_day(text: &str) -> Result<Date, FieldFault>
    requires short { length text.now ≤ longest }
    ensures value { result_map_both epoch_day (λ e. e) result ≡ day_field text.now }
{
    let bytes = text.as_bytes();
    if bytes.is_empty() {
        return Err(FieldFault::Empty);
    }
    if let Some(column) = row_fault(&DAY, bytes, 1) {
        return Err(FieldFault::Shape(column));
    }
    match day_value(bytes) {
        Some(date) => Ok(date),
        None => Err(FieldFault::NoSuchDay),
    }
}

/// The base-local minute, from minute 0 of the horizon, of the bytes of a moment
/// `YYYY-MM-DDThh:mmZ` in UTC.
pub fn moment_of(bytes: &[u8], horizon: &Horizon) -> Result<u32, FieldFault>
    requires short { length bytes.now ≤ longest }
    ensures value { result ≡ moment_field horizon.now bytes.now }
{
    if bytes.is_empty() {
        return Err(FieldFault::Empty);
    }
    if let Some(column) = row_fault(&MOMENT, bytes, 1) {
        return Err(FieldFault::Shape(column));
    }
    let Some(minute) = clock_value(clock_part(bytes)) else {
        return Err(FieldFault::Range);
    };
    let Some(date) = day_value(day_part(bytes)) else {
        return Err(FieldFault::NoSuchDay);
    };
    match horizon.minute_of(date, minute) {
        Some(found) => Ok(found),
        None => Err(FieldFault::OutsideHorizon),
    }
}

/// The base-local minute, from minute 0 of the horizon, of a moment `YYYY-MM-DDThh:mmZ` in UTC.
pub fn read_moment(text: &str, horizon: &Horizon) -> Result<u32, FieldFault>
    requires short { length text.now ≤ longest }
    ensures value { result ≡ moment_field horizon.now text.now }
{
    moment_of(text.as_bytes(), horizon)
}
