//! Reading numbers, and minutes as hours and minutes.
ghost use Rattle.std.specs.Prelude.{◌≡◌, ◌≢◌, ◌≤◌, ◌^◌, ◌+◌, ◌<◌, length, slice_index, take, drop, Some, IfNone};
ghost use Rattle.std.specs.Str.Parse.{AllDigits, digits_value};
ghost use Rattle.field_text.specs.declared.form.Class.TheVariants.{Digit};
ghost use Rattle.field_text.specs.Sizes.{longest};
ghost use Rattle.field_text.specs.Form.{fault_from, many, finished, row};
ghost use Rattle.field_text.specs.Fields.{number, number_field, minutes, minutes_end, minutes_field};

use crate::field_fault::FieldFault;
use crate::form::{Class, row_fault};
use crate::time::two_digits;

static MINUTES_END: [Class; 3] = [Class::Byte(b':'), Class::Digit, Class::Digit];

/// The first column at which the text, which begins at a column, is not digits alone.
fn digits_fault(text: &[u8], column: u32) -> Option<u32>
    requires short { column + length text.now < 2 ^ 32 }
    ensures value { result ≡ fault_from column (many Digit finished) text.now }
    ensures digits { IfNone result (AllDigits 10 text.now) }
{
    for (i, b) in text.iter().enumerate() {
        if !b.is_ascii_digit() {
            return Some(column + i as u32);
        }
    }
    None
}

/// The first column at which the text is no number.
fn number_fault(text: &[u8]) -> Option<u32>
    requires short { length text.now ≤ longest }
    ensures value { result ≡ fault_from 1 number text.now }
    ensures digits { IfNone result (AllDigits 10 text.now × (slice_index text.now 0 ≢ 43)) }
{
    let Some((first, rest)) = text.split_first() else {
        return Some(1);
    };
    if *first == b'0' {
        return if rest.is_empty() { None } else { Some(2) };
    }
    if *first < b'1' || *first > b'9' {
        return Some(1);
    }
    digits_fault(rest, 2)
}

/// A number of at most 32 bits, in its one spelling.
pub fn read_number(text: &str) -> Result<u32, FieldFault>
    requires short { length text.now ≤ longest }
    ensures value { result ≡ number_field text.now }
{
    if text.is_empty() {
        return Err(FieldFault::Empty);
    }
    if let Some(column) = number_fault(text.as_bytes()) {
        return Err(FieldFault::Shape(column));
    }
    match text.parse::<u32>() {
        Ok(value) => Ok(value),
        Err(_) => Err(FieldFault::Range),
    }
}

/// How many bytes at the head of the text are the hours of minutes: 0 where there are none.
fn hour_digits(text: &[u8]) -> usize
    requires some { 1 ≤ length text.now }
    ensures within { result ≤ length text.now }
    ensures few { result ≤ 3 }
    ensures digits { AllDigits 10 (take result text.now) }
    ensures none { result ≡ 0 → fault_from 1 minutes text.now ≡ Some 1 }
    ensures rest { 1 ≤ result → fault_from 1 minutes text.now
        ≡ fault_from (result + 1) (row minutes_end) (drop result text.now) }
{
    if text[0] == b'0' {
        return 1;
    }
    if !Class::NonZero.contains(text[0]) {
        return 0;
    }
    if text.len() == 1 {
        return 1;
    }
    if !text[1].is_ascii_digit() {
        return 1;
    }
    if text.len() == 2 {
        return 2;
    }
    if !text[2].is_ascii_digit() {
        return 2;
    }
    3
}

/// The number that at most three digits write.
fn small_value(digits: &[u8]) -> u32
    requires digits { AllDigits 10 digits.now }
    requires few { length digits.now ≤ 3 }
    ensures value { result ≡ digits_value 10 digits.now }
    ensures bound { result < 1000 }
{
    let mut value = 0;
    for b in digits {
        value = 10 * value + u32::from(*b - b'0');
    }
    value
}

/// The minutes of a text `HHH:MM` whose hours have one to three digits.
pub fn read_minutes(text: &str) -> Result<u32, FieldFault>
    requires short { length text.now ≤ longest }
    ensures value { result ≡ minutes_field text.now }
{
    let bytes = text.as_bytes();
    if bytes.is_empty() {
        return Err(FieldFault::Empty);
    }
    let hours = hour_digits(bytes);
    if hours == 0 {
        return Err(FieldFault::Shape(1));
    }
    let (front, end) = bytes.split_at(hours);
    if let Some(column) = row_fault(&MINUTES_END, end, hours as u32 + 1) {
        return Err(FieldFault::Shape(column));
    }
    let minute = two_digits(end, 1);
    if minute < 60 {
        Ok(60 * small_value(front) + minute)
    } else {
        Err(FieldFault::Range)
    }
}
