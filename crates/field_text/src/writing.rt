//! Writing fields, each in its one spelling.
ghost use Rattle.std.specs.Prelude.{◌≡◌, ◌≤◌, ◌<◌, ◌++◌, OnOk, OnErr, Ok, pos, ◌∷◌};
ghost use Rattle.jiff.specs.Words.{IsBetween, epoch_day};
ghost use Rattle.duty_calendar.specs.Calendar.{horizon_end};
ghost use Rattle.field_text.specs.Spelling.{two, number_text, minutes_text, clock_text, date_text, moment_end, moment_text, HasPartly};
ghost use Rattle.field_text.specs.Fields.{number_field, minutes_field, clock_field, day_field, moment_field};

use duty_calendar::{Horizon, List, Memory};
use itoa::Buffer;
use jiff::civil::Date;

/// Appends bytes, or a part of them from their begin where memory ends.
pub fn put_bytes(out: &mut List<u8>, bytes: &[u8]) -> Result<(), Memory>
    ensures whole { OnOk result (out.new ≡ out.old ++ bytes.now) }
    ensures partly { OnErr result (HasPartly out.old bytes.now out.new) }
{
    for b in bytes {
        if out.push(*b).is_err() {
            return Err(Memory::NoMemory);
        }
    }
    Ok(())
}

/// Appends a number.
pub fn put_number(out: &mut List<u8>, value: u32) -> Result<(), Memory>
    ensures whole { OnOk result (out.new ≡ out.old ++ number_text value) }
    ensures partly { OnErr result (HasPartly out.old (number_text value) out.new) }
    ensures again { number_field (number_text value) ≡ Ok value }
{
    let mut buffer = Buffer::new();
    put_bytes(out, buffer.format(value).as_bytes())
}

/// The two digits of a number.
fn two(value: u32) -> [u8; 2]
    requires in_range { value < 100 }
    ensures value { result ≡ two value }
{
    [b'0' + (value / 10) as u8, b'0' + (value % 10) as u8]
}

/// A colon and the two digits of a number.
fn minutes_end(value: u32) -> [u8; 3]
    requires in_range { value < 100 }
    ensures value { result ≡ 58 ∷ two value }
{
    let [tens, ones] = two(value);
    [b':', tens, ones]
}

/// Appends minutes as hours and minutes, with as many hour digits as they need.
/// `read_minutes` takes at most three of them.
#[tactic(auto, using(crate::proofs::Prefixes::partly_front))]
pub fn put_minutes(out: &mut List<u8>, value: u32) -> Result<(), Memory>
    ensures whole { OnOk result (out.new ≡ out.old ++ minutes_text value) }
    ensures partly { OnErr result (HasPartly out.old (minutes_text value) out.new) }
    ensures again { value < 60000 → minutes_field (minutes_text value) ≡ Ok value }
{
    put_number(out, value / 60)?;
    put_bytes(out, &minutes_end(value % 60))
}

/// A minute of the day as a clock.
#[tactic(auto, unfolding(crate::specs::Spelling::clock_text))]
fn clock_bytes(value: u32) -> [u8; 5]
    requires in_range { value < 1440 }
    ensures value { result ≡ clock_text value }
{
    let [hour_tens, hour_ones] = two(value / 60);
    let [tens, ones] = two(value % 60);
    [hour_tens, hour_ones, b':', tens, ones]
}

/// The end of a moment: its clock between `T` and `Z`.
#[tactic(auto, unfolding(crate::specs::Spelling::clock_text))]
fn moment_end(value: u32) -> [u8; 7]
    requires in_range { value < 1440 }
    ensures value { result ≡ moment_end value }
{
    let [hour_tens, hour_ones, colon, tens, ones] = clock_bytes(value);
    [b'T', hour_tens, hour_ones, colon, tens, ones, b'Z']
}

/// The spelling of a date.
#[tactic(auto, unfolding(crate::specs::Spelling::day_text))]
fn day_bytes(value: Date) -> [u8; 10]
    requires in_range { IsBetween (pos 0) (pos 9999) value.year }
    ensures value { result ≡ date_text value }
{
    let year = value.year() as u32;
    let [thousands, hundreds] = two(year / 100);
    let [year_tens, year_ones] = two(year % 100);
    let [month_tens, month_ones] = two(value.month() as u32);
    let [day_tens, day_ones] = two(value.day() as u32);
    [
        thousands, hundreds, year_tens, year_ones, b'-', month_tens, month_ones, b'-', day_tens,
        day_ones,
    ]
}

/// Appends a minute of the day as a clock.
pub fn put_clock(out: &mut List<u8>, value: u32) -> Result<(), Memory>
    requires in_range { value < 1440 }
    ensures whole { OnOk result (out.new ≡ out.old ++ clock_text value) }
    ensures partly { OnErr result (HasPartly out.old (clock_text value) out.new) }
    ensures again { clock_field (clock_text value) ≡ Ok value }
{
    put_bytes(out, &clock_bytes(value))
}

/// Appends a date of the years 0 to 9999.
pub fn put_day(out: &mut List<u8>, value: Date) -> Result<(), Memory>
    requires in_range { IsBetween (pos 0) (pos 9999) value.year }
    ensures whole { OnOk result (out.new ≡ out.old ++ date_text value) }
    ensures partly { OnErr result (HasPartly out.old (date_text value) out.new) }
    ensures again { day_field (date_text value) ≡ Ok (epoch_day value) }
{
    put_bytes(out, &day_bytes(value))
}

/// Appends a base-local minute of the horizon as a moment in UTC.
pub fn put_moment(out: &mut List<u8>, minute: u32, horizon: &Horizon) -> Result<(), Memory>
    requires in_range { minute ≤ horizon_end horizon.now }
    ensures whole { OnOk result (out.new ≡ out.old ++ moment_text horizon.now minute) }
    ensures partly { OnErr result (HasPartly out.old (moment_text horizon.now minute) out.new) }
    ensures again { moment_field horizon.now (moment_text horizon.now minute) ≡ Ok minute }
{
    let (date, of_day) = horizon.moment_of(minute);
    put_day(out, date)?;
    put_bytes(out, &moment_end(of_day))
}
