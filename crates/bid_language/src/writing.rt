//! Writing values behind words.
ghost use Rattle.std.specs.Prelude.{◌≡◌, ◌≤◌, ◌<◌, ◌+◌, ◌-◌, ◌++◌, OnOk, OnErr};
ghost use Rattle.duty_calendar.specs.Calendar.{month_days};
ghost use Rattle.field_text.specs.Spelling.{number_text, minutes_text, clock_text, HasPartly};
ghost use Rattle.bid_language.specs.Spelling.{day_word};

use duty_calendar::{Horizon, List, Memory};
use field_text::{put_bytes, put_clock, put_day, put_minutes, put_number};
use jiff::civil::Date;
use jiff_core::civil;

/// Appends a word behind others.
#[tactic(auto, using(field_text::proofs::Prefixes::partly_front))]
pub fn put_word(out: &mut List<u8>, front: &[u8], word: &[u8]) -> Result<(), Memory>
    ensures whole { OnOk result (out.new ≡ out.old ++ (front.now ++ word.now)) }
    ensures partly { OnErr result (HasPartly out.old (front.now ++ word.now) out.new) }
{
    put_bytes(out, front)?;
    put_bytes(out, word)
}

/// Appends a number behind words.
#[tactic(auto, using(field_text::proofs::Prefixes::partly_front))]
pub fn put_count(out: &mut List<u8>, front: &[u8], value: u32) -> Result<(), Memory>
    ensures whole { OnOk result (out.new ≡ out.old ++ (front.now ++ number_text value)) }
    ensures partly { OnErr result (HasPartly out.old (front.now ++ number_text value) out.new) }
{
    put_bytes(out, front)?;
    put_number(out, value)
}

/// Appends minutes behind words.
#[tactic(auto, using(field_text::proofs::Prefixes::partly_front))]
pub fn put_credit(out: &mut List<u8>, front: &[u8], value: u32) -> Result<(), Memory>
    ensures whole { OnOk result (out.new ≡ out.old ++ (front.now ++ minutes_text value)) }
    ensures partly { OnErr result (HasPartly out.old (front.now ++ minutes_text value) out.new) }
{
    put_bytes(out, front)?;
    put_minutes(out, value)
}

/// Appends a minute of the day behind words.
#[tactic(auto, using(field_text::proofs::Prefixes::partly_front))]
pub fn put_time(out: &mut List<u8>, front: &[u8], value: u32) -> Result<(), Memory>
    requires of_day { value < 1440 }
    ensures whole { OnOk result (out.new ≡ out.old ++ (front.now ++ clock_text value)) }
    ensures partly { OnErr result (HasPartly out.old (front.now ++ clock_text value) out.new) }
{
    put_bytes(out, front)?;
    put_clock(out, value)
}

/// The date of a day of the month.
fn date_of(horizon: &Horizon, day: u32) -> Date
    requires first { 365 ≤ day }
    requires last { day < 365 + month_days horizon.now }
    ensures year { result.year ≡ horizon.now.year }
    ensures month { result.month ≡ horizon.now.month }
    ensures day { result.day ≡ day - 364 }
{
    Date::from_plain(civil::Date::constrain(horizon.year, horizon.month, (day - 364) as u8))
}

/// Appends a day of the month, or a part of it from its begin where memory ends.
pub fn put_date(out: &mut List<u8>, horizon: &Horizon, day: u32) -> Result<(), Memory>
    requires first { 365 ≤ day }
    requires last { day < 365 + month_days horizon.now }
    ensures whole { OnOk result (out.new ≡ out.old ++ day_word horizon.now day) }
    ensures partly { OnErr result (HasPartly out.old (day_word horizon.now day) out.new) }
{
    put_day(out, date_of(horizon, day))
}

/// Appends a day of the month behind words.
#[tactic(auto, using(field_text::proofs::Prefixes::partly_front))]
pub fn put_month_day(
    out: &mut List<u8>,
    front: &[u8],
    horizon: &Horizon,
    day: u32,
) -> Result<(), Memory>
    requires first { 365 ≤ day }
    requires last { day < 365 + month_days horizon.now }
    ensures whole { OnOk result (out.new ≡ out.old ++ (front.now ++ day_word horizon.now day)) }
    ensures partly { OnErr result (HasPartly out.old
        (front.now ++ day_word horizon.now day) out.new) }
{
    put_bytes(out, front)?;
    put_date(out, horizon, day)
}
