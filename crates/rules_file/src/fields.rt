//! The values of a table of rules.
ghost use Rattle.std.specs.Prelude.{◌≡◌, ◌≤◌, ◌<◌, ◌^◌, ◌≤ℤ◌, length, pos, option_map, option_copied, option_and_then, IfSome, IsTrue, MatchResult, IfOk, Ok, Err};
ghost use Rattle.std.specs.Int.{IsInRange};
ghost use Rattle.std.specs.List.{list_all};
ghost use Rattle.jiff.specs.Words.{IsBetween};
ghost use Rattle.duty_calendar.specs.Calendar.{IsOffset};
ghost use Rattle.toml.specs.View.{table_view};
ghost use Rattle.rules_file.specs.declared.fault.RuleFault.TheVariants.{Range};
ghost use Rattle.rules_file.specs.Rules.{values, values_in, text_at, whole_at, between, sized, base_in, seat_in, year_in, month_in, offset_in, days_off_in};
ghost use Rattle.duty_calendar.specs.Checks.{IsRules};
ghost use Rattle.duty_calendar.specs.Forms.{is_seat, is_seat_byte};

use crate::keys::value_at;
use duty_calendar::{Horizon, Name, Rules, Station};
use field_text::station_of;
use toml::Table;

fn text_at<'a>(table: &'a Table, key: &str) -> Option<&'a str>
    ensures value { option_copied result ≡ text_at key.now (table_view table.now) }
{
    match value_at(table, key) {
        Some(value) => value.as_str(),
        None => None,
    }
}

fn whole_at(table: &Table, key: &str) -> Option<i64>
    ensures value { result ≡ whole_at key.now (table_view table.now) }
{
    match value_at(table, key) {
        Some(value) => value.as_integer(),
        None => None,
    }
}

/// The number where it lies between two others.
fn between(number: i64, low: u32, high: u32) -> Option<u32>
    ensures value { result ≡ between low high number }
{
    if number < i64::from(low) {
        return None;
    }
    if number > i64::from(high) {
        return None;
    }
    Some(number as u32)
}

/// The number where its size is at most 840.
fn sized(number: i64) -> Option<i16>
    ensures value { result ≡ sized 840 number }
    ensures bound { IfSome result IsOffset }
{
    if number < -840 {
        return None;
    }
    if number > 840 {
        return None;
    }
    Some(number as i16)
}

/// The whole number at a key, where it lies between two others.
fn whole_between(table: &Table, key: &str, low: u32, high: u32) -> Option<u32>
    ensures value { result ≡ option_and_then (between low high)
        (whole_at key.now (table_view table.now)) }
    ensures bound { IfSome result (IsInRange low high) }
{
    match whole_at(table, key) {
        Some(number) => between(number, low, high),
        None => None,
    }
}

#[tactic(auto, unfolding(crate::specs::Rules::offset_in))]
fn offset_in(table: &Table) -> Option<i16>
    ensures value { result ≡ offset_in (table_view table.now) }
    ensures bound { IfSome result IsOffset }
{
    match whole_at(table, "offset") {
        Some(number) => sized(number),
        None => None,
    }
}

#[tactic(auto, unfolding(crate::specs::Rules::base_in))]
fn base_in(table: &Table) -> Option<Station>
    ensures value { result ≡ base_in (table_view table.now) }
{
    match text_at(table, "base") {
        Some(text) => station_of(text.as_bytes()),
        None => None,
    }
}

fn are_seat_bytes(bytes: &[u8]) -> bool
    ensures value { result ≡ list_all is_seat_byte bytes.now }
{
    bytes
        .iter()
        .all(|b| matches!(*b, b'A'..=b'Z' | b'0'..=b'9'))
}

fn is_seat(bytes: &[u8]) -> bool
    ensures value { result ≡ is_seat bytes.now }
{
    1 <= bytes.len() && bytes.len() <= 8 && are_seat_bytes(bytes)
}

#[tactic(auto, unfolding(crate::specs::Rules::seat_in))]
fn seat_in(table: &Table) -> Option<Name>
    ensures value { result ≡ seat_in (table_view table.now) }
    ensures form { IfSome result (λ seat. IsTrue (is_seat seat)) }
{
    let Some(text) = text_at(table, "seat") else {
        return None;
    };
    let bytes = text.as_bytes();
    if !is_seat(bytes) {
        return None;
    }
    match Name::new(bytes) {
        Some(name) => Some(name),
        None => unreachable!(),
    }
}

/// The horizon of a month that there is.
fn horizon_of(year: u32, month: u32, offset: i16) -> Horizon
    requires year { IsInRange 2000 2099 year }
    requires month { IsInRange 1 12 month }
    requires offset { IsOffset offset }
    ensures year { result.year ≡ pos year }
    ensures month { result.month ≡ month }
    ensures offset { result.offset ≡ offset }
{
    match Horizon::new(year as i16, month as u8, offset) {
        Ok(horizon) => horizon,
        Err(_) => unreachable!(),
    }
}

/// The rules that the values of a table give, or the first key in order whose value has another
/// kind or range.
pub fn rules_of(table: &Table) -> Result<Rules, &'static str>
    ensures value { MatchResult result
        (λ rules. values_in (table_view table.now) ≡ Ok (values rules))
        (λ key. values_in (table_view table.now) ≡ Err (Range key.now)) }
    ensures valid { IfOk result IsRules }
{
    let Some(base) = base_in(table) else {
        return Err("base");
    };
    let Some(seat) = seat_in(table) else {
        return Err("seat");
    };
    let Some(year) = whole_between(table, "year", 2000, 2099) else {
        return Err("year");
    };
    let Some(month) = whole_between(table, "month", 1, 12) else {
        return Err("month");
    };
    let Some(offset) = offset_in(table) else {
        return Err("offset");
    };
    let Some(days_off) = whole_between(table, "days_off", 0, 31) else {
        return Err("days_off");
    };
    Ok(Rules {
        base,
        seat,
        horizon: horizon_of(year, month, offset),
        days_off,
    })
}
