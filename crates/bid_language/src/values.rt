//! Reading the values of tests and wishes, each a token.
ghost use Rattle.std.specs.Prelude.{◌≡◌, length, ◌<◌, ◌^◌};
ghost use Rattle.field_text.specs.Fields.{number_field, minutes_field, clock_field};
ghost use Rattle.bid_language.specs.Words.{Reads};
ghost use Rattle.bid_language.specs.Values.{value_in, value_of, number, clock, minutes, pairing, pairing_named, station, weekday, side};

use crate::fault::{BidCode, Stop, Word};
use crate::keywords::{Side, is_text, side_of, weekday_of};
use crate::words::{Spot, Words};
use duty_calendar::{Name, Pairing, Station, Weekday};
use field_text::{read_clock, read_minutes, read_number, station_of};
use std::str::from_utf8;

/// The text of a token.
#[tactic(auto, using(crate::proofs::WordSteps::ascii_text))]
pub fn text_of<'a>(spot: &Spot<'a>) -> &'a str
    ensures same { result.now ≡ spot.now.text.now }
{
    match from_utf8(spot.text) {
        Ok(text) => text,
        Err(_) => unreachable!(),
    }
}

fn number_in(spot: &Spot, low: u32, high: u32) -> Option<u32>
    ensures value { result ≡ value_in low high (number_field spot.now.text.now) }
{
    match read_number(text_of(spot)) {
        Ok(n) => { if low <= n && n <= high { Some(n) } else { None } }
        Err(_) => None,
    }
}

/// A number from `low` to `high`.
#[tactic(auto, unfolding(crate::specs::Values::number))]
pub fn number(words: &mut Words, low: u32, high: u32) -> Result<u32, Stop>
    ensures reads { Reads result (number low high) words.old words.new }
{
    let spot = words.next(Word::Value)?;
    match number_in(&spot, low, high) {
        Some(n) => Ok(n),
        None => Err(spot.wrong(BidCode::Number)),
    }
}

/// A minute of the day.
#[tactic(auto, unfolding(crate::specs::Values::clock))]
pub fn clock(words: &mut Words) -> Result<u32, Stop>
    ensures reads { Reads result clock words.old words.new }
{
    let spot = words.next(Word::Value)?;
    match read_clock(text_of(&spot)) {
        Ok(minute) => Ok(minute),
        Err(_) => Err(spot.wrong(BidCode::Number)),
    }
}

/// Minutes as hours and minutes.
#[tactic(auto, unfolding(crate::specs::Values::minutes))]
pub fn minutes(words: &mut Words) -> Result<u32, Stop>
    ensures reads { Reads result minutes words.old words.new }
{
    let spot = words.next(Word::Value)?;
    match read_minutes(text_of(&spot)) {
        Ok(minutes) => Ok(minutes),
        Err(_) => Err(spot.wrong(BidCode::Number)),
    }
}

/// The number of the pairing of this name.
fn pairing_named(pairings: &[Pairing], text: &[u8]) -> Option<usize>
    ensures found { result ≡ pairing_named pairings.now text.now }
{
    pairings.iter().position(|p| is_text(p.name.bytes(), text))
}

/// A pairing, by its name.
#[tactic(auto, unfolding(crate::specs::Values::pairing))]
pub fn pairing(pairings: &[Pairing], words: &mut Words) -> Result<u32, Stop>
    requires few { length pairings.now < 2 ^ 32 }
    ensures reads { Reads result (pairing pairings.now) words.old words.new }
{
    let spot = words.next(Word::Name)?;
    if Name::new(spot.text).is_none() {
        return Err(spot.wrong(BidCode::Expected(Word::Name)));
    }
    match pairing_named(pairings, spot.text) {
        Some(number) => Ok(number as u32),
        None => Err(spot.wrong(BidCode::UnknownPairing)),
    }
}

/// A station.
#[tactic(auto, unfolding(crate::specs::Values::station))]
pub fn station(words: &mut Words) -> Result<Station, Stop>
    ensures reads { Reads result station words.old words.new }
{
    let spot = words.next(Word::Station)?;
    match station_of(spot.text) {
        Some(station) => Ok(station),
        None => Err(spot.wrong(BidCode::Expected(Word::Station))),
    }
}

/// A day of the week.
#[tactic(auto, unfolding(crate::specs::Values::weekday))]
pub fn weekday(words: &mut Words) -> Result<Weekday, Stop>
    ensures reads { Reads result weekday words.old words.new }
{
    let spot = words.next(Word::Weekday)?;
    match weekday_of(spot.text) {
        Some(weekday) => Ok(weekday),
        None => Err(spot.wrong(BidCode::Expected(Word::Weekday))),
    }
}

/// A side of a time.
#[tactic(auto, unfolding(crate::specs::Values::side))]
pub fn side(words: &mut Words) -> Result<Side, Stop>
    ensures reads { Reads result side words.old words.new }
{
    let spot = words.next(Word::Side)?;
    match side_of(spot.text) {
        Some(side) => Ok(side),
        None => Err(spot.wrong(BidCode::Expected(Word::Side))),
    }
}
