//! The names of stations, pairings and members.
ghost use Rattle.std.specs.Prelude.{◌≡◌, ◌∷◌, ◌<◌, ◌≤◌, IsTrue, IfOk, decimal, length};
ghost use Rattle.duty_calendar.specs.Forms.{is_capital, are_capitals, is_name};
ghost use Rattle.instance_maker.specs.Months.{home, station};

use duty_calendar::{Memory, Name, Station};
use itoa::Buffer;
use std::alloc::Global;

/// The station of three capitals.
fn spelt(letters: [u8; 3]) -> Station
    requires capitals { IsTrue (are_capitals letters) }
    ensures value { result ≡ letters }
{
    match Station::new(letters) {
        Some(station) => station,
        None => unreachable!(),
    }
}

/// The base.
#[tactic(auto, unfolding(crate::specs::Months::home))]
pub fn home() -> Station
    ensures value { result ≡ home }
{
    spelt(*b"DUB")
}

/// A station that pairings go to, by its number.
#[tactic(auto, unfolding(crate::specs::Months::station))]
pub fn station(number: u32) -> Station
    ensures value { result ≡ station number }
{
    match number {
        0 => spelt(*b"ORD"),
        1 => spelt(*b"DEN"),
        2 => spelt(*b"SEA"),
        _ => spelt(*b"BOS"),
    }
}

/// The letter and the digits of a number.
fn text(alloc: Global, letter: u8, number: u32) -> Result<Vec<u8>, Memory>
    ensures items { IfOk result (λ bytes. bytes.items ≡ letter ∷ decimal number) }
{
    let mut buffer = Buffer::new();
    let mut bytes = Vec::from_slice(alloc, &[letter])?;
    bytes.extend_from_slice(buffer.format(number).as_bytes())?;
    Ok(bytes)
}

/// A capital and a number, as a name.
pub fn numbered(alloc: Global, letter: u8, number: u32) -> Result<Name, Memory>
    requires capital { IsTrue (is_capital letter) }
    ensures value { IfOk result (λ name. name ≡ letter ∷ decimal number) }
{
    let bytes = text(alloc, letter, number)?;
    match Name::new(bytes.as_slice()) {
        Some(name) => Ok(name),
        None => unreachable!(),
    }
}
