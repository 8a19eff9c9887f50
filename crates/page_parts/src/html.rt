//! A page as it is written.
ghost use Rattle.std.specs.Prelude.{◌≡◌, ◌<◌, ◌++◌, [], OnOk};
ghost use Rattle.page_parts.specs.Escaping.{escaped};

use crate::escaping::put_escaped;
use duty_calendar::{List, Memory};
use field_text::{put_bytes, put_clock, put_minutes, put_number};
use std::alloc::Global;

/// The bytes of a page so far. What is read of a file lives no longer than a run, so it is no part of the markup, and
/// comes in as text alone.
#[derive(Drop)]
pub struct Html {
    bytes: List<u8>,
}

impl Html {
    /// An empty page.
    pub fn new(alloc: Global) -> Html {
        Html {
            bytes: List::new(alloc),
        }
    }

    /// Appends markup, which is part of the program.
    pub fn markup(&mut self, part: &'static [u8]) -> Result<(), Memory> {
        put_bytes(&mut self.bytes, part)
    }

    /// Appends a text, of which no byte makes markup.
    pub fn text(&mut self, text: &[u8]) -> Result<(), Memory>
        ensures escaped { OnOk result (self.new.bytes ≡ self.old.bytes ++ escaped text.now) }
    {
        put_escaped(&mut self.bytes, text)
    }

    /// Appends a number.
    pub fn number(&mut self, value: u32) -> Result<(), Memory> {
        put_number(&mut self.bytes, value)
    }

    /// Appends how many there are.
    pub fn count(&mut self, count: usize) -> Result<(), Memory> {
        self.number(u32::try_from(count).unwrap_or(u32::MAX))
    }

    /// Appends minutes as hours and minutes.
    pub fn hours(&mut self, minutes: u32) -> Result<(), Memory> {
        put_minutes(&mut self.bytes, minutes)
    }

    /// Appends a minute of the day as a clock.
    pub fn clock(&mut self, minute: u32) -> Result<(), Memory>
        requires of_day { minute < 1440 }
    {
        put_clock(&mut self.bytes, minute)
    }

    /// The bytes of the page.
    pub fn into_bytes(self) -> List<u8>
        ensures all { result ≡ self.bytes }
    {
        self.bytes
    }
}
