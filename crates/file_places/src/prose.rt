//! Text that is put out.

use crate::marks::{put_mark, put_shown};
use crate::place::Place;
use duty_calendar::{List, Memory};
use field_text::{put_bytes, put_clock, put_minutes};
use itoa::Buffer;
use std::alloc::Global;

/// Text for a reader, as far as it goes. What files hold comes in as text, so that no byte of it is an order to a terminal.
#[derive(Drop)]
pub struct Prose {
    bytes: List<u8>,
}

impl Prose {
    /// No text.
    pub fn new(alloc: Global) -> Prose {
        Prose {
            bytes: List::new(alloc),
        }
    }

    /// Appends words of the program.
    pub fn say(&mut self, words: &'static [u8]) -> Result<(), Memory> {
        put_bytes(&mut self.bytes, words)
    }

    /// Appends text of a file.
    pub fn text(&mut self, text: &[u8]) -> Result<(), Memory> {
        put_shown(&mut self.bytes, text)
    }

    /// Appends a number.
    pub fn number(&mut self, value: u64) -> Result<(), Memory> {
        let mut buffer = Buffer::new();
        put_bytes(&mut self.bytes, buffer.format(value).as_bytes())
    }

    /// Appends minutes as hours and minutes.
    pub fn hours(&mut self, minutes: u32) -> Result<(), Memory> {
        put_minutes(&mut self.bytes, minutes)
    }

    /// Appends the clock of a minute.
    pub fn clock(&mut self, minute: u32) -> Result<(), Memory> {
        put_clock(&mut self.bytes, minute % 1440)
    }

    /// Appends another text.
    pub fn add(&mut self, other: &Prose) -> Result<(), Memory> {
        put_bytes(&mut self.bytes, other.as_slice())
    }

    /// Appends the line of a place, and below it the mark.
    pub fn mark(&mut self, place: &Place<'_>) -> Result<(), Memory> {
        put_mark(&mut self.bytes, place.before, place.word, place.after)
    }

    /// Whether there is no text.
    pub fn is_empty(&self) -> bool {
        self.bytes.len() == 0
    }

    /// The text.
    pub fn as_slice(&self) -> &[u8] {
        self.bytes.as_slice()
    }
}
