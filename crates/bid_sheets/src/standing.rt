//! The bids of a pilot in a text of bids of another month.

use crate::framing::push_line;
use crate::lines::{named_in, split_line};
use duty_calendar::Memory;
use std::alloc::Global;

/// The lines of a pilot, where the text names the pilot.
#[derive(Drop)]
struct Found {
    lines: Vec<u8>,
    is_named: bool,
    is_open: bool,
}

impl Found {
    /// Takes a line of the text.
    fn take(&mut self, name: &[u8], line: &[u8]) -> Result<(), Memory> {
        match named_in(line) {
            Some(named) => {
                self.is_open = named == name;
                self.is_named = self.is_named || self.is_open;
                Ok(())
            }
            None if self.is_open => push_line(&mut self.lines, line),
            None => Ok(()),
        }
    }
}

/// The lines of the pilot of this name in a text of bids, where it names the pilot.
pub fn standing_of(alloc: Global, name: &[u8], old: &[u8]) -> Result<Option<Vec<u8>>, Memory> {
    let mut found = Found {
        lines: Vec::new(alloc),
        is_named: false,
        is_open: false,
    };
    let mut rest = old;
    for _byte in old {
        if rest.is_empty() {
            break;
        }
        let split = split_line(rest);
        found.take(name, split.line)?;
        rest = split.rest;
    }
    if found.is_named {
        return Ok(Some(found.lines));
    }
    Ok(None)
}
