//! A pilot's lines as a text of bids: below a line with the pilot's name, so that each stands one line further down.

use crate::lines::{named_in, split_line};
use duty_calendar::Memory;
use std::alloc::Global;

/// A text of bids of one pilot, and the lines of what was sent that name another one, from 1.
#[derive(Drop)]
pub struct Framed {
    pub text: Vec<u8>,
    pub foreign: Vec<u64>,
}

/// Appends a line and its end.
pub fn push_line(text: &mut Vec<u8>, line: &[u8]) -> Result<(), Memory> {
    text.extend_from_slice(line)?;
    text.push(b'\n')?;
    Ok(())
}

/// Appends the line that names a pilot.
pub fn push_name(text: &mut Vec<u8>, name: &[u8]) -> Result<(), Memory> {
    text.extend_from_slice(b"member ")?;
    push_line(text, name)
}

impl Framed {
    /// Takes a line of a number. One that names the pilot says nothing more, and is left empty.
    fn take(&mut self, name: &[u8], line: &[u8], number: u64) -> Result<(), Memory> {
        match named_in(line) {
            None => push_line(&mut self.text, line),
            Some(named) if named == name => push_line(&mut self.text, b""),
            Some(_) => {
                self.foreign.push(number)?;
                push_line(&mut self.text, b"")
            }
        }
    }
}

/// What a pilot sent, as a text of bids.
pub fn frame_bids(alloc: Global, name: &[u8], sent: &[u8]) -> Result<Framed, Memory> {
    let mut made = Framed {
        text: Vec::new(alloc),
        foreign: Vec::new(alloc),
    };
    push_name(&mut made.text, name)?;
    let mut rest = sent;
    let mut number: u64 = 0;
    for _byte in sent {
        if rest.is_empty() {
            return Ok(made);
        }
        let split = split_line(rest);
        number = number.saturating_add(1);
        made.take(name, split.line, number)?;
        rest = split.rest;
    }
    Ok(made)
}

/// The text with nothing in the line of this number, from 1.
pub fn without_line(alloc: Global, text: &[u8], number: u64) -> Result<Vec<u8>, Memory> {
    let mut made = Vec::new(alloc);
    let mut at: u64 = 1;
    for byte in text {
        if at != number || *byte == b'\n' {
            made.push(*byte)?;
        }
        if *byte == b'\n' {
            at = at.saturating_add(1);
        }
    }
    Ok(made)
}
