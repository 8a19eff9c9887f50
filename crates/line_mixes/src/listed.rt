//! The pairings of a member's kept lines, line after line.

use duty_calendar::Memory;
use std::alloc::Global;

/// From where to where a line goes.
#[derive(Clone, Copy)]
struct Span {
    from: usize,
    to: usize,
}

/// The pairings of a member's kept lines, line after line, and from where to where each line goes.
#[derive(Drop)]
pub(crate) struct Listed {
    pairings: Vec<u32>,
    spans: Vec<Span>,
}

impl Listed {
    /// No line.
    pub(crate) fn new(alloc: Global) -> Listed {
        Listed {
            pairings: Vec::new(alloc),
            spans: Vec::new(alloc),
        }
    }

    /// The pairings of the line of a number.
    pub(crate) fn line(&self, place: usize) -> &[u32] {
        match self.spans.get(place) {
            Some(span) => self.pairings.get(span.from..span.to).unwrap_or(&[]),
            None => &[],
        }
    }

    /// Adds a line.
    pub(crate) fn add(&mut self, line: &[u32]) -> Result<(), Memory> {
        let from = self.pairings.len();
        self.pairings.extend_from_slice(line)?;
        let to = self.pairings.len();
        self.spans.push(Span { from, to })?;
        Ok(())
    }
}
