//! Legal lines that were found lately for some member, which others may fly too.

use crate::limits::MOST_RECENT;
use duty_calendar::Memory;
use std::alloc::Global;

/// A kept line: whose it is, and its number.
#[derive(Clone, Copy, PartialEq, Eq)]
pub(crate) struct KeptLine {
    pub member: usize,
    pub place: usize,
}

/// The lines that were kept last, in no order; the oldest gives way to the next.
#[derive(Drop)]
pub(crate) struct Recent {
    lines: Vec<KeptLine>,
    oldest: usize,
}

impl Recent {
    /// No line yet.
    pub(crate) fn new(alloc: Global) -> Recent {
        Recent {
            lines: Vec::new(alloc),
            oldest: 0,
        }
    }

    /// The lines.
    pub(crate) fn lines(&self) -> &[KeptLine] {
        &self.lines
    }

    /// Remembers a line that was kept now.
    pub(crate) fn add(&mut self, line: KeptLine) -> Result<(), Memory> {
        if self.lines.len() < MOST_RECENT {
            self.lines.push(line)?;
            return Ok(());
        }
        if let Some(oldest) = self.lines.get_mut(self.oldest) {
            *oldest = line;
        }
        self.oldest = self.oldest.wrapping_add(1) % MOST_RECENT;
        Ok(())
    }
}
