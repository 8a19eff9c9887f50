//! The kept lines of one member.
ghost use Rattle.std.specs.Prelude.{◌≡◌, ◌<◌, [], length, slice_get, option_copied, IfErr, OnErr, OnOk};
ghost use Rattle.roster_model.specs.Rosters.{line_at};
ghost use Rattle.column_pool.specs.Kept.{offered};

use crate::kept::KeptLine;
use indexmap::IndexSet;
use roster_model::Line;
use std::alloc::Global;
use std::marker::Model;

/// How many lines of a member are kept at most.
const MOST_LINES: usize = 10_000;

/// Lines in the order in which they came, no two of them equal.
#[derive(Drop)]
pub(crate) struct Lines {
    set: IndexSet<KeptLine>,
}

impl Model for Lines {
    ghost use Rattle.std.specs.Prelude.{ℕ, List as Sequence};

    ghost Value = { Sequence (Sequence ℕ) };

    ghost view = { λ l. l.set.keys };
}

impl Lines {
    /// No line.
    pub(crate) fn new(alloc: Global) -> Lines
        ensures empty { result ≡ [] }
    {
        Lines {
            set: IndexSet::new(alloc),
        }
    }

    /// How many lines there are.
    pub(crate) fn len(&self) -> usize
        ensures count { result ≡ length self.now }
    {
        self.set.len()
    }

    /// The line at a place.
    pub(crate) fn get(&self, place: usize) -> Option<&Line>
        ensures value { option_copied result ≡ slice_get self.now place }
    {
        if place < self.set.len() {
            Some(self.line(place))
        } else {
            None
        }
    }

    /// The line at a place that has one.
    pub(crate) fn line(&self, place: usize) -> &Line
        requires within { place < length self.now }
        ensures line { result.now ≡ line_at self.now place }
    {
        match self.set.get_index(place) {
            Some(kept) => kept.line(),
            None => unreachable!(),
        }
    }

    /// Keeps the line as the last, unless it is kept already or there are as many as may be. Hands it back for want
    /// of memory.
    pub(crate) fn offer(&mut self, line: Line) -> Result<(), Line>
        ensures ok { OnOk result (self.new ≡ offered self.old line) }
        ensures err { OnErr result (self.new ≡ self.old) }
        ensures back { IfErr result (λ given. given ≡ line) }
    {
        if self.set.len() >= MOST_LINES {
            return Ok(());
        }
        match self.set.insert(KeptLine::new(line)) {
            Ok(_added) => Ok(()),
            Err(refused) => Err(refused.value.into_line()),
        }
    }
}
