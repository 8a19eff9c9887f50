//! The trail of a flat search: labels that wait, labels that were gone on from, and the pairings that they took.

use crate::labels::{Climb, Label};
use crate::pairings::PairingSet;
use crate::sizes::COMPARED;
use duty_calendar::Memory;
use std::alloc::Global;

/// A pairing that was taken, and the number of the one before it, where 0 is none.
#[derive(Clone, Copy)]
struct Taken {
    before: usize,
    pairing: u32,
}

/// A label that was gone on from, and the number of the one before it at its place, where 0 is none.
#[derive(Clone, Copy)]
struct Seen {
    label: Label,
    before: usize,
}

/// What has been gone through. The last label seen at each place is known by its number, and the labels that wait are gone on
/// from last in, first out.
#[derive(Drop)]
pub(crate) struct Trail {
    taken: Vec<Taken>,
    seen: Vec<Seen>,
    last: Vec<usize>,
    waiting: Vec<Label>,
}

impl Trail {
    /// Nothing yet, over so many places.
    pub(crate) fn new(alloc: Global, places: usize) -> Result<Trail, Memory> {
        Ok(Trail {
            taken: Vec::new(alloc),
            seen: Vec::new(alloc),
            last: vec![in alloc; 0usize; places]?,
            waiting: Vec::new(alloc),
        })
    }

    /// Lets a label wait.
    pub(crate) fn wait(&mut self, label: Label) -> Result<(), Memory> {
        self.waiting.push(label)?;
        Ok(())
    }

    /// The label that waits for the shortest time.
    pub(crate) fn next(&mut self) -> Option<Label> {
        self.waiting.pop()
    }

    /// Whether a label that was gone on from at its place serves as well.
    fn is_outdone(&self, climb: &Climb, label: &Label) -> bool {
        let mut at = self.last.get(label.place).copied().unwrap_or(0);
        for _ in 0..COMPARED {
            let Some(seen) = self.seen.get(at.wrapping_sub(1)) else {
                return false;
            };
            if climb.outdoes(&seen.label, label) {
                return true;
            }
            at = seen.before;
        }
        false
    }

    /// Notes a label that is to be gone on from, and tells whether none before it serves as well.
    pub(crate) fn enter(&mut self, climb: &Climb, label: &Label) -> Result<bool, Memory> {
        if self.is_outdone(climb, label) {
            return Ok(false);
        }
        let before = self.last.get(label.place).copied().unwrap_or(0);
        self.seen.push(Seen {
            label: *label,
            before,
        })?;
        let count = self.seen.len();
        if let Some(last) = self.last.get_mut(label.place) {
            *last = count;
        }
        Ok(true)
    }

    /// Notes that a label took this pairing.
    pub(crate) fn take(&mut self, label: &mut Label, pairing: u32) -> Result<(), Memory> {
        self.taken.push(Taken {
            before: label.taken,
            pairing,
        })?;
        label.taken = self.taken.len();
        Ok(())
    }

    /// The pairings of a label.
    pub(crate) fn pairings(&self, label: &Label) -> PairingSet {
        let mut set = PairingSet::new();
        let mut at = label.taken;
        for _ in 0..self.taken.len() {
            let Some(taken) = self.taken.get(at.wrapping_sub(1)) else {
                return set;
            };
            set.insert(taken.pairing as usize);
            at = taken.before;
        }
        set
    }
}
