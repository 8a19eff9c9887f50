//! The pairings that are being read, and their names.
ghost use Rattle.std.specs.Prelude.{◌≡◌, ◌≢◌, ◌+◌, ◌<◌, ◌≤◌, ◌^◌, ◌++◌, ◌∷◌, [], length, true, false, slice_get, Some, IfSome, IfErr, OnOk};
ghost use Rattle.std.specs.List.{list_any};
ghost use Rattle.std.specs.Option.{ForSome};
ghost use Rattle.field_text.specs.declared.file_fault.FileCode.TheVariants.{NoMemory};
ghost use Rattle.pairing_files.specs.Drafts.{draft_of, no_draft, is_called, place_of, with_pairing, with_duty, with_leg, IsNamed};
ghost use Rattle.pairing_files.specs.Faults.{pairing_fault};

use crate::fault::{
    CREDIT_LIMIT, MOST_CREDIT, MOST_NEED, MOST_PAIRINGS, NEED_LIMIT, PAIRINGS_LIMIT,
};
use duty_calendar::{Copied, Duty, Leg, List, Name, Pairing};
use field_text::FileCode;
use indexmap::IndexSet;
use std::alloc::Global;

/// Where a duty stands: its pairing's place in the list, and its place in the pairing.
#[derive(Clone, Copy)]
pub struct Place {
    pub pairing: usize,
    pub duty: usize,
}

/// The pairings with their names in the same order, and the places of the duties in the order of
/// their rows.
#[derive(Drop)]
pub struct Tables {
    pub names: IndexSet<Name>,
    pub list: List<Pairing>,
    pub places: Vec<Place>,
}

impl Tables {
    pub fn new(alloc: Global) -> Tables
        ensures empty { draft_of result ≡ no_draft }
        ensures named { IsNamed result }
    {
        Tables {
            names: IndexSet::new(alloc),
            list: List::new(alloc),
            places: Vec::new(alloc),
        }
    }

    /// The place of the pairing of this name.
    pub fn place_of(&self, name: &Name) -> Option<usize>
        requires named { IsNamed self.now }
        ensures value { result ≡ place_of name.now self.now.list }
        ensures within { IfSome result (λ i. i < length self.now.list) }
    {
        self.names.get_index_of(name)
    }

    /// Whether a pairing has this name.
    fn is_named(&self, name: &Name) -> bool
        requires named { IsNamed self.now }
        ensures value { result ≡ list_any (is_called name.now) self.now.list }
    {
        self.names.contains(name)
    }

    /// What is wrong with a pairing after those that are there.
    pub fn pairing_fault(&self, pairing: &Pairing) -> Option<FileCode>
        requires named { IsNamed self.now }
        ensures value { result ≡ pairing_fault self.now.list pairing.now }
    {
        if self.is_named(&pairing.name) {
            return Some(FileCode::Duplicate);
        }
        if self.list.len() >= MOST_PAIRINGS {
            return Some(FileCode::Limit(PAIRINGS_LIMIT));
        }
        if pairing.need < 1 || pairing.need > MOST_NEED {
            return Some(FileCode::Limit(NEED_LIMIT));
        }
        if pairing.credit > MOST_CREDIT {
            return Some(FileCode::Limit(CREDIT_LIMIT));
        }
        None
    }

    /// Adds a name that is not there, as the last.
    fn add_name(&mut self, alloc: Global, name: &Name) -> Result<(), FileCode>
        requires new { list_any (is_called name.now) self.old.list ≡ false }
        requires named { IsNamed self.old }
        ensures ok { OnOk result (self.new.names.keys ≡ self.old.names.keys ++ name.now ∷ []) }
        ensures list { self.new.list ≡ self.old.list }
        ensures places { self.new.places ≡ self.old.places }
        ensures fault { IfErr result (λ e. e ≡ NoMemory) }
    {
        let Ok(copied) = name.copy(alloc) else {
            return Err(FileCode::NoMemory);
        };
        match self.names.insert(copied) {
            Ok(_) => Ok(()),
            Err(_) => Err(FileCode::NoMemory),
        }
    }

    /// Adds a pairing whose name is not there, as the last.
    pub fn add_pairing(&mut self, alloc: Global, pairing: Pairing) -> Result<(), FileCode>
        requires new { list_any (is_called pairing.name) self.old.list ≡ false }
        requires named { IsNamed self.old }
        ensures ok { OnOk result (draft_of self.new ≡ with_pairing (draft_of self.old) pairing) }
        ensures named { OnOk result (IsNamed self.new) }
        ensures fault { IfErr result (λ e. e ≡ NoMemory) }
    {
        self.add_name(alloc, &pairing.name)?;
        if self.list.push(pairing).is_err() {
            return Err(FileCode::NoMemory);
        }
        Ok(())
    }

    /// Adds a duty to the pairing at a place, as its last.
    pub fn add_duty(&mut self, place: usize, duty: Duty) -> Result<(), FileCode>
        requires within { place < length self.old.list }
        requires named { IsNamed self.old }
        ensures ok { OnOk result ((p : Pairing) → slice_get self.old.list place ≡ Some p
            → draft_of self.new ≡ with_duty (draft_of self.old) place p duty) }
        ensures named { OnOk result (IsNamed self.new) }
        ensures fault { IfErr result (λ e. e ≡ NoMemory) }
    {
        let pairing = self.list.at_mut(place);
        let at = Place {
            pairing: place,
            duty: pairing.duties.len(),
        };
        if pairing.duties.push(duty).is_err() {
            return Err(FileCode::NoMemory);
        }
        if self.places.push(at).is_err() {
            return Err(FileCode::NoMemory);
        }
        Ok(())
    }

    /// Adds a leg to a duty of the pairing at a place, as its last.
    pub fn add_leg(&mut self, place: usize, duty: usize, leg: Leg) -> Result<(), FileCode>
        requires within { place < length self.old.list }
        requires duty_within { ForSome (slice_get self.old.list place)
            (λ p. duty < length p.duties) }
        requires named { IsNamed self.old }
        ensures ok { OnOk result ((p : Pairing) (d : Duty)
            → slice_get self.old.list place ≡ Some p → slice_get p.duties duty ≡ Some d
            → draft_of self.new ≡ with_leg (draft_of self.old) place p duty d leg) }
        ensures named { OnOk result (IsNamed self.new) }
        ensures fault { IfErr result (λ e. e ≡ NoMemory) }
    {
        let pairing = self.list.at_mut(place);
        let held = pairing.duties.at_mut(duty);
        if held.legs.push(leg).is_err() {
            return Err(FileCode::NoMemory);
        }
        Ok(())
    }
}
