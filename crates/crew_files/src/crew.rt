//! The members that were read so far, found by their names.
ghost use Rattle.std.specs.Prelude.{◌≡◌, ◌∷◌, [], ◌++◌, ◌<◌, length, false, position, slice_get, Some, IfErr, IfNone, OnOk, OnErr};
ghost use Rattle.field_text.specs.declared.file_fault.FileCode.TheVariants.{NoMemory};
ghost use Rattle.crew_files.specs.Crew.{has_name, is_named, new_member};
ghost use Rattle.crew_files.specs.Events.{with_event_at};

use crate::part::Part;
use duty_calendar::{Copied, Event, List, Member, Name};
use field_text::FileCode;
use indexmap::IndexSet;
use std::alloc::Global;
use std::marker::Model;

fn push(list: &mut List<Event>, event: Event) -> Result<(), FileCode>
    ensures ok { OnOk result (list.new ≡ list.old ++ event ∷ []) }
    ensures fault { OnErr result (list.new ≡ list.old) }
    ensures memory { IfErr result (λ e. e ≡ NoMemory) }
{
    match list.push(event) {
        Ok(()) => Ok(()),
        Err(_) => Err(FileCode::NoMemory),
    }
}

/// The members in the order of their file. Contracts see the list of them.
#[derive(Drop)]
pub struct Crew {
    names: IndexSet<Name>,
    members: Vec<Member>,
}

impl Model for Crew {
    ghost use Rattle.std.specs.Prelude.{◌≡◌, List as Sequence, map};
    ghost use Rattle.duty_calendar.specs.declared.member.Member.{Member};

    ghost Value = { Sequence Member };

    ghost view = { λ c. c.members.items };

    ghost invariant = { λ c. c.names.keys ≡ map (λ m. m.name) c.members.items };
}

impl Crew {
    /// No member.
    pub fn new(alloc: Global) -> Crew
        ensures empty { result ≡ [] }
    {
        Crew {
            names: IndexSet::new(alloc),
            members: Vec::new(alloc),
        }
    }

    /// How many members there are.
    pub fn len(&self) -> usize
        ensures value { result ≡ length self.now }
    {
        self.members.len()
    }

    /// Whether a member has this name.
    pub fn is_named(&self, name: &Name) -> bool
        ensures value { result ≡ is_named name.now self.now }
    {
        self.names.contains(name)
    }

    /// The place of the member of this name.
    pub fn find(&self, name: &Name) -> Option<usize>
        ensures value { result ≡ position (has_name name.now) self.now }
        ensures none { IfNone result (is_named name.now self.now ≡ false) }
    {
        self.names.get_index_of(name)
    }

    /// The member at a place.
    pub fn member(&self, i: usize) -> &Member
        requires within { i < length self.now }
        ensures value { slice_get self.now i ≡ Some result.now }
    {
        &self.members[i]
    }

    /// Adds a member whose name is new.
    pub fn push(&mut self, alloc: Global, name: Name, low: u32, high: u32) -> Result<(), FileCode>
        requires new { is_named name self.old ≡ false }
        ensures ok { OnOk result (self.new ≡ self.old ++ new_member name low high ∷ []) }
        ensures fault { IfErr result (λ e. e ≡ NoMemory) }
    {
        let Ok(key) = name.copy(alloc) else {
            return Err(FileCode::NoMemory);
        };
        let member = Member {
            name,
            low,
            high,
            history: List::new(alloc),
            fixed: List::new(alloc),
        };
        if self.members.push(member).is_err() {
            return Err(FileCode::NoMemory);
        }
        if self.names.insert(key).is_err() {
            self.members.pop();
            return Err(FileCode::NoMemory);
        }
        Ok(())
    }

    /// Adds an event to a part of the member at a place.
    pub fn add(&mut self, i: usize, part: Part, event: Event) -> Result<(), FileCode>
        requires within { i < length self.old }
        ensures ok { OnOk result (self.new ≡ with_event_at i part event self.old) }
        ensures fault { IfErr result (λ e. e ≡ NoMemory) }
    {
        let member = &mut self.members[i];
        match part {
            Part::History => push(&mut member.history, event),
            Part::Fixed => push(&mut member.fixed, event),
        }
    }

    /// The members as a list.
    pub fn into_list(self) -> List<Member>
        ensures value { result ≡ self }
    {
        let Crew { names, members } = self;
        drop(names);
        List::from_vec(members)
    }
}
