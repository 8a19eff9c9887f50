//! `calendars`: a calendar for each pilot.
ghost use Rattle.std.specs.Prelude.{◌≡◌};

use crate::award::{Award, tell_award};
use crate::names_file::tell_names;
use crate::runner::say;
use crate::status::DeskStatus;
use duty_calendar::{List, Memory};
use file_places::Prose;
use phone_calendars::{Written, folder_text, roster_text, write_calendar};
use shelf::{Shelf, ShelfFault, Sink};
use staff_names::StaffNames;
use std::alloc::Global;

/// How many calendars were written, how many stood there as they are, and how many events are cancelled.
#[derive(Clone, Copy)]
struct Tally {
    written: u64,
    standing: u64,
    cancelled: u64,
}

impl Tally {
    /// One calendar more.
    fn with(self, written: Written) -> Tally {
        let cancelled = self.cancelled.saturating_add(u64::from(written.cancelled));
        if written.is_new {
            return Tally {
                written: self.written.saturating_add(1),
                cancelled,
                ..self
            };
        }
        Tally {
            standing: self.standing.saturating_add(1),
            cancelled,
            ..self
        }
    }

    /// Appends the counts.
    fn put(self, prose: &mut Prose) -> Result<(), Memory> {
        prose.number(self.written)?;
        prose.say(b" of ")?;
        prose.number(self.written.saturating_add(self.standing))?;
        prose.say(b" calendars written; cancelled events: ")?;
        prose.number(self.cancelled)?;
        prose.say(b"\n")
    }
}

/// Appends why the calendar of a pilot was not read or written.
fn say_fault(prose: &mut Prose, name: &[u8], fault: ShelfFault) -> Result<DeskStatus, Memory> {
    if fault == ShelfFault::NoMemory {
        return Err(Memory::NoMemory);
    }
    prose.text(name)?;
    if fault == ShelfFault::WriteFailed {
        prose.say(
            b".ics was not written: no permission, no room, or no folder calendars (mkdir calendars)\n",
        )?;
        return Ok(DeskStatus::WriteFault);
    }
    prose.say(b".ics is there and was not read\n")?;
    Ok(DeskStatus::Faulty)
}

/// The earlier calendars, in the order of the members.
#[derive(Drop)]
enum Earlier {
    Texts(Vec<List<u8>>),
    /// It was said why there are none.
    Refused(DeskStatus),
}

/// The calendar of before of the pilot of a name: as it lies in a folder, or as a roster gives it.
fn text_of_before<S: Shelf>(
    alloc: Global,
    calendars: &mut S,
    folder: &mut S,
    award: Option<&Award>,
    name: &[u8],
) -> Result<List<u8>, ShelfFault>
    ensures kept { S.holds calendars.new ≡ S.holds calendars.old }
    ensures folder_kept { S.holds folder.new ≡ S.holds folder.old }
{
    match folder_text(alloc, calendars, folder, name) {
        Ok(Some(text)) => return Ok(text),
        Ok(None) => {}
        Err(fault) => return Err(fault),
    }
    let Some(award) = award else {
        return Ok(List::new(alloc));
    };
    match roster_text(alloc, &award.problem, &award.roster, name) {
        Ok(text) => Ok(text),
        Err(Memory::NoMemory) => Err(ShelfFault::NoMemory),
    }
}

/// The calendars of before of all pilots.
fn texts_of_before<S: Shelf>(
    alloc: Global,
    calendars: &mut S,
    folder: &mut S,
    prose: &mut Prose,
    before: Option<&Award>,
    now: &Award,
) -> Result<Earlier, Memory>
    ensures kept { S.holds calendars.new ≡ S.holds calendars.old }
    ensures folder_kept { S.holds folder.new ≡ S.holds folder.old }
{
    let mut texts = Vec::new(alloc);
    for member in now.problem.base.members.as_slice() {
        let name = member.name.bytes();
        let text = match text_of_before(alloc, calendars, folder, before, name) {
            Ok(text) => text,
            Err(fault) => return Ok(Earlier::Refused(say_fault(prose, name, fault)?)),
        };
        texts.push(text)?;
    }
    Ok(Earlier::Texts(texts))
}

/// Whether none of the texts says anything.
fn are_empty(texts: &[List<u8>]) -> bool {
    texts.iter().all(|text| text.len() == 0)
}

/// The calendars of before in a folder, or why there are none.
fn earlier_in<S: Shelf>(
    alloc: Global,
    calendars: &mut S,
    folder: &mut S,
    prose: &mut Prose,
    now: &Award,
) -> Result<Earlier, Memory>
    ensures kept { S.holds calendars.new ≡ S.holds calendars.old }
    ensures folder_kept { S.holds folder.new ≡ S.holds folder.old }
{
    let mut unsaid = Prose::new(alloc);
    let before = tell_award(alloc, folder, &mut unsaid)?;
    let found = texts_of_before(alloc, calendars, folder, prose, before.as_ref(), now)?;
    if let Earlier::Texts(texts) = &found {
        if are_empty(texts.as_slice()) {
            prose.say(
                b"the folder behind --cancelled has no calendars and no award of the month\n",
            )?;
            return Ok(Earlier::Refused(DeskStatus::Faulty));
        }
    }
    Ok(found)
}

/// The name of a member as it is shown.
fn shown<'a>(names: &'a StaffNames, member: &'a [u8]) -> &'a [u8] {
    match names.shown(member) {
        Some(name) => name.as_bytes(),
        None => member,
    }
}

/// Writes the calendars of all pilots.
fn write_all<S: Shelf>(
    alloc: Global,
    calendars: &mut S,
    prose: &mut Prose,
    award: &Award,
    names: &StaffNames,
    earlier: &[List<u8>],
) -> Result<DeskStatus, Memory> {
    let mut tally = Tally {
        written: 0,
        standing: 0,
        cancelled: 0,
    };
    let members = award.problem.base.members.as_slice();
    for (place, line) in award.roster.as_slice().iter().enumerate() {
        let Some(member) = members.get(place) else {
            return Ok(DeskStatus::Faulty);
        };
        let name = member.name.bytes();
        let before: &[u8] = match earlier.get(place) {
            Some(text) => text.as_slice(),
            None => b"",
        };
        let known = shown(names, name);
        match write_calendar(
            alloc,
            calendars,
            &award.problem,
            member,
            line,
            known,
            before,
        ) {
            Ok(written) => tally = tally.with(written),
            Err(fault) => return say_fault(prose, name, fault),
        }
    }
    tally.put(prose)?;
    Ok(DeskStatus::Done)
}

/// Writes a calendar for each pilot of the award in a folder, and appends how many. Where `is_cancelling` says so, what fell away
/// since the calendars or the award of before is cancelled.
fn say_calendars<S: Shelf, T: Shelf, U: Shelf>(
    alloc: Global,
    shelf: &mut S,
    calendars: &mut T,
    old: &mut U,
    old_calendars: &mut U,
    prose: &mut Prose,
    is_cancelling: bool,
) -> Result<DeskStatus, Memory>
    ensures kept { S.holds shelf.new ≡ S.holds shelf.old }
    ensures old_kept { U.holds old.new ≡ U.holds old.old }
{
    let Some(award) = tell_award(alloc, shelf, prose)? else {
        return Ok(DeskStatus::Faulty);
    };
    let Some(names) = tell_names(alloc, shelf, prose)? else {
        return Ok(DeskStatus::Faulty);
    };
    let earlier = if is_cancelling {
        earlier_in(alloc, old_calendars, old, prose, &award)?
    } else {
        Earlier::Texts(Vec::new(alloc))
    };
    match earlier {
        Earlier::Texts(texts) => write_all(
            alloc,
            calendars,
            prose,
            &award,
            &names,
            texts.as_slice(),
        ),
        Earlier::Refused(status) => Ok(status),
    }
}

/// Writes a calendar for each pilot of the award in a folder, and says how many. Where `is_cancelling` says so, what fell away
/// since the calendars or the award of before is cancelled. No file is written but those calendars.
pub fn run_calendars<S: Shelf, T: Shelf, U: Shelf, O: Sink>(
    alloc: Global,
    shelf: &mut S,
    calendars: &mut T,
    old: &mut U,
    old_calendars: &mut U,
    out: &mut O,
    is_cancelling: bool,
) -> DeskStatus
    ensures kept { S.holds shelf.new ≡ S.holds shelf.old }
    ensures old_kept { U.holds old.new ≡ U.holds old.old }
{
    let mut prose = Prose::new(alloc);
    let told = say_calendars(
        alloc,
        shelf,
        calendars,
        old,
        old_calendars,
        &mut prose,
        is_cancelling,
    );
    match told {
        Ok(status) => say(out, &prose, status),
        Err(Memory::NoMemory) => DeskStatus::NoMemory,
    }
}
