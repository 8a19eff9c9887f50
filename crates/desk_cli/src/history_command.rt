//! The command `history`: what it says.
ghost use Rattle.std.specs.Prelude.{◌≡◌};
ghost use Rattle.next_folder.specs.Spared.{Spares};

use crate::history_notes::put_rolled;
use crate::runner::say;
use crate::status::DeskStatus;
use duty_calendar::Memory;
use file_places::Prose;
use folder_answers::{explain, input_answer, rule_answer, tell_answer, unread_answer};
use line_legality::{RosterFault, illegal_numbers};
use month_files::{BadInput, File, Unwritten, WriteStop};
use next_folder::{Barrier, HistoryStop, roll_over};
use next_month::HeirFault;
use printed_lines::Answer;
use shelf::{Shelf, Sink};
use std::alloc::Global;

/// Appends what an answer says of the files of a shelf, where there is one.
fn say_answer<S: Shelf>(
    alloc: Global,
    shelf: &mut S,
    prose: &mut Prose,
    answer: Option<Answer<'_>>,
) -> Result<DeskStatus, Memory>
    ensures kept { S.holds shelf.new ≡ S.holds shelf.old }
{
    let Some(answer) = answer else {
        return Err(Memory::NoMemory);
    };
    tell_answer(alloc, shelf, prose, &answer)?;
    Ok(DeskStatus::Faulty)
}

/// Appends a line that `pbs` prints too, and what it says.
fn say_line<S: Shelf>(
    alloc: Global,
    shelf: &mut S,
    prose: &mut Prose,
    line: &Prose,
) -> Result<DeskStatus, Memory>
    ensures kept { S.holds shelf.new ≡ S.holds shelf.old }
{
    prose.add(line)?;
    prose.say(b"\n")?;
    explain(alloc, shelf, prose, line.as_slice())?;
    Ok(DeskStatus::Faulty)
}

/// Words and numbers behind them.
fn numbered(alloc: Global, words: &'static [u8], numbers: &[u64]) -> Result<Prose, Memory> {
    let mut line = Prose::new(alloc);
    line.say(words)?;
    for number in numbers {
        line.say(b" ")?;
        line.number(*number)?;
    }
    Ok(line)
}

/// The line of a roster that is not complete.
fn shortfall_line(alloc: Global, why: RosterFault) -> Result<Prose, Memory> {
    match why {
        RosterFault::NoMemory => Err(Memory::NoMemory),
        RosterFault::Line(member, illegal) => {
            let [code, place] = illegal_numbers(illegal);
            numbered(
                alloc,
                b"no",
                &[1, u64::from(member).saturating_add(1), code, place],
            )
        }
        RosterFault::Cover(pairing, count) => numbered(
            alloc,
            b"no",
            &[2, u64::from(pairing).saturating_add(1), u64::from(count)],
        ),
    }
}

/// Appends which line of the crew a member has.
fn put_crew_line(prose: &mut Prose, member: u32) -> Result<DeskStatus, Memory> {
    prose.number(u64::from(member).saturating_add(2))?;
    prose.say(b" of the crew.csv of the next month\n")?;
    Ok(DeskStatus::Faulty)
}

/// Appends why members of the next month cannot be written.
fn say_heir(prose: &mut Prose, why: HeirFault) -> Result<DeskStatus, Memory> {
    match why {
        HeirFault::NoMemory => Err(Memory::NoMemory),
        HeirFault::Overlap(member) => {
            prose.say(b"two events that the next month needs share a minute: the pilot of line ")?;
            put_crew_line(prose, member)
        }
        HeirFault::LongHistory(member) => {
            prose.say(b"more than 500 events before the next month: the pilot of line ")?;
            put_crew_line(prose, member)
        }
        HeirFault::LongFixed(member) => {
            prose.say(b"more than 60 events go on into the next month: the pilot of line ")?;
            put_crew_line(prose, member)
        }
    }
}

/// Appends words, after which nothing is written.
fn refuse(prose: &mut Prose, words: &'static [u8]) -> Result<DeskStatus, Memory> {
    prose.say(words)?;
    Ok(DeskStatus::Faulty)
}

/// Appends which file of the next month this is said of.
fn say_file(
    prose: &mut Prose,
    file: File,
    words: &'static [u8],
    status: DeskStatus,
) -> Result<DeskStatus, Memory> {
    prose.text(file.name().as_bytes())?;
    prose.say(words)?;
    Ok(status)
}

/// Appends which file was not written.
fn say_unwritten(prose: &mut Prose, stop: &Unwritten) -> Result<DeskStatus, Memory> {
    match stop.why {
        WriteStop::NoMemory => Err(Memory::NoMemory),
        WriteStop::Fault => say_file(
            prose,
            stop.file,
            b" of the next month was not written: no permission, no room, or no such folder\n",
            DeskStatus::WriteFault,
        ),
    }
}

/// Appends what stands against it in this month.
fn say_own<S: Shelf>(
    alloc: Global,
    shelf: &mut S,
    prose: &mut Prose,
    why: &Barrier,
) -> Result<DeskStatus, Memory>
    ensures kept { S.holds shelf.new ≡ S.holds shelf.old }
{
    match why {
        Barrier::Unread(why) => say_answer(alloc, shelf, prose, unread_answer(*why)),
        Barrier::BadInput(BadInput::Fault(fault)) => {
            say_answer(alloc, shelf, prose, input_answer(fault))
        }
        Barrier::Roster(fault) => {
            let numbers = [u64::from(fault.row), u64::from(fault.code.code())];
            let line = numbered(alloc, b"no roster", &numbers)?;
            say_line(alloc, shelf, prose, &line)
        }
        Barrier::Incomplete(why) => {
            let line = shortfall_line(alloc, *why)?;
            say_line(alloc, shelf, prose, &line)
        }
        Barrier::LastMonth => refuse(prose, b"no month follows on December 2099\n"),
        _ => Err(Memory::NoMemory),
    }
}

/// Appends what stands against it.
fn say_barrier<S: Shelf>(
    alloc: Global,
    shelf: &mut S,
    next: &mut S,
    prose: &mut Prose,
    why: &Barrier,
) -> Result<DeskStatus, Memory>
    ensures kept { S.holds shelf.new ≡ S.holds shelf.old }
    ensures others { S.holds next.new ≡ S.holds next.old }
{
    match why {
        Barrier::NextUnread(why) => say_answer(alloc, next, prose, unread_answer(*why)),
        Barrier::NextRules(fault) => say_answer(alloc, next, prose, rule_answer(fault)),
        Barrier::NextMembers(fault) => say_answer(alloc, next, prose, Some(Answer::Row(*fault))),
        Barrier::OtherMonth => refuse(
            prose,
            b"the rules.toml of the next month is of another month than the one that follows\n",
        ),
        Barrier::IsThere => refuse(
            prose,
            b"history.csv of the next month is there already; with --force it is written over\n",
        ),
        Barrier::TooLong(file) => say_file(
            prose,
            *file,
            b" of the next month would be longer than 64 MiB\n",
            DeskStatus::Faulty,
        ),
        Barrier::Heir(why) => say_heir(prose, *why),
        _ => say_own(alloc, shelf, prose, why),
    }
}

/// Appends why the history was not written.
fn say_stop<S: Shelf>(
    alloc: Global,
    shelf: &mut S,
    next: &mut S,
    prose: &mut Prose,
    stop: &HistoryStop,
) -> Result<DeskStatus, Memory>
    ensures kept { S.holds shelf.new ≡ S.holds shelf.old }
    ensures others { S.holds next.new ≡ S.holds next.old }
{
    match stop {
        HistoryStop::Barred(why) => say_barrier(alloc, shelf, next, prose, why),
        HistoryStop::Unwritten(_, stop) => say_unwritten(prose, stop),
    }
}

/// Makes a month the past of the next one, and appends what was written or why nothing was.
#[tactic(auto, using(crate::proofs::Spared::spares_kept))]
fn say_history<S: Shelf>(
    alloc: Global,
    shelf: &mut S,
    next: &mut S,
    prose: &mut Prose,
    is_forced: bool,
) -> Result<DeskStatus, Memory>
    ensures kept { S.holds shelf.new ≡ S.holds shelf.old }
    ensures spared { Spares is_forced (S.holds next.old) (S.holds next.new) }
{
    match roll_over(alloc, shelf, next, is_forced) {
        Ok(rolled) => put_rolled(prose, &rolled),
        Err(stop) => say_stop(alloc, shelf, next, prose, &stop),
    }
}

/// Makes a month the past of the next one, in another folder, and says what was written or why nothing was. There it writes the
/// history, over another one only where `is_forced`, and rules, crew and fixed events that are not there.
pub fn run_history<S: Shelf, O: Sink>(
    alloc: Global,
    shelf: &mut S,
    next: &mut S,
    out: &mut O,
    is_forced: bool,
) -> DeskStatus
    ensures kept { S.holds shelf.new ≡ S.holds shelf.old }
    ensures spared { Spares is_forced (S.holds next.old) (S.holds next.new) }
{
    let mut prose = Prose::new(alloc);
    match say_history(alloc, shelf, next, &mut prose, is_forced) {
        Ok(status) => say(out, &prose, status),
        Err(Memory::NoMemory) => DeskStatus::NoMemory,
    }
}
