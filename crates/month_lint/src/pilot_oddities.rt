//! Pilots that look wrong.
ghost use Rattle.std.specs.Prelude.{◌<◌, length};

use crate::findings::Findings;
use crate::lone::empty_line;
use crate::rows::{named_line, row_line};
use crate::trip_oddities::{credit_of, stays};
use bid_score::days_off;
use duty_calendar::{Kind, Member, Memory};
use line_legality::{Illegal, legal};
use month_files::{File, Texts};
use plain_answers::put_rule;
use roster_model::Problem;
use std::alloc::Global;

/// The minute at which the month begins.
const MONTH_START: u32 = 525_600;

/// The line of a pilot, by number from 0.
fn pilot_line(alloc: Global, texts: &Texts, number: u32) -> Result<u64, Memory> {
    row_line(alloc, &texts.crew, number.saturating_add(2))
}

/// Notes plain words of a pilot.
fn note_pilot(
    found: &mut Findings,
    line: u64,
    member: &Member,
    text: &'static [u8],
) -> Result<(), Memory> {
    let mut words = found.words();
    words.say(b"pilot ")?;
    words.text(member.name.bytes())?;
    words.say(text)?;
    found.add(File::Crew, line, words)
}

/// Notes the first leave in the history of a pilot, but for leave that goes on in the month.
fn note_leave(found: &mut Findings, texts: &Texts, member: &Member) -> Result<(), Memory> {
    let mut number: u32 = 0;
    for event in member.history.as_slice() {
        if event.kind == Kind::Leave && event.release < MONTH_START {
            let line = named_line(found.alloc(), &texts.history, &member.name, number)?;
            let text = b"leave before the month counts for nothing: was it duty?";
            return found.say(File::History, line, text);
        }
        number = number.saturating_add(1);
    }
    Ok(())
}

/// The credit of all pairings, each once.
fn credit_once(problem: &Problem) -> u64 {
    let mut total: u64 = 0;
    for pairing in problem.base.pairings.as_slice() {
        total = total.saturating_add(u64::from(pairing.credit));
    }
    total
}

/// The rule that history and fixed rows of a pilot break, whatever the pilot flies.
fn broken(alloc: Global, problem: &Problem, member: u32) -> Result<Option<Illegal>, Memory>
    requires member { member < length problem.now.base.members }
{
    let Some(line) = empty_line(alloc, problem) else {
        return Ok(None);
    };
    match legal(alloc, problem, member, &line) {
        Ok(()) => return Ok(None),
        Err(Illegal::NoMemory) => return Err(Memory::NoMemory),
        Err(why) => {
            if stays(problem, member, why) {
                return Ok(Some(why));
            }
        }
    }
    let off = days_off(problem, member, &line);
    if off < problem.base.rules.days_off {
        return Ok(Some(Illegal::DaysOff(off)));
    }
    Ok(None)
}

/// Notes that no line of a pilot is legal, where history and fixed rows break a rule.
fn note_broken(
    found: &mut Findings,
    line: u64,
    problem: &Problem,
    member: &Member,
    why: Option<Illegal>,
) -> Result<(), Memory> {
    let Some(why) = why else {
        return Ok(());
    };
    let mut words = found.words();
    words.say(b"no line of pilot ")?;
    words.text(member.name.bytes())?;
    words.say(b" is legal, whatever it has: with history and fixed rows alone ")?;
    put_rule(&mut words, Some(problem), why)?;
    found.add(File::Crew, line, words)
}

/// Notes what looks wrong of a pilot, where the pairings have so much credit in all.
fn note_member(
    found: &mut Findings,
    texts: &Texts,
    problem: &Problem,
    number: u32,
    credit: u64,
) -> Result<(), Memory>
    requires member { number < length problem.now.base.members }
{
    let member = &problem.base.members.as_slice()[number as usize];
    let line = pilot_line(found.alloc(), texts, number)?;
    if credit.saturating_add(credit_of(member.fixed.as_slice())) < u64::from(member.low) {
        let text = b" cannot come to low, even with all pairings of the month";
        note_pilot(found, line, member, text)?;
    }
    note_leave(found, texts, member)?;
    let why = broken(found.alloc(), problem, number)?;
    note_broken(found, line, problem, member, why)
}

/// Whether some pilot has history.
fn has_history(members: &[Member]) -> bool {
    members.iter().any(|member| member.history.len() > 0)
}

/// Notes pilots without history.
fn note_history(found: &mut Findings, texts: &Texts, members: &[Member]) -> Result<(), Memory> {
    if !has_history(members) {
        let text = b"no pilot has history, so nothing before the month counts";
        return found.say(File::History, 0, text);
    }
    let mut number: u32 = 0;
    for member in members {
        if member.history.len() == 0 {
            let line = pilot_line(found.alloc(), texts, number)?;
            note_pilot(found, line, member, b" has no history, and others have")?;
        }
        number = number.saturating_add(1);
    }
    Ok(())
}

/// Notes what looks wrong of pilots.
pub fn note_crew(found: &mut Findings, texts: &Texts, problem: &Problem) -> Result<(), Memory> {
    let credit = credit_once(problem);
    note_history(found, texts, problem.base.members.as_slice())?;
    for number in 0..problem.base.members.len() as u32 {
        note_member(found, texts, problem, number, credit)?;
    }
    Ok(())
}
