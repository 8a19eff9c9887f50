//! Reading a roster's text.
ghost use Rattle.std.specs.Prelude.{◌≡◌, ◌≢◌, ◌<◌, IfOk, IfErr, All, Ok, Err, length};
ghost use Rattle.std.specs.Option.{option_map};
ghost use Rattle.roster_text.specs.declared.fault.RosterTextFault.{RosterTextFault as Fault};
ghost use Rattle.roster_text.specs.NameReading.{word_at, member_at};
ghost use Rattle.roster_text.specs.RosterFaults.{HasFault};
ghost use Rattle.roster_text.specs.RosterText.{roster_text, roster_header, Lines, IsRoster, IsTextOf};
ghost use Rattle.roster_text.specs.RowReading.{Gives, GivesWhole, Answers, no_memory, has_fields, sums_at, fields_at, row_at, rows_in, roster_of};

use crate::fault::{RosterTextCode, RosterTextFault, fault_at};
use crate::names::pairings_of;
use crate::printing::put_sums;
use duty_calendar::{List, Memory};
use roster_model::{Line, Problem, Roster};
use std::alloc::Global;

/// Whether four fields and a line feed stand here.
fn has_fields(bytes: &[u8]) -> bool
    ensures value { result ≡ has_fields bytes.now }
{
    let mut commas: u64 = 0;
    for byte in bytes {
        if *byte == b'\n' {
            return commas == 3;
        }
        if *byte == b',' {
            commas += 1;
        }
    }
    false
}

/// What stands behind a member's name and a comma.
#[tactic(auto, unfolding(crate::specs::NameReading::member_at))]
fn after_member<'a>(problem: &Problem, member: u32, bytes: &'a [u8]) -> Option<&'a [u8]>
    requires member { member < length problem.now.base.members }
    ensures value { option_map (λ x. x.now) result ≡ member_at problem.now member bytes.now }
{
    let name = &problem.base.members.as_slice()[member as usize].name;
    let rest = bytes.strip_prefix(name.bytes())?;
    rest.strip_prefix(b",")
}

/// What stands behind the line's credit, its score and the line feed.
#[tactic(auto, unfolding(crate::specs::RowReading::sums_at))]
fn after_sums<'a>(
    alloc: Global,
    problem: &Problem,
    member: u32,
    line: &Line,
    bytes: &'a [u8],
) -> Result<Option<&'a [u8]>, Memory>
    requires member { member < length problem.now.base.members }
    requires in_range { All (λ p. p < length problem.now.base.pairings) line.now }
    ensures value { IfOk result (λ o. option_map (λ x. x.now) o
        ≡ sums_at problem.now member line.now bytes.now) }
{
    let mut sums = List::new(alloc);
    put_sums(&mut sums, problem, member, line)?;
    Ok(bytes.strip_prefix(sums.as_slice()))
}

/// The line of a row of four fields, and what stands behind it.
#[tactic(auto, unfolding(crate::specs::RowReading::fields_at))]
fn fields_of<'a>(
    alloc: Global,
    problem: &Problem,
    member: u32,
    bytes: &'a [u8],
) -> Result<(Line, &'a [u8]), RosterTextCode>
    requires member { member < length problem.now.base.members }
    ensures read { Gives (λ x. (x.0, x.1.now)) result (fields_at problem.now member bytes.now) }
{
    let Some(rest) = after_member(problem, member, bytes) else {
        return Err(RosterTextCode::Member);
    };
    let (line, rest) = pairings_of(alloc, problem, rest)?;
    let Some(rest) = after_sums(alloc, problem, member, &line, rest)? else {
        return Err(RosterTextCode::Sums);
    };
    Ok((line, rest))
}

/// The line of a member, and what stands behind its row.
#[tactic(auto, unfolding(crate::specs::RowReading::row_at))]
fn row_of<'a>(
    alloc: Global,
    problem: &Problem,
    member: u32,
    bytes: &'a [u8],
) -> Result<(Line, &'a [u8]), RosterTextCode>
    requires member { member < length problem.now.base.members }
    ensures read { Gives (λ x. (x.0, x.1.now)) result (row_at problem.now member bytes.now) }
{
    if bytes.is_empty() {
        return Err(RosterTextCode::Rows);
    }
    if !has_fields(bytes) {
        return Err(RosterTextCode::Shape);
    }
    fields_of(alloc, problem, member, bytes)
}

/// The lines of all members, and what stands behind the last row.
fn rows_of<'a>(
    alloc: Global,
    problem: &Problem,
    bytes: &'a [u8],
) -> Result<(Roster, &'a [u8]), RosterTextFault>
    ensures read { GivesWhole (λ x. (x.0, x.1.now)) result (rows_in problem.now bytes.now) }
{
    let mut roster = List::new(alloc);
    let mut rest = bytes;
    for member in 0..problem.base.members.len() as u32 {
        let (line, after) = match row_of(alloc, problem, member, rest) {
            Ok(row) => row,
            Err(code) => return Err(fault_at(member + 2, code)),
        };
        if roster.push(line).is_err() {
            return Err(fault_at(0, RosterTextCode::NoMemory));
        }
        rest = after;
    }
    Ok((roster, rest))
}

/// What stands behind the header.
fn after_header(text: &[u8]) -> Option<&[u8]>
    ensures value { option_map (λ x. x.now) result ≡ word_at roster_header text.now }
{
    text.strip_prefix(b"member,pairings,credit,score\n")
}

/// The whole text.
#[tactic(auto, unfolding(crate::specs::RowReading::roster_of))]
fn whole_of(alloc: Global, problem: &Problem, text: &[u8]) -> Result<Roster, RosterTextFault>
    ensures read { Answers result (roster_of problem.now text.now) }
{
    let Some(rest) = after_header(text) else {
        return Err(fault_at(1, RosterTextCode::Header));
    };
    let (roster, rest) = rows_of(alloc, problem, rest)?;
    if !rest.is_empty() {
        return Err(fault_at(problem.base.members.len() as u32 + 2, RosterTextCode::Rows));
    }
    Ok(roster)
}

/// The roster of a text, or the first row at which the text differs from all rosters' texts.
pub fn read_roster(alloc: Global, text: &[u8], problem: &Problem) -> Result<Roster, RosterTextFault>
    ensures read { IfOk result (λ roster. roster_text problem.now roster ≡ text.now) }
    ensures valid { IfOk result (IsRoster problem.now) }
    ensures fault { IfErr result (λ fault. fault ≢ no_memory
        → HasFault problem.now text.now fault) }
    ensures only { (r : Lines) → IsTextOf problem.now text.now r → Answers result (Ok r) }
    ensures first { (f : Fault) → HasFault problem.now text.now f → Answers result (Err f) }
{
    whole_of(alloc, problem, text)
}
