//! Whether the readers of a month take what was made.
ghost use Rattle.std.specs.Prelude.{◌≤◌, IfOk, IsOk, length, []};
ghost use Rattle.crew_files.specs.Files.{members_of};
ghost use Rattle.field_text.specs.Sizes.{longest};
ghost use Rattle.pairing_files.specs.Files.{pairings_of};
ghost use Rattle.sheet_import.specs.Takes.{LacksHeader, GetsTo, Takes};

use crate::importing::Imported;
use crew_files::read_members;
use duty_calendar::Horizon;
use field_text::{FileCode, FileFault, FileName};
use pairing_files::read_pairings;
use std::alloc::Global;

/// The texts of the files that are read before one, two at most.
#[derive(Clone, Copy)]
pub struct Before<'a> {
    pub first: &'a [u8],
    pub second: &'a [u8],
}

/// A fault, but for that of the file behind, which is empty.
fn unless_behind(next: FileName, fault: FileFault) -> Result<(), FileFault>
    ensures behind { IfOk result (λ _. LacksHeader next fault) }
{
    if fault.file == next && fault.code == FileCode::Header {
        return Ok(());
    }
    Err(fault)
}

/// Reads pairings and duties, up to this file.
#[tactic(auto, using(crate::proofs::Behind::gets_to))]
fn read_up_to(
    alloc: Global,
    horizon: &Horizon,
    pairings: &[u8],
    duties: &[u8],
    next: FileName,
) -> Result<(), FileFault>
    requires short_pairings { length pairings.now ≤ longest }
    requires short_duties { length duties.now ≤ longest }
    ensures past { IfOk result
        (λ _. GetsTo next (pairings_of horizon.now pairings.now duties.now [])) }
{
    match read_pairings(alloc, pairings, duties, &[], horizon) {
        Ok(_) => Ok(()),
        Err(fault) => unless_behind(next, fault),
    }
}

/// Reads members and what they did, up to this file.
#[tactic(auto, using(crate::proofs::Behind::gets_to))]
fn read_crew_up_to(
    alloc: Global,
    horizon: &Horizon,
    crew: &[u8],
    history: &[u8],
    next: FileName,
) -> Result<(), FileFault>
    requires short_crew { length crew.now ≤ longest }
    requires short_history { length history.now ≤ longest }
    ensures past { IfOk result
        (λ _. GetsTo next (members_of horizon.now crew.now history.now [])) }
{
    match read_members(alloc, crew, history, &[], horizon) {
        Ok(_) => Ok(()),
        Err(fault) => unless_behind(next, fault),
    }
}

/// Reads pairings, duties and legs.
fn read_trips(
    alloc: Global,
    horizon: &Horizon,
    before: Before<'_>,
    legs: &[u8],
) -> Result<(), FileFault>
    requires short_first { length before.first.now ≤ longest }
    requires short_second { length before.second.now ≤ longest }
    requires short_legs { length legs.now ≤ longest }
    ensures read { IfOk result
        (λ _. IsOk (pairings_of horizon.now before.entry.first.now before.entry.second.now legs.now)) }
{
    match read_pairings(alloc, before.first, before.second, legs, horizon) {
        Ok(_) => Ok(()),
        Err(fault) => Err(fault),
    }
}

/// Reads members with all that they did and do.
fn read_crew(
    alloc: Global,
    horizon: &Horizon,
    before: Before<'_>,
    fixed: &[u8],
) -> Result<(), FileFault>
    requires short_first { length before.first.now ≤ longest }
    requires short_second { length before.second.now ≤ longest }
    requires short_fixed { length fixed.now ≤ longest }
    ensures read { IfOk result
        (λ _. IsOk (members_of horizon.now before.entry.first.now before.entry.second.now fixed.now)) }
{
    match read_members(alloc, before.first, before.second, fixed, horizon) {
        Ok(_) => Ok(()),
        Err(fault) => Err(fault),
    }
}

/// Reads what was made by the readers of a month, behind the files that they read before it; else their first fault.
pub fn read_back(
    alloc: Global,
    horizon: &Horizon,
    before: Before<'_>,
    made: &Imported,
) -> Result<(), FileFault>
    requires short_first { length before.first.now ≤ longest }
    requires short_second { length before.second.now ≤ longest }
    requires short_made { length made.now.bytes ≤ longest }
    ensures taken { IfOk result (λ _.
        Takes horizon.now made.now.file before.entry.first.now before.entry.second.now made.now.bytes) }
{
    let bytes = made.bytes.as_slice();
    match made.file {
        FileName::Pairings => read_up_to(alloc, horizon, bytes, &[], FileName::Duties),
        FileName::Duties => read_up_to(alloc, horizon, before.first, bytes, FileName::Legs),
        FileName::Legs => read_trips(alloc, horizon, before, bytes),
        FileName::Crew => read_crew_up_to(alloc, horizon, bytes, &[], FileName::History),
        FileName::History => read_crew_up_to(alloc, horizon, before.first, bytes, FileName::Fixed),
        FileName::Fixed => read_crew(alloc, horizon, before, bytes),
    }
}
