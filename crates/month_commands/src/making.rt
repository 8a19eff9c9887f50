//! The command `make`.
ghost use Rattle.std.specs.Prelude.{◌≡◌, ◌≤◌, IfOk};
ghost use Rattle.month_commands.specs.Make.{IsMadeMonth, IsMake};
ghost use Rattle.month_commands.specs.MakeEnds.{MakeCause, make_written};
ghost use Rattle.month_files.specs.Writes.{Leaves};

use crate::make_stop::MakeStop;
use duty_calendar::{List, Memory};
use month_files::{Draft, month_drafts, write_all};
use shelf::Shelf;
use std::alloc::Global;

/// The files of the month that is made of a number.
fn made_drafts(
    alloc: Global,
    number: u64,
    members: u32,
    pairings: u32,
) -> Result<List<Draft>, Memory>
    requires some { 1 ≤ members }
    requires few { members ≤ 200 }
    requires short { pairings ≤ 600 }
    ensures made { IfOk result (IsMadeMonth number members pairings) }
{
    let problem = instance_maker::make(alloc, number, members, pairings)?;
    month_drafts(alloc, &problem)
}

/// Writes the files of the month that is made of a number, for so many members and pairings, in the order in which they
/// are read.
pub fn make<S: Shelf>(
    alloc: Global,
    shelf: &mut S,
    number: u64,
    members: u32,
    pairings: u32,
) -> Result<List<Draft>, MakeStop>
    requires some { 1 ≤ members }
    requires few { members ≤ 200 }
    requires short { pairings ≤ 600 }
    ensures cause { MakeCause (S.tally shelf.old) (S.tally shelf.new) result }
    ensures made { IsMake number members pairings result }
    ensures left { Leaves (S.holds shelf.old) (S.holds shelf.new) (make_written result) }
    ensures unlogged { S.log shelf.new ≡ S.log shelf.old }
{
    let drafts = made_drafts(alloc, number, members, pairings)?;
    match write_all(alloc, shelf, drafts.as_slice()) {
        Ok(()) => Ok(drafts),
        Err(stop) => Err(MakeStop::Unwritten(drafts, stop)),
    }
}
