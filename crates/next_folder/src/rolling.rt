//! The command `history`.
ghost use Rattle.std.specs.Prelude.{◌≡◌, IfOk};
ghost use Rattle.std.specs.Option.{ForSome};
ghost use Rattle.month_files.specs.Writes.{Leaves};
ghost use Rattle.next_folder.specs.Counts.{IsWritten, PlanCause, RollCause};
ghost use Rattle.next_folder.specs.Ends.{IsPlanHanded, IsPlanOver, IsRolling, IsRollingHanded, history_written};
ghost use Rattle.next_folder.specs.Spared.{MayAll, Spares};

use crate::barrier::Barrier;
use crate::planning::plan;
use crate::reading::{read_month_texts, read_next_texts};
use crate::rolled::RolledOver;
use crate::stop::HistoryStop;
use month_files::write_all;
use shelf::Shelf;
use std::alloc::Global;

/// What a month in one folder leaves the next one in another.
fn planned<S: Shelf>(
    alloc: Global,
    shelf: &mut S,
    next: &mut S,
    is_forced: bool,
) -> Result<RolledOver, Barrier>
    ensures cause { PlanCause (S.tally shelf.old) (S.tally shelf.new) (S.tally next.old)
        (S.tally next.new) result }
    ensures told { ForSome (S.holds shelf.old) (λ files. ForSome (S.holds next.old) (λ others.
        IsPlanOver files others is_forced result)) }
    ensures kept { S.holds shelf.new ≡ S.holds shelf.old }
    ensures others { S.holds next.new ≡ S.holds next.old }
    ensures handed { IsPlanHanded (S.log shelf.old) (S.log shelf.new) (S.log next.old)
        (S.log next.new) is_forced result }
    ensures spared { IfOk result (λ made. MayAll is_forced (S.holds next.old) made.drafts) }
{
    let ours = read_month_texts(alloc, shelf)?;
    match read_next_texts(alloc, next) {
        Ok(theirs) => plan(alloc, &ours, &theirs, is_forced),
        Err(why) => Err(Barrier::NextUnread(why)),
    }
}

/// Writes the files of the next month.
fn write_rolled<S: Shelf>(
    alloc: Global,
    next: &mut S,
    rolled: RolledOver,
) -> Result<RolledOver, HistoryStop>
    ensures ended { IsWritten rolled (S.tally next.old) (S.tally next.new) result }
    ensures left { Leaves (S.holds next.old) (S.holds next.new) (history_written result) }
    ensures unlogged { S.log next.new ≡ S.log next.old }
{
    match write_all(alloc, next, rolled.drafts.as_slice()) {
        Ok(()) => Ok(rolled),
        Err(stop) => Err(HistoryStop::Unwritten(rolled, stop)),
    }
}

/// Reads a month with its roster from one folder, and writes what it leaves the next month into another: its history, and its
/// rules, crew and fixed events where they are not there. Where history is there it is written over by force alone.
pub fn roll_over<S: Shelf>(
    alloc: Global,
    shelf: &mut S,
    next: &mut S,
    is_forced: bool,
) -> Result<RolledOver, HistoryStop>
    ensures cause { RollCause (S.tally shelf.old) (S.tally shelf.new) (S.tally next.old)
        (S.tally next.new) result }
    ensures told { ForSome (S.holds shelf.old) (λ files. ForSome (S.holds next.old) (λ others.
        IsRolling files others is_forced result)) }
    ensures handed { IsRollingHanded (S.log shelf.old) (S.log shelf.new) (S.log next.old)
        (S.log next.new) is_forced result }
    ensures kept { S.holds shelf.new ≡ S.holds shelf.old }
    ensures left { Leaves (S.holds next.old) (S.holds next.new) (history_written result) }
    ensures spared { Spares is_forced (S.holds next.old) (S.holds next.new) }
{
    match planned(alloc, shelf, next, is_forced) {
        Ok(rolled) => write_rolled(alloc, next, rolled),
        Err(why) => Err(HistoryStop::Barred(why)),
    }
}
