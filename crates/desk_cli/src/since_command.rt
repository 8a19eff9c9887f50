//! `page --diff`: the page of the month, with what is otherwise than in another roster.
ghost use Rattle.std.specs.Prelude.{◌≡◌, codes};
ghost use Rattle.roster_text.specs.RosterText.{IsRoster};
ghost use Rattle.shelf.specs.Files.{SameButAt};

use crate::award::{Award, tell_award};
use crate::diff_command::differences_from;
use crate::names_file::tell_names;
use crate::page_command::put_month;
use crate::runner::say;
use crate::status::DeskStatus;
use duty_calendar::Memory;
use file_places::Prose;
use month_page::{Beside, Changes};
use roster_diff::Difference;
use shelf::{Shelf, Sink};
use std::alloc::Global;

/// What the other roster is called, and what the program was built from, or nothing.
#[derive(Clone, Copy)]
pub struct Since<'a> {
    pub other: &'a [u8],
    pub built: &'a [u8],
}

/// Writes the page, with these differences.
#[tactic(auto, using(crate::proofs::Kept::same_kept))]
fn put_since<'a, S: Shelf>(
    alloc: Global,
    shelf: &mut S,
    prose: &mut Prose,
    list: &'a [Difference],
    since: Since<'a>,
) -> Result<DeskStatus, Memory>
    ensures others { SameButAt (codes "month.html") (S.holds shelf.old) (S.holds shelf.new) }
{
    let Some(names) = tell_names(alloc, shelf, prose)? else {
        return Ok(DeskStatus::Faulty);
    };
    let changes = Changes {
        other: since.other,
        list,
    };
    let beside = Beside::new(&names, since.built).compared(changes);
    put_month(alloc, shelf, prose, &beside)
}

/// Writes the page, where the other roster reads.
#[tactic(auto, using(crate::proofs::Kept::same_kept))]
fn put_from<S: Shelf, T: Shelf>(
    alloc: Global,
    shelf: &mut S,
    other: &mut T,
    prose: &mut Prose,
    file: Option<&str>,
    now: &Award,
    since: Since<'_>,
) -> Result<DeskStatus, Memory>
    requires now { IsRoster now.now.problem now.now.roster }
    ensures others { SameButAt (codes "month.html") (S.holds shelf.old) (S.holds shelf.new) }
    ensures other_kept { T.holds other.new ≡ T.holds other.old }
{
    match differences_from(alloc, other, prose, file, now)? {
        Some(list) => put_since(alloc, shelf, prose, list.as_slice(), since),
        None => Ok(DeskStatus::Faulty),
    }
}

/// Writes the page, where both rosters read.
#[tactic(auto, using(crate::proofs::Kept::same_kept))]
fn say_page_since<S: Shelf, T: Shelf>(
    alloc: Global,
    shelf: &mut S,
    other: &mut T,
    prose: &mut Prose,
    file: Option<&str>,
    since: Since<'_>,
) -> Result<DeskStatus, Memory>
    ensures others { SameButAt (codes "month.html") (S.holds shelf.old) (S.holds shelf.new) }
    ensures other_kept { T.holds other.new ≡ T.holds other.old }
{
    let Some(now) = tell_award(alloc, shelf, prose)? else {
        return Ok(DeskStatus::Faulty);
    };
    put_from(alloc, shelf, other, prose, file, &now, since)
}

/// Writes the page of the month, with what is otherwise than in another folder, or in a file there where one is named, and says
/// what became of it. No file but `month.html` changes.
#[tactic(auto, using(crate::proofs::Kept::same_kept))]
pub fn run_page_since<S: Shelf, T: Shelf, O: Sink>(
    alloc: Global,
    shelf: &mut S,
    other: &mut T,
    out: &mut O,
    file: Option<&str>,
    since: Since<'_>,
) -> DeskStatus
    ensures others { SameButAt (codes "month.html") (S.holds shelf.old) (S.holds shelf.new) }
    ensures other_kept { T.holds other.new ≡ T.holds other.old }
{
    let mut prose = Prose::new(alloc);
    match say_page_since(alloc, shelf, other, &mut prose, file, since) {
        Ok(status) => say(out, &prose, status),
        Err(Memory::NoMemory) => DeskStatus::NoMemory,
    }
}
