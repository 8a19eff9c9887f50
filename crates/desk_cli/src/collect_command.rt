//! The command `collect`.
ghost use Rattle.std.specs.Prelude.{◌≡◌, IfOk, None, codes, false};
ghost use Rattle.shelf.specs.Files.{SameButAt, told_file};
ghost use Rattle.desk_cli.specs.DeskFiles.{StaysIfThere};

use crate::runner::say;
use crate::status::DeskStatus;
use crate::stops::say_stop;
use crate::writing::put_file;
use bid_sheets::{Collected, collect};
use duty_calendar::Memory;
use file_places::Prose;
use month_files::{File, Unread, read_file};
use month_page::PageStop;
use shelf::{Shelf, ShelfFault, Sink};
use std::alloc::Global;

/// Whether a text of bids lies in the folder, or something else in its place.
#[tactic(auto, using(crate::proofs::Kept::told_none))]
fn is_taken<S: Shelf>(alloc: Global, shelf: &mut S) -> Result<bool, Memory>
    ensures kept { S.holds shelf.new ≡ S.holds shelf.old }
    ensures none { IfOk result (λ b. b ≡ false →
        told_file (S.holds shelf.old) (codes "bids.txt") ≡ None) }
{
    match shelf.read(alloc, "bids.txt", 67_108_864) {
        Ok(_) => Ok(true),
        Err(ShelfFault::Missing) => Ok(false),
        Err(ShelfFault::NoMemory) => Err(Memory::NoMemory),
        Err(_) => Ok(true),
    }
}

/// Appends that the text of bids that is there stays.
fn say_taken(prose: &mut Prose) -> Result<DeskStatus, Memory> {
    prose.say(b"bids.txt is there already; with --force it is written over\n")?;
    Ok(DeskStatus::Faulty)
}

/// Appends that nothing was written.
fn say_unsound(prose: &mut Prose) -> Result<DeskStatus, Memory> {
    prose.say(b"nothing was written: mend what is named above\n")?;
    Ok(DeskStatus::Faulty)
}

/// Writes the text of bids, where nothing is wrong with what was sent.
#[tactic(auto, using(crate::proofs::Kept::same_kept))]
fn put_text<S: Shelf>(
    alloc: Global,
    shelf: &mut S,
    prose: &mut Prose,
    collected: &Collected,
) -> Result<DeskStatus, Memory>
    ensures others { SameButAt (codes "bids.txt") (S.holds shelf.old) (S.holds shelf.new) }
{
    match &collected.text {
        Some(text) => put_file(alloc, shelf, prose, "bids.txt", text.as_slice()),
        None => say_unsound(prose),
    }
}

/// Writes the text of bids, or says what stands against it.
#[tactic(auto, using(crate::proofs::Kept::same_kept))]
fn put_collected<S: Shelf>(
    alloc: Global,
    shelf: &mut S,
    prose: &mut Prose,
    end: &Result<Collected, PageStop>,
) -> Result<DeskStatus, Memory>
    ensures others { SameButAt (codes "bids.txt") (S.holds shelf.old) (S.holds shelf.new) }
{
    match end {
        Ok(collected) => put_text(alloc, shelf, prose, collected),
        Err(stop) => say_stop(alloc, shelf, prose, stop),
    }
}

/// Makes the text of bids of what lies in the other folder.
#[tactic(auto, using(crate::proofs::Kept::same_kept))]
fn collect_all<S: Shelf>(
    alloc: Global,
    shelf: &mut S,
    sheets: &mut S,
    prose: &mut Prose,
    old: &[u8],
) -> Result<DeskStatus, Memory>
    ensures others { SameButAt (codes "bids.txt") (S.holds shelf.old) (S.holds shelf.new) }
    ensures sheets { S.holds sheets.new ≡ S.holds sheets.old }
{
    let end = collect(alloc, shelf, sheets, prose, old);
    put_collected(alloc, shelf, prose, &end)
}

/// Makes the text of bids, where none is there or it may be written over.
#[tactic(auto, using(crate::proofs::Kept::same_kept, crate::proofs::Kept::stays_none, crate::proofs::Kept::stays_kept))]
fn collect_guarded<S: Shelf>(
    alloc: Global,
    shelf: &mut S,
    sheets: &mut S,
    prose: &mut Prose,
    old: &[u8],
    is_forced: bool,
) -> Result<DeskStatus, Memory>
    ensures others { SameButAt (codes "bids.txt") (S.holds shelf.old) (S.holds shelf.new) }
    ensures unforced { is_forced ≡ false →
        StaysIfThere (codes "bids.txt") (S.holds shelf.old) (S.holds shelf.new) }
    ensures sheets { S.holds sheets.new ≡ S.holds sheets.old }
{
    if is_forced {
        return collect_all(alloc, shelf, sheets, prose, old);
    }
    if is_taken(alloc, shelf)? {
        return say_taken(prose);
    }
    collect_all(alloc, shelf, sheets, prose, old)
}

/// The text of bids in another folder; nothing where there is no folder.
fn old_bids<S: Shelf>(alloc: Global, standing: Option<&mut S>) -> Result<Vec<u8>, Unread> {
    match standing {
        Some(shelf) => read_file(alloc, shelf, File::Bids),
        None => Ok(Vec::new(alloc)),
    }
}

/// Puts that no bids stand.
fn say_no_old<O: Sink>(alloc: Global, out: &mut O) -> DeskStatus {
    let mut prose = Prose::new(alloc);
    match prose.say(b"the folder behind --standing has no bids.txt that can be read\n") {
        Ok(()) => say(out, &prose, DeskStatus::Faulty),
        Err(Memory::NoMemory) => DeskStatus::NoMemory,
    }
}

/// Makes the text of bids of what lies in the folder `sheets`, with the bids in the folder `standing` for those who sent
/// nothing, and puts what is said of it. No file but `bids.txt` changes, and where that one is there it changes only where
/// `is_forced`.
#[tactic(auto, using(crate::proofs::Kept::same_kept, crate::proofs::Kept::stays_kept))]
pub fn run_collect<S: Shelf, O: Sink>(
    alloc: Global,
    shelf: &mut S,
    sheets: &mut S,
    standing: Option<&mut S>,
    out: &mut O,
    is_forced: bool,
) -> DeskStatus
    ensures others { SameButAt (codes "bids.txt") (S.holds shelf.old) (S.holds shelf.new) }
    ensures unforced { is_forced ≡ false →
        StaysIfThere (codes "bids.txt") (S.holds shelf.old) (S.holds shelf.new) }
    ensures sheets { S.holds sheets.new ≡ S.holds sheets.old }
{
    let mut prose = Prose::new(alloc);
    let Ok(old) = old_bids(alloc, standing) else {
        return say_no_old(alloc, out);
    };
    match collect_guarded(alloc, shelf, sheets, &mut prose, &old, is_forced) {
        Ok(status) => say(out, &prose, status),
        Err(Memory::NoMemory) => DeskStatus::NoMemory,
    }
}
