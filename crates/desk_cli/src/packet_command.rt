//! The command `packet`.
ghost use Rattle.std.specs.Prelude.{codes};
ghost use Rattle.shelf.specs.Files.{SameButAt};

use crate::status::DeskStatus;
use crate::stops::say_stop;
use crate::writing::put_file;
use duty_calendar::Memory;
use file_places::Prose;
use month_packet::packet;
use shelf::Shelf;
use std::alloc::Global;

/// Writes the page of what can be bid for.
#[tactic(auto, using(crate::proofs::Kept::same_kept))]
pub fn run_packet<S: Shelf>(
    alloc: Global,
    shelf: &mut S,
    prose: &mut Prose,
    built: &[u8],
) -> Result<DeskStatus, Memory>
    ensures others { SameButAt (codes "packet.html") (S.holds shelf.old) (S.holds shelf.new) }
{
    match packet(alloc, shelf, built) {
        Ok(page) => put_file(alloc, shelf, prose, "packet.html", page.as_slice()),
        Err(stop) => say_stop(alloc, shelf, prose, &stop),
    }
}
