//! Pairings without duties and duties without legs.
ghost use Rattle.std.specs.Prelude.{◌≡◌, ◌≤◌, ◌<◌, ◌+◌, length, position, IfSome, false};
ghost use Rattle.field_text.specs.Sizes.{longest};
ghost use Rattle.field_text.specs.declared.file_fault.FileCode.TheVariants.{Empty};
ghost use Rattle.pairing_files.specs.Drafts.{draft_of};
ghost use Rattle.pairing_files.specs.Files.{is_idle, is_bare, part_fault};

use crate::tables::{Place, Tables};
use duty_calendar::Pairing;
use field_text::{FileCode, FileFault, FileName};

/// The place of the first pairing without a duty.
fn idle_place(list: &[Pairing]) -> Option<usize>
    ensures value { result ≡ position is_idle list.now }
{
    list.iter().position(|p| p.duties.len() == 0)
}

/// Whether the duty at a place has no leg.
fn is_bare(list: &[Pairing], place: &Place) -> bool
    ensures value { result ≡ is_bare list.now place.now }
{
    let Some(pairing) = list.get(place.pairing) else {
        return false;
    };
    let Some(duty) = pairing.duties.as_slice().get(place.duty) else {
        return false;
    };
    duty.legs.len() == 0
}

/// The number of the first place whose duty has no leg.
fn bare_place(list: &[Pairing], places: &[Place]) -> Option<usize>
    ensures value { result ≡ position (is_bare list.now) places.now }
{
    places.iter().position(|place| is_bare(list, place))
}

/// The fault of a file's row that stands at a place, counted from row 2.
fn lacks_parts(file: FileName, place: usize) -> FileFault
    requires short { place ≤ longest }
    ensures value { result ≡ record { file = file; row = place + 2; code = Empty } }
{
    FileFault {
        file,
        row: place as u32 + 2,
        code: FileCode::Empty,
    }
}

/// A pairing without a duty, or else a duty without a leg.
#[tactic(auto, using(crate::proofs::ListFacts::position_within))]
pub fn part_fault(tables: &Tables) -> Option<FileFault>
    requires few_pairings { length tables.now.list ≤ longest + 1 }
    requires few_duties { length tables.now.places.items ≤ longest + 1 }
    ensures value { result ≡ part_fault (draft_of tables.now) }
    ensures code { IfSome result (λ e. e.code ≡ Empty) }
{
    if let Some(place) = idle_place(tables.list.as_slice()) {
        return Some(lacks_parts(FileName::Pairings, place));
    }
    if let Some(place) = bare_place(tables.list.as_slice(), tables.places.as_slice()) {
        return Some(lacks_parts(FileName::Duties, place));
    }
    None
}
