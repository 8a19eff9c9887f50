//! The commands `page` and `page MEMBER`.
ghost use Rattle.std.specs.Prelude.{◌≡◌, IfOk, codes, string_bytes};
ghost use Rattle.shelf.specs.Files.{SameButAt};
ghost use Rattle.desk_cli.specs.DeskFiles.{pilot_file};

use crate::names_file::tell_names;
use crate::status::DeskStatus;
use crate::stops::say_stop;
use crate::writing::put_file;
use duty_calendar::{List, Memory};
use file_places::Prose;
use month_page::{Beside, page, pilot_page};
use shelf::Shelf;
use std::alloc::Global;

/// Appends how many pilots the page shows.
fn say_page(prose: &mut Prose, members: u32) -> Result<DeskStatus, Memory> {
    prose.say(b"page ")?;
    prose.number(u64::from(members))?;
    prose.say(b" members\n")?;
    Ok(DeskStatus::Done)
}

/// Writes the page of the month, with what stands beside its files.
#[tactic(auto, using(crate::proofs::Kept::page_kept))]
pub fn put_month<S: Shelf>(
    alloc: Global,
    shelf: &mut S,
    prose: &mut Prose,
    beside: &Beside<'_>,
) -> Result<DeskStatus, Memory>
    ensures others { SameButAt (codes "month.html") (S.holds shelf.old) (S.holds shelf.new) }
{
    match page(alloc, shelf, beside) {
        Ok(members) => say_page(prose, members),
        Err(stop) => say_stop(alloc, shelf, prose, &stop),
    }
}

/// Writes the page of the month.
#[tactic(auto, using(crate::proofs::Kept::same_kept))]
pub fn run_page<S: Shelf>(
    alloc: Global,
    shelf: &mut S,
    prose: &mut Prose,
    built: &[u8],
) -> Result<DeskStatus, Memory>
    ensures others { SameButAt (codes "month.html") (S.holds shelf.old) (S.holds shelf.new) }
{
    let Some(names) = tell_names(alloc, shelf, prose)? else {
        return Ok(DeskStatus::Faulty);
    };
    let beside = Beside::new(&names, built);
    put_month(alloc, shelf, prose, &beside)
}

/// The name of the file of a pilot's page.
#[tactic(auto, unfolding(crate::specs::DeskFiles::pilot_file))]
fn file_of(alloc: Global, name: &str) -> Result<String, Memory>
    ensures value { IfOk result (λ file. string_bytes file ≡ pilot_file name.now) }
{
    let mut file = String::new(alloc);
    file.push_str("pilot-")?;
    file.push_str(name)?;
    file.push_str(".html")?;
    Ok(file)
}

/// Appends that no pilot has a name.
fn say_unknown(prose: &mut Prose, name: &str) -> Result<DeskStatus, Memory> {
    prose.say(b"there is no pilot ")?;
    prose.text(name.as_bytes())?;
    prose.say(b"\n")?;
    Ok(DeskStatus::Faulty)
}

/// Writes a page under this name.
#[tactic(auto, using(crate::proofs::Kept::same_kept))]
fn put_page<S: Shelf>(
    alloc: Global,
    shelf: &mut S,
    prose: &mut Prose,
    file: &str,
    page: &List<u8>,
) -> Result<DeskStatus, Memory>
    ensures others { SameButAt file.now (S.holds shelf.old) (S.holds shelf.new) }
{
    if file.is_empty() || file.len() > 32 {
        return Ok(DeskStatus::Faulty);
    }
    put_file(alloc, shelf, prose, file, page.as_slice())
}

/// Writes a page under this name, where there is one.
#[tactic(auto, using(crate::proofs::Kept::same_kept))]
fn put_made<S: Shelf>(
    alloc: Global,
    shelf: &mut S,
    prose: &mut Prose,
    name: &str,
    file: &str,
    made: &Option<List<u8>>,
) -> Result<DeskStatus, Memory>
    ensures others { SameButAt file.now (S.holds shelf.old) (S.holds shelf.new) }
{
    match made {
        Some(page) => put_page(alloc, shelf, prose, file, page),
        None => say_unknown(prose, name),
    }
}

/// Writes the page of the pilot of this name, with what stands beside the files of the month.
#[tactic(auto, using(crate::proofs::Kept::same_kept))]
fn put_pilot<S: Shelf>(
    alloc: Global,
    shelf: &mut S,
    prose: &mut Prose,
    name: &str,
    beside: &Beside<'_>,
) -> Result<DeskStatus, Memory>
    ensures others { SameButAt (pilot_file name.now) (S.holds shelf.old) (S.holds shelf.new) }
{
    let file = file_of(alloc, name)?;
    match pilot_page(alloc, shelf, name.as_bytes(), beside) {
        Ok(made) => put_made(alloc, shelf, prose, name, file.as_str(), &made),
        Err(stop) => say_stop(alloc, shelf, prose, &stop),
    }
}

/// Writes the page of the pilot of this name.
#[tactic(auto, using(crate::proofs::Kept::same_kept))]
pub fn run_pilot_page<S: Shelf>(
    alloc: Global,
    shelf: &mut S,
    prose: &mut Prose,
    name: &str,
    built: &[u8],
) -> Result<DeskStatus, Memory>
    ensures others { SameButAt (pilot_file name.now) (S.holds shelf.old) (S.holds shelf.new) }
{
    let Some(names) = tell_names(alloc, shelf, prose)? else {
        return Ok(DeskStatus::Faulty);
    };
    let beside = Beside::new(&names, built);
    put_pilot(alloc, shelf, prose, name, &beside)
}
