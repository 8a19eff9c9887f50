//! `import`: a file of the month of a sheet.
ghost use Rattle.std.specs.Prelude.{◌≡◌, ◌≤◌, IfOk, IfSome, None, false, length};
ghost use Rattle.field_text.specs.Sizes.{longest};
ghost use Rattle.month_files.specs.FileNames.{name_of};
ghost use Rattle.shelf.specs.Files.{told_file};
ghost use Rattle.desk_cli.specs.DeskFiles.{SameButOne, StayThere};

use crate::import_before::{tell_earlier, tell_rules};
use crate::runner::say;
use crate::status::DeskStatus;
use crate::writing::put_file;
use duty_calendar::Memory;
use field_text::FileFault;
use file_places::Prose;
use folder_answers::{file_of, tell_answer};
use month_files::File;
use plain_answers::{Held, tell};
use printed_lines::Answer;
use sheet_import::{Before, Imported, import_sheet, read_back};
use shelf::{Shelf, ShelfFault, Sink};
use std::alloc::Global;

/// Appends words, after which nothing is written.
fn refuse(prose: &mut Prose, words: &'static [u8]) -> Result<DeskStatus, Memory> {
    prose.say(words)?;
    Ok(DeskStatus::Faulty)
}

/// Whether a file is there, or something else in its place.
#[tactic(auto, using(crate::proofs::Kept::told_none))]
fn is_there<S: Shelf>(alloc: Global, shelf: &mut S, file: File) -> Result<bool, Memory>
    ensures kept { S.holds shelf.new ≡ S.holds shelf.old }
    ensures none { IfOk result (λ b. b ≡ false →
        told_file (S.holds shelf.old) (name_of file) ≡ None) }
{
    match shelf.read(alloc, file.name(), 67_108_864) {
        Ok(_) => Ok(true),
        Err(ShelfFault::Missing) => Ok(false),
        Err(ShelfFault::NoMemory) => Err(Memory::NoMemory),
        Err(_) => Ok(true),
    }
}

/// Writes what was made, over a file that is there only where `is_forced`, and appends what became of it.
#[tactic(auto, using(crate::proofs::One::one_kept, crate::proofs::One::one_file, crate::proofs::One::there_kept, crate::proofs::One::there_none))]
fn put_new<S: Shelf>(
    alloc: Global,
    shelf: &mut S,
    prose: &mut Prose,
    file: File,
    bytes: &[u8],
    is_forced: bool,
) -> Result<DeskStatus, Memory>
    ensures others { SameButOne (S.holds shelf.old) (S.holds shelf.new) }
    ensures unforced { is_forced ≡ false → StayThere (S.holds shelf.old) (S.holds shelf.new) }
{
    if is_forced {
        return put_file(alloc, shelf, prose, file.name(), bytes);
    }
    if is_there(alloc, shelf, file)? {
        prose.text(file.name().as_bytes())?;
        return refuse(
            prose,
            b" is there already; with --force it is written over\n",
        );
    }
    put_file(alloc, shelf, prose, file.name(), bytes)
}

/// Appends why what was made does not read.
fn tell_refused<S: Shelf>(
    alloc: Global,
    shelf: &mut S,
    prose: &mut Prose,
    made: &Imported,
    fault: FileFault,
) -> Result<DeskStatus, Memory>
    ensures kept { S.holds shelf.new ≡ S.holds shelf.old }
{
    let answer = Answer::Row(fault);
    if fault.file == made.file {
        let held = Held {
            text: Some(made.bytes.as_slice().to_vec(alloc)?),
            month: None,
            roster: None,
        };
        tell(alloc, prose, &held, &answer)?;
    } else {
        tell_answer(alloc, shelf, prose, &answer)?;
    }
    refuse(prose, b"nothing was written\n")
}

/// Writes what was made, where the readers of the month take it.
#[tactic(auto, using(crate::proofs::One::one_kept, crate::proofs::One::there_kept))]
fn put_read<S: Shelf>(
    alloc: Global,
    shelf: &mut S,
    prose: &mut Prose,
    made: &Imported,
    is_forced: bool,
) -> Result<DeskStatus, Memory>
    requires short { length made.now.bytes ≤ longest }
    ensures others { SameButOne (S.holds shelf.old) (S.holds shelf.new) }
    ensures unforced { is_forced ≡ false → StayThere (S.holds shelf.old) (S.holds shelf.new) }
{
    let Some(rules) = tell_rules(alloc, shelf, prose)? else {
        return Ok(DeskStatus::Faulty);
    };
    let Some(earlier) = tell_earlier(alloc, shelf, prose, made.file)? else {
        return Ok(DeskStatus::Faulty);
    };
    let before = Before {
        first: &earlier.first,
        second: &earlier.second,
    };
    match read_back(alloc, &rules.horizon, before, made) {
        Ok(()) => {
            let file = file_of(made.file);
            put_new(alloc, shelf, prose, file, made.bytes.as_slice(), is_forced)
        }
        Err(fault) => tell_refused(alloc, shelf, prose, made, fault),
    }
}

/// Makes a file of the month of the bytes of a sheet, and appends each change.
#[tactic(auto, using(crate::proofs::One::one_kept, crate::proofs::One::there_kept))]
fn import_bytes<S: Shelf>(
    alloc: Global,
    shelf: &mut S,
    prose: &mut Prose,
    sheet: &str,
    bytes: &[u8],
    is_forced: bool,
) -> Result<DeskStatus, Memory>
    ensures others { SameButOne (S.holds shelf.old) (S.holds shelf.new) }
    ensures unforced { is_forced ≡ false → StayThere (S.holds shelf.old) (S.holds shelf.new) }
{
    match import_sheet(alloc, prose, sheet.as_bytes(), bytes)? {
        Some(made) => put_read(alloc, shelf, prose, &made, is_forced),
        None => Ok(DeskStatus::Faulty),
    }
}

/// Makes a file of the month of the sheet of a name in another folder, and appends each change.
#[tactic(auto, using(crate::proofs::One::one_kept, crate::proofs::One::there_kept))]
fn say_import<S: Shelf, T: Shelf>(
    alloc: Global,
    shelf: &mut S,
    sheets: &mut T,
    prose: &mut Prose,
    sheet: &str,
    is_forced: bool,
) -> Result<DeskStatus, Memory>
    ensures others { SameButOne (S.holds shelf.old) (S.holds shelf.new) }
    ensures unforced { is_forced ≡ false → StayThere (S.holds shelf.old) (S.holds shelf.new) }
    ensures sheets_kept { T.holds sheets.new ≡ T.holds sheets.old }
{
    if sheet.is_empty() || sheet.len() > 32 {
        return refuse(prose, b"the name of the sheet must have 1 to 32 bytes\n");
    }
    match sheets.read(alloc, sheet, 67_108_864) {
        Ok(bytes) => import_bytes(alloc, shelf, prose, sheet, &bytes, is_forced),
        Err(ShelfFault::NoMemory) => Err(Memory::NoMemory),
        Err(_) => refuse(
            prose,
            b"the sheet is not there, is too long, or was not read\n",
        ),
    }
}

/// Makes a file of the month of the sheet of a name in another folder, and says each change, or why nothing is written: what the
/// readers of the month do not take is not. One file of the month changes at most, and none that is there but where `is_forced`.
#[tactic(auto, using(crate::proofs::One::one_kept, crate::proofs::One::there_kept))]
pub fn run_import<S: Shelf, T: Shelf, O: Sink>(
    alloc: Global,
    shelf: &mut S,
    sheets: &mut T,
    out: &mut O,
    sheet: &str,
    is_forced: bool,
) -> DeskStatus
    ensures others { SameButOne (S.holds shelf.old) (S.holds shelf.new) }
    ensures unforced { is_forced ≡ false → StayThere (S.holds shelf.old) (S.holds shelf.new) }
    ensures sheets_kept { T.holds sheets.new ≡ T.holds sheets.old }
{
    let mut prose = Prose::new(alloc);
    match say_import(alloc, shelf, sheets, &mut prose, sheet, is_forced) {
        Ok(status) => say(out, &prose, status),
        Err(Memory::NoMemory) => DeskStatus::NoMemory,
    }
}
