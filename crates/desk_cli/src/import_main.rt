//! The folders of `import`.

use crate::import_command::run_import;
use crate::import_words::ImportWords;
use crate::spots::{Spot, spot_of};
use crate::status::DeskStatus;
use shelf::{FolderShelf, Shelf, Sink};
use std::fs::Files;

/// Makes a file of the month of a sheet.
pub fn import_from<R: Files + AllocGlobal, S: Shelf, O: Sink>(
    rt: &R,
    shelf: &mut S,
    words: &ImportWords,
    out: &mut O,
) -> DeskStatus {
    let alloc = rt.alloc();
    let Ok(Spot { folder, file }) = spot_of(rt, alloc, words.sheet.as_str()) else {
        return DeskStatus::NoMemory;
    };
    let mut sheets = FolderShelf::new(rt, folder);
    let sheet = match &file {
        Some(file) => file.as_str(),
        None => "",
    };
    run_import(alloc, shelf, &mut sheets, out, sheet, words.is_forced)
}
