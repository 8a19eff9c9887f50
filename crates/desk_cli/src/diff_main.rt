//! The folders of `diff`, and of `page --diff`.

use crate::diff_command::run_diff;
use crate::since_command::{Since, run_page_since};
use crate::spots::{Spot, spot_of};
use crate::status::DeskStatus;
use shelf::{FolderShelf, Shelf, Sink};
use std::fs::Files;

/// Says what is otherwise than at another place.
pub fn diff_with<R: Files + AllocGlobal, S: Shelf, O: Sink>(
    rt: &R,
    shelf: &mut S,
    other: &str,
    out: &mut O,
) -> DeskStatus {
    let alloc = rt.alloc();
    let Ok(Spot { folder, file }) = spot_of(rt, alloc, other) else {
        return DeskStatus::NoMemory;
    };
    let mut before = FolderShelf::new(rt, folder);
    match &file {
        Some(file) => run_diff(alloc, shelf, &mut before, out, Some(file.as_str())),
        None => run_diff(alloc, shelf, &mut before, out, None),
    }
}

/// Writes the page of the month, with what is otherwise than at another place.
pub fn page_since<R: Files + AllocGlobal, S: Shelf, O: Sink>(
    rt: &R,
    shelf: &mut S,
    other: &str,
    out: &mut O,
    built: &[u8],
) -> DeskStatus {
    let alloc = rt.alloc();
    let Ok(Spot { folder, file }) = spot_of(rt, alloc, other) else {
        return DeskStatus::NoMemory;
    };
    let mut before = FolderShelf::new(rt, folder);
    let since = Since {
        other: other.as_bytes(),
        built,
    };
    match &file {
        Some(file) => run_page_since(alloc, shelf, &mut before, out, Some(file.as_str()), since),
        None => run_page_since(alloc, shelf, &mut before, out, None, since),
    }
}
