//! The folders of `calendars`.

use crate::calendars_command::run_calendars;
use crate::spots::{calendars_in, make_folder};
use crate::status::DeskStatus;
use shelf::{FolderShelf, Sink};
use std::alloc::AllocError;
use std::fs::Files;

/// Writes the calendars of a folder, with what fell away since another folder where one is named.
fn calendars_over<R: Files + AllocGlobal, O: Sink>(
    rt: &R,
    folder: &str,
    old: Option<&String>,
    out: &mut O,
) -> Result<DeskStatus, AllocError> {
    let alloc = rt.alloc();
    let written = calendars_in(alloc, folder)?;
    make_folder(rt, written.as_str());
    let before = match old {
        Some(old) => old.as_str(),
        None => folder,
    };
    Ok(run_calendars(
        alloc,
        &mut FolderShelf::new(rt, String::from_str(alloc, folder)?),
        &mut FolderShelf::new(rt, written),
        &mut FolderShelf::new(rt, String::from_str(alloc, before)?),
        &mut FolderShelf::new(rt, calendars_in(alloc, before)?),
        out,
        old.is_some(),
    ))
}

/// Writes the calendars of a folder, with what fell away since another folder where one is named.
pub fn calendars_in_folders<R: Files + AllocGlobal, O: Sink>(
    rt: &R,
    folder: &str,
    old: Option<&String>,
    out: &mut O,
) -> DeskStatus {
    match calendars_over(rt, folder, old, out) {
        Ok(status) => status,
        Err(_) => DeskStatus::NoMemory,
    }
}
