//! Folders and files behind words of the command line.

use std::alloc::{AllocError, Global};
use std::fs;
use std::fs::Files;

/// A folder, and a file in it where the word names one.
#[derive(Drop)]
pub struct Spot {
    pub folder: String,
    pub file: Option<String>,
}

/// The folder and the file of a path that leads to no folder.
fn split(alloc: Global, path: &str) -> Result<Spot, AllocError> {
    match path.rsplit_once('/') {
        Some(("", file)) => Ok(Spot {
            folder: String::from_str(alloc, "/")?,
            file: Some(String::from_str(alloc, file)?),
        }),
        Some((folder, file)) => Ok(Spot {
            folder: String::from_str(alloc, folder)?,
            file: Some(String::from_str(alloc, file)?),
        }),
        None => Ok(Spot {
            folder: String::new(alloc),
            file: Some(String::from_str(alloc, path)?),
        }),
    }
}

/// Where a path leads.
pub fn spot_of(files: &impl Files, alloc: Global, path: &str) -> Result<Spot, AllocError> {
    match fs::metadata(files, path) {
        Ok(found) if found.is_dir() => Ok(Spot {
            folder: String::from_str(alloc, path)?,
            file: None,
        }),
        _ => split(alloc, path),
    }
}

/// The folder of calendars in a folder.
pub fn calendars_in(alloc: Global, folder: &str) -> Result<String, AllocError> {
    if folder.is_empty() {
        return String::from_str(alloc, "calendars");
    }
    format!(in alloc; "{folder}/calendars")
}

/// Makes a folder, where there is none of this name. Where that fails, what is written into it says so.
pub fn make_folder(files: &impl Files, path: &str) {
    match fs::create_dir(files, path) {
        Ok(()) => {}
        Err(_) => {}
    }
}
