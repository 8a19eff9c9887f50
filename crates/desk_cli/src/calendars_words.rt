//! The words of `calendars`.

use crate::words::DeskCommand;
use clap::{Arg, ArgMatches, Command as Grammar};
use std::alloc::{AllocError, Global};

/// `calendars [--cancelled OLD]`.
pub fn calendars_grammar<'w>(alloc: Global) -> Result<Grammar<'w>, AllocError> {
    Grammar::new(alloc, "calendars").arg(Arg::new(alloc, "cancelled").long("cancelled"))
}

/// The command with what was read: the folder of before, where one is named.
pub fn calendars_words(alloc: Global, found: &ArgMatches<'_>) -> Result<DeskCommand, AllocError> {
    match found.get_str("cancelled") {
        Some(old) => {
            let old = String::from_str(alloc, old)?;
            Ok(DeskCommand::Calendars(Some(old)))
        }
        None => Ok(DeskCommand::Calendars(None)),
    }
}
