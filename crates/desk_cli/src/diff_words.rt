//! The words of `diff`.

use crate::words::DeskCommand;
use clap::{Arg, ArgMatches, Command as Grammar};
use std::alloc::{AllocError, Global};

/// `diff OTHER`.
pub fn diff_grammar<'w>(alloc: Global) -> Result<Grammar<'w>, AllocError> {
    Grammar::new(alloc, "diff").arg(Arg::new(alloc, "other").required(true))
}

/// The command with what was read.
pub fn diff_words(alloc: Global, found: &ArgMatches<'_>) -> Result<DeskCommand, AllocError> {
    match found.get_str("other") {
        Some(other) => Ok(DeskCommand::Diff(String::from_str(alloc, other)?)),
        None => Ok(DeskCommand::Usage),
    }
}
