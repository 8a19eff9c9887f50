//! The words of `history`.

use crate::words::DeskCommand;
use clap::{Arg, ArgAction, ArgMatches, Command as Grammar};
use std::alloc::{AllocError, Global};

/// The folder of the next month, and whether history that is there may be written over.
#[derive(Drop)]
pub struct HistoryWords {
    pub next: String,
    pub is_forced: bool,
}

/// `history NEXT [--force]`.
pub fn history_grammar<'w>(alloc: Global) -> Result<Grammar<'w>, AllocError> {
    let named = Grammar::new(alloc, "history").arg(Arg::new(alloc, "next").required(true))?;
    let force = Arg::new(alloc, "force")
        .long("force")
        .action(ArgAction::SetTrue);
    named.arg(force)
}

/// The command with what was read.
pub fn history_words(alloc: Global, found: &ArgMatches<'_>) -> Result<DeskCommand, AllocError> {
    let Some(next) = found.get_str("next") else {
        return Ok(DeskCommand::Usage);
    };
    Ok(DeskCommand::History(HistoryWords {
        next: String::from_str(alloc, next)?,
        is_forced: found.get_flag("force"),
    }))
}
