//! The words of `collect`.

use crate::words::DeskCommand;
use clap::{Arg, ArgAction, ArgMatches, Command as Grammar};
use std::alloc::{AllocError, Global};

/// Where pilots' files lie, the folder whose bids stand for those who sent none, and whether a text of bids that is there
/// may be written over.
#[derive(Drop)]
pub struct CollectWords {
    pub sheets: String,
    pub standing: Option<String>,
    pub is_forced: bool,
}

/// `collect DIR [--standing OLD] [--force]`.
pub fn collect_grammar<'w>(alloc: Global) -> Result<Grammar<'w>, AllocError> {
    let named = Grammar::new(alloc, "collect").arg(Arg::new(alloc, "sheets").required(true))?;
    let standing = named.arg(Arg::new(alloc, "standing").long("standing"))?;
    let force = Arg::new(alloc, "force")
        .long("force")
        .action(ArgAction::SetTrue);
    standing.arg(force)
}

/// A folder's name, where there is one.
fn folder_of(alloc: Global, word: Option<&str>) -> Result<Option<String>, AllocError> {
    match word {
        Some(word) => Ok(Some(String::from_str(alloc, word)?)),
        None => Ok(None),
    }
}

/// The command with what was read.
pub fn collect_words(alloc: Global, found: &ArgMatches<'_>) -> Result<DeskCommand, AllocError> {
    let Some(sheets) = folder_of(alloc, found.get_str("sheets"))? else {
        return Ok(DeskCommand::Usage);
    };
    Ok(DeskCommand::Collect(CollectWords {
        sheets,
        standing: folder_of(alloc, found.get_str("standing"))?,
        is_forced: found.get_flag("force"),
    }))
}
