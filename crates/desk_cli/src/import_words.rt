//! The words of `import`.

use crate::words::DeskCommand;
use clap::{Arg, ArgAction, ArgMatches, Command as Grammar};
use std::alloc::{AllocError, Global};

/// A sheet, and whether a file that is there may be written over.
#[derive(Drop)]
pub struct ImportWords {
    pub sheet: String,
    pub is_forced: bool,
}

/// `import SHEET [--force]`.
pub fn import_grammar<'w>(alloc: Global) -> Result<Grammar<'w>, AllocError> {
    let named = Grammar::new(alloc, "import").arg(Arg::new(alloc, "sheet").required(true))?;
    let force = Arg::new(alloc, "force")
        .long("force")
        .action(ArgAction::SetTrue);
    named.arg(force)
}

/// The command with what was read.
pub fn import_words(alloc: Global, found: &ArgMatches<'_>) -> Result<DeskCommand, AllocError> {
    match found.get_str("sheet") {
        Some(sheet) => Ok(DeskCommand::Import(ImportWords {
            sheet: String::from_str(alloc, sheet)?,
            is_forced: found.get_flag("force"),
        })),
        None => Ok(DeskCommand::Usage),
    }
}
