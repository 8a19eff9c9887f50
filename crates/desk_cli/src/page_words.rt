//! The words of `page`.

use crate::words::DeskCommand;
use clap::{Arg, ArgMatches, Command as Grammar};
use std::alloc::{AllocError, Global};

/// `page [MEMBER] [--diff OTHER]`.
pub fn page_grammar<'w>(alloc: Global) -> Result<Grammar<'w>, AllocError> {
    let named = Grammar::new(alloc, "page").arg(Arg::new(alloc, "member"))?;
    named.arg(Arg::new(alloc, "diff").long("diff"))
}

/// The command of a pilot's name: what is otherwise stands on no pilot's page.
fn of_member(alloc: Global, name: &str, has_other: bool) -> Result<DeskCommand, AllocError> {
    if has_other {
        return Ok(DeskCommand::Usage);
    }
    Ok(DeskCommand::PilotPage(String::from_str(alloc, name)?))
}

/// The command with what was read.
pub fn page_words(alloc: Global, found: &ArgMatches<'_>) -> Result<DeskCommand, AllocError> {
    let other = found.get_str("diff");
    if let Some(name) = found.get_str("member") {
        return of_member(alloc, name, other.is_some());
    }
    match other {
        Some(other) => Ok(DeskCommand::PageSince(String::from_str(alloc, other)?)),
        None => Ok(DeskCommand::Page),
    }
}
