//! The folders of `history`.

use crate::history_command::run_history;
use crate::history_words::HistoryWords;
use crate::status::DeskStatus;
use shelf::{FolderShelf, Sink};
use std::fs::Files;

/// Makes the month in a folder the past of the next one, in another folder.
pub fn history_into<'a, R: Files + AllocGlobal>(
    rt: &'a R,
    shelf: &mut FolderShelf<'a, R>,
    words: HistoryWords,
    out: &mut impl Sink,
) -> DeskStatus {
    let HistoryWords { next, is_forced } = words;
    let mut next = FolderShelf::new(rt, next);
    run_history(rt.alloc(), shelf, &mut next, out, is_forced)
}
