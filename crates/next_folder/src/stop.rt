//! Why a history was not written.

use crate::barrier::Barrier;
use crate::rolled::RolledOver;
use month_files::Unwritten;

/// Why a history was not written.
#[derive(Drop, Debug)]
pub enum HistoryStop {
    /// This stands against it, and no file was written.
    Barred(Barrier),
    /// This was to be written, and the write of one of the files did not end well.
    Unwritten(RolledOver, Unwritten),
}
