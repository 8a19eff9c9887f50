//! Why a file was not read.

use crate::file::File;
use thiserror::Error;

/// Why a file was not read.
#[derive(Clone, Copy, Debug, PartialEq, Eq, Error)]
pub enum Unread {
    /// The file is not there.
    #[error("missing {0}")]
    Missing(File),
    /// The file's read failed.
    #[error("read fault {0}")]
    ReadFault(File),
    /// The file is longer than its limit.
    #[error("too long {0}")]
    TooLong(File),
    /// No memory was left.
    #[error("out of memory")]
    NoMemory,
}
