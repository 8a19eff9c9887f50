//! What a shelf and a sink answer where they do not do what was asked.
ghost use Rattle.shelf.specs.declared.fault.SinkFault.TheVariants.{NoMemory as NoRoom};
ghost use Rattle.std.specs.Prelude.{◌≡◌};

use std::alloc::AllocError;
use thiserror::Error;

/// Why a shelf did not read or write a file.
#[derive(Clone, Copy, Debug, PartialEq, Eq, Error)]
pub enum ShelfFault {
    /// Code 1.
    #[error("a read failed")]
    ReadFailed,
    /// Code 2. What the file holds is not known.
    #[error("a write failed")]
    WriteFailed,
    /// Code 3.
    #[error("no such file")]
    Missing,
    /// Code 4. The file has more bytes than the read may give.
    #[error("the file is too long")]
    TooLong,
    /// Code 0. After a write, what the file holds is not known.
    #[error("out of memory")]
    NoMemory,
}

/// Why a sink did not take a whole piece.
#[derive(Clone, Copy, Debug, PartialEq, Eq, Error)]
pub enum SinkFault {
    /// Code 1.
    #[error("a put failed")]
    PutFailed,
    /// Code 0.
    #[error("out of memory")]
    NoMemory,
}

impl From<AllocError> for SinkFault {
    ghost from_gives = { λ _ e. e ≡ NoRoom };

    fn from(_: AllocError) -> Self {
        SinkFault::NoMemory
    }
}
