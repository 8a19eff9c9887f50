//! Whole readings and whole writings over std's readers and writers.
ghost use Rattle.std.specs.Prelude.{◌≤◌, IfOk, OnOk, OnErr, IsErrOf, vec_len};
ghost use Rattle.std.specs.Io.KnownBytes.{Consumes, Appends, IsAtEnd};
ghost use Rattle.shelf.specs.declared.streams.Unread.TheVariants.{Missing, TooLong};
ghost use Rattle.shelf.specs.Streams.{GivesMore, TakesFront};

use std::alloc::{AllocError, Global};
use std::io;
use std::io::{ErrorKind, Read, Write};

// How a file was not read.
#[derive(Clone, Copy, PartialEq, Eq)]
pub enum Unread {
    Failed,
    Missing,
    TooLong,
    NoMemory,
}

impl From<AllocError> for Unread {
    ghost use Rattle.std.specs.Prelude.{◌≡◌};
    ghost use Rattle.shelf.specs.declared.streams.Unread.TheVariants.{NoMemory};

    ghost from_gives = { λ _ e. e ≡ NoMemory };

    fn from(_: AllocError) -> Self {
        Unread::NoMemory
    }
}

// The rest of a reader, if it is at most `limit` bytes. A read that gives nothing ends it.
pub fn read_rest<R: Read>(alloc: Global, reader: &mut R, limit: u64) -> Result<Vec<u8>, Unread>
    ensures limit { IfOk result (λ bytes. vec_len bytes ≤ limit) }
    ensures whole { IfOk result (λ bytes.
        Consumes (R.remaining reader.old) (R.remaining reader.new) bytes.items) }
    ensures end { OnOk result (IsAtEnd (R.remaining reader.new)) }
    ensures long { IsErrOf result TooLong
        → GivesMore limit (R.remaining reader.old) (R.remaining reader.new) }
    ensures there { IsErrOf result Missing → ⊥ }
{
    let mut bytes = Vec::new(alloc);
    let mut piece = [0u8; 4096];
    for _ in 0..u64::MAX {
        match reader.read(&mut piece) {
            Ok(0) => return Ok(bytes),
            Ok(count) if count as u64 > limit - bytes.len() as u64 => return Err(Unread::TooLong),
            Ok(count) => bytes.extend_from_slice(&piece[..count])?,
            Err(_) => return Err(Unread::Failed),
        }
    }
    Err(Unread::Failed)
}

// Writes all of the bytes. A write that takes none of them is an error.
pub fn write_rest<W: Write>(writer: &mut W, bytes: &[u8]) -> Result<(), io::Error>
    ensures whole { OnOk result
        (Appends (W.contents writer.old) (W.contents writer.new) bytes.now) }
    ensures front { OnErr result
        (TakesFront bytes.now (W.contents writer.old) (W.contents writer.new)) }
{
    let mut rest = bytes;
    for _ in 0..u64::MAX {
        if rest.is_empty() {
            return Ok(());
        }
        let count = writer.write(rest)?;
        if count == 0 {
            return Err(io::Error::from(ErrorKind::WriteZero));
        }
        rest = &rest[count..];
    }
    Err(io::Error::from(ErrorKind::WriteZero))
}
