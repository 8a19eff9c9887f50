//! Files that commands write.
ghost use Rattle.shelf.specs.Names.{IsName};
ghost use Rattle.shelf.specs.Files.{SameButAt};

use crate::status::DeskStatus;
use duty_calendar::Memory;
use file_places::Prose;
use shelf::{Shelf, ShelfFault};
use std::alloc::Global;

/// Appends what became of a file that was to be written.
fn say_written(
    prose: &mut Prose,
    name: &str,
    end: Result<(), ShelfFault>,
) -> Result<DeskStatus, Memory> {
    match end {
        Ok(()) => {
            prose.say(b"wrote ")?;
            prose.text(name.as_bytes())?;
            prose.say(b"\n")?;
            Ok(DeskStatus::Done)
        }
        Err(ShelfFault::NoMemory) => Err(Memory::NoMemory),
        Err(_) => {
            prose.text(name.as_bytes())?;
            prose.say(b": it could not be written\n")?;
            Ok(DeskStatus::WriteFault)
        }
    }
}

/// Gives a file these bytes, and appends what became of it. No other file changes.
pub fn put_file<S: Shelf>(
    alloc: Global,
    shelf: &mut S,
    prose: &mut Prose,
    name: &str,
    bytes: &[u8],
) -> Result<DeskStatus, Memory>
    requires name { IsName name.now }
    ensures others { SameButAt name.now (S.holds shelf.old) (S.holds shelf.new) }
{
    let end = shelf.write(alloc, name, bytes);
    say_written(prose, name, end)
}
