//! The names of the staff in a folder.
ghost use Rattle.std.specs.Prelude.{◌≡◌};

use duty_calendar::Memory;
use file_places::Prose;
use shelf::{Shelf, ShelfFault};
use staff_names::{NamesFlaw, StaffNames, read_names};
use std::alloc::Global;

/// The names of a text; where it has a fault, that is appended.
fn names_of(alloc: Global, prose: &mut Prose, text: &[u8]) -> Result<Option<StaffNames>, Memory> {
    match read_names(alloc, text) {
        Ok(names) => Ok(Some(names)),
        Err(fault) if fault.flaw == NamesFlaw::NoMemory => Err(Memory::NoMemory),
        Err(fault) => {
            prose.text(format!(in alloc; "{fault}")?.as_bytes())?;
            prose.say(b"\n")?;
            Ok(None)
        }
    }
}

/// The names in a folder: none where there is no `names.csv`. Where it has a fault, that is appended.
pub fn tell_names<S: Shelf>(
    alloc: Global,
    shelf: &mut S,
    prose: &mut Prose,
) -> Result<Option<StaffNames>, Memory>
    ensures kept { S.holds shelf.new ≡ S.holds shelf.old }
{
    match shelf.read(alloc, "names.csv", 67_108_864) {
        Ok(text) => names_of(alloc, prose, &text),
        Err(ShelfFault::Missing) => Ok(Some(StaffNames::new(alloc))),
        Err(ShelfFault::NoMemory) => Err(Memory::NoMemory),
        Err(_) => {
            prose.say(b"names.csv was not read\n")?;
            Ok(None)
        }
    }
}
