//! Lists that grow by one.
ghost use Rattle.std.specs.Prelude.{◌≡◌, ◌++◌, ◌∷◌, [], OnOk};

use duty_calendar::{List, Memory};

/// Appends an element.
pub(crate) fn append<T: Drop>(list: &mut List<T>, item: T) -> Result<(), Memory>
    ensures added { OnOk result (list.new ≡ list.old ++ item ∷ []) }
{
    match list.push(item) {
        Ok(()) => Ok(()),
        Err(_item) => Err(Memory::NoMemory),
    }
}
