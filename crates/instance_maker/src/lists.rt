//! Lists that grow.
ghost use Rattle.std.specs.Prelude.{◌≡◌, ◌∷◌, [], ◌++◌, OnOk, IfOk};

use duty_calendar::{List, Memory};
use std::alloc::Global;

/// Appends an item.
pub fn add<T: Drop>(list: &mut List<T>, item: T) -> Result<(), Memory>
    ensures ok { OnOk result (list.new ≡ list.old ++ item ∷ []) }
{
    match list.push(item) {
        Ok(()) => Ok(()),
        Err(_) => Err(Memory::NoMemory),
    }
}

/// A list of one item.
pub fn one<T: Drop>(alloc: Global, item: T) -> Result<List<T>, Memory>
    ensures items { IfOk result (λ list. list ≡ item ∷ []) }
{
    let mut list = List::new(alloc);
    add(&mut list, item)?;
    Ok(list)
}
