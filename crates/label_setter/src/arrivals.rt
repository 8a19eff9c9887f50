//! The arcs by the place to which they lead.

ghost use Rattle.std.specs.Prelude.{◌≡◌, ◌+◌, ◌<◌, ◌≤◌, ℕ, [], All, IfOk, List, Some, length, map, slice_get};
ghost use Rattle.label_setter.specs.Arrivals.{Arriving};
ghost use Rattle.label_setter.specs.Graphs.{IsGraph};

use crate::graph::Arc;
use duty_calendar::Memory;
use std::alloc::Global;

/// So many empty lists.
fn empty_lists(alloc: Global, count: u32) -> Result<Vec<Vec<u32>>, Memory>
    ensures count { IfOk result (λ lists. length lists.items ≡ count) }
    ensures empty { IfOk result (λ lists. All (λ list. list.items ≡ []) lists.items) }
{
    let mut lists = Vec::new(alloc);
    for _k in 0..count {
        lists.push(Vec::new(alloc))?;
    }
    Ok(lists)
}

/// For each place the numbers of the arcs that lead there, in one pass over the arcs.
pub fn arriving_by_place<S: Copy>(
    alloc: Global,
    places: u32,
    arcs: &[Arc<S>],
) -> Result<Vec<Vec<u32>>, Memory>
    requires graph { IsGraph places arcs.now }
    ensures count { IfOk result (λ lists. length lists.items ≡ places) }
    ensures arriving { IfOk result (λ lists. (place : ℕ) (numbers : List ℕ)
        → slice_get (map (λ list. list.items) lists.items) place ≡ Some numbers
        → Arriving arcs.now place numbers) }
{
    let mut lists = empty_lists(alloc, places)?;
    for (number, arc) in arcs.iter().enumerate() {
        let list = &mut lists[arc.to as usize];
        list.push(number as u32)?;
    }
    Ok(lists)
}
