//! The arcs in the order of the places to which they lead.

ghost use Rattle.std.specs.Prelude.{◌≡◌, ◌+◌, ◌<◌, ◌≤◌, ◌^◌, ℕ, All, IsErr, OnOk, Some, length, slice_range, vec_capacity};
ghost use Rattle.std.specs.List.{range_with_len};
ghost use Rattle.std.specs.List.Sorted.{IsNonDecreasingBy, IsPermutation};
ghost use Rattle.label_setter.specs.Arrivals.{Arriving};
ghost use Rattle.label_setter.specs.Chains.{end_of};
ghost use Rattle.label_setter.specs.Orders.{IsArcOrder, IsUpTo};

use crate::graph::Arc;
use crate::winner::end_of;
use duty_calendar::Memory;

/// The numbers from 0 on.
fn fill_numbers(order: &mut Vec<u32>, count: usize) -> Result<(), Memory>
    requires few { count < 2 ^ 32 }
    ensures numbers { OnOk result (order.new.items ≡ range_with_len 0 count) }
    ensures capacity { vec_capacity order.old ≤ vec_capacity order.new }
    ensures calm { count ≤ vec_capacity order.old → IsErr result → ⊥ }
{
    order.clear();
    for number in 0..count as u32 {
        order.push(number)?;
    }
    Ok(())
}

/// Puts numbers of arcs in the order of the places to which these lead.
fn sort_by_end<S: Copy>(order: &mut Vec<u32>, arcs: &[Arc<S>])
    ensures moved { IsPermutation order.old.items order.new.items }
    ensures sorted { IsNonDecreasingBy (end_of arcs.now) order.new.items }
    ensures capacity { vec_capacity order.new ≡ vec_capacity order.old }
{
    order.sort_unstable_by_key(|number| end_of(arcs, *number));
}

/// The numbers of the arcs, in the order of the places to which they lead.
pub(crate) fn fill_order<S: Copy>(order: &mut Vec<u32>, arcs: &[Arc<S>]) -> Result<(), Memory>
    requires few { length arcs.now < 2 ^ 32 }
    ensures order { OnOk result (IsArcOrder arcs.now order.new.items) }
    ensures capacity { vec_capacity order.old ≤ vec_capacity order.new }
    ensures calm { length arcs.now ≤ vec_capacity order.old → IsErr result → ⊥ }
{
    fill_numbers(order, arcs.len())?;
    sort_by_end(order, arcs);
    Ok(())
}

/// Where the arcs end that lead to this place. They come next.
pub(crate) fn run_end<S: Copy>(order: &[u32], arcs: &[Arc<S>], next: usize, place: u32) -> usize
    requires order { IsArcOrder arcs.now order.now }
    requires up_to { IsUpTo arcs.now order.now next place }
    ensures ordered { next ≤ result }
    ensures up_to { IsUpTo arcs.now order.now result (place + 1) }
    ensures arriving { Arriving arcs.now place (slice_range order.now next result) }
{
    for end in next..order.len() {
        if end_of(arcs, order[end]) != place {
            return end;
        }
    }
    order.len()
}

/// The numbers from one place of the list to another.
pub(crate) fn run_of(order: &[u32], from: usize, to: usize) -> &[u32]
    requires ordered { from ≤ to }
    requires within { to ≤ length order.now }
    ensures run { result.now ≡ slice_range order.now from to }
{
    &order[from..to]
}
