//! The place at hand: the labels that are kept there, and those that were found since.

ghost use Rattle.std.specs.Prelude.{◌≡◌, ◌+◌, ◌<◌, ◌≤◌, ◌*◌, ◌++◌, [], ◌∷◌, ℕ, IsErr, IsErrOf, OnOk, Option, Some, length, vec_capacity};
ghost use Rattle.std.specs.List.Sorted.{IsPermutation};
ghost use Rattle.label_setter.specs.Buckets.{Bucketed};
ghost use Rattle.label_setter.specs.Labels.{Apart, Gains, Thins, ThinsOver, first_label};
ghost use Rattle.label_setter.specs.Rooms.{IsOver, IsWithin};
ghost use Rattle.label_setter.specs.Spots.{IsSpot, Serves, all_of};

use crate::buckets::Bucket;
use crate::labels::{Label, Stop, is_full, keep};
use duty_calendar::Memory;
use label_lattice::Resource;

/// The labels at the place at hand.
#[derive(Drop)]
pub struct Spot<R> {
    /// Those that are kept, and what bounds each sixteen of them.
    pub here: Vec<Label<R>>,
    pub buckets: Vec<Bucket<R>>,
    /// Those that were found since: so many at most, then they are kept.
    pub found: Vec<Label<R>>,
    pub most: usize,
    /// How many arcs lead here.
    pub arcs: usize,
}

/// Those of low rank first, and of these those of great gain. The order serves speed alone, and where few labels come by
/// an arc it costs more than it saves.
fn sort_found<R: Resource>(found: &mut Vec<Label<R>>, arcs: usize)
    ensures same { IsPermutation found.old.items found.new.items }
    ensures capacity { vec_capacity found.new ≡ vec_capacity found.old }
{
    if found.len() / 64 < arcs {
        return;
    }
    found.sort_unstable_by_key(|label| (label.resource.rank(), !label.gain));
}

/// Keeps each label that was found, unless another dispenses with it.
fn keep_all<R: Resource>(
    here: &mut Vec<Label<R>>,
    buckets: &mut Vec<Bucket<R>>,
    found: &[Label<R>],
    left: Option<u32>,
) -> Result<(), Stop>
    requires bucketed { Bucketed R.below R.rank here.old.items buckets.old.items }
    requires apart { Apart R.below here.old.items }
    requires within { IsWithin (length here.old.items) left }
    ensures thins { OnOk result (Thins R.below (here.old.items ++ found.now) here.new.items) }
    ensures bucketed { OnOk result (Bucketed R.below R.rank here.new.items buckets.new.items) }
    ensures apart { OnOk result (Apart R.below here.new.items) }
    ensures within { OnOk result (IsWithin (length here.new.items) left) }
    ensures full { IsErrOf result Stop.Full → ThinsOver R.below (here.old.items ++ found.now) left }
    ensures labels { vec_capacity here.old ≤ vec_capacity here.new }
    ensures groups { vec_capacity buckets.old ≤ vec_capacity buckets.new }
    ensures calm { (room : ℕ) → left ≡ Some room → room ≤ vec_capacity here.old
        → room ≤ vec_capacity buckets.old * 16 → IsErrOf result Stop.NoMemory → ⊥ }
{
    for label in found {
        keep(here, buckets, *label, left)?;
    }
    Ok(())
}

/// Keeps each label that was found, unless another dispenses with it, so that none waits.
pub(crate) fn settle<R: Resource>(spot: &mut Spot<R>, left: Option<u32>) -> Result<(), Stop>
    requires spot { IsSpot R.below R.rank left spot.old }
    ensures spot { OnOk result (IsSpot R.below R.rank left spot.new) }
    ensures thins { OnOk result (Thins R.below (all_of spot.old) spot.new.here.items) }
    ensures none { OnOk result (spot.new.found.items ≡ []) }
    ensures full { IsErrOf result Stop.Full → ThinsOver R.below (all_of spot.old) left }
    ensures serves { (any : Option ℕ) → Serves any spot.old → Serves any spot.new }
    ensures calm { Serves left spot.old → IsErrOf result Stop.NoMemory → ⊥ }
{
    sort_found(&mut spot.found, spot.arcs);
    keep_all(&mut spot.here, &mut spot.buckets, &spot.found, left)?;
    spot.found.clear();
    Ok(())
}

/// Adds a label to those that wait, where these have room.
fn push_found<R: Resource>(spot: &mut Spot<R>, label: Label<R>) -> Result<(), Memory>
    requires free { length spot.old.found.items < spot.old.most }
    ensures spot { OnOk result ((left : Option ℕ) → IsSpot R.below R.rank left spot.old
        → IsSpot R.below R.rank left spot.new) }
    ensures gains { OnOk result (Gains R.below label (all_of spot.old) (all_of spot.new)) }
    ensures serves { (any : Option ℕ) → Serves any spot.old → Serves any spot.new }
    ensures calm { (left : Option ℕ) → Serves left spot.old → IsErr result → ⊥ }
{
    spot.found.push(label)?;
    Ok(())
}

/// Adds a label to those that were found.
pub(crate) fn add_found<R: Resource>(
    spot: &mut Spot<R>,
    label: Label<R>,
    left: Option<u32>,
) -> Result<(), Stop>
    requires spot { IsSpot R.below R.rank left spot.old }
    ensures spot { OnOk result (IsSpot R.below R.rank left spot.new) }
    ensures gains { OnOk result (Gains R.below label (all_of spot.old) (all_of spot.new)) }
    ensures full { IsErrOf result Stop.Full → ThinsOver R.below (all_of spot.old) left }
    ensures serves { (any : Option ℕ) → Serves any spot.old → Serves any spot.new }
    ensures calm { Serves left spot.old → IsErrOf result Stop.NoMemory → ⊥ }
{
    if spot.found.len() < spot.most {
        push_found(spot, label)?;
        return Ok(());
    }
    settle(spot, left)?;
    push_found(spot, label)?;
    Ok(())
}

/// No labels, where so many arcs lead.
pub(crate) fn clear_spot<R: Resource>(spot: &mut Spot<R>, arcs: usize)
    requires some { 1 ≤ spot.old.most }
    ensures spot { (left : Option ℕ) → IsSpot R.below R.rank left spot.new }
    ensures none { all_of spot.new ≡ [] }
    ensures serves { (any : Option ℕ) → Serves any spot.old → Serves any spot.new }
{
    spot.here.clear();
    spot.buckets.clear();
    spot.found.clear();
    spot.arcs = arcs;
}

/// The labels of the source: the one of the chain of no arcs.
pub(crate) fn start_spot<R: Resource>(
    spot: &mut Spot<R>,
    start: R,
    room: Option<u32>,
) -> Result<(), Stop>
    ensures first { OnOk result (spot.new.here.items ≡ first_label start ∷ []) }
    ensures within { OnOk result (IsWithin (length spot.new.here.items) room) }
    ensures full { IsErrOf result Stop.Full → IsOver 1 room }
    ensures most { spot.new.most ≡ spot.old.most }
    ensures serves { (any : Option ℕ) → Serves any spot.old → Serves any spot.new }
    ensures calm { Serves room spot.old → IsErrOf result Stop.NoMemory → ⊥ }
{
    if is_full(0, room) {
        return Err(Stop::Full);
    }
    spot.here.clear();
    spot.here.push(Label {
        gain: 0,
        resource: start,
        via: None,
    })?;
    Ok(())
}
