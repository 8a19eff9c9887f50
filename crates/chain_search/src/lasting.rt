//! What chains may still gain, by bits that nothing clears any more.

ghost use Rattle.std.specs.Prelude.{◌≡◌, ◌-◌, ◌<◌, ◌^◌, All, IfOk, Some, get_or, length, slice_get};
ghost use Rattle.label_lattice.specs.declared.masks.MaskStep.{MaskStep};
ghost use Rattle.label_lattice.specs.Mask.{mask_done, mask_extend};
ghost use Rattle.label_lattice.specs.Pair.{pair_done, pair_extend};
ghost use Rattle.label_setter.specs.declared.graph.Arc.{Arc as ArcOf};
ghost use Rattle.chain_search.specs.Bounds.{IsBound};
ghost use Rattle.chain_search.specs.Leavings.{AreWays};
ghost use Rattle.chain_search.specs.Lastings.{IsIn, lasting};

use crate::ways::{Ways, sink_of};
use crate::weighed::Weighed;
use duty_calendar::Memory;
use label_lattice::{Mask, Pair, Resource};
use label_setter::{Graph, Rest};
use std::alloc::Global;

/// The most that one arc gains.
const MOST_GAIN: i64 = 1_099_511_627_776;

/// More than chains gain. It is taken off where no chain can come to a done end.
const FAR: i64 = 1_152_921_504_606_846_976;

/// For each place the bits that no arc clears from there on, and what the end asks of those that are not set.
#[derive(Drop)]
pub struct Lasting {
    /// The bits of the sink, then those of the place before it, and so on.
    rows: Vec<u64>,
    sink: u16,
    last: Weighed,
}

/// The bits at this place of the list; none past its end.
fn bits_at(rows: &[u64], index: usize) -> u64
    ensures at { result ≡ get_or rows.now index 0 }
{
    if index < rows.len() { rows[index] } else { 0 }
}

impl<A: Resource, B: Resource> Rest<Pair<A, Pair<Mask, B>>> for Lasting {
    ghost use Rattle.chain_search.specs.Lastings.{lasting};

    ghost rest = { lasting };

    fn rest(&self, place: u32, resource: &Pair<A, Pair<Mask, B>>) -> i64 {
        let back = u32::from(self.sink).saturating_sub(place);
        let lasts = bits_at(&self.rows, back as usize);
        let most = i64::from(back) * MOST_GAIN;
        if self.last.is_done(resource.second.first.bits & lasts) {
            most
        } else {
            most - FAR
        }
    }
}

/// The bits of a set that none of the arcs that leave the place clears.
fn kept_by<A: Resource, B: Resource>(
    graph: &Graph<Pair<A, Pair<Mask, B>>>,
    leaving: &[u32],
    set: u64,
) -> u64
    requires inside { All (λ number. number < length graph.now.arcs) leaving.now }
    ensures inside { IsIn result set }
    ensures kept { All (λ number. (arc : ArcOf (A.Step × (MaskStep × B.Step)))
        → slice_get graph.now.arcs number ≡ Some arc
        → IsIn result (2 ^ 64 - 1 - arc.step.1.0.clear)) leaving.now }
{
    let arcs = graph.arcs();
    let mut kept = set;
    for &number in leaving {
        let arc = &arcs[number as usize];
        kept &= !arc.step.1.0.clear;
    }
    kept
}

/// What chains may still gain in a graph whose resources hold a set of bits in this place: nothing, where bits that are
/// set and that no later arc clears weigh too much for its end.
pub fn lasting_rest<A: Resource, B: Resource>(
    alloc: Global,
    graph: &Graph<Pair<A, Pair<Mask, B>>>,
    ways: &Ways,
) -> Result<Lasting, Memory>
    requires ways { AreWays graph.now.arcs graph.now.places ways.now }
    ensures rest { IfOk result (λ rest. IsBound
        (pair_extend A.extend (pair_extend mask_extend B.extend))
        (pair_done A.done (pair_done mask_done B.done)) graph.now (lasting rest)) }
{
    let sink = sink_of(graph);
    let mut kept = u64::MAX;
    let mut rows = Vec::new(alloc);
    rows.push(kept)?;
    for back in 1..sink + 1 {
        let place = sink - back;
        kept = kept_by::<A, B>(graph, ways.from(place), kept);
        rows.push(kept)?;
    }
    Ok(Lasting {
        rows,
        sink: sink as u16,
        last: Weighed::new(graph.end().1.0),
    })
}
