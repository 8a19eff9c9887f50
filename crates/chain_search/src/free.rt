//! What chains may still gain, by when the last free block began.

ghost use Rattle.std.specs.Prelude.{◌≡◌, IfOk, get_or, map, nat_lt};
ghost use Rattle.std.specs.List.{list_any};
ghost use Rattle.label_lattice.specs.Pair.{pair_done, pair_extend};
ghost use Rattle.chain_search.specs.Bounds.{IsBound};
ghost use Rattle.chain_search.specs.FreeHours.{free_arc, free_rested};

use crate::clocks::{Clock, ClockStep};
use crate::hours::Hours;
use crate::paused::Paused;
use crate::table::{CoarseRest, coarse_rest};
use crate::ways::Ways;
use duty_calendar::Memory;
use label_lattice::{Pair, Pause, PauseStep, Resource};
use label_setter::{Arc, Graph, Rest};
use std::alloc::Global;

/// What chains may still gain, by the age that the last free block has at the time of a place, and by how long work lasts.
#[derive(Drop)]
pub struct FreeRest {
    times: Vec<u32>,
    table: CoarseRest<Hours>,
}

/// The time of this place; 0 past the end.
fn time_at(times: &[u32], place: u32) -> u32
    ensures at { result ≡ get_or times.now place 0 }
{
    if (place as usize) < times.len() {
        times[place as usize]
    } else {
        0
    }
}

impl<A: Resource, M: Resource, B: Paused> Rest<Pair<A, Pair<M, B>>> for FreeRest {
    ghost use Rattle.chain_search.specs.FreeHours.{free_rested};

    ghost rest = { free_rested B.pause };

    fn rest(&self, place: u32, resource: &Pair<A, Pair<M, B>>) -> i64 {
        let time = time_at(&self.times, place);
        let clock = Clock {
            early: time,
            late: time,
        };
        let seen = Pair {
            first: clock,
            second: resource.second.second.pause(),
        };
        self.table.rest(place, &seen)
    }
}

/// A time for each place: when the block begins that an arc to it brings where work is over. Any other would do for a bound; of
/// this one no block begins later, and work lasts little beyond it.
fn times_of<A: Resource, M: Resource, B: Paused>(
    alloc: Global,
    graph: &Graph<Pair<A, Pair<M, B>>>,
) -> Result<Vec<u32>, Memory> {
    let mut times = Vec::new(alloc);
    for _place in 0..graph.places() {
        times.push(0)?;
    }
    for arc in graph.arcs() {
        let to = arc.to as usize;
        if to < times.len() {
            times[to] = B::pause_step(&arc.step.1.1).free;
        }
    }
    Ok(times)
}

/// The arc as it is seen with the times of its places and the free block alone.
fn free_arc<S: Copy>(times: &[u32], arc: &Arc<S>, pause: PauseStep) -> Arc<(ClockStep, PauseStep)>
    ensures arc { result ≡ free_arc times.now arc.now pause }
{
    let clock = ClockStep {
        from: time_at(times, arc.from),
        to: time_at(times, arc.to),
    };
    Arc {
        from: arc.from,
        to: arc.to,
        gain: arc.gain,
        step: (clock, pause),
    }
}

/// All arcs, so seen.
fn free_arcs<A: Resource, M: Resource, B: Paused>(
    alloc: Global,
    times: &[u32],
    arcs: &[Arc<(A::Step, (M::Step, B::Step))>],
) -> Result<Vec<Arc<(ClockStep, PauseStep)>>, Memory>
    ensures arcs { IfOk result (λ list. list.items
        ≡ map (λ arc. free_arc times.now arc (B.pause_step arc.step.1.1)) arcs.now) }
{
    let mut seen = Vec::new(alloc);
    for arc in arcs {
        seen.push(free_arc(times, arc, B::pause_step(&arc.step.1.1)))?;
    }
    Ok(seen)
}

/// Some arc asks for a last free block. Where none does, `free_rest` tells no more than the arcs gain.
pub fn asks_for_blocks<A: Resource, M: Resource, B: Paused>(
    graph: &Graph<Pair<A, Pair<M, B>>>,
) -> bool
    ensures asks { result ≡ list_any (λ arc. nat_lt 0 (B.pause_step arc.step.1.1).least)
        graph.now.arcs }
{
    graph
        .arcs()
        .iter()
        .any(|arc| B::pause_step(&arc.step.1.1).least > 0)
}

/// What chains may still gain in a graph whose resources hold a last free block in this place. It sees the block by the time of
/// the place, a quarter day at most off, and work by thirds of a day, and nothing else of a resource.
pub fn free_rest<A: Resource, M: Resource, B: Paused>(
    alloc: Global,
    graph: &Graph<Pair<A, Pair<M, B>>>,
) -> Result<FreeRest, Memory>
    ensures rest { IfOk result (λ rest. IsBound (pair_extend A.extend (pair_extend M.extend B.extend))
        (pair_done A.done (pair_done M.done B.done)) graph.now (free_rested B.pause rest)) }
{
    let times = times_of::<A, M, B>(alloc, graph)?;
    let arcs = free_arcs::<A, M, B>(alloc, &times, graph.arcs())?;
    let start = Pair {
        first: Clock { early: 0, late: 0 },
        second: Pause { latest: 0, busy: 0 },
    };
    let seen = Graph::from_arcs(graph.places(), start, ((), ()), arcs);
    let ways = Ways::new(alloc, &seen)?;
    let table = coarse_rest(alloc, &seen, &ways, Hours)?;
    Ok(FreeRest { times, table })
}
