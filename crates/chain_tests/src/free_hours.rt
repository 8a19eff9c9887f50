use chain_search::{FreeRest, asks_for_blocks, free_rest};
use duty_calendar::Memory;
use label_lattice::{Least, LeastStep, Mask, MaskEnd, MaskStep, Pair, Pause, PauseStep};
use label_setter::{Graph, Rest};
use std::alloc::Global;

/// What a label holds beside its last free block.
type Held = Pair<Least, Pair<Mask, Pair<Pause, Least>>>;

/// The step of an arc that does this to the last free block and nothing else.
fn step_of(pause: PauseStep) -> (LeastStep, (MaskStep, (PauseStep, LeastStep))) {
    let least = LeastStep { add: 0, cap: 0 };
    let leave = MaskStep { clear: 0, set: 0 };
    (least, (leave, (pause, least)))
}

/// A block is asked for that began no earlier; work lasts until then, and a block begins there where work is over.
fn pause_of(least: u32, busy: u32, free: u32) -> PauseStep {
    PauseStep {
        least,
        renew: 0,
        busy,
        free,
    }
}

/// A label whose last free block began at this minute, with work until that one.
fn label(latest: u32, busy: u32) -> Held {
    Pair {
        first: Least { value: 0 },
        second: Pair {
            first: Mask { bits: 0 },
            second: Pair {
                first: Pause { latest, busy },
                second: Least { value: 0 },
            },
        },
    }
}

/// Eight days with work into the ninth that gains more, or without; a day; then a trip that wants a block from this minute on.
fn trip(alloc: Global, least: u32) -> Result<Graph<Held>, Memory> {
    let end = MaskEnd {
        weights: [0; 64],
        floor: 0,
    };
    let work = pause_of(0, 12_960, 11_520);
    let none = pause_of(0, 0, 11_520);
    let day = pause_of(0, 0, 12_480);
    let asked = pause_of(least, 0, 14_400);
    let mut graph = Graph::new(alloc, 4, label(0, 0), ((), (end, ((), ()))))?;
    graph.arc(0, 1, 3, step_of(work))?;
    graph.arc(0, 1, 1, step_of(none))?;
    graph.arc(1, 2, 0, step_of(day))?;
    graph.arc(2, 3, 4, step_of(asked))?;
    Ok(graph)
}

/// The bound of the trip that wants a block from this minute on, with whether it asks for blocks; nothing for want of memory.
fn bound_of(alloc: Global, least: u32) -> Option<(FreeRest, bool)> {
    let graph = trip(alloc, least).ok()?;
    let asks = asks_for_blocks::<Least, Mask, Pair<Pause, Least>>(&graph);
    let rest = free_rest::<Least, Mask, Pair<Pause, Least>>(alloc, &graph).ok()?;
    Some((rest, asks))
}

/// More than that chains that can't be gain nothing.
const FAR: i64 = -1_000_000;

#[test]
fn sees_that_a_block_is_asked_for(rt: HostRuntime) {
    let alloc = rt.alloc();
    let (rest, asks) = bound_of(alloc, 2_160).expect(&rt, "memory");
    assert!(rt; asks);
    assert!(rt; rest.rest(0, &label(0, 0)) == 5);
    assert!(rt; rest.rest(0, &label(1_440, 0)) == 7);
    assert!(rt; rest.rest(2, &label(2_160, 0)) == 4);
    assert!(rt; rest.rest(2, &label(2_159, 0)) < FAR);
    assert!(rt; rest.rest(3, &label(0, 0)) == 0);
}

#[test]
fn sees_how_long_work_lasts(rt: HostRuntime) {
    let alloc = rt.alloc();
    let (rest, _) = bound_of(alloc, 2_160).expect(&rt, "memory");
    assert!(rt; rest.rest(1, &label(0, 12_480)) == 4);
    assert!(rt; rest.rest(1, &label(0, 12_960)) < FAR);
}

#[test]
fn tells_no_more_where_no_block_is_asked_for(rt: HostRuntime) {
    let alloc = rt.alloc();
    let (rest, asks) = bound_of(alloc, 0).expect(&rt, "memory");
    assert!(rt; !asks);
    assert!(rt; rest.rest(0, &label(0, 0)) == 7);
    assert!(rt; rest.rest(2, &label(0, 12_960)) == 4);
}
