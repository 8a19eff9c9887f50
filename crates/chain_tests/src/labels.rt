ghost use Rattle.std.specs.Prelude.{◌≡◌, ◌<◌, IfOk};
ghost use Rattle.label_lattice.specs.Least.{least_extend};
ghost use Rattle.label_setter.specs.Meters.{IsMeter};
ghost use Rattle.label_setter.specs.Rests.{IsRest};

use duty_calendar::Memory;
use label_lattice::{Least, LeastStep, Resource, Span, SpanEnd, SpanStep, Steps};
use label_setter::{
    Above, Graph, Meter, MeterRest, Priced, Rest, SetterFault, Traced, meter_rest, set_labels,
    set_labels_falling, set_labels_in, set_labels_over, trace_labels_in,
};
use std::alloc::Global;
use std::marker::Brand;
use std::sync::ledger::{Blank, Ledger};

/// A way by two arcs, beside one arc of less gain and use.
fn two_ways(alloc: Global, cap: u32) -> Result<Graph<Least>, Memory>
    ensures metered { IfOk result (λ g. IsMeter least_extend g.arcs (λ least. least.value)
        (λ step. step.add) cap) }
{
    let mut graph = Graph::new(alloc, 3, Least { value: 0 }, ())?;
    graph.arc(0, 1, 3, LeastStep { add: 2, cap })?;
    graph.arc(1, 2, 4, LeastStep { add: 2, cap })?;
    graph.arc(0, 2, 5, LeastStep { add: 1, cap })?;
    Ok(graph)
}

/// A step of a span under a cap of 10.
fn step_of(down: u32, up: u32) -> SpanStep {
    SpanStep { down, up, cap: 10 }
}

/// A way that comes high enough, beside one that gains more, uses less and does not.
fn low_and_high(alloc: Global) -> Result<Graph<Span>, Memory> {
    let mut graph = Graph::new(alloc, 4, Span { down: 0, up: 0 }, SpanEnd { low: 3 })?;
    graph.arc(0, 1, 0, step_of(0, 0))?;
    graph.arc(1, 2, 2, step_of(2, 3))?;
    graph.arc(0, 2, 3, step_of(1, 1))?;
    graph.arc(2, 3, 0, step_of(0, 0))?;
    Ok(graph)
}

/// What is found by the bound alone, in bounded room, and there with arcs.
#[derive(Drop)]
struct Searched {
    best: Result<Option<Priced>, Memory>,
    inside: Result<Option<Priced>, SetterFault>,
    traced: Result<Option<Traced>, SetterFault>,
}

/// Sets labels of any resource in each way.
fn found_from<R: Resource, L: Ledger>(
    alloc: Global,
    graph: &Graph<R>,
    room: u32,
    blank: Blank,
) -> Searched
    requires name { blank.name ≡ L.name }
    requires parts { blank.parts ≡ L.parts }
    requires some { 0 < blank.parts }
{
    let mut steps: Steps<L> = Steps::new(blank);
    Searched {
        best: set_labels(alloc, graph, &mut steps),
        inside: set_labels_in(alloc, graph, room, &mut steps),
        traced: trace_labels_in(alloc, graph, room, &mut steps),
    }
}

fn found<R: Resource>(alloc: Global, graph: &Graph<R>, room: u32) -> Searched {
    found_from::<R, Brand>(alloc, graph, room, Blank::new(1))
}

fn best<R: Resource>(alloc: Global, graph: &Graph<R>) -> Result<Option<Priced>, Memory> {
    found(alloc, graph, 100).best
}

fn is(answer: &Option<Priced>, gain: i64, chain: &[u32]) -> bool {
    match answer {
        Some(priced) => priced.gain == gain && priced.chain.as_slice() == chain,
        None => false,
    }
}

#[test]
fn takes_the_way_that_its_caps_let_pass(rt: HostRuntime) {
    let alloc = rt.alloc();
    let low = two_ways(alloc, 3).expect(&rt, "memory");
    assert!(rt; is(&best(alloc, &low).expect(&rt, "memory"), 5, &[0, 2]));
    let high = two_ways(alloc, 4).expect(&rt, "memory");
    assert!(rt; is(&best(alloc, &high).expect(&rt, "memory"), 7, &[0, 1, 2]));
    let none = two_ways(alloc, 0).expect(&rt, "memory");
    assert!(rt; best(alloc, &none).expect(&rt, "memory").is_none());
}

#[test]
fn keeps_the_label_that_comes_higher(rt: HostRuntime) {
    let alloc = rt.alloc();
    let graph = low_and_high(alloc).expect(&rt, "memory");
    assert!(rt; is(&best(alloc, &graph).expect(&rt, "memory"), 2, &[0, 1, 2, 3]));
}

#[test]
fn says_where_the_room_ends(rt: HostRuntime) {
    let alloc = rt.alloc();
    let graph = two_ways(alloc, 4).expect(&rt, "memory");
    assert!(rt; matches!(found(alloc, &graph, 1).inside, Err(SetterFault::Room(1))));
    assert!(rt; matches!(found(alloc, &graph, 3).inside, Err(SetterFault::Room(3))));
    let answer = found(alloc, &graph, 4).inside.expect(&rt, "room");
    assert!(rt; is(&answer, 7, &[0, 1, 2]));
}

#[test]
fn arcs_side_by_side_are_two(rt: HostRuntime) {
    let alloc = rt.alloc();
    let mut graph = Graph::new(alloc, 2, Least { value: 0 }, ()).expect(&rt, "memory");
    graph
        .arc(0, 1, -4, LeastStep { add: 1, cap: 1 })
        .expect(&rt, "memory");
    graph
        .arc(0, 1, -3, LeastStep { add: 1, cap: 1 })
        .expect(&rt, "memory");
    assert!(rt; is(&best(alloc, &graph).expect(&rt, "memory"), -3, &[0, 1]));
}

/// What the label of `Least` has used.
#[derive(Clone, Copy)]
struct Used;

impl Meter<Least> for Used {
    ghost shows = { λ _ least. least.value };

    ghost adds = { λ _ step. step.add };

    fn shows(&self, resource: &Least) -> u32 {
        resource.value
    }

    fn adds(&self, step: &LeastStep) -> u32 {
        step.add
    }
}

/// Traces labels of any resource above a bound, in bounded room.
fn over_from<R: Resource, B: Rest<R>, L: Ledger>(
    alloc: Global,
    graph: &Graph<R>,
    above: &Above<B>,
    room: u32,
    blank: Blank,
) -> Result<Option<Traced>, SetterFault>
    requires name { blank.name ≡ L.name }
    requires parts { blank.parts ≡ L.parts }
    requires some { 0 < blank.parts }
    requires rest { IsRest R.extend R.done graph.now (B.rest above.now.rest) }
{
    let mut steps: Steps<L> = Steps::new(blank);
    set_labels_over(alloc, graph, above, room, &mut steps)
}

/// The same by falling bounds.
fn falling_from<R: Resource, B: Rest<R> + Drop, L: Ledger>(
    alloc: Global,
    graph: &Graph<R>,
    rest: B,
    blank: Blank,
) -> Result<Option<Traced>, Memory>
    requires name { blank.name ≡ L.name }
    requires parts { blank.parts ≡ L.parts }
    requires some { 0 < blank.parts }
    requires rest { IsRest R.extend R.done graph.now (B.rest rest) }
{
    let mut steps: Steps<L> = Steps::new(blank);
    set_labels_falling(alloc, graph, rest, &mut steps)
}

/// What may be gained from the source on, where each step is held to the cap.
fn most_from_the_source(alloc: Global, cap: u32) -> Result<i64, Memory> {
    let graph = two_ways(alloc, cap)?;
    let rest = meter_rest(alloc, &graph, Used, cap)?;
    Ok(rest.rest(0, &graph.start()))
}

/// The best chain above a bound, of the graph of two ways.
fn best_over(alloc: Global, cap: u32, over: i64, room: u32) -> Result<Option<Traced>, SetterFault> {
    let Ok(graph) = two_ways(alloc, cap) else {
        return Err(SetterFault::NoMemory);
    };
    let Ok(rest) = meter_rest(alloc, &graph, Used, cap) else {
        return Err(SetterFault::NoMemory);
    };
    let above = Above { rest, over };
    over_from::<Least, MeterRest<Used>, Brand>(alloc, &graph, &above, room, Blank::new(1))
}

/// The best chain of the graph of two ways, by bounds that fall.
fn best_falling(alloc: Global, cap: u32) -> Result<Option<Traced>, Memory> {
    let graph = two_ways(alloc, cap)?;
    let rest = meter_rest(alloc, &graph, Used, cap)?;
    falling_from::<Least, MeterRest<Used>, Brand>(alloc, &graph, rest, Blank::new(1))
}

fn is_trace(answer: &Option<Traced>, gain: i64, arcs: &[u32]) -> bool {
    match answer {
        Some(traced) => traced.gain == gain && traced.arcs.as_slice() == arcs,
        None => false,
    }
}

#[test]
fn traces_arcs(rt: HostRuntime) {
    let alloc = rt.alloc();
    let graph = two_ways(alloc, 4).expect(&rt, "memory");
    assert!(rt; matches!(found(alloc, &graph, 1).traced, Err(SetterFault::Room(1))));
    assert!(rt;
        is_trace(
            &found(alloc, &graph, 4).traced.expect(&rt, "room"),
            7,
            &[0, 1]
        )
    );
}

#[test]
fn meters_what_may_still_be_gained(rt: HostRuntime) {
    let alloc = rt.alloc();
    assert!(rt; most_from_the_source(alloc, 3).expect(&rt, "memory") == 5);
    assert!(rt; most_from_the_source(alloc, 4).expect(&rt, "memory") == 7);
}

#[test]
fn finds_what_comes_above(rt: HostRuntime) {
    let alloc = rt.alloc();
    assert!(rt; is_trace(&best_over(alloc, 4, 6, 4).expect(&rt, "room"), 7, &[0, 1]));
    assert!(rt; is_trace(&best_over(alloc, 3, -9, 4).expect(&rt, "room"), 5, &[2]));
    assert!(rt; best_over(alloc, 4, 7, 1).expect(&rt, "room").is_none());
    assert!(rt; matches!(best_over(alloc, 4, 6, 1), Err(SetterFault::Room(1))));
}

#[test]
fn falls_to_the_best(rt: HostRuntime) {
    let alloc = rt.alloc();
    assert!(rt; is_trace(&best_falling(alloc, 4).expect(&rt, "memory"), 7, &[0, 1]));
    assert!(rt; is_trace(&best_falling(alloc, 3).expect(&rt, "memory"), 5, &[2]));
    assert!(rt; best_falling(alloc, 0).expect(&rt, "memory").is_none());
}
