ghost use Rattle.std.specs.Prelude.{◌≡◌, ◌<◌, ◌≤ℤ◌, IfSome, neg_ℤ, pos, true};
ghost use Rattle.label_lattice.specs.Least.{least_below, least_extend};
ghost use Rattle.label_lattice.specs.Mask.{mask_done, mask_extend};
ghost use Rattle.label_lattice.specs.Pair.{pair_done, pair_extend};
ghost use Rattle.chain_search.specs.Orders.{IsOrder};

use chain_search::{
    Below, Bits, Blind, Chosen, Climb, Coarse, Due, Ended, Order, Room, Second, Ways, below_order,
    climb_above, coarse_rest, follows, least_rest,
};
use duty_calendar::Memory;
use label_lattice::{
    Lattice, Least, LeastStep, Mask, MaskEnd, MaskStep, Pair, Resource, Span, SpanEnd, SpanStep,
    Steps,
};
use label_setter::{Above, Graph};
use std::alloc::Global;
use std::marker::Brand;
use std::sync::ledger::{Blank, Ledger};

/// A way by two arcs, beside one arc of less gain and use.
fn two_ways(alloc: Global) -> Result<Graph<Least>, Memory> {
    let mut graph = Graph::new(alloc, 3, Least { value: 0 }, ())?;
    graph.arc(0, 1, 3, LeastStep { add: 2, cap: 4 })?;
    graph.arc(1, 2, 4, LeastStep { add: 2, cap: 4 })?;
    graph.arc(0, 2, 5, LeastStep { add: 1, cap: 4 })?;
    Ok(graph)
}

/// Two places of two hours each, to be taken or not, with room for three hours of which two are due.
fn hours(alloc: Global, gain: i64) -> Result<Graph<Span>, Memory>
    requires low { neg_ℤ (pos 10) ≤ℤ gain }
    requires high { gain ≤ℤ pos 10 }
{
    let take = SpanStep {
        down: 120,
        up: 120,
        cap: 180,
    };
    let pass = SpanStep {
        down: 0,
        up: 0,
        cap: 180,
    };
    let mut graph = Graph::new(alloc, 3, Span { down: 0, up: 0 }, SpanEnd { low: 120 })?;
    graph.arc(0, 1, gain, take)?;
    graph.arc(0, 1, 0, pass)?;
    graph.arc(1, 2, gain, take)?;
    graph.arc(1, 2, 0, pass)?;
    Ok(graph)
}

/// What bits weigh at the end: the sixth and the seventh together as much as is asked for.
fn bits_end() -> MaskEnd {
    let mut weights = [0; 64];
    weights[2] = 3;
    weights[5] = 6;
    weights[6] = 4;
    MaskEnd { weights, floor: 10 }
}

/// A way that clears the bits, and one that gains more and leaves them.
fn wishes(alloc: Global) -> Result<Graph<Pair<Least, Mask>>, Memory> {
    let start = Pair {
        first: Least { value: 0 },
        second: Mask { bits: 0b1100100 },
    };
    let step = LeastStep { add: 1, cap: 2 };
    let clear = MaskStep {
        clear: 0b1100000,
        set: 0b100,
    };
    let leave = MaskStep { clear: 0, set: 0 };
    let mut graph = Graph::new(alloc, 2, start, ((), bits_end()))?;
    graph.arc(0, 1, -5, (step, clear))?;
    graph.arc(0, 1, 2, (step, leave))?;
    Ok(graph)
}

/// A way that looks best and gains least, as its best arc has no room, and one that gains more.
fn rivals(alloc: Global) -> Result<Graph<Least>, Memory> {
    let mut graph = Graph::new(alloc, 4, Least { value: 0 }, ())?;
    graph.arc(0, 1, 1, LeastStep { add: 2, cap: 4 })?;
    graph.arc(1, 3, 9, LeastStep { add: 3, cap: 4 })?;
    graph.arc(1, 3, 2, LeastStep { add: 1, cap: 4 })?;
    graph.arc(0, 2, 4, LeastStep { add: 1, cap: 4 })?;
    graph.arc(2, 3, 1, LeastStep { add: 1, cap: 4 })?;
    Ok(graph)
}

/// Two ways that differ in a bit, each with a best arc that has no room, where the end asks nothing of bits.
fn twins(alloc: Global) -> Result<Graph<Pair<Least, Mask>>, Memory> {
    let start = Pair {
        first: Least { value: 0 },
        second: Mask { bits: 0 },
    };
    let end = MaskEnd {
        weights: [0; 64],
        floor: 0,
    };
    let one = LeastStep { add: 1, cap: 2 };
    let two = LeastStep { add: 2, cap: 2 };
    let leave = MaskStep { clear: 0, set: 0 };
    let mut graph = Graph::new(alloc, 3, start, ((), end))?;
    graph.arc(0, 1, 2, (one, MaskStep { clear: 0, set: 1 }))?;
    graph.arc(0, 1, 2, (one, MaskStep { clear: 0, set: 2 }))?;
    graph.arc(1, 2, 9, (two, leave))?;
    graph.arc(1, 2, 1, (one, leave))?;
    Ok(graph)
}

/// Less of the first part spares more of it, whatever the bits.
#[derive(Clone, Copy)]
struct WithoutBits;

impl Order<Pair<Least, Mask>> for WithoutBits {
    ghost spares = { λ order place a b. least_below a.first b.first };

    fn spares(&self, _place: u32, first: &Pair<Least, Mask>, second: &Pair<Least, Mask>) -> bool {
        first.first.below(&second.first)
    }
}

/// The order that sees no bits, where the end asks nothing of them.
fn without_bits(graph: &Graph<Pair<Least, Mask>>) -> Option<WithoutBits>
    ensures order { IfSome result (λ order. IsOrder
        (pair_extend least_extend mask_extend) (pair_done (λ _ _. true) mask_done)
        graph.now (λ place a b. least_below a.first b.first)) }
{
    if graph.end().1.floor > 0 {
        return None;
    }
    Some(WithoutBits)
}

/// A climb by an order and the bounds of two views; nothing where one of them does not follow the graph.
fn climbed_from<R, O, C, D, L>(
    alloc: Global,
    graph: &Graph<R>,
    order: &O,
    views: (C, D),
    over: i64,
    chains: u64,
    limit: u64,
    blank: Blank,
) -> Result<Option<Climb>, Memory>
where
    R: Resource,
    O: Order<R>,
    C: Coarse<R> + Drop,
    D: Coarse<R> + Drop,
    L: Ledger,
    requires order { IsOrder R.extend R.done graph.now (O.spares order.now) }
    requires wanted { 0 < chains }
    requires name { blank.name ≡ L.name }
    requires parts { blank.parts ≡ L.parts }
    requires some { 0 < blank.parts }
{
    let (first, second) = views;
    if !follows(graph, &first) || !follows(graph, &second) {
        return Ok(None);
    }
    let ways = Ways::new(alloc, graph)?;
    let first = coarse_rest(alloc, graph, &ways, first)?;
    let second = coarse_rest(alloc, graph, &ways, second)?;
    let rest = least_rest(graph, first, second);
    let above = Above { rest, over };
    let mut steps: Steps<L> = Steps::new(blank);
    let answer = climb_above(alloc, graph, &ways, order, above, chains, limit, &mut steps)?;
    Ok(Some(answer))
}

fn climbed<R: Resource, C: Coarse<R> + Drop, D: Coarse<R> + Drop>(
    alloc: Global,
    graph: &Graph<R>,
    views: (C, D),
    over: i64,
    chains: u64,
    limit: u64,
) -> Result<Option<Climb>, Memory>
    requires wanted { 0 < chains }
{
    let order = below_order(graph);
    climbed_from::<R, Below, C, D, Brand>(
        alloc,
        graph,
        &order,
        views,
        over,
        chains,
        limit,
        Blank::new(1),
    )
}

/// A climb for one chain.
fn found<R: Resource, C: Coarse<R> + Drop, D: Coarse<R> + Drop>(
    alloc: Global,
    graph: &Graph<R>,
    views: (C, D),
    over: i64,
    limit: u64,
) -> Result<Option<Climb>, Memory> {
    climbed(alloc, graph, views, over, 1, limit)
}

/// The climb ended so, and its best chain has this gain and these arcs.
fn is_chain(answer: &Option<Climb>, ended: Ended, gain: i64, arcs: &[u32]) -> bool {
    let Some(found) = answer else {
        return false;
    };
    let Some(traced) = &found.best else {
        return false;
    };
    found.ended == ended && traced.gain == gain && traced.arcs.as_slice() == arcs
}

/// The climb ended so, with no chain.
fn is_bare(answer: &Option<Climb>, ended: Ended) -> bool {
    let Some(found) = answer else {
        return false;
    };
    found.ended == ended && found.best.is_none()
}

/// The answer, with none for want of memory.
fn two_ways_over(alloc: Global, over: i64, limit: u64) -> Option<Climb> {
    let graph = two_ways(alloc).ok()?;
    found(alloc, &graph, (Blind, Blind), over, limit).ok()?
}

/// The answer, with none for want of memory.
fn rivals_over(alloc: Global, over: i64, chains: u64, limit: u64) -> Option<Climb>
    requires wanted { 0 < chains }
{
    let graph = rivals(alloc).ok()?;
    climbed(alloc, &graph, (Blind, Blind), over, chains, limit).ok()?
}

/// The answer by the order that sees no bits, with none for want of memory.
fn twins_without_bits(alloc: Global, limit: u64) -> Option<Climb> {
    let graph = twins(alloc).ok()?;
    let order = without_bits(&graph)?;
    let views = (Blind, Blind);
    climbed_from::<Pair<Least, Mask>, WithoutBits, Blind, Blind, Brand>(
        alloc,
        &graph,
        &order,
        views,
        0,
        10,
        limit,
        Blank::new(1),
    ).ok()?
}

/// The answer by what is below, with none for want of memory.
fn twins_by_below(alloc: Global, limit: u64) -> Option<Climb> {
    let graph = twins(alloc).ok()?;
    climbed(alloc, &graph, (Blind, Blind), 0, 10, limit).ok()?
}

#[test]
fn lets_go_what_the_order_spares(rt: HostRuntime) {
    let alloc = rt.alloc();
    assert!(rt; is_chain(&twins_without_bits(alloc, 4), Ended::Top, 3, &[0, 3]));
    assert!(rt; is_bare(&twins_without_bits(alloc, 3), Ended::Limit));
    assert!(rt; is_chain(&twins_by_below(alloc, 5), Ended::Limit, 3, &[0, 3]));
    assert!(rt; is_chain(&twins_by_below(alloc, 6), Ended::Top, 3, &[0, 3]));
}

#[test]
fn goes_on_above_the_chain_that_was_found(rt: HostRuntime) {
    let alloc = rt.alloc();
    let one = rivals_over(alloc, 2, 1, 100);
    let many = rivals_over(alloc, 2, 10, 100);
    assert!(rt; is_chain(&one, Ended::Enough, 3, &[0, 2]));
    assert!(rt; is_chain(&many, Ended::Top, 5, &[3, 4]));
    assert!(rt; is_bare(&rivals_over(alloc, 2, 10, 1), Ended::Limit));
    assert!(rt; is_chain(&rivals_over(alloc, 2, 10, 4), Ended::Limit, 3, &[0, 2]));
    assert!(rt; is_chain(&rivals_over(alloc, 3, 1, 100), Ended::Enough, 5, &[3, 4]));
    assert!(rt; is_bare(&rivals_over(alloc, 5, 10, 100), Ended::Top));
}

#[test]
fn finds_a_chain_where_one_is_above(rt: HostRuntime) {
    let alloc = rt.alloc();
    for over in -3..9i64 {
        let one = two_ways_over(alloc, over, 1);
        let two = two_ways_over(alloc, over, 2);
        let many = two_ways_over(alloc, over, 100);
        if over < 7 {
            assert!(rt; is_bare(&one, Ended::Limit) && is_bare(&two, Ended::Limit));
            assert!(rt; is_chain(&many, Ended::Enough, 7, &[0, 1]));
        } else {
            assert!(rt; is_bare(&one, Ended::Top) && is_bare(&two, Ended::Top));
            assert!(rt; is_bare(&many, Ended::Top));
        }
    }
}

#[test]
fn sees_how_much_room_is_left(rt: HostRuntime) {
    let alloc = rt.alloc();
    let graph = hours(alloc, 4).expect(&rt, "memory");
    let room = Room { cap: 180, unit: 60 };
    let seen = found(alloc, &graph, (room, Blind), 4, 0).expect(&rt, "memory");
    assert!(rt; is_bare(&seen, Ended::Top));
    let blind = found(alloc, &graph, (Blind, Blind), 4, 0).expect(&rt, "memory");
    assert!(rt; is_bare(&blind, Ended::Limit));
    let below = found(alloc, &graph, (Blind, room), 3, 10).expect(&rt, "memory");
    assert!(rt;
        is_chain(&below, Ended::Enough, 4, &[0, 3]) || is_chain(&below, Ended::Enough, 4, &[1, 2])
    );
    let odd = Room { cap: 180, unit: 50 };
    let seen = found(alloc, &graph, (odd, Blind), 4, 0).expect(&rt, "memory");
    assert!(rt; is_bare(&seen, Ended::Top));
    let more = Room { cap: 240, unit: 60 };
    assert!(rt;
        found(alloc, &graph, (more, Blind), 3, 10)
            .expect(&rt, "memory")
            .is_none()
    );
}

#[test]
fn sees_how_much_is_due(rt: HostRuntime) {
    let alloc = rt.alloc();
    let graph = hours(alloc, -3).expect(&rt, "memory");
    let due = Due { low: 120, unit: 60 };
    let seen = found(alloc, &graph, (due, Blind), -3, 0).expect(&rt, "memory");
    assert!(rt; is_bare(&seen, Ended::Top));
    let blind = found(alloc, &graph, (Blind, Blind), -3, 0).expect(&rt, "memory");
    assert!(rt; is_bare(&blind, Ended::Limit));
    let more = Due { low: 180, unit: 60 };
    assert!(rt;
        found(alloc, &graph, (more, Blind), -3, 0)
            .expect(&rt, "memory")
            .is_none()
    );
}

/// The search for a chain above the gain, by what these groups of bits tell.
fn found_by_groups(alloc: Global, groups: &[u64], over: i64, limit: u64) -> Option<Climb> {
    let graph = wishes(alloc).ok()?;
    let view = Second {
        view: Bits::new(alloc, groups, &bits_end()).ok()?,
    };
    found(alloc, &graph, (view, Blind), over, limit).ok()?
}

#[test]
fn sees_which_bits_are_to_be_cleared(rt: HostRuntime) {
    let alloc = rt.alloc();
    let both = found_by_groups(alloc, &[0b1100000, 0b1], -5, 0);
    assert!(rt; is_bare(&both, Ended::Top));
    let each = found_by_groups(alloc, &[0b100000, 0b100, 0b1000000], -5, 0);
    assert!(rt; is_bare(&each, Ended::Top));
    let none = found_by_groups(alloc, &[0b11], -5, 0);
    assert!(rt; is_bare(&none, Ended::Limit));
    let below = found_by_groups(alloc, &[0b1100000, 0b1], -6, 10);
    assert!(rt; is_chain(&below, Ended::Enough, -5, &[0]));
}

#[test]
fn follows_steps_that_treat_the_bits_of_a_group_alike(rt: HostRuntime) {
    let alloc = rt.alloc();
    assert!(rt; found_by_groups(alloc, &[0b100100], -6, 10).is_none());
    assert!(rt; found_by_groups(alloc, &[0b1100001], -6, 10).is_none());
    let overlap = found_by_groups(alloc, &[0b1100000, 0b1000100], -5, 0);
    assert!(rt; is_bare(&overlap, Ended::Top));
}

/// The groups that are chosen of these are those.
fn chooses(alloc: Global, groups: &[u64], chosen: &[Chosen]) -> bool {
    let Ok(bits) = Bits::new(alloc, groups, &bits_end()) else {
        return false;
    };
    bits.chosen.as_slice() == chosen
}

#[test]
fn chooses_groups_that_share_no_bit(rt: HostRuntime) {
    let alloc = rt.alloc();
    let both = Chosen {
        bits: 0b1100000,
        weight: 10,
    };
    let left = Chosen {
        bits: 0b101,
        weight: 3,
    };
    assert!(rt; chooses(alloc, &[0b1100000, 0b1000101], &[both, left]));
    let bare = Chosen { bits: 0, weight: 0 };
    assert!(rt; chooses(alloc, &[0b1100000, 0b100000], &[both, bare]));
    let mut many = [0; 16];
    many[14] = 0b1;
    assert!(rt; chooses(alloc, &many, &[bare; 14]));
}

#[test]
fn shows_a_group_where_all_its_bits_are_set(rt: HostRuntime) {
    let alloc = rt.alloc();
    let view = Bits::new(alloc, &[0b1100000, 0b1], &bits_end()).expect(&rt, "memory");
    assert!(rt; view.shows(&Mask { bits: 0b1100000 }) == 1);
    assert!(rt; view.shows(&Mask { bits: 0b1100001 }) == 3);
    assert!(rt; view.shows(&Mask { bits: 0b100001 }) == 2);
}
