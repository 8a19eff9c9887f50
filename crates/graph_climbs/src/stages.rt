//! Climbs by tables of what chains of a graph that passes and takes may still gain.

ghost use Rattle.std.specs.Prelude.{◌≡◌, ◌+◌, ◌<◌, ◌≤◌, ◌^◌, ℕ, ℤ, List, Some, IfNone, IfOk, IfSome, neg_ℤ, pos, slice_get};
ghost use Rattle.std.specs.Int.Signed.{◌<ℤ◌};
ghost use Rattle.label_setter.specs.Chains.{IsFeasible};
ghost use Rattle.label_setter.specs.declared.graph.Arc.{Arc};
ghost use Rattle.chain_search.specs.Bounds.{IsBound};
ghost use Rattle.chain_search.specs.Climbs.{Climbs, NoneAbove, raised_to};
ghost use Rattle.chain_search.specs.Lastings.{lasting as lasting_bound};
ghost use Rattle.chain_search.specs.Leavings.{AreWays};
ghost use Rattle.chain_search.specs.Orders.{IsOrder};
ghost use Rattle.graph_climbs.specs.Parts.{PartsStepOf, parts_done, parts_extend};
ghost use Rattle.graph_climbs.specs.Climbs.{IsClimb, later, merged};

use crate::search::best_chain;
use crate::telling::telling_groups;
use chain_search::{
    Bits, Climb, Coarse, Due, Ended, First, FreeRest, Held, Lasting, LeastRest, Order, Paused,
    Room, Second, Ways, asks_for_blocks, climb_above, coarse_rest, follows, free_rest,
    lasting_rest, least_rest,
};
use duty_calendar::Memory;
use label_lattice::{Mask, MaskEnd, Pair, Resource, Span, Steps};
use label_setter::{Above, Graph, Rest, Traced};
use std::alloc::Global;
use std::sync::ledger::Ledger;

/// Less than any chain of a month gains, and more than what tables hold for chains that can't be.
pub const LOWEST: i64 = -576_460_752_303_423_488;

/// Tables tell credit apart by hours, whatever the lens rounds to.
const HOUR: u32 = 60;

/// How many groups of bits the table of the first stage tells apart, and how many steps its climb has at most. Few serve most
/// lines; a table of more takes longer to make, and so does one of free hours.
const FIRST: (u32, u64) = (7, 5_000);

/// The same of the stages behind it, but for the last.
const STAGES: [(u32, u64); 1] = [(11, 50_000)];

/// The groups of the last stage, whose climb has all steps that are left.
const LAST_BITS: u32 = 14;

/// The steps of a climb to a heaviest chain. Where they do not suffice, labels do. Since each chain takes a step, no such
/// climb finds more chains.
pub const MOST_STEPS: u64 = 20_000_000;

/// What a climb looks for: so many chains, the first of which gains more than this, in so many steps.
#[derive(Clone, Copy)]
struct Target {
    over: i64,
    chains: u64,
    limit: u64,
}

impl Target {
    /// What is looked for once there is a chain, in so many steps.
    fn raised(&self, best: &Option<Traced>, limit: u64) -> Target
        ensures over { result.over ≡ raised_to best.now self.now.over }
        ensures chains { result.chains ≡ self.now.chains }
        ensures limit { result.limit ≡ limit }
    {
        match best {
            Some(traced) => Target {
                over: traced.gain,
                chains: self.chains,
                limit,
            },
            None => Target { limit, ..*self },
        }
    }
}

/// What tables tell apart: credit below its cap, and so many of the groups of bits.
#[derive(Clone, Copy)]
struct Tables<'a> {
    groups: &'a [u64],
    bits: u32,
    cap: u32,
}

/// A climb by the least of four bounds: by three views, and by one that is a bound of the graph. Where one of the views
/// does not follow the graph, by that one alone.
fn climb_by_views<R, O, A, B, C, D, L>(
    alloc: Global,
    graph: &Graph<R>,
    ways: &Ways,
    order: &O,
    views: (A, B, C),
    rest: D,
    target: &Target,
    steps: &mut Steps<L>,
) -> Result<Climb, Memory>
where
    R: Resource,
    O: Order<R>,
    A: Coarse<R> + Drop,
    B: Coarse<R> + Drop,
    C: Coarse<R> + Drop,
    D: Rest<R> + Drop,
    L: Ledger,
    requires ways { AreWays graph.now.arcs graph.now.places ways.now }
    requires order { IsOrder R.extend R.done graph.now (O.spares order.now) }
    requires rest { IsBound R.extend R.done graph.now (D.rest rest) }
    requires some { 0 < target.now.chains }
    ensures climb { IfOk result (IsClimb R.extend R.done graph.now target.now steps.old steps.new) }
    ensures steps { steps.new ≤ steps.old + target.now.limit }
{
    let (first, second, third) = views;
    let (over, chains, limit) = (target.over, target.chains, target.limit);
    if !follows(graph, &first) || !follows(graph, &second) || !follows(graph, &third) {
        let above = Above { rest, over };
        return climb_above(alloc, graph, ways, order, above, chains, limit, steps);
    }
    let first = coarse_rest(alloc, graph, ways, first)?;
    let second = coarse_rest(alloc, graph, ways, second)?;
    let third = coarse_rest(alloc, graph, ways, third)?;
    let both = least_rest(graph, first, second);
    let three = least_rest(graph, both, third);
    let rest = least_rest(graph, three, rest);
    let above = Above { rest, over };
    climb_above(alloc, graph, ways, order, above, chains, limit, steps)
}

/// The views of a stage: the credit that is left, the credit that is due, and so many groups of bids.
fn views_of(
    alloc: Global,
    tables: &Tables<'_>,
    low: u32,
    end: &MaskEnd,
) -> Result<(First<Room>, First<Due>, Second<First<Bits>>), Memory> {
    let (groups, cap) = (tables.groups, tables.cap);
    let room = First {
        view: Room { cap, unit: HOUR },
    };
    let due = First {
        view: Due { low, unit: HOUR },
    };
    let count = groups.len().min(tables.bits as usize);
    let view = Bits::new(alloc, &groups[..count], end)?;
    let bits = Second {
        view: First { view },
    };
    Ok((room, due, bits))
}

/// A climb by the credit that is left, the credit that is due, so many groups of bids, and a bound of the graph.
fn climb_by_tables<B, O, D, L>(
    alloc: Global,
    graph: &Graph<Pair<Span, Pair<Mask, B>>>,
    ways: &Ways,
    order: &O,
    tables: &Tables<'_>,
    rest: D,
    target: &Target,
    steps: &mut Steps<L>,
) -> Result<Climb, Memory>
where
    B: Resource,
    O: Order<Pair<Span, Pair<Mask, B>>>,
    D: Rest<Pair<Span, Pair<Mask, B>>> + Drop,
    L: Ledger,
    requires ways { AreWays graph.now.arcs graph.now.places ways.now }
    requires order { IsOrder (parts_extend B.extend) (parts_done B.done) graph.now
        (O.spares order.now) }
    requires rest { IsBound (parts_extend B.extend) (parts_done B.done) graph.now (D.rest rest) }
    requires some { 0 < target.now.chains }
    ensures climb { IfOk result (IsClimb (parts_extend B.extend) (parts_done B.done) graph.now
        target.now steps.old steps.new) }
    ensures steps { steps.new ≤ steps.old + target.now.limit }
{
    let end = graph.end();
    let views = views_of(alloc, tables, end.0.low, &end.1.0)?;
    climb_by_views(alloc, graph, ways, order, views, rest, target, steps)
}

/// The chain that was found last.
fn later(best: Option<Traced>, found: Option<Traced>) -> Option<Traced>
    ensures later { result ≡ later best found }
{
    match found {
        Some(traced) => Some(traced),
        None => best,
    }
}

/// A climb that began at the gain of the best chain before it.
fn merged(best: Option<Traced>, climb: Climb) -> Climb
    ensures merged { result ≡ merged best climb }
{
    Climb {
        best: later(best, climb.best),
        ended: climb.ended,
    }
}

/// A climb by the stages behind the first, each with a table that tells more groups of bits apart, up to those of the tables, and by a
/// bound of the graph. It has so many steps in all of them together.
fn climb_from<B, O, D, L>(
    alloc: Global,
    graph: &Graph<Pair<Span, Pair<Mask, B>>>,
    ways: &Ways,
    order: &O,
    rest: &D,
    tables: &Tables<'_>,
    target: &Target,
    steps: &mut Steps<L>,
) -> Result<Climb, Memory>
where
    B: Resource,
    O: Order<Pair<Span, Pair<Mask, B>>>,
    D: Rest<Pair<Span, Pair<Mask, B>>>,
    L: Ledger,
    requires ways { AreWays graph.now.arcs graph.now.places ways.now }
    requires rest { IsBound (parts_extend B.extend) (parts_done B.done) graph.now (D.rest rest.now) }
    requires order { IsOrder (parts_extend B.extend) (parts_done B.done) graph.now
        (O.spares order.now) }
    requires some { 0 < target.now.chains }
    ensures climb { IfOk result (IsClimb (parts_extend B.extend) (parts_done B.done) graph.now
        target.now steps.old steps.new) }
    ensures steps { steps.new ≤ steps.old + target.now.limit }
{
    let mut best: Option<Traced> = None;
    let mut left = target.limit;
    for (bits, most) in STAGES {
        let share = most.min(left);
        let aim = target.raised(&best, share);
        let climb = climb_by_tables::<B, O, Held<'_, D>, L>(
            alloc,
            graph,
            ways,
            order,
            &Tables { bits, ..*tables },
            Held { inner: rest },
            &aim,
            steps,
        )?;
        left -= share;
        let climb = merged(best, climb);
        if climb.ended != Ended::Limit || left == 0 {
            return Ok(climb);
        }
        best = climb.best;
    }
    let aim = target.raised(&best, left);
    let climb = climb_by_tables::<B, O, Held<'_, D>, L>(
        alloc,
        graph,
        ways,
        order,
        tables,
        Held { inner: rest },
        &aim,
        steps,
    )?;
    Ok(merged(best, climb))
}

/// A climb by the stages behind the first, by the bids that are lost and, where arcs ask for one, by the last free block.
fn climb_by_blocks<B, O, L>(
    alloc: Global,
    graph: &Graph<Pair<Span, Pair<Mask, B>>>,
    ways: &Ways,
    order: &O,
    lasting: Lasting,
    tables: &Tables<'_>,
    target: &Target,
    steps: &mut Steps<L>,
) -> Result<Climb, Memory>
where
    B: Paused,
    O: Order<Pair<Span, Pair<Mask, B>>>,
    L: Ledger,
    requires ways { AreWays graph.now.arcs graph.now.places ways.now }
    requires rest { IsBound (parts_extend B.extend) (parts_done B.done) graph.now (lasting_bound lasting) }
    requires order { IsOrder (parts_extend B.extend) (parts_done B.done) graph.now
        (O.spares order.now) }
    requires some { 0 < target.now.chains }
    ensures climb { IfOk result (IsClimb (parts_extend B.extend) (parts_done B.done) graph.now
        target.now steps.old steps.new) }
    ensures steps { steps.new ≤ steps.old + target.now.limit }
{
    if !asks_for_blocks::<Span, Mask, B>(graph) {
        return climb_from::<B, O, Lasting, L>(
            alloc, graph, ways, order, &lasting, tables, target, steps,
        );
    }
    let free = free_rest::<Span, Mask, B>(alloc, graph)?;
    let rest = least_rest(graph, lasting, free);
    climb_from::<B, O, LeastRest<Lasting, FreeRest>, L>(
        alloc, graph, ways, order, &rest, tables, target, steps,
    )
}

/// A climb by stages, each with tables that tell more apart; that of free hours is made behind the first. It has so many steps in
/// all stages together.
pub fn climb_by_stages<B, O, L>(
    alloc: Global,
    graph: &Graph<Pair<Span, Pair<Mask, B>>>,
    order: &O,
    cap: u32,
    over: i64,
    chains: u64,
    limit: u64,
    steps: &mut Steps<L>,
) -> Result<Climb, Memory>
where
    B: Paused,
    O: Order<Pair<Span, Pair<Mask, B>>>,
    L: Ledger,
    requires order { IsOrder (parts_extend B.extend) (parts_done B.done) graph.now
        (O.spares order.now) }
    requires some { 0 < chains }
    ensures climbs { IfOk result (Climbs (parts_extend B.extend) (parts_done B.done) graph.now
        over) }
    ensures enough { IfOk result (λ climb. climb.ended ≡ Ended.Enough
        → steps.old + chains ≤ steps.new) }
    ensures limit { IfOk result (λ climb. climb.ended ≡ Ended.Limit
        → steps.new ≡ steps.old + limit) }
    ensures onward { IfOk result (λ climb. steps.old ≤ steps.new) }
    ensures steps { steps.new ≤ steps.old + limit }
{
    let ways = Ways::new(alloc, graph)?;
    let start = graph.start().second.first.bits;
    let groups = telling_groups::<B::Step>(alloc, graph.arcs(), start, &graph.end().1.0)?;
    let lasting = lasting_rest(alloc, graph, &ways)?;
    let (bits, most) = FIRST;
    let share = most.min(limit);
    let groups = groups.as_slice();
    let climb = climb_by_tables::<B, O, Held<'_, Lasting>, L>(
        alloc,
        graph,
        &ways,
        order,
        &Tables { groups, bits, cap },
        Held { inner: &lasting },
        &Target {
            over,
            chains,
            limit: share,
        },
        steps,
    )?;
    let left = limit - share;
    if climb.ended != Ended::Limit || left == 0 {
        return Ok(climb);
    }
    let best = climb.best;
    let target = Target {
        over,
        chains,
        limit,
    };
    let aim = target.raised(&best, left);
    let bits = LAST_BITS;
    let tables = Tables { groups, bits, cap };
    let climb = climb_by_blocks::<B, O, L>(
        alloc, graph, &ways, order, lasting, &tables, &aim, steps,
    )?;
    Ok(merged(best, climb))
}

/// The greatest gain of a feasible chain, with its arcs, or nothing where no chain is feasible. Where searches above
/// bounds do not suffice, labels do.
pub fn heaviest_chain<B, O, L>(
    alloc: Global,
    graph: &Graph<Pair<Span, Pair<Mask, B>>>,
    order: &O,
    cap: u32,
    pairings: u32,
    steps: &mut Steps<L>,
) -> Result<Option<Traced>, Memory>
where
    B: Paused,
    O: Order<Pair<Span, Pair<Mask, B>>>,
    L: Ledger,
    requires order { IsOrder (parts_extend B.extend) (parts_done B.done) graph.now
        (O.spares order.now) }
    requires caps { (number : ℕ) (arc : Arc (PartsStepOf B.Step))
        → slice_get graph.now.arcs number ≡ Some arc → arc.step.0.cap ≡ cap }
    requires heavy { (chain : List ℕ) (gain : ℤ)
        → IsFeasible (parts_extend B.extend) (parts_done B.done) graph.now chain gain
        → neg_ℤ (pos (2 ^ 59)) <ℤ gain }
    ensures attained { IfOk result (λ answer. IfSome answer
        (λ traced. IsFeasible (parts_extend B.extend) (parts_done B.done) graph.now traced.arcs
        traced.gain)) }
    ensures greatest { IfOk result (λ answer. IfSome answer
        (λ traced. NoneAbove (parts_extend B.extend) (parts_done B.done) graph.now traced.gain)) }
    ensures none { IfOk result (λ answer. IfNone answer
        ((chain : List ℕ) (gain : ℤ)
        → IsFeasible (parts_extend B.extend) (parts_done B.done) graph.now chain gain → ⊥)) }
{
    let climb = climb_by_stages::<B, O, L>(
        alloc, graph, order, cap, LOWEST, MOST_STEPS, MOST_STEPS, steps,
    )?;
    if climb.ended == Ended::Top {
        return Ok(climb.best);
    }
    best_chain::<B, L>(alloc, graph, cap, pairings, steps)
}
