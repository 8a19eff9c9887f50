//! Chains that gain more than a bound, or that there are none.

ghost use Rattle.std.specs.Prelude.{◌≡◌, ◌+◌, ◌<◌, ◌≤◌, ◌++◌, ◌∷◌, ◌&&◌, [], IfNone, IfOk, IfSome, Ok, OnOk, int_lt, length, take};
ghost use Rattle.std.specs.Int.Signed.{◌<ℤ◌};
ghost use Rattle.label_setter.specs.Chains.{IsFeasible};
ghost use Rattle.chain_search.specs.Bounds.{IsBound};
ghost use Rattle.chain_search.specs.Climbs.{Climbs};
ghost use Rattle.chain_search.specs.Leavings.{AreWays};
ghost use Rattle.chain_search.specs.Orders.{IsOrder};
ghost use Rattle.chain_search.specs.Searches.{Hunts};

use crate::marks::{Mark, Marks};
use crate::order::Order;
use crate::turns::{Label, Open, is_outgrown, spread};
use crate::ways::{Ways, sink_of};
use duty_calendar::{List, Memory};
use label_lattice::{Resource, Steps};
use label_setter::{Above, Graph, Rest, Traced};
use std::alloc::Global;
use std::sync::ledger::Ledger;

/// Why a climb ended.
#[derive(Clone, Copy, Debug, PartialEq, Eq)]
pub enum Ended {
    /// No feasible chain gains more than the best one, or than the bound where none was found.
    Top,
    /// As many chains were found as were wanted.
    Enough,
    /// The limit of steps was reached.
    Limit,
}

/// The best chain that a climb found, where it found one, and why it ended.
#[derive(Debug, Drop, PartialEq, Eq)]
pub struct Climb {
    pub best: Option<Traced>,
    pub ended: Ended,
}

/// What the turn of a label came to.
#[derive(Clone, Copy, PartialEq, Eq)]
enum Outcome {
    /// Its chain is above the bound.
    Comes,
    /// The labels that wait go on.
    Goes,
    /// The limit of steps was reached.
    Stops,
}

/// Where the search stands: the labels that wait, the arcs of the chain that it is at, the labels from which all ways
/// were tried, and the steps that are left.
#[derive(Drop)]
struct Walk<R: Resource> {
    waiting: Vec<Open<R>>,
    path: Vec<u32>,
    marks: Marks<R>,
    left: u64,
}

/// The label is done at the sink, and gains more than the bound.
fn ends_above<R: Resource, B>(graph: &Graph<R>, above: &Above<B>, next: &Open<R>) -> bool
    ensures ends { result ≡ (R.done next.now.resource graph.now.end && int_lt above.now.over
        next.now.gain) }
{
    next.resource.done(graph.end()) && above.over < next.gain
}

/// The label takes its turn.
fn turn<R: Resource, O: Order<R>, B: Rest<R>, L: Ledger>(
    graph: &Graph<R>,
    ways: &Ways,
    order: &O,
    above: &Above<B>,
    next: &Open<R>,
    walk: &mut Walk<R>,
    steps: &mut Steps<L>,
) -> Result<Outcome, Memory>
    requires ways { AreWays graph.now.arcs graph.now.places ways.now }
    requires order { IsOrder R.extend R.done graph.now (O.spares order.now) }
    requires rest { IsBound R.extend R.done graph.now (B.rest above.now.rest) }
    requires hunts { Hunts R.extend R.done graph.now above.now.over walk.old.path.items
        walk.old.marks (walk.old.waiting.items ++ next.now ∷ []) }
    ensures goes { result ≡ Ok Outcome.Goes → Hunts R.extend R.done graph.now above.now.over
        walk.new.path.items walk.new.marks walk.new.waiting.items }
    ensures rises { result ≡ Ok Outcome.Comes
        → Hunts R.extend R.done graph.now next.now.gain walk.new.path.items walk.new.marks
        walk.new.waiting.items }
    ensures comes { result ≡ Ok Outcome.Comes
        → IsFeasible R.extend R.done graph.now
        (take next.now.before walk.new.path.items ++ next.now.arc ∷ []) next.now.gain }
    ensures above { result ≡ Ok Outcome.Comes → above.now.over <ℤ next.now.gain }
    ensures along { result ≡ Ok Outcome.Comes → next.now.before ≤ length walk.new.path.items }
    ensures stops { result ≡ Ok Outcome.Stops → walk.new.left ≡ 0 }
    ensures smaller { OnOk result (walk.new.left + length walk.new.waiting.items
        ≤ walk.old.left + length walk.old.waiting.items) }
    ensures steps { steps.new + walk.new.left ≡ steps.old + walk.old.left }
{
    if is_outgrown(above, next) {
        return Ok(Outcome::Goes);
    }
    if next.place == sink_of(graph) {
        if !ends_above(graph, above, next) {
            return Ok(Outcome::Goes);
        }
        return Ok(Outcome::Comes);
    }
    let marks = &walk.marks;
    if marks.dispense(order, next.place, next.gain, &next.resource) {
        return Ok(Outcome::Goes);
    }
    let mark = Mark {
        gain: next.gain,
        resource: next.resource,
    };
    walk.marks.keep(next.place, mark)?;
    walk.path.truncate(next.before);
    walk.path.push(next.arc)?;
    let label = Label {
        before: walk.path.len(),
        place: next.place,
        gain: next.gain,
        resource: next.resource,
    };
    let leaving = ways.from(next.place);
    if spread(
        graph,
        leaving,
        above,
        &label,
        &mut walk.waiting,
        &mut walk.left,
        steps,
    )? {
        Ok(Outcome::Goes)
    } else {
        Ok(Outcome::Stops)
    }
}

/// The labels after the source wait; nothing where the steps did not suffice for them.
fn set_out<R: Resource, B: Rest<R>, L: Ledger>(
    alloc: Global,
    graph: &Graph<R>,
    ways: &Ways,
    above: &Above<B>,
    limit: u64,
    steps: &mut Steps<L>,
) -> Result<Option<Walk<R>>, Memory>
    requires ways { AreWays graph.now.arcs graph.now.places ways.now }
    requires rest { IsBound R.extend R.done graph.now (B.rest above.now.rest) }
    ensures hunts { IfOk result (λ answer. IfSome answer
        (λ walk. Hunts R.extend R.done graph.now above.now.over walk.path.items walk.marks
        walk.waiting.items)) }
    ensures few { IfOk result (λ answer. IfSome answer
        (λ walk. walk.left + length walk.waiting.items ≤ limit)) }
    ensures left { IfOk result (λ answer. IfSome answer
        (λ walk. steps.new + walk.left ≡ steps.old + limit)) }
    ensures out { IfOk result (λ answer. IfNone answer (steps.new ≡ steps.old + limit)) }
    ensures steps { steps.new ≤ steps.old + limit }
{
    let mut walk = Walk {
        waiting: Vec::new(alloc),
        path: Vec::new(alloc),
        marks: Marks::new(alloc, sink_of(graph))?,
        left: limit,
    };
    let label = Label {
        before: 0,
        place: 0,
        gain: 0,
        resource: graph.start(),
    };
    let leaving = ways.from(0);
    if !spread(
        graph,
        leaving,
        above,
        &label,
        &mut walk.waiting,
        &mut walk.left,
        steps,
    )? {
        return Ok(None);
    }
    Ok(Some(walk))
}

/// The chain of a label: the first arcs of the path, and its own.
fn chain_of<R>(alloc: Global, path: &[u32], next: &Open<R>) -> Result<Traced, Memory>
    requires along { next.now.before ≤ length path.now }
    ensures gain { IfOk result (λ traced. traced.gain ≡ next.now.gain) }
    ensures arcs { IfOk result (λ traced. traced.arcs
        ≡ take next.now.before path.now ++ next.now.arc ∷ []) }
{
    let mut arcs = Vec::new(alloc);
    arcs.extend_from_slice(&path[..next.before])?;
    arcs.push(next.arc)?;
    Ok(Traced {
        gain: next.gain,
        arcs: List::from_vec(arcs),
    })
}

/// Looks for so many feasible chains from the source to the sink, by their arcs, of which the first gains more than the
/// bound and each later one more than the one before. A label is let go where one at its place that took its turn, with
/// no less gain, spares it by the order. Each call of `extend` is one step. Where a step more than the limit were
/// needed, the climb ends with what it found.
pub fn climb_above<R: Resource, O: Order<R>, B: Rest<R> + Drop, L: Ledger>(
    alloc: Global,
    graph: &Graph<R>,
    ways: &Ways,
    order: &O,
    above: Above<B>,
    chains: u64,
    limit: u64,
    steps: &mut Steps<L>,
) -> Result<Climb, Memory>
    requires ways { AreWays graph.now.arcs graph.now.places ways.now }
    requires order { IsOrder R.extend R.done graph.now (O.spares order.now) }
    requires rest { IsBound R.extend R.done graph.now (B.rest above.rest) }
    requires some { 0 < chains }
    ensures climbs { IfOk result (Climbs R.extend R.done graph.now above.over) }
    ensures enough { IfOk result (λ climb. climb.ended ≡ Ended.Enough
        → steps.old + chains ≤ steps.new) }
    ensures limit { IfOk result (λ climb. climb.ended ≡ Ended.Limit
        → steps.new ≡ steps.old + limit) }
    ensures onward { IfOk result (λ climb. steps.old ≤ steps.new) }
    ensures steps { steps.new ≤ steps.old + limit }
{
    let mut above = above;
    let mut best: Option<Traced> = None;
    if above.rest.rest(0, &graph.start()) <= above.over {
        let ended = Ended::Top;
        return Ok(Climb { best, ended });
    }
    let Some(mut walk) = set_out(alloc, graph, ways, &above, limit, steps)? else {
        let ended = Ended::Limit;
        return Ok(Climb { best, ended });
    };
    let mut wanted = chains;
    while let Some(next) = walk.waiting.pop() {
        match turn(graph, ways, order, &above, &next, &mut walk, steps)? {
            Outcome::Goes => {}
            Outcome::Stops => {
                let ended = Ended::Limit;
                return Ok(Climb { best, ended });
            }
            Outcome::Comes => {
                above.over = next.gain;
                best = Some(chain_of(alloc, &walk.path, &next)?);
                wanted -= 1;
                if wanted == 0 {
                    let ended = Ended::Enough;
                    return Ok(Climb { best, ended });
                }
            }
        }
    }
    let ended = Ended::Top;
    Ok(Climb { best, ended })
}
