//! The graph that counts.
ghost use Rattle.std.specs.Prelude.{◌≡◌, ◌<◌, ℕ, ℤ, List, Some, IfOk, length, slice_get};
ghost use Rattle.label_setter.specs.declared.graph.Arc.{Arc};
ghost use Rattle.roster_model.specs.declared.node.Decision.{Decision};
ghost use Rattle.roster_model.specs.declared.proof.Lens.{Lens as LensOf};
ghost use Rattle.take_graphs.specs.ArcLines.{StandsByArcs};
ghost use Rattle.count_graphs.specs.Counts.{AreCounted, amounts_of, uncounted};
ghost use Rattle.graph_climbs.specs.Parts.{PartsStepOf, parts_done, parts_extend};
ghost use Rattle.count_graphs.specs.CountLabels.{CountStepOf, count_done, count_extend};
ghost use Rattle.count_graphs.specs.CountGraphs.{IsCountGraph, counted_arc, counted_arcs};

use crate::amounts::{amounts_of, wanted_of};
use crate::slots::slots_of;
use duty_calendar::Memory;
use label_lattice::{Mask, MaskStep, Pair, Resource, Span, SpanStep, Tally, TallyStep};
use label_setter::{Arc, Graph};
use lens_classes::Terms;
use roster_model::Problem;
use std::alloc::Global;

/// Credit, bids, how many pairings of each kind are still wanted, and whatever else a label holds.
pub type CountLabel<B> = Pair<Span, Pair<Mask, Pair<Tally<8>, B>>>;

/// The terms without what they count.
pub fn uncounted(terms: &Terms) -> Terms
    ensures uncounted { result ≡ uncounted terms.now }
{
    Terms {
        low: terms.low,
        high: terms.high,
        days_off: terms.days_off,
        floor: terms.floor,
        asked: terms.asked,
        counted: 0,
    }
}

/// The arc, with these amounts in its step.
fn counted_arc<S: Copy>(
    arc: &Arc<(SpanStep, (MaskStep, S))>,
    amounts: [u32; 8],
) -> Arc<(SpanStep, (MaskStep, (TallyStep<8>, S)))>
    ensures arc { result ≡ counted_arc amounts arc.now }
{
    let (credit, (bids, rest)) = arc.step;
    Arc {
        from: arc.from,
        to: arc.to,
        gain: arc.gain,
        step: (credit, (bids, (TallyStep { amounts }, rest))),
    }
}

/// The arcs, with what each counts by the pairing that it adds.
fn counted_arcs<S: Copy>(
    alloc: Global,
    problem: &Problem,
    member: u32,
    slots: &[u32; 8],
    adds: &[u32],
    arcs: &[Arc<(SpanStep, (MaskStep, S))>],
) -> Result<Vec<Arc<(SpanStep, (MaskStep, (TallyStep<8>, S)))>>, Memory>
    requires member { member < length problem.now.base.members }
    requires per_arc { length adds.now ≡ length arcs.now }
    ensures arcs { IfOk result (λ list. list.items
        ≡ counted_arcs (amounts_of problem.now member slots.now) adds.now arcs.now) }
{
    let mut counted = Vec::new(alloc);
    for k in 0..arcs.len() {
        let amounts = amounts_of(problem, member, slots, adds[k]);
        counted.push(counted_arc(&arcs[k], amounts))?;
    }
    Ok(counted)
}

/// The graph whose chains are those of the graph that have what the terms count. `adds` has for each arc the number of
/// the pairing that it adds, or that of the pairings.
pub fn count_graph<B: Resource>(
    alloc: Global,
    problem: &Problem,
    member: u32,
    terms: &Terms,
    graph: &Graph<Pair<Span, Pair<Mask, B>>>,
    adds: &[u32],
) -> Result<Graph<CountLabel<B>>, Memory>
    requires member { member < length problem.now.base.members }
    requires counted { AreCounted problem.now member terms.now }
    requires per_arc { length adds.now ≡ length graph.now.arcs }
    ensures drawn { IfOk result (IsCountGraph problem.now member terms.now graph.now adds.now) }
    ensures stands { IfOk result (λ g. (node : List Decision) (lens : LensOf) (weights : List ℤ)
        → StandsByArcs (parts_extend B.extend) (parts_done B.done) graph.now adds.now problem.now
        member node lens (uncounted terms.now) weights
        → StandsByArcs (count_extend B.extend) (count_done B.done) g adds.now problem.now member
        node lens terms.now weights) }
    ensures caps { IfOk result (λ g. (cap : ℕ)
        → ((number : ℕ) (arc : Arc (PartsStepOf B.Step)) → slice_get graph.now.arcs number
        ≡ Some arc → arc.step.0.cap ≡ cap) → (number : ℕ) (arc : Arc (CountStepOf B.Step))
        → slice_get g.arcs number ≡ Some arc → arc.step.0.cap ≡ cap) }
{
    let slots = slots_of(terms);
    let arcs = counted_arcs::<B::Step>(alloc, problem, member, &slots, adds, graph.arcs())?;
    let wanted = wanted_of(problem, member, &slots);
    let start = graph.start();
    let (credit, (bids, rest)) = *graph.end();
    let begin = Pair {
        first: start.first,
        second: Pair {
            first: start.second.first,
            second: Pair {
                first: Tally { wanted },
                second: start.second.second,
            },
        },
    };
    Ok(Graph::from_arcs(graph.places(), begin, (credit, (bids, ((), rest))), arcs))
}
