//! The best chain of a graph that passes and takes, by what may still be gained with the credit that a label has.

ghost use Rattle.std.specs.Prelude.{◌≡◌, ◌+◌, ◌*◌, ◌<◌, ◌≤◌, ◌≤ℤ◌, ℕ, ℤ, List, Some, IfNone, IfOk, IfSome, length, slice_get};
ghost use Rattle.label_setter.specs.Chains.{FewApart, IsFeasible};
ghost use Rattle.label_setter.specs.declared.graph.Arc.{Arc};
ghost use Rattle.graph_climbs.specs.Parts.{PartsStepOf, parts_done, parts_extend, parts_below};

use duty_calendar::Memory;
use label_lattice::{Mask, MaskStep, Pair, Resource, Span, SpanStep, Steps};
use label_setter::{Graph, Meter, Traced, meter_rest, set_labels_falling, trace_labels};
use std::alloc::Global;
use std::sync::ledger::Ledger;

/// With fewer pairings one pass is enough.
const FEW: u32 = 12;

/// The credit that a label has and that a step adds.
#[derive(Clone, Copy)]
struct Credit;

impl<B: Resource> Meter<Pair<Span, Pair<Mask, B>>> for Credit {
    ghost shows = { λ _ label. label.first.down };

    ghost adds = { λ _ step. step.0.down };

    fn shows(&self, resource: &Pair<Span, Pair<Mask, B>>) -> u32 {
        resource.first.down
    }

    fn adds(&self, step: &(SpanStep, (MaskStep, B::Step))) -> u32 {
        step.0.down
    }
}

/// The greatest gain of a feasible chain, with its arcs, or nothing where no chain is feasible.
pub fn best_chain<B: Resource, L: Ledger>(
    alloc: Global,
    graph: &Graph<Pair<Span, Pair<Mask, B>>>,
    cap: u32,
    pairings: u32,
    steps: &mut Steps<L>,
) -> Result<Option<Traced>, Memory>
    requires caps { (number : ℕ) (arc : Arc (PartsStepOf B.Step))
        → slice_get graph.now.arcs number ≡ Some arc → arc.step.0.cap ≡ cap }
    ensures attained { IfOk result (λ answer. IfSome answer
        (λ traced. IsFeasible (parts_extend B.extend) (parts_done B.done) graph.now traced.arcs traced.gain)) }
    ensures greatest { IfOk result (λ answer. IfSome answer
        (λ traced. (chain : List ℕ) (gain : ℤ)
        → IsFeasible (parts_extend B.extend) (parts_done B.done) graph.now chain gain → gain ≤ℤ traced.gain)) }
    ensures none { IfOk result (λ answer. IfNone answer
        ((chain : List ℕ) (gain : ℤ) → IsFeasible (parts_extend B.extend) (parts_done B.done) graph.now chain gain → ⊥)) }
    ensures steps { (most : ℕ) → FewApart (parts_below B.below) (parts_extend B.extend) graph.now.start graph.now.arcs most
        → steps.new ≤ steps.old + 6 * (most * length graph.now.arcs) }
    ensures once { pairings < 12 → (most : ℕ)
        → FewApart (parts_below B.below) (parts_extend B.extend) graph.now.start graph.now.arcs most
        → steps.new ≤ steps.old + most * length graph.now.arcs }
{
    if pairings < FEW {
        return trace_labels(alloc, graph, steps);
    }
    let rest = meter_rest(alloc, graph, Credit, cap)?;
    set_labels_falling(alloc, graph, rest, steps)
}
