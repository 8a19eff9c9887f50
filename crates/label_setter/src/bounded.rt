//! The best feasible chain above a bound, and under bounds that fall.

ghost use Rattle.std.specs.Prelude.{◌≡◌, ◌+◌, ◌≤◌, ◌*◌, ◌≤ℤ◌, ℕ, ℤ, IfNone, IfOk, IfSome, IsErrOf, List, length};
ghost use Rattle.std.specs.Int.Signed.{◌<ℤ◌};
ghost use Rattle.label_setter.specs.Chains.{Crowd, FewApart, IsFeasible};
ghost use Rattle.label_setter.specs.Rests.{IsRest, only_above};

use crate::graph::Graph;
use crate::labels::Stop;
use crate::setter::SetterFault;
use crate::sieve::{Above, Rest};
use crate::traces::{Traced, best_chain, trace_labels};
use duty_calendar::Memory;
use label_lattice::{Resource, Steps};
use std::alloc::Global;
use std::sync::ledger::Ledger;

/// The answer, where its gain is above the bound.
fn only_above<B>(answer: Option<Traced>, above: &Above<B>) -> Option<Traced>
    ensures only { result ≡ only_above answer above.now.over }
{
    match answer {
        Some(traced) if above.over < traced.gain => Some(traced),
        _ => None,
    }
}

/// The greatest gain of a feasible chain, where it is above a bound, with the arcs of such a chain; or nothing where no
/// feasible chain gains more than the bound. Labels that cannot come above it are not kept.
pub fn set_labels_over<R: Resource, B: Rest<R>, L: Ledger>(
    alloc: Global,
    graph: &Graph<R>,
    above: &Above<B>,
    room: u32,
    steps: &mut Steps<L>,
) -> Result<Option<Traced>, SetterFault>
    requires rest { IsRest R.extend R.done graph.now (B.rest above.now.rest) }
    ensures attained { IfOk result (λ answer. IfSome answer
        (λ traced. IsFeasible R.extend R.done graph.now traced.arcs traced.gain)) }
    ensures above { IfOk result (λ answer. IfSome answer
        (λ traced. above.now.over <ℤ traced.gain)) }
    ensures greatest { IfOk result (λ answer. IfSome answer
        (λ traced. (chain : List ℕ) (gain : ℤ) → IsFeasible R.extend R.done graph.now chain gain
        → gain ≤ℤ traced.gain)) }
    ensures none { IfOk result (λ answer. IfNone answer
        ((chain : List ℕ) (gain : ℤ) → IsFeasible R.extend R.done graph.now chain gain
        → gain ≤ℤ above.now.over)) }
    ensures room { (n : ℕ) → IsErrOf result (SetterFault.Room n) → n ≡ room }
    ensures crowd { (n : ℕ) → IsErrOf result (SetterFault.Room n)
        → Crowd R.below R.extend graph.now.start graph.now.arcs (n + 1) }
    ensures steps { (most : ℕ) → FewApart R.below R.extend graph.now.start graph.now.arcs most
        → steps.new ≤ steps.old + most * length graph.now.arcs }
{
    match best_chain(alloc, graph, above, Some(room), steps) {
        Ok(answer) => Ok(only_above(answer, above)),
        Err(Stop::NoMemory) => Err(SetterFault::NoMemory),
        Err(Stop::Full) => Err(SetterFault::Room(room)),
    }
}

/// The best feasible chain, where it gains more than the bound.
fn best_over<R: Resource, B: Rest<R>, L: Ledger>(
    alloc: Global,
    graph: &Graph<R>,
    above: &Above<B>,
    steps: &mut Steps<L>,
) -> Result<Option<Traced>, Memory>
    requires rest { IsRest R.extend R.done graph.now (B.rest above.now.rest) }
    ensures attained { IfOk result (λ answer. IfSome answer
        (λ traced. IsFeasible R.extend R.done graph.now traced.arcs traced.gain)) }
    ensures greatest { IfOk result (λ answer. IfSome answer
        (λ traced. (chain : List ℕ) (gain : ℤ) → IsFeasible R.extend R.done graph.now chain gain
        → gain ≤ℤ traced.gain)) }
    ensures steps { (most : ℕ) → FewApart R.below R.extend graph.now.start graph.now.arcs most
        → steps.new ≤ steps.old + most * length graph.now.arcs }
{
    match best_chain(alloc, graph, above, None, steps) {
        Ok(found) => Ok(only_above(found, above)),
        Err(Stop::NoMemory) => Err(Memory::NoMemory),
        Err(Stop::Full) => unreachable!(),
    }
}

/// The bound of a pass: it falls from the most that may be gained, by a share that grows from pass to pass.
fn bound_of(most: i64, pass: u32) -> i64 {
    let share = match pass {
        0 => 0,
        1 => most / 256,
        2 => most / 64,
        3 => most / 16,
        _ => most / 4,
    };
    let under = most.saturating_sub(1);
    if share < 0 {
        under.saturating_add(share)
    } else {
        under.saturating_sub(share)
    }
}

/// As `trace_labels`, by passes over bounds that fall from the most that may be gained until the best chain is above one:
/// five bounds, and at last none. It is fast where the best chain gains nearly as much as `rest` allows.
pub fn set_labels_falling<R: Resource, B: Rest<R> + Drop, L: Ledger>(
    alloc: Global,
    graph: &Graph<R>,
    rest: B,
    steps: &mut Steps<L>,
) -> Result<Option<Traced>, Memory>
    requires rest { IsRest R.extend R.done graph.now (B.rest rest) }
    ensures attained { IfOk result (λ answer. IfSome answer
        (λ traced. IsFeasible R.extend R.done graph.now traced.arcs traced.gain)) }
    ensures greatest { IfOk result (λ answer. IfSome answer
        (λ traced. (chain : List ℕ) (gain : ℤ) → IsFeasible R.extend R.done graph.now chain gain
        → gain ≤ℤ traced.gain)) }
    ensures none { IfOk result (λ answer. IfNone answer
        ((chain : List ℕ) (gain : ℤ) → IsFeasible R.extend R.done graph.now chain gain → ⊥)) }
    ensures steps { (most : ℕ) → FewApart R.below R.extend graph.now.start graph.now.arcs most
        → steps.new ≤ steps.old + 6 * (most * length graph.now.arcs) }
{
    let top = rest.rest(0, &graph.start);
    let mut above = Above { rest, over: top };
    for pass in 0..5u32 {
        above.over = bound_of(top, pass);
        if let Some(traced) = best_over(alloc, graph, &above, steps)? {
            return Ok(Some(traced));
        }
    }
    trace_labels(alloc, graph, steps)
}
