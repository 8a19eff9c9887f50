//! The arcs of the best feasible chain, with or without a bound on labels.

ghost use Rattle.std.specs.Prelude.{◌≡◌, ◌+◌, ◌≤◌, ◌*◌, ◌≤ℤ◌, ℕ, ℤ, Bool, IfNone, IfOk, IfSome, IsErrOf, List, length, option_map, vec_capacity};
ghost use Rattle.label_setter.specs.Chains.{Crowd, FewApart, IsFeasible, Reached};
ghost use Rattle.label_setter.specs.Graphs.{IsGraph};
ghost use Rattle.label_setter.specs.Labels.{RoomOver};
ghost use Rattle.label_setter.specs.Sought.{IsSought, IsSoughtChain};
ghost use Rattle.label_setter.specs.Spots.{IsReserved};

use crate::graph::{Arc, Graph};
use crate::labels::Stop;
use crate::setter::SetterFault;
use crate::sieve::{All, Sieve};
use crate::table::{Desk, fill_labels, row_of};
use crate::winner::{best_done, fill_arcs};
use duty_calendar::{List, Memory};
use label_lattice::{Resource, Steps};
use std::alloc::Global;
use std::sync::ledger::Ledger;

/// What a chain gains, and the numbers of its arcs from the source to the sink, in the order in which they were added.
#[derive(Debug, Drop, PartialEq, Eq)]
pub struct Traced {
    pub gain: i64,
    pub arcs: List<u32>,
}

/// The gain of the best feasible chain of those that are sought; its arcs are listed. No `room` is room without end.
pub(crate) fn fill_chain<R: Resource, P: Sieve<R>, L: Ledger>(
    desk: &mut Desk<R>,
    chain: &mut Vec<u32>,
    sieve: &P,
    places: u32,
    start: R,
    end: &R::End,
    arcs: &[Arc<R::Step>],
    room: Option<u32>,
    steps: &mut Steps<L>,
) -> Result<Option<i64>, Stop>
    requires some { 1 ≤ desk.old.spot.most }
    requires graph { IsGraph places arcs.now }
    ensures attained { IfOk result (λ answer. IfSome answer
        (λ gain. IsFeasible R.extend R.done (record
        { places = places; start = start; end = end.now; arcs = arcs.now }) chain.new.items gain)) }
    ensures greatest { IfOk result (λ answer. IfSome answer
        (λ gain. (sought : Reached R → Bool) → IsSought R.below R.extend
        (P.passes sieve.now) arcs.now sought → (other : List ℕ) (less : ℤ)
        → IsSoughtChain R.extend R.done (record
        { places = places; start = start; end = end.now; arcs = arcs.now }) sought other less
        → less ≤ℤ gain)) }
    ensures none { IfOk result (λ answer. IfNone answer
        ((sought : Reached R → Bool) → IsSought R.below R.extend
        (P.passes sieve.now) arcs.now sought → (other : List ℕ) (less : ℤ)
        → IsSoughtChain R.extend R.done (record
        { places = places; start = start; end = end.now; arcs = arcs.now }) sought other less
        → ⊥)) }
    ensures full { IsErrOf result Stop.Full → RoomOver R.below R.extend start arcs.now room }
    ensures steps { (most : ℕ) → FewApart R.below R.extend start arcs.now most
        → steps.new ≤ steps.old + most * length arcs.now }
    ensures reserved { (p a : ℕ) → IsReserved room p a desk.old → IsReserved room p a desk.new }
    ensures capacity { vec_capacity chain.old ≤ vec_capacity chain.new }
    ensures calm { IsReserved room places (length arcs.now) desk.old
        → places ≤ vec_capacity chain.old → IsErrOf result Stop.NoMemory → ⊥ }
{
    fill_labels(desk, sieve, places, start, arcs, room, steps)?;
    let sink = places - 1;
    let row = row_of(&desk.labels, desk.rows[sink as usize]);
    let Some(best) = best_done(row, end) else {
        return Ok(None);
    };
    fill_arcs(chain, arcs, &desk.labels, &desk.rows, sink, best)?;
    Ok(Some(best.gain))
}

/// The best feasible chain of those that are sought. No `room` is room without end.
pub(crate) fn best_chain<R: Resource, P: Sieve<R>, L: Ledger>(
    alloc: Global,
    graph: &Graph<R>,
    sieve: &P,
    room: Option<u32>,
    steps: &mut Steps<L>,
) -> Result<Option<Traced>, Stop>
    ensures attained { IfOk result (λ answer. IfSome answer
        (λ traced. IsFeasible R.extend R.done graph.now traced.arcs traced.gain)) }
    ensures greatest { IfOk result (λ answer. IfSome answer
        (λ traced. (sought : Reached R → Bool)
        → IsSought R.below R.extend (P.passes sieve.now) graph.now.arcs sought
        → (chain : List ℕ) (gain : ℤ) → IsSoughtChain R.extend R.done graph.now sought chain gain
        → gain ≤ℤ traced.gain)) }
    ensures none { IfOk result (λ answer. IfNone answer
        ((sought : Reached R → Bool) → IsSought R.below R.extend
        (P.passes sieve.now) graph.now.arcs sought → (chain : List ℕ) (gain : ℤ)
        → IsSoughtChain R.extend R.done graph.now sought chain gain → ⊥)) }
    ensures full { IsErrOf result Stop.Full → RoomOver R.below R.extend graph.now.start
        graph.now.arcs room }
    ensures steps { (most : ℕ) → FewApart R.below R.extend graph.now.start graph.now.arcs most
        → steps.new ≤ steps.old + most * length graph.now.arcs }
{
    let mut desk = Desk::bare(alloc);
    let mut chain = Vec::new(alloc);
    let answer = fill_chain(
        &mut desk,
        &mut chain,
        sieve,
        graph.places,
        graph.start,
        &graph.end,
        &graph.arcs,
        room,
        steps,
    )?;
    Ok(traced_of(answer, chain))
}

/// The gain, where there is one, with the arcs.
fn traced_of(answer: Option<i64>, chain: Vec<u32>) -> Option<Traced>
    ensures traced { result ≡ option_map (λ gain. record { gain = gain; arcs = chain.items })
        answer }
{
    let gain = answer?;
    Some(Traced {
        gain,
        arcs: List::from_vec(chain),
    })
}

/// The greatest gain of a feasible chain from the source to the sink, with the arcs of such a chain, or nothing where
/// no chain is feasible. Each call of `extend` is one step.
pub fn trace_labels<R: Resource, L: Ledger>(
    alloc: Global,
    graph: &Graph<R>,
    steps: &mut Steps<L>,
) -> Result<Option<Traced>, Memory>
    ensures attained { IfOk result (λ answer. IfSome answer
        (λ traced. IsFeasible R.extend R.done graph.now traced.arcs traced.gain)) }
    ensures greatest { IfOk result (λ answer. IfSome answer
        (λ traced. (chain : List ℕ) (gain : ℤ) → IsFeasible R.extend R.done graph.now chain gain
        → gain ≤ℤ traced.gain)) }
    ensures none { IfOk result (λ answer. IfNone answer
        ((chain : List ℕ) (gain : ℤ) → IsFeasible R.extend R.done graph.now chain gain → ⊥)) }
    ensures steps { (most : ℕ) → FewApart R.below R.extend graph.now.start graph.now.arcs most
        → steps.new ≤ steps.old + most * length graph.now.arcs }
{
    match best_chain(alloc, graph, &All, None, steps) {
        Ok(answer) => Ok(answer),
        Err(Stop::NoMemory) => Err(Memory::NoMemory),
        Err(Stop::Full) => unreachable!(),
    }
}

/// As `trace_labels`, with room for so many labels at all places together, that of the source among them. It may answer
/// that this was no room where a label more than these stood beside them.
pub fn trace_labels_in<R: Resource, L: Ledger>(
    alloc: Global,
    graph: &Graph<R>,
    room: u32,
    steps: &mut Steps<L>,
) -> Result<Option<Traced>, SetterFault>
    ensures attained { IfOk result (λ answer. IfSome answer
        (λ traced. IsFeasible R.extend R.done graph.now traced.arcs traced.gain)) }
    ensures greatest { IfOk result (λ answer. IfSome answer
        (λ traced. (chain : List ℕ) (gain : ℤ) → IsFeasible R.extend R.done graph.now chain gain
        → gain ≤ℤ traced.gain)) }
    ensures none { IfOk result (λ answer. IfNone answer
        ((chain : List ℕ) (gain : ℤ) → IsFeasible R.extend R.done graph.now chain gain → ⊥)) }
    ensures room { (n : ℕ) → IsErrOf result (SetterFault.Room n) → n ≡ room }
    ensures crowd { (n : ℕ) → IsErrOf result (SetterFault.Room n)
        → Crowd R.below R.extend graph.now.start graph.now.arcs (n + 1) }
    ensures steps { (most : ℕ) → FewApart R.below R.extend graph.now.start graph.now.arcs most
        → steps.new ≤ steps.old + most * length graph.now.arcs }
{
    match best_chain(alloc, graph, &All, Some(room), steps) {
        Ok(answer) => Ok(answer),
        Err(Stop::NoMemory) => Err(SetterFault::NoMemory),
        Err(Stop::Full) => Err(SetterFault::Room(room)),
    }
}
