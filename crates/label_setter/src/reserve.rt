//! A label setter with memory of its own.

ghost use Rattle.std.specs.Prelude.{◌≡◌, ◌+◌, ◌≤◌, ◌*◌, ◌≤ℤ◌, [], ℕ, ℤ, IfNone, IfOk, IfSome, IsErr, IsErrOf, List, Some, length, vec_capacity};
ghost use Rattle.label_setter.specs.Chains.{Crowd, FewApart, IsFeasible};
ghost use Rattle.label_setter.specs.Graphs.{IsGraph};
ghost use Rattle.label_setter.specs.Spots.{IsReserved};

use crate::graph::Arc;
use crate::labels::Stop;
use crate::sieve::All;
use crate::table::Desk;
use crate::traces::fill_chain;
use duty_calendar::Memory;
use label_lattice::{Resource, Steps};
use std::alloc::Global;
use std::marker::Model;
use std::sync::ledger::Ledger;
use thiserror::Error;

/// So many labels had no room for one more.
#[derive(Clone, Copy, Debug, Error, PartialEq, Eq)]
#[error("no room for more than {room} labels")]
pub struct NoRoom {
    pub room: u32,
}

/// Looks for the best chains of graphs, one after the other. It takes memory when it is made, and none later. Contracts
/// see for how many places, arcs and labels it has memory, and the arcs of the last chain that it found.
#[derive(Drop)]
pub struct Setter<R: Resource> {
    desk: Desk<R>,
    chain: Vec<u32>,
    places: u32,
    arcs: u32,
    room: u32,
}

impl<R: Resource> Model for Setter<R> {
    ghost use Rattle.std.specs.Prelude.{◌≤◌, ◌*◌, vec_capacity};
    ghost use Rattle.label_setter.specs.Setters.{SetterOf};

    ghost Value = { SetterOf };

    ghost view = { λ s. record { places = s.places; arcs = s.arcs; room = s.room; chain = s.chain.items } };

    ghost invariant = { λ s. (s.room ≤ vec_capacity s.desk.spot.here) × (s.room ≤ vec_capacity s.desk.spot.buckets * 16) × (s.desk.spot.most ≤ vec_capacity s.desk.spot.found) × (1 ≤ s.desk.spot.most) × (s.room ≤ vec_capacity s.desk.labels) × (s.places ≤ vec_capacity s.desk.rows) × (s.arcs ≤ vec_capacity s.desk.order) × (s.places ≤ vec_capacity s.chain) };
}

/// The best feasible chain, with so much room and the memory for it.
fn best_in<R: Resource, L: Ledger>(
    desk: &mut Desk<R>,
    chain: &mut Vec<u32>,
    places: u32,
    start: R,
    end: &R::End,
    arcs: &[Arc<R::Step>],
    room: u32,
    steps: &mut Steps<L>,
) -> Result<Option<i64>, NoRoom>
    requires graph { IsGraph places arcs.now }
    requires reserved { IsReserved (Some room) places (length arcs.now) desk.old }
    requires long { places ≤ vec_capacity chain.old }
    ensures attained { IfOk result (λ answer. IfSome answer
        (λ gain. IsFeasible R.extend R.done (record
        { places = places; start = start; end = end.now; arcs = arcs.now }) chain.new.items gain)) }
    ensures greatest { IfOk result (λ answer. IfSome answer
        (λ gain. (other : List ℕ) (less : ℤ) → IsFeasible R.extend R.done
        (record { places = places; start = start; end = end.now; arcs = arcs.now }) other less
        → less ≤ℤ gain)) }
    ensures none { IfOk result (λ answer. IfNone answer
        ((other : List ℕ) (less : ℤ) → IsFeasible R.extend R.done
        (record { places = places; start = start; end = end.now; arcs = arcs.now }) other less
        → ⊥)) }
    ensures room { (n : ℕ) → IsErrOf result (record { room = n }) → n ≡ room }
    ensures crowd { IsErr result → Crowd R.below R.extend start arcs.now (room + 1) }
    ensures steps { (most : ℕ) → FewApart R.below R.extend start arcs.now most
        → steps.new ≤ steps.old + most * length arcs.now }
    ensures reserved { (p a : ℕ) → IsReserved (Some room) p a desk.old
        → IsReserved (Some room) p a desk.new }
    ensures capacity { vec_capacity chain.old ≤ vec_capacity chain.new }
{
    match fill_chain(
        desk,
        chain,
        &All,
        places,
        start,
        end,
        arcs,
        Some(room),
        steps,
    ) {
        Ok(answer) => Ok(answer),
        Err(Stop::Full) => Err(NoRoom { room }),
        Err(Stop::NoMemory) => unreachable!(),
    }
}

impl<R: Resource> Setter<R> {
    /// A setter for graphs of so many places and arcs, with room for so many labels at all places together, that of the
    /// source among them.
    pub fn new(alloc: Global, places: u32, arcs: u32, room: u32) -> Result<Setter<R>, Memory>
        ensures new { IfOk result (λ s. s ≡ record
            { places = places; arcs = arcs; room = room; chain = [] }) }
    {
        Ok(Setter {
            desk: Desk::reserved(alloc, places, arcs, room)?,
            chain: Vec::with_capacity(alloc, places as usize)?,
            places,
            arcs,
            room,
        })
    }

    /// The greatest gain of a feasible chain from the source to the sink of these places and arcs, or nothing where no
    /// chain is feasible. Each call of `extend` is one step. It takes no memory.
    pub fn set<L: Ledger>(
        &mut self,
        places: u32,
        start: R,
        end: &R::End,
        arcs: &[Arc<R::Step>],
        steps: &mut Steps<L>,
    ) -> Result<Option<i64>, NoRoom>
        requires graph { IsGraph places arcs.now }
        requires places_fit { places ≤ self.old.places }
        requires arcs_fit { length arcs.now ≤ self.old.arcs }
        ensures attained { IfOk result (λ answer. IfSome answer
            (λ gain. IsFeasible R.extend R.done
            (record { places = places; start = start; end = end.now; arcs = arcs.now })
            self.new.chain gain)) }
        ensures greatest { IfOk result (λ answer. IfSome answer
            (λ gain. (chain : List ℕ) (less : ℤ)
            → IsFeasible R.extend R.done (record
            { places = places; start = start; end = end.now; arcs = arcs.now }) chain less
            → less ≤ℤ gain)) }
        ensures none { IfOk result (λ answer. IfNone answer
            ((chain : List ℕ) (less : ℤ) → IsFeasible R.extend R.done
            (record { places = places; start = start; end = end.now; arcs = arcs.now }) chain less
            → ⊥)) }
        ensures room { (n : ℕ) → IsErrOf result (record { room = n }) → n ≡ self.old.room }
        ensures crowd { IsErr result → Crowd R.below R.extend start arcs.now (self.old.room + 1) }
        ensures steps { (most : ℕ) → FewApart R.below R.extend start arcs.now most
            → steps.new ≤ steps.old + most * length arcs.now }
        ensures same { self.new ≡ record self.old { chain = self.new.chain } }
    {
        let room = self.room;
        best_in(
            &mut self.desk,
            &mut self.chain,
            places,
            start,
            end,
            arcs,
            room,
            steps,
        )
    }

    /// The arcs of the last chain that was found, from the source to the sink.
    pub fn chain(&self) -> &[u32]
        ensures chain { result.now ≡ self.now.chain }
    {
        &self.chain
    }
}
