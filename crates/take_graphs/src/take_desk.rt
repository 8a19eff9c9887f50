//! Graphs of takes in memory of their own.
ghost use Rattle.std.specs.Prelude.{◌≡◌, ◌+◌, ◌*◌, ◌/◌, ◌<◌, ◌≤◌, [], ℕ, IfOk, Some, false, length, slice_get};
ghost use Rattle.label_setter.specs.Chains.{FewApart};
ghost use Rattle.label_setter.specs.Graphs.{IsGraph};
ghost use Rattle.label_setter.specs.declared.graph.Arc.{Arc};
ghost use Rattle.roster_model.specs.Goals.{IsNode};
ghost use Rattle.roster_model.specs.Legality.{high_of};
ghost use Rattle.roster_model.specs.Lenses.{IsLens};
ghost use Rattle.lens_classes.specs.TermLines.{AreTermsOf};
ghost use Rattle.line_items.specs.Items.{item_count};
ghost use Rattle.line_lens.specs.LineGraphs.{IsHourLens};
ghost use Rattle.take_graphs.specs.ArcLines.{StandsByArcs};
ghost use Rattle.take_graphs.specs.DrawnGraphs.{IsDrawn};
ghost use Rattle.take_graphs.specs.TakeLabels.{TakeStepOf, take_below, take_done, take_extend};
ghost use Rattle.roster_model.specs.Weights.{AreSmallWeights};

use crate::take_lines::{TakeEnds, TakeLabel, TakeParts, fill_takes};
use duty_calendar::Memory;
use label_lattice::Resource;
use label_setter::Arc;
use lens_classes::Terms;
use roster_model::{Lens, Node, Problem};
use std::alloc::Global;
use std::marker::Model;

/// Draws graphs of takes, one after the other. It takes memory when it is made, and none later. Contracts see for how
/// many pairings it has memory, and the arcs of the last graph with what each of them adds.
#[derive(Drop)]
pub struct TakeDesk<const N: usize> {
    alloc: Global,
    parts: TakeParts<N>,
    pairings: u32,
    ghost narrow: { N ≤ 4096 },
}

impl<const N: usize> Model for TakeDesk<N> {
    ghost use Rattle.take_graphs.specs.TakeRooms.{HasTakeRoom, TakeDeskOf};

    ghost Value = { TakeDeskOf N };

    ghost view = { λ d. record { pairings = d.pairings; arcs = d.parts.arcs.items; adds = d.parts.adds.items } };

    ghost invariant = { λ d. HasTakeRoom d.pairings d.parts };
}

impl<const N: usize> TakeDesk<N> {
    /// A desk with memory for any member of a problem of so many pairings.
    pub fn new(alloc: Global, pairings: u32) -> Result<TakeDesk<N>, Memory>
        requires narrow { N ≤ 4096 }
        requires few { pairings ≤ 600 }
        ensures new { IfOk result (λ d. d.pairings ≡ pairings) }
    {
        Ok(TakeDesk {
            alloc,
            parts: TakeParts::reserved(alloc, pairings)?,
            pairings,
        })
    }

    /// Draws the graph of a member's lines that keep the terms, as `take_graph` does. It takes no memory.
    pub fn draw(
        &mut self,
        problem: &Problem,
        member: u32,
        terms: &Terms,
        node: &Node,
        lens: &Lens,
        weights: &[i64],
    ) -> TakeEnds<N>
        requires fits { length problem.now.base.pairings ≤ self.old.pairings }
        requires member_in_range { member < length problem.now.base.members }
        requires terms { AreTermsOf problem.now member terms.now }
        requires none { terms.now.counted ≡ 0 }
        requires node { IsNode problem.now node.now }
        requires lens { IsLens problem.now member lens.now }
        requires plain { lens.now.whole ≡ false }
        requires per_pairing { length weights.now ≡ length problem.now.base.pairings }
        requires small { AreSmallWeights weights.now }
        requires windows { length lens.now.windows ≤ N }
        ensures graph { IsGraph result.places self.new.arcs }
        ensures stands { StandsByArcs take_extend take_done
            (record {
              places = result.places;
              start = result.start;
              end = result.end;
              arcs = self.new.arcs;
            }) self.new.adds problem.now member node.now lens.now terms.now
            weights.now }
        ensures drawn { IsDrawn problem.now member node.now lens.now terms.now weights.now
            (record {
              places = result.places;
              start = result.start;
              end = result.end;
              arcs = self.new.arcs;
            }) self.new.adds }
        ensures caps { (number : ℕ) (arc : Arc (TakeStepOf N))
            → slice_get self.new.arcs number ≡ Some arc
            → arc.step.0.cap ≡ terms.now.high }
        ensures few { length self.new.arcs ≤ 2 * item_count problem.now member lens.now + 1 }
        ensures places { result.places ≡ item_count problem.now member lens.now + 2 }
        ensures labels { IsHourLens lens.now → FewApart take_below take_extend result.start
            self.new.arcs (256 * (length problem.now.base.pairings + 1)
            * (high_of problem.now member / 60 + 1)) }
        ensures places_fit { result.places ≤ self.old.pairings + 62 }
        ensures arcs_fit { length self.new.arcs ≤ 2 * (self.old.pairings + 62) }
        ensures same { self.new.pairings ≡ self.old.pairings }
    {
        match fill_takes::<N>(
            self.alloc,
            &mut self.parts,
            problem,
            member,
            terms,
            node,
            lens,
            weights,
        ) {
            Ok(ends) => ends,
            Err(Memory::NoMemory) => unreachable!(),
        }
    }

    /// The arcs of the last graph.
    pub fn arcs(&self) -> &[Arc<<TakeLabel<N> as Resource>::Step>]
        ensures arcs { result.now ≡ self.now.arcs }
    {
        &self.parts.arcs
    }

    /// What each of them adds to a line: the number of a pairing, or that of the pairings.
    pub fn adds(&self) -> &[u32]
        ensures adds { result.now ≡ self.now.adds }
    {
        &self.parts.adds
    }
}
