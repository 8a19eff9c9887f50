//! The graph that passes over the items of places or takes them, and whose chains are a member's lines that keep terms.
ghost use Rattle.std.specs.Prelude.{◌≡◌, ◌+◌, ◌*◌, ◌/◌, ◌<◌, ◌≤◌, ℕ, All, Some, IfOk, IsErr, OnOk, false, length, map, slice_get, slice_index_or, vec_capacity};
ghost use Rattle.label_setter.specs.Chains.{FewApart};
ghost use Rattle.label_setter.specs.Graphs.{FitsPlaces, IsGraph};
ghost use Rattle.label_setter.specs.declared.graph.Arc.{Arc};
ghost use Rattle.roster_model.specs.Goals.{IsNode};
ghost use Rattle.roster_model.specs.Legality.{high_of};
ghost use Rattle.roster_model.specs.Lenses.{IsLens};
ghost use Rattle.lens_classes.specs.TermLines.{AreTermsOf};
ghost use Rattle.line_lens.specs.Charts.{chart_gain, chart_may, chart_must, chart_near};
ghost use Rattle.take_graphs.specs.TakeCharts.{chart_take};
ghost use Rattle.line_lens.specs.LineGraphs.{IsHourLens, added_by};
ghost use Rattle.take_graphs.specs.ArcLines.{StandsByArcs};
ghost use Rattle.take_graphs.specs.DrawnGraphs.{IsDrawn};
ghost use Rattle.take_graphs.specs.TakeRooms.{HasTakeRoom};
ghost use Rattle.take_graphs.specs.Takes.{AreTakeArcs, passes_by, takes_by};
ghost use Rattle.line_items.specs.Items.{item_count};
ghost use Rattle.take_graphs.specs.TakeLabels.{TakeStepOf, take_below, take_done, take_extend};
ghost use Rattle.roster_model.specs.Weights.{AreSmallWeights};

use crate::start::take_start;
use crate::takes::join_choices;
use duty_calendar::{List, Memory};
use label_lattice::{Daily, Mask, MaskEnd, Nights, Pair, Pause, Resource, Span, SpanEnd, Usage};
use label_setter::{Arc, Graph};
use lens_classes::Terms;
use line_lens::{ChartDesk, end_label, fill_adds, fill_chart};
use roster_model::{Lens, Node, Problem};
use std::alloc::Global;

/// The free block, beside busy days, nights in a row and windows, of a line that is decided place by place.
pub type PauseLabel<const N: usize> = Pair<Pause, Pair<Daily, Pair<Nights, Usage<N>>>>;

/// Credit, bids, the free block, busy days, nights in a row and windows, of a line that is decided place by place.
pub type TakeLabel<const N: usize> = Pair<Span, Pair<Mask, PauseLabel<N>>>;

/// A graph whose feasible chains are a member's lines that keep terms, with the pairing that each of its arcs adds to a
/// line, or the number of pairings where it adds none.
#[derive(Drop)]
pub struct TakeGraph<const N: usize> {
    pub graph: Graph<TakeLabel<N>>,
    pub adds: List<u32>,
}

/// What the place adds, or the number of pairings.
fn added_at(adds: &[u32], count: u32, place: u32) -> u32
    ensures added { result ≡ slice_index_or adds.now place count }
{
    match adds.get(place as usize) {
        Some(number) => *number,
        None => count,
    }
}

/// Lists what each arc adds, by the place that it takes.
fn fill_arc_adds(out: &mut Vec<u32>, adds: &[u32], taken: &[u32], count: u32) -> Result<(), Memory>
    ensures adds { OnOk result (out.new.items ≡ map
        (λ t. slice_index_or adds.now t count) taken.now) }
    ensures capacity { vec_capacity out.old ≤ vec_capacity out.new }
    ensures calm { length taken.now ≤ vec_capacity out.old → IsErr result → ⊥ }
{
    out.clear();
    for place in taken {
        out.push(added_at(adds, count, *place))?;
    }
    Ok(())
}

/// Memory for graphs of takes.
#[derive(Drop)]
pub(crate) struct TakeParts<const N: usize> {
    pub desk: ChartDesk<N>,
    /// The arcs, and the place that each of them takes.
    pub arcs: Vec<Arc<<TakeLabel<N> as Resource>::Step>>,
    pub taken: Vec<u32>,
    /// What places add, and what arcs add.
    pub places: Vec<u32>,
    pub adds: Vec<u32>,
}

impl<const N: usize> TakeParts<N> {
    /// Parts that reserve nothing, and take memory as they need it.
    fn bare(alloc: Global) -> TakeParts<N>
        requires narrow { N ≤ 4096 }
    {
        TakeParts {
            desk: ChartDesk::bare(alloc),
            arcs: Vec::new(alloc),
            taken: Vec::new(alloc),
            places: Vec::new(alloc),
            adds: Vec::new(alloc),
        }
    }

    /// Parts with memory for any member of a problem of so many pairings.
    pub(crate) fn reserved(alloc: Global, pairings: u32) -> Result<TakeParts<N>, Memory>
        requires narrow { N ≤ 4096 }
        requires few { pairings ≤ 600 }
        ensures room { IfOk result (HasTakeRoom pairings) }
    {
        let places = pairings as usize + 62;
        Ok(TakeParts {
            desk: ChartDesk::reserved(alloc, pairings)?,
            arcs: Vec::with_capacity(alloc, 2 * places)?,
            taken: Vec::with_capacity(alloc, 2 * places)?,
            places: Vec::with_capacity(alloc, places)?,
            adds: Vec::with_capacity(alloc, 2 * places)?,
        })
    }
}

/// How many places a graph of takes has, what its chains begin with, and what is asked of their ends.
#[derive(Clone, Copy)]
pub struct TakeEnds<const N: usize> {
    pub places: u32,
    pub start: TakeLabel<N>,
    pub end: (SpanEnd, (MaskEnd, ((), ((), ((), ()))))),
}

/// Lists the arcs of the chart, and what each of them adds. Answers how many places there are.
fn fill_arcs<const N: usize>(parts: &mut TakeParts<N>, count: u32) -> Result<u32, Memory>
    requires two { 2 ≤ length parts.old.desk.chart.places.items }
    requires few { length parts.old.desk.chart.places.items ≤ 2000 }
    ensures places { IfOk result (λ places. places ≡ length parts.old.desk.chart.places.items) }
    ensures desk { parts.new.desk ≡ parts.old.desk }
    ensures arcs { OnOk result (AreTakeArcs (passes_by (chart_may parts.old.desk.chart)
        (chart_must parts.old.desk.chart)) (takes_by (chart_may parts.old.desk.chart)
        (chart_must parts.old.desk.chart) (chart_near parts.old.desk.chart))
        (λ t. chart_gain parts.old.desk.chart 0 t)
        (chart_take parts.old.desk.chart) parts.new.arcs.items parts.new.taken.items) }
    ensures fit { OnOk result (All (FitsPlaces (length parts.old.desk.chart.places.items))
        parts.new.arcs.items) }
    ensures few { OnOk result (length parts.new.arcs.items + 3
        ≤ 2 * length parts.old.desk.chart.places.items) }
    ensures adds { OnOk result (parts.new.adds.items ≡ map
        (λ t. slice_index_or (map (added_by count) parts.old.desk.items.items) t count)
        parts.new.taken.items) }
    ensures room { (pairings : ℕ) → HasTakeRoom pairings parts.old
        → HasTakeRoom pairings parts.new }
    ensures calm { (pairings : ℕ) → HasTakeRoom pairings parts.old
        → length parts.old.desk.chart.places.items ≤ pairings + 62
        → length parts.old.desk.items.items ≤ pairings + 62 → IsErr result → ⊥ }
{
    let places = parts.desk.chart.places.len() as u32;
    join_choices(&mut parts.arcs, &mut parts.taken, &parts.desk.chart, places)?;
    fill_adds(&mut parts.places, &parts.desk.items, count)?;
    fill_arc_adds(&mut parts.adds, &parts.places, &parts.taken, count)?;
    Ok(places)
}

/// Draws the graph of a member's lines that keep the terms: from each place an arc that passes over its item and one
/// that takes it, where it may.
pub(crate) fn fill_takes<const N: usize>(
    alloc: Global,
    parts: &mut TakeParts<N>,
    problem: &Problem,
    member: u32,
    terms: &Terms,
    node: &Node,
    lens: &Lens,
    weights: &[i64],
) -> Result<TakeEnds<N>, Memory>
    requires member_in_range { member < length problem.now.base.members }
    requires terms { AreTermsOf problem.now member terms.now }
    requires none { terms.now.counted ≡ 0 }
    requires node { IsNode problem.now node.now }
    requires lens { IsLens problem.now member lens.now }
    requires plain { lens.now.whole ≡ false }
    requires per_pairing { length weights.now ≡ length problem.now.base.pairings }
    requires small { AreSmallWeights weights.now }
    requires windows { length lens.now.windows ≤ N }
    requires in_range { N ≤ 4096 }
    ensures graph { IfOk result (λ e. IsGraph e.places parts.new.arcs.items) }
    ensures stands { IfOk result (λ e. StandsByArcs take_extend take_done
        (record { places = e.places; start = e.start; end = e.end; arcs = parts.new.arcs.items })
        parts.new.adds.items problem.now member node.now lens.now terms.now weights.now) }
    ensures drawn { IfOk result (λ e. IsDrawn problem.now member node.now lens.now terms.now
        weights.now (record {
          places = e.places;
          start = e.start;
          end = e.end;
          arcs = parts.new.arcs.items;
        }) parts.new.adds.items) }
    ensures caps { OnOk result ((number : ℕ) (arc : Arc (TakeStepOf N))
        → slice_get parts.new.arcs.items number ≡ Some arc
        → arc.step.0.cap ≡ terms.now.high) }
    ensures few { OnOk result (length parts.new.arcs.items
        ≤ 2 * item_count problem.now member lens.now + 1) }
    ensures places { IfOk result (λ e. e.places ≡ item_count problem.now member lens.now + 2) }
    ensures labels { IfOk result (λ e. IsHourLens lens.now
        → FewApart take_below take_extend e.start parts.new.arcs.items
        (256 * (length problem.now.base.pairings + 1) * (high_of problem.now member / 60 + 1))) }
    ensures room { (pairings : ℕ) → HasTakeRoom pairings parts.old
        → HasTakeRoom pairings parts.new }
    ensures calm { (pairings : ℕ) → length problem.now.base.pairings ≤ pairings
        → HasTakeRoom pairings parts.old → IsErr result → ⊥ }
{
    fill_chart::<N>(
        alloc,
        &mut parts.desk,
        problem,
        member,
        terms,
        node,
        lens,
        weights,
    )?;
    let places = fill_arcs::<N>(parts, problem.base.pairings.len() as u32)?;
    Ok(TakeEnds {
        places,
        start: take_start(problem, member, lens),
        end: end_label(problem, member, terms, lens),
    })
}

/// The graph of a member's lines that pass a lens and keep terms: from each place an arc that passes over its item and
/// one that takes it, where it may.
pub fn take_graph<const N: usize>(
    alloc: Global,
    problem: &Problem,
    member: u32,
    terms: &Terms,
    node: &Node,
    lens: &Lens,
    weights: &[i64],
) -> Result<TakeGraph<N>, Memory>
    requires member_in_range { member < length problem.now.base.members }
    requires terms { AreTermsOf problem.now member terms.now }
    requires none { terms.now.counted ≡ 0 }
    requires node { IsNode problem.now node.now }
    requires lens { IsLens problem.now member lens.now }
    requires plain { lens.now.whole ≡ false }
    requires per_pairing { length weights.now ≡ length problem.now.base.pairings }
    requires small { AreSmallWeights weights.now }
    requires windows { length lens.now.windows ≤ N }
    requires in_range { N ≤ 4096 }
    ensures stands { IfOk result (λ g. StandsByArcs take_extend take_done g.graph g.adds problem.now
        member node.now lens.now terms.now weights.now) }
    ensures caps { IfOk result (λ g. (number : ℕ) (arc : Arc (TakeStepOf N))
        → slice_get g.graph.arcs number ≡ Some arc → arc.step.0.cap ≡ terms.now.high) }
    ensures few { IfOk result (λ g. length g.graph.arcs
        ≤ 2 * item_count problem.now member lens.now + 1) }
    ensures labels { IfOk result (λ g. IsHourLens lens.now
        → FewApart take_below take_extend g.graph.start g.graph.arcs
        (256 * (length problem.now.base.pairings + 1) * (high_of problem.now member / 60 + 1))) }
{
    let mut parts = TakeParts::<N>::bare(alloc);
    let ends = fill_takes::<N>(
        alloc, &mut parts, problem, member, terms, node, lens, weights,
    )?;
    let TakeParts {
        desk: _,
        arcs,
        taken: _,
        places: _,
        adds,
    } = parts;
    Ok(TakeGraph {
        graph: Graph::from_arcs(ends.places, ends.start, ends.end, arcs),
        adds: List::from_vec(adds),
    })
}
