//! A line that keeps terms and weighs more than a bound, or that there is none.
ghost use Rattle.std.specs.Prelude.{◌≡◌, ◌+◌, ◌<◌, ◌≤◌, Ok, IfOk, false, length, true};
ghost use Rattle.chain_search.specs.Orders.{IsOrder};
ghost use Rattle.count_graphs.specs.Counts.{uncounted};
ghost use Rattle.graph_climbs.specs.Parts.{parts_done, parts_extend};
ghost use Rattle.term_lines.specs.Overs.{IsTermOver, over_of};
ghost use Rattle.term_lines.specs.Questions.{AreCapped, IsTermQuestion, StandsFor};

use crate::counting::Counting;
use crate::priced::PricedLine;
use crate::question::TermQuestion;
use crate::slacks::{Later, Slacks, order_of};
use chain_search::{Ended, Order, Paused};
use duty_calendar::Memory;
use graph_climbs::climb_by_stages;
use label_lattice::{Mask, Pair, Span, Steps, Tally};
use label_setter::Graph;
use line_lens::narrow_lens;
use std::alloc::Global;
use std::sync::ledger::Ledger;

/// What a search for a line above a bound answers.
#[derive(Debug, Drop, PartialEq, Eq)]
pub enum Over {
    /// A line that passes and weighs more than the bound.
    Line(PricedLine),
    /// No line that passes weighs more than the bound.
    Nothing,
    /// The limit of steps was reached, which says nothing of lines.
    Limit,
}

/// Which line is looked for.
#[derive(Clone, Copy, PartialEq, Eq)]
pub enum Wanted {
    /// The first above the bound.
    First,
    /// A heaviest.
    Heaviest,
}

/// How a line is looked for: which one, above which weight, in how many steps.
#[derive(Clone, Copy)]
pub struct Sought {
    pub wanted: Wanted,
    pub over: i64,
    pub limit: u64,
}

/// The answer where no chain was found.
fn without_chain(ended: Ended) -> Over
    ensures over { result ≡ over_of ended }
{
    match ended {
        Ended::Top => Over::Nothing,
        Ended::Enough | Ended::Limit => Over::Limit,
    }
}

/// How many chains a climb looks for.
fn chains_of(wanted: Wanted, limit: u64) -> u64
    ensures some { 0 < result }
    ensures all { wanted ≡ Wanted.Heaviest → limit ≤ result }
{
    match wanted {
        Wanted::First => 1,
        Wanted::Heaviest => limit.max(1),
    }
}

/// The chain of a climb that ended so is one that is wanted, or there is none.
fn is_settled(wanted: Wanted, ended: Ended) -> bool
    ensures top { result ≡ true → wanted ≡ Wanted.Heaviest → ended ≡ Ended.Top }
    ensures heaviest { result ≡ false → wanted ≡ Wanted.Heaviest }
    ensures short { result ≡ false → ended ≡ Ended.Top → ⊥ }
{
    match wanted {
        Wanted::First => true,
        Wanted::Heaviest => ended == Ended::Top,
    }
}

impl TermQuestion<'_> {
    /// A line above the bound by the chains of a graph.
    fn over_by_order<B, O, L>(
        &self,
        alloc: Global,
        graph: &Graph<Pair<Span, Pair<Mask, B>>>,
        adds: &[u32],
        order: &O,
        sought: &Sought,
        steps: &mut Steps<L>,
    ) -> Result<Over, Memory>
    where
        B: Paused,
        O: Order<Pair<Span, Pair<Mask, B>>>,
        L: Ledger,
        requires stands { StandsFor (parts_extend B.extend) (parts_done B.done) graph.now adds.now
            self.now self.now.terms.now }
        requires order { IsOrder (parts_extend B.extend) (parts_done B.done) graph.now
            (O.spares order.now) }
        ensures over { IfOk result (IsTermOver self.now sought.now) }
        ensures limit { result ≡ Ok Over.Limit → steps.new ≡ steps.old + sought.now.limit }
        ensures onward { IfOk result (λ answer. steps.old ≤ steps.new) }
        ensures steps { steps.new ≤ steps.old + sought.now.limit }
    {
        let chains = chains_of(sought.wanted, sought.limit);
        let climb = climb_by_stages::<B, O, L>(
            alloc,
            graph,
            order,
            self.terms.high,
            sought.over,
            chains,
            sought.limit,
            steps,
        )?;
        if !is_settled(sought.wanted, climb.ended) {
            return Ok(Over::Limit);
        }
        let best = climb.best;
        let Some(traced) = best else {
            return Ok(without_chain(climb.ended));
        };
        let priced = self.line_of::<B>(alloc, graph, adds, &traced)?;
        Ok(Over::Line(priced))
    }

    /// A line above the bound that has what the terms count, by a graph of the lines that keep them beside that.
    fn over_by_count<B, O, L>(
        &self,
        alloc: Global,
        graph: &Graph<Pair<Span, Pair<Mask, B>>>,
        adds: &[u32],
        order: &O,
        sought: &Sought,
        steps: &mut Steps<L>,
    ) -> Result<Over, Memory>
    where
        B: Paused,
        O: Order<Pair<Span, Pair<Mask, B>>>,
        L: Ledger,
        requires asked { IsTermQuestion self.now }
        requires stands { StandsFor (parts_extend B.extend) (parts_done B.done) graph.now adds.now
            self.now (uncounted self.now.terms.now) }
        requires order { IsOrder (parts_extend B.extend) (parts_done B.done) graph.now
            (O.spares order.now) }
        requires caps { AreCapped graph.now.arcs self.now.terms.now.high }
        ensures over { IfOk result (IsTermOver self.now sought.now) }
        ensures limit { result ≡ Ok Over.Limit → steps.new ≡ steps.old + sought.now.limit }
        ensures onward { IfOk result (λ answer. steps.old ≤ steps.new) }
        ensures steps { steps.new ≤ steps.old + sought.now.limit }
    {
        let counted = self.counted_graph::<B>(alloc, graph, adds)?;
        self.over_by_order::<Pair<Tally<8>, B>, Counting<'_, O>, L>(
            alloc,
            &counted,
            adds,
            &Counting { inner: order },
            sought,
            steps,
        )
    }

    /// A line above the bound by a graph with room for N windows.
    fn over_in_graph<const N: usize, L: Ledger>(
        &self,
        alloc: Global,
        sought: &Sought,
        steps: &mut Steps<L>,
    ) -> Result<Over, Memory>
        requires asked { IsTermQuestion self.now }
        requires windows { length self.now.lens.now.windows ≤ N }
        requires narrow { N ≤ 16 }
        ensures over { IfOk result (IsTermOver self.now sought.now) }
        ensures limit { result ≡ Ok Over.Limit → steps.new ≡ steps.old + sought.now.limit }
        ensures onward { IfOk result (λ answer. steps.old ≤ steps.new) }
        ensures steps { steps.new ≤ steps.old + sought.now.limit }
    {
        let lines = self.bare_graph::<N>(alloc)?;
        let order = order_of::<N>(alloc, &lines.graph)?;
        let (graph, adds) = (&lines.graph, lines.adds.as_slice());
        if self.terms.counted == 0 {
            return self.over_by_order::<Later<N>, Slacks<N>, L>(
                alloc, graph, adds, &order, sought, steps,
            );
        }
        self.over_by_count::<Later<N>, Slacks<N>, L>(alloc, graph, adds, &order, sought, steps)
    }

    /// A line above the bound by the narrowest graph with room for the lens's windows.
    fn over_by_width<L: Ledger>(
        &self,
        alloc: Global,
        sought: &Sought,
        steps: &mut Steps<L>,
    ) -> Result<Over, Memory>
        requires asked { IsTermQuestion self.now }
        ensures over { IfOk result (IsTermOver self.now sought.now) }
        ensures limit { result ≡ Ok Over.Limit → steps.new ≡ steps.old + sought.now.limit }
        ensures onward { IfOk result (λ answer. steps.old ≤ steps.new) }
        ensures steps { steps.new ≤ steps.old + sought.now.limit }
    {
        let windows = self.lens.windows.len();
        if windows == 0 {
            return self.over_in_graph::<0, L>(alloc, sought, steps);
        }
        if windows <= 4 {
            return self.over_in_graph::<4, L>(alloc, sought, steps);
        }
        self.over_in_graph::<16, L>(alloc, sought, steps)
    }

    /// A line above the bound that keeps the terms, by a lens that tracks no more than they ask.
    pub fn over<L: Ledger>(
        &self,
        alloc: Global,
        sought: &Sought,
        steps: &mut Steps<L>,
    ) -> Result<Over, Memory>
        requires asked { IsTermQuestion self.now }
        ensures over { IfOk result (IsTermOver self.now sought.now) }
        ensures limit { result ≡ Ok Over.Limit → steps.new ≡ steps.old + sought.now.limit }
        ensures onward { IfOk result (λ answer. steps.old ≤ steps.new) }
        ensures steps { steps.new ≤ steps.old + sought.now.limit }
    {
        let lens = narrow_lens(alloc, self.problem, self.member, self.terms, self.lens)?;
        let narrow = TermQuestion {
            lens: &lens,
            ..*self
        };
        narrow.over_by_width(alloc, sought, steps)
    }
}
