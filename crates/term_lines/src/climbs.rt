//! The heaviest line that keeps terms, by climbs above bounds.
ghost use Rattle.std.specs.Prelude.{◌≤◌, IfOk, length};
ghost use Rattle.chain_search.specs.Orders.{IsOrder};
ghost use Rattle.count_graphs.specs.Counts.{uncounted};
ghost use Rattle.graph_climbs.specs.Parts.{parts_done, parts_extend};
ghost use Rattle.term_lines.specs.Overs.{IsTermBest};
ghost use Rattle.term_lines.specs.Questions.{AreCapped, AreHeavy, IsTermQuestion, StandsFor};

use crate::counting::Counting;
use crate::priced::PricedLine;
use crate::question::TermQuestion;
use crate::slacks::{Later, Slacks, order_of};
use chain_search::{Order, Paused};
use duty_calendar::Memory;
use graph_climbs::heaviest_chain;
use label_lattice::{Mask, Pair, Span, Steps, Tally};
use label_setter::Graph;
use line_lens::narrow_lens;
use std::alloc::Global;
use std::sync::ledger::Ledger;

impl TermQuestion<'_> {
    /// The heaviest line by the chains of a graph.
    fn heaviest_by_order<B, O, L>(
        &self,
        alloc: Global,
        graph: &Graph<Pair<Span, Pair<Mask, B>>>,
        adds: &[u32],
        order: &O,
        steps: &mut Steps<L>,
    ) -> Result<Option<PricedLine>, Memory>
    where
        B: Paused,
        O: Order<Pair<Span, Pair<Mask, B>>>,
        L: Ledger,
        requires stands { StandsFor (parts_extend B.extend) (parts_done B.done) graph.now adds.now
            self.now self.now.terms.now }
        requires order { IsOrder (parts_extend B.extend) (parts_done B.done) graph.now
            (O.spares order.now) }
        requires caps { AreCapped graph.now.arcs self.now.terms.now.high }
        requires heavy { AreHeavy (parts_extend B.extend) (parts_done B.done) graph.now }
        ensures best { IfOk result (IsTermBest self.now) }
    {
        let count = self.problem.base.pairings.len() as u32;
        let best = heaviest_chain::<B, O, L>(alloc, graph, order, self.terms.high, count, steps)?;
        self.best_line::<B>(alloc, graph, adds, best)
    }

    /// The heaviest line that has what the terms count, by a graph of the lines that keep them beside that.
    fn heaviest_by_count<B, O, L>(
        &self,
        alloc: Global,
        graph: &Graph<Pair<Span, Pair<Mask, B>>>,
        adds: &[u32],
        order: &O,
        steps: &mut Steps<L>,
    ) -> Result<Option<PricedLine>, Memory>
    where
        B: Paused,
        O: Order<Pair<Span, Pair<Mask, B>>>,
        L: Ledger,
        requires asked { IsTermQuestion self.now }
        requires stands { StandsFor (parts_extend B.extend) (parts_done B.done) graph.now adds.now
            self.now (uncounted self.now.terms.now) }
        requires order { IsOrder (parts_extend B.extend) (parts_done B.done) graph.now
            (O.spares order.now) }
        requires caps { AreCapped graph.now.arcs self.now.terms.now.high }
        ensures best { IfOk result (IsTermBest self.now) }
    {
        let counted = self.counted_graph::<B>(alloc, graph, adds)?;
        self.heaviest_by_order::<Pair<Tally<8>, B>, Counting<'_, O>, L>(
            alloc,
            &counted,
            adds,
            &Counting { inner: order },
            steps,
        )
    }

    /// The heaviest line by a graph with room for N windows.
    fn heaviest_in_graph<const N: usize, L: Ledger>(
        &self,
        alloc: Global,
        steps: &mut Steps<L>,
    ) -> Result<Option<PricedLine>, Memory>
        requires asked { IsTermQuestion self.now }
        requires windows { length self.now.lens.now.windows ≤ N }
        requires narrow { N ≤ 16 }
        ensures best { IfOk result (IsTermBest self.now) }
    {
        let lines = self.bare_graph::<N>(alloc)?;
        let order = order_of::<N>(alloc, &lines.graph)?;
        let (graph, adds) = (&lines.graph, lines.adds.as_slice());
        if self.terms.counted == 0 {
            return self.heaviest_by_order::<Later<N>, Slacks<N>, L>(
                alloc, graph, adds, &order, steps,
            );
        }
        self.heaviest_by_count::<Later<N>, Slacks<N>, L>(alloc, graph, adds, &order, steps)
    }

    /// The heaviest line by the narrowest graph with room for the lens's windows.
    fn heaviest_by_width<L: Ledger>(
        &self,
        alloc: Global,
        steps: &mut Steps<L>,
    ) -> Result<Option<PricedLine>, Memory>
        requires asked { IsTermQuestion self.now }
        ensures best { IfOk result (IsTermBest self.now) }
    {
        let windows = self.lens.windows.len();
        if windows == 0 {
            return self.heaviest_in_graph::<0, L>(alloc, steps);
        }
        if windows <= 4 {
            return self.heaviest_in_graph::<4, L>(alloc, steps);
        }
        self.heaviest_in_graph::<16, L>(alloc, steps)
    }

    /// The heaviest line that keeps the terms, by a lens that tracks no more than they ask.
    pub fn heaviest<L: Ledger>(
        &self,
        alloc: Global,
        steps: &mut Steps<L>,
    ) -> Result<Option<PricedLine>, Memory>
        requires asked { IsTermQuestion self.now }
        ensures best { IfOk result (IsTermBest self.now) }
    {
        let lens = narrow_lens(alloc, self.problem, self.member, self.terms, self.lens)?;
        let narrow = TermQuestion {
            lens: &lens,
            ..*self
        };
        narrow.heaviest_by_width(alloc, steps)
    }
}
