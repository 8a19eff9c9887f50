//! The best line that keeps terms, by labels.
ghost use Rattle.std.specs.Prelude.{◌≡◌, ◌≤◌, IfOk, length};
ghost use Rattle.count_graphs.specs.Counts.{uncounted};
ghost use Rattle.graph_climbs.specs.Parts.{parts_done, parts_extend};
ghost use Rattle.line_lens.specs.LineGraphs.{IsHourLens};
ghost use Rattle.term_lines.specs.Overs.{IsTermBest};
ghost use Rattle.term_lines.specs.Questions.{AreCapped, AreFewSteps, IsTermQuestion, StandsFor};

use crate::priced::PricedLine;
use crate::question::TermQuestion;
use crate::slacks::Later;
use duty_calendar::Memory;
use graph_climbs::best_chain;
use label_lattice::{Mask, Pair, Resource, Span, Steps, Tally};
use label_setter::Graph;
use line_lens::narrow_lens;
use std::alloc::Global;
use std::sync::ledger::Ledger;
use take_graphs::take_graph;

impl TermQuestion<'_> {
    /// The best line that has what the terms count, by a graph of the lines that keep them beside that.
    fn best_by_count<B: Resource, L: Ledger>(
        &self,
        alloc: Global,
        graph: &Graph<Pair<Span, Pair<Mask, B>>>,
        adds: &[u32],
        steps: &mut Steps<L>,
    ) -> Result<Option<PricedLine>, Memory>
        requires asked { IsTermQuestion self.now }
        requires stands { StandsFor (parts_extend B.extend) (parts_done B.done) graph.now adds.now
            self.now (uncounted self.now.terms.now) }
        requires caps { AreCapped graph.now.arcs self.now.terms.now.high }
        ensures best { IfOk result (IsTermBest self.now) }
    {
        let counted = self.counted_graph::<B>(alloc, graph, adds)?;
        let count = self.problem.base.pairings.len() as u32;
        let best = best_chain::<Pair<Tally<8>, B>, L>(
            alloc,
            &counted,
            self.terms.high,
            count,
            steps,
        )?;
        self.best_line::<Pair<Tally<8>, B>>(alloc, &counted, adds, best)
    }

    /// The best line that has what the terms count, by a graph with room for N windows.
    fn best_counted<const N: usize, L: Ledger>(
        &self,
        alloc: Global,
        steps: &mut Steps<L>,
    ) -> Result<Option<PricedLine>, Memory>
        requires asked { IsTermQuestion self.now }
        requires windows { length self.now.lens.now.windows ≤ N }
        requires narrow { N ≤ 16 }
        ensures best { IfOk result (IsTermBest self.now) }
    {
        let lines = self.bare_graph::<N>(alloc)?;
        self.best_by_count::<Later<N>, L>(alloc, &lines.graph, lines.adds.as_slice(), steps)
    }

    /// The best line by a graph with room for N windows.
    fn best_in_graph<const N: usize, L: Ledger>(
        &self,
        alloc: Global,
        steps: &mut Steps<L>,
    ) -> Result<Option<PricedLine>, Memory>
        requires asked { IsTermQuestion self.now }
        requires windows { length self.now.lens.now.windows ≤ N }
        requires narrow { N ≤ 16 }
        ensures best { IfOk result (IsTermBest self.now) }
        ensures few { self.now.terms.now.counted ≡ 0 → IsHourLens self.now.lens.now
            → AreFewSteps self.now.problem.now self.now.member steps.old steps.new }
    {
        if self.terms.counted > 0 {
            return self.best_counted::<N, L>(alloc, steps);
        }
        let (problem, member) = (self.problem, self.member);
        let lines = take_graph::<N>(
            alloc,
            problem,
            member,
            self.terms,
            self.node,
            self.lens,
            self.weights,
        )?;
        let count = problem.base.pairings.len() as u32;
        let best = best_chain::<Later<N>, L>(alloc, &lines.graph, self.terms.high, count, steps)?;
        self.best_line::<Later<N>>(alloc, &lines.graph, lines.adds.as_slice(), best)
    }

    /// The best line by the narrowest graph with room for the lens's windows.
    fn best_by_width<L: Ledger>(
        &self,
        alloc: Global,
        steps: &mut Steps<L>,
    ) -> Result<Option<PricedLine>, Memory>
        requires asked { IsTermQuestion self.now }
        ensures best { IfOk result (IsTermBest self.now) }
        ensures few { self.now.terms.now.counted ≡ 0 → IsHourLens self.now.lens.now
            → AreFewSteps self.now.problem.now self.now.member steps.old steps.new }
    {
        let windows = self.lens.windows.len();
        if windows == 0 {
            return self.best_in_graph::<0, L>(alloc, steps);
        }
        if windows <= 4 {
            return self.best_in_graph::<4, L>(alloc, steps);
        }
        self.best_in_graph::<16, L>(alloc, steps)
    }

    /// The best line that keeps the terms, by a lens that tracks no more than they ask.
    pub fn best<L: Ledger>(
        &self,
        alloc: Global,
        steps: &mut Steps<L>,
    ) -> Result<Option<PricedLine>, Memory>
        requires asked { IsTermQuestion self.now }
        ensures best { IfOk result (IsTermBest self.now) }
        ensures few { self.now.terms.now.counted ≡ 0 → IsHourLens self.now.lens.now
            → AreFewSteps self.now.problem.now self.now.member steps.old steps.new }
    {
        let lens = narrow_lens(alloc, self.problem, self.member, self.terms, self.lens)?;
        let narrow = TermQuestion {
            lens: &lens,
            ..*self
        };
        narrow.best_by_width(alloc, steps)
    }
}
