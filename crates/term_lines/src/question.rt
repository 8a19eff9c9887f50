//! What is asked of a member's lines.
ghost use Rattle.std.specs.Prelude.{◌≤◌, IfOk, length};
ghost use Rattle.take_graphs.specs.TakeLabels.{take_done, take_extend};
ghost use Rattle.count_graphs.specs.Counts.{uncounted};
ghost use Rattle.term_lines.specs.Questions.{AreCapped, AreHeavy, IsTermQuestion, StandsFor};

use count_graphs::uncounted;
use duty_calendar::Memory;
use lens_classes::Terms;
use roster_model::{Lens, Node, Problem};
use std::alloc::Global;
use take_graphs::{TakeGraph, take_graph};

/// What is asked of a member's lines: of those that keep terms and obey a node, by a lens that looks at pairings one by one,
/// where the pairings have weights.
#[derive(Clone, Copy)]
pub struct TermQuestion<'a> {
    pub problem: &'a Problem,
    pub member: u32,
    pub terms: &'a Terms,
    pub node: &'a Node,
    pub lens: &'a Lens,
    pub weights: &'a [i64],
}

impl TermQuestion<'_> {
    /// The graph of the lines that keep the terms beside what they count. Its chains gain more than the lowest bound.
    pub(crate) fn bare_graph<const N: usize>(&self, alloc: Global) -> Result<TakeGraph<N>, Memory>
        requires asked { IsTermQuestion self.now }
        requires windows { length self.now.lens.now.windows ≤ N }
        requires narrow { N ≤ 16 }
        ensures stands { IfOk result (λ g. StandsFor take_extend take_done g.graph g.adds self.now
            (uncounted self.now.terms.now)) }
        ensures caps { IfOk result (λ g. AreCapped g.graph.arcs self.now.terms.now.high) }
        ensures heavy { IfOk result (λ g. AreHeavy take_extend take_done g.graph) }
    {
        let plain = uncounted(self.terms);
        let lines = take_graph::<N>(
            alloc,
            self.problem,
            self.member,
            &plain,
            self.node,
            self.lens,
            self.weights,
        )?;
        Ok(lines)
    }
}
