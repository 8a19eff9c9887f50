//! Graphs that count pairings too, and the order of their labels.
ghost use Rattle.std.specs.Prelude.{◌≡◌, ℕ, Bool, IfOk};
ghost use Rattle.chain_search.specs.Orders.{IsOrder};
ghost use Rattle.count_graphs.specs.Counts.{uncounted};
ghost use Rattle.graph_climbs.specs.Parts.{PartsOf, parts_done, parts_extend};
ghost use Rattle.count_graphs.specs.CountLabels.{count_done, count_extend};
ghost use Rattle.term_lines.specs.Counting.{bare_label, counting_spares};
ghost use Rattle.term_lines.specs.Questions.{AreCapped, AreHeavy, IsTermQuestion, StandsFor};

use crate::question::TermQuestion;
use chain_search::Order;
use count_graphs::{CountLabel, count_graph};
use duty_calendar::Memory;
use label_lattice::{Lattice, Mask, Pair, Resource, Span};
use label_setter::Graph;
use std::alloc::Global;

/// The order of the labels of a graph that counts, by that of the labels of the graph that it counts for.
#[derive(Clone, Copy)]
pub(crate) struct Counting<'a, O> {
    pub inner: &'a O,
}

/// The label without what is still wanted.
fn bare_label<B: Resource>(label: &CountLabel<B>) -> Pair<Span, Pair<Mask, B>>
    ensures bare { result ≡ bare_label label.now }
{
    Pair {
        first: label.first,
        second: Pair {
            first: label.second.first,
            second: label.second.second.second,
        },
    }
}

impl<'a, B, O> Order<CountLabel<B>> for Counting<'a, O>
where
    B: Resource,
    O: Order<Pair<Span, Pair<Mask, B>>>,
{
    ghost use Rattle.term_lines.specs.Counting.{counting_spares};

    ghost spares = { λ order. counting_spares (O.spares order.inner.now) };

    fn spares(&self, place: u32, first: &CountLabel<B>, second: &CountLabel<B>) -> bool {
        let (one, two) = (&first.second.second.first, &second.second.second.first);
        one.below(two)
            && self
                .inner
                .spares(place, &bare_label::<B>(first), &bare_label::<B>(second))
    }
}

impl TermQuestion<'_> {
    /// The graph whose chains are the lines that have what the terms count, by one whose chains are the lines that keep the
    /// terms beside that.
    pub(crate) fn counted_graph<B: Resource>(
        &self,
        alloc: Global,
        graph: &Graph<Pair<Span, Pair<Mask, B>>>,
        adds: &[u32],
    ) -> Result<Graph<CountLabel<B>>, Memory>
        requires asked { IsTermQuestion self.now }
        requires stands { StandsFor (parts_extend B.extend) (parts_done B.done) graph.now adds.now
            self.now (uncounted self.now.terms.now) }
        requires caps { AreCapped graph.now.arcs self.now.terms.now.high }
        ensures stands { IfOk result (λ g. StandsFor (count_extend B.extend) (count_done B.done) g
            adds.now self.now self.now.terms.now) }
        ensures caps { IfOk result (λ g. AreCapped g.arcs self.now.terms.now.high) }
        ensures heavy { IfOk result (AreHeavy (count_extend B.extend) (count_done B.done)) }
        ensures order { IfOk result (λ g. (spares : ℕ → PartsOf B → PartsOf B → Bool)
            → IsOrder (parts_extend B.extend) (parts_done B.done) graph.now spares
            → IsOrder (count_extend B.extend) (count_done B.done) g (counting_spares spares)) }
    {
        let counting = count_graph::<B>(alloc, self.problem, self.member, self.terms, graph, adds)?;
        Ok(counting)
    }
}
