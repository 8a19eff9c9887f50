//! The lines of the chains of graphs.
ghost use Rattle.std.specs.Prelude.{◌≡◌, ◌≤ℤ◌, ℕ, ℤ, List, IfNone, IfOk, IfSome};
ghost use Rattle.label_setter.specs.Chains.{IsFeasible};
ghost use Rattle.graph_climbs.specs.Parts.{parts_done, parts_extend};
ghost use Rattle.roster_model.specs.Weights.{weight_of};
ghost use Rattle.term_lines.specs.Overs.{IsTermBest};
ghost use Rattle.term_lines.specs.Questions.{KeepsTerms, StandsFor};

use crate::lines::chain_line;
use crate::priced::PricedLine;
use crate::question::TermQuestion;
use duty_calendar::Memory;
use label_lattice::{Mask, Pair, Resource, Span};
use label_setter::{Graph, Traced};
use std::alloc::Global;

impl TermQuestion<'_> {
    /// The line of a chain of a graph.
    pub(crate) fn line_of<B: Resource>(
        &self,
        alloc: Global,
        _graph: &Graph<Pair<Span, Pair<Mask, B>>>,
        adds: &[u32],
        traced: &Traced,
    ) -> Result<PricedLine, Memory>
        requires stands { StandsFor (parts_extend B.extend) (parts_done B.done) _graph.now adds.now
            self.now self.now.terms.now }
        requires chain { IsFeasible (parts_extend B.extend) (parts_done B.done) _graph.now
            traced.now.arcs traced.now.gain }
        ensures line { IfOk result (λ b. KeepsTerms self.now b.line) }
        ensures weight { IfOk result (λ b. weight_of self.now.weights.now b.line ≡ b.weight) }
        ensures gain { IfOk result (λ b. b.weight ≡ traced.now.gain) }
    {
        let count = self.problem.base.pairings.len() as u32;
        let line = chain_line(alloc, count, adds, traced.arcs.as_slice())?;
        Ok(PricedLine {
            weight: traced.gain,
            line,
        })
    }

    /// The line of the best chain of a graph.
    pub(crate) fn best_line<B: Resource>(
        &self,
        alloc: Global,
        graph: &Graph<Pair<Span, Pair<Mask, B>>>,
        adds: &[u32],
        best: Option<Traced>,
    ) -> Result<Option<PricedLine>, Memory>
        requires stands { StandsFor (parts_extend B.extend) (parts_done B.done) graph.now adds.now
            self.now self.now.terms.now }
        requires attained { IfSome best (λ traced. IsFeasible (parts_extend B.extend)
            (parts_done B.done) graph.now traced.arcs traced.gain) }
        requires greatest { IfSome best (λ traced. (chain : List ℕ) (gain : ℤ)
            → IsFeasible (parts_extend B.extend) (parts_done B.done) graph.now chain gain
            → gain ≤ℤ traced.gain) }
        requires none { IfNone best ((chain : List ℕ) (gain : ℤ)
            → IsFeasible (parts_extend B.extend) (parts_done B.done) graph.now chain gain → ⊥) }
        ensures best { IfOk result (IsTermBest self.now) }
    {
        let Some(traced) = best else {
            return Ok(None);
        };
        let priced = self.line_of::<B>(alloc, graph, adds, &traced)?;
        Ok(Some(priced))
    }
}
