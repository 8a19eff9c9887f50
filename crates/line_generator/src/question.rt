//! What is asked of a member's lines by a lens.
ghost use Rattle.std.specs.Prelude.{◌≡◌, ◌↔◌, ℕ, List, false};
ghost use Rattle.roster_model.specs.Lenses.{IsLensLine};
ghost use Rattle.roster_model.specs.declared.node.Decision.{Decision};
ghost use Rattle.lens_classes.specs.TermLines.{IsTermLine};
ghost use Rattle.term_lines.specs.Questions.{IsTermQuestionOf};
ghost use Rattle.line_generator.specs.Questions.{IsQuestion};

use lens_classes::{Terms, plain_terms};
use roster_model::{Goal, Lens, Node, Problem};

/// What is asked of a member's lines: of those that pass a lens and meet goal and node, where the pairings have weights.
#[derive(Clone, Copy)]
pub(crate) struct Question<'a> {
    pub problem: &'a Problem,
    pub member: u32,
    pub goal: &'a Goal,
    pub node: &'a Node,
    pub lens: &'a Lens,
    pub weights: &'a [i64],
}

impl Question<'_> {
    /// The terms of a lens that looks at pairings one by one, which count nothing: its lines are those that keep them.
    pub(crate) fn plain_terms(&self) -> Terms
        requires asked { IsQuestion self.now }
        requires plain { self.now.lens.now.whole ≡ false }
        ensures asked { IsTermQuestionOf self.now.problem.now self.now.member self.now.node.now
            self.now.lens.now result self.now.weights.now }
        ensures none { result.counted ≡ 0 }
        ensures same { (node : List Decision) (line : List ℕ)
            → IsLensLine self.now.problem.now self.now.member self.now.goal.now node
            self.now.lens.now line
            ↔ IsTermLine self.now.problem.now self.now.member node self.now.lens.now result line }
    {
        plain_terms(self.problem, self.member, self.goal, self.lens)
    }
}
