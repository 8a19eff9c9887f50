//! Lines as keys.
ghost use Rattle.std.specs.Prelude.{◌≡◌};
ghost use Rattle.std.specs.Hash as fed;
ghost use Rattle.std.specs.Cmp.Rules.{hashing};
ghost use Rattle.std.proofs.Common.{rules};

use roster_model::Line;
use std::hash::{Hash, Hasher};
use std::marker::Model;

/// A line that is found by its pairings.
#[derive(Drop, PartialEq, Eq)]
pub(crate) struct KeptLine {
    line: Line,
}

impl Model for KeptLine {
    ghost use Rattle.std.specs.Prelude.{ℕ, List as Sequence};

    ghost Value = { Sequence ℕ };

    ghost view = { λ k. k.line };

    ghost inverse = { λ line. record { line = line } };
}

impl KeptLine {
    /// The line as a key.
    pub(crate) fn new(line: Line) -> KeptLine
        ensures line { result ≡ line }
    {
        KeptLine { line }
    }

    /// The line.
    pub(crate) fn line(&self) -> &Line
        ensures line { result.now ≡ self.now }
    {
        &self.line
    }

    /// The line, given back.
    pub(crate) fn into_line(self) -> Line
        ensures line { result ≡ self }
    {
        self.line
    }
}

impl Hash for KeptLine {
    ghost hash_input = { λ line. fed.slice fed.u32 line };

    ghost respects_eq = { Prim.search (hashing, rules) };

    fn hash<H: Hasher>(&self, state: &mut H) {
        self.line.pairings().hash(state);
    }
}
