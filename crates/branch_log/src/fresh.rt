//! Closers that are made for a problem.
ghost use Rattle.std.specs.Prelude.{◌≡◌, ◌≤◌, ◌↔◌, IfOk};
ghost use Rattle.roster_model.specs.declared.problem.Problem.{Problem};

use crate::closer::Closer;
use duty_calendar::Memory;
use roster_model::{Awarded, Line, Problem, Roster};
use std::alloc::Global;

/// A closer that can be made for a problem, and that may know something before it begins.
pub trait FreshCloser: Closer + Drop {
    /// A closer for the problem, which shows nodes open by so many rounds, from 1 to 2,000.
    fn new(alloc: Global, problem: &Problem, count: u32) -> Result<Self, Memory>
        requires some_rounds { 1 ≤ count }
        requires few_rounds { count ≤ 2000 }
        ensures rounds { IfOk result (λ made. Self.rounds made ≡ count) }
        ensures fits { IfOk result (λ made. Self.fits made problem.now) };

    /// Learns from the award of a problem that differs by little.
    fn learn(
        &mut self,
        alloc: Global,
        problem: &Problem,
        roster: &Roster,
        awarded: &Awarded,
    ) -> Result<(), Memory>
        ensures rounds { Self.rounds self.new ≡ Self.rounds self.old }
        ensures fits { (other : Problem) → Self.fits self.new other ↔ Self.fits self.old other };

    /// Keeps a line of the member that was found elsewhere.
    fn offer(
        &mut self,
        alloc: Global,
        problem: &Problem,
        member: u32,
        line: &Line,
    ) -> Result<(), Memory>
        ensures rounds { Self.rounds self.new ≡ Self.rounds self.old }
        ensures fits { (other : Problem) → Self.fits self.new other ↔ Self.fits self.old other };
}
