//! Resources that hold a last free block.

ghost use Rattle.std.specs.Prelude.{◌≡◌, Some};
ghost use Rattle.label_lattice.specs.declared.pauses.Pause.{Pause as PauseOf};
ghost use Rattle.label_lattice.specs.declared.pauses.PauseStep.{PauseStep as PauseStepOf};
ghost use Rattle.label_lattice.specs.Tally.{tally_extend};
ghost use Rattle.chain_search.specs.Pauseds.{PausedLaw, first_paused, later_paused};

use label_lattice::{Pair, Pause, PauseStep, Resource, Tally};

/// A resource that holds a last free block beside others, which goes on as it does alone.
pub trait Paused: Resource {
    /// The last free block.
    ghost pause: { Self → PauseOf };

    /// What a step does to it.
    ghost pause_step: { Self.Step → PauseStepOf };

    fn pause(&self) -> Pause
        ensures pause { result ≡ pause self.now };

    fn pause_step(step: &Self::Step) -> PauseStep
        ensures step { result ≡ pause_step step.now };

    /// Where a step extends the resource, it extends the last free block.
    ghost paused_law: { PausedLaw Self.extend pause pause_step };
}

impl<B: Resource> Paused for Pair<Pause, B> {
    ghost pause = { λ a. a.first };

    ghost pause_step = { λ step. step.0 };

    fn pause(&self) -> Pause {
        self.first
    }

    fn pause_step(step: &(PauseStep, B::Step)) -> PauseStep {
        step.0
    }

    ghost paused_law = { first_paused B.extend };
}

impl<const N: usize, B: Paused> Paused for Pair<Tally<N>, B> {
    ghost pause = { λ a. B.pause a.second };

    ghost pause_step = { λ step. B.pause_step step.1 };

    fn pause(&self) -> Pause {
        self.second.pause()
    }

    fn pause_step(step: &(<Tally<N> as Resource>::Step, B::Step)) -> PauseStep {
        B::pause_step(&step.1)
    }

    ghost paused_law = { later_paused tally_extend B.extend B.pause B.pause_step B.paused_law };
}
