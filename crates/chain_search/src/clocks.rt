//! What the time is at the place of a label.

ghost use Rattle.std.specs.Prelude.{true};
ghost use Rattle.chain_search.specs.Clocks.{clock_below, clock_extend, clock_meet, clock_rank};
ghost use Rattle.chain_search.specs.ClockLaws.{clock_extends, clock_lattice_laws, clock_rank_law};

use label_lattice::{Lattice, Resource};

/// The time of a place, not before `early` and not after `late`. One that is below knows less, and takes more steps.
#[derive(Clone, Copy)]
pub struct Clock {
    pub early: u32,
    pub late: u32,
}

/// From the time of one place to that of another. It is taken where the time may be the first of both.
#[derive(Clone, Copy)]
pub struct ClockStep {
    pub from: u32,
    pub to: u32,
}

impl Lattice for Clock {
    ghost below = { clock_below };

    ghost meet = { clock_meet };

    ghost rank = { clock_rank };

    fn below(&self, other: &Self) -> bool {
        self.early <= other.early && other.late <= self.late
    }

    fn meet(&self, other: &Self) -> Self {
        Clock {
            early: self.early.min(other.early),
            late: self.late.max(other.late),
        }
    }

    fn rank(&self) -> u64 {
        u64::from(self.early)
    }

    ghost lattice_laws = { clock_lattice_laws };

    ghost rank_law = { clock_rank_law };
}

impl Resource for Clock {
    type Step = ClockStep;

    type End = ();

    ghost extend = { clock_extend };

    ghost done = { λ _ _. true };

    fn extend(&self, step: &ClockStep) -> Option<Self> {
        if self.early <= step.from && step.from <= self.late {
            return Some(Clock {
                early: step.to,
                late: step.to,
            });
        }
        None
    }

    fn done(&self, _end: &()) -> bool {
        true
    }

    ghost resource_laws = { record { extends = clock_extends; finishes = λ a b e p d. d } };
}
