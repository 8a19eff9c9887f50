//! A view that sees nothing.

ghost use Rattle.std.specs.Prelude.{Some, true};
ghost use Rattle.chain_search.specs.Blinds.{blind_laws};

use crate::coarse::Coarse;
use crate::shifts::Shift;
use label_lattice::Resource;

/// One state for all resources, so that gains alone count. It follows each graph.
#[derive(Clone, Copy, Debug, Drop, PartialEq, Eq)]
pub struct Blind;

impl<R: Resource> Coarse<R> for Blind {
    type Move = ();

    ghost count = { λ view. 1 };

    ghost shows = { λ view a. 0 };

    ghost sees = { λ view a state. true };

    ghost moves = { λ by state. Some 0 };

    ghost move_of = { λ view step. record {} };

    ghost ends = { λ view state. true };

    ghost fits_step = { λ view step. true };

    ghost fits_end = { λ view end. true };

    fn count(&self) -> usize {
        1
    }

    fn shows(&self, _resource: &R) -> u32 {
        0
    }

    fn moves(_by: &(), _state: u32) -> Option<u32> {
        Some(0)
    }

    fn shift(&self, _by: &()) -> Shift {
        Shift::Floor(0)
    }

    fn move_of(&self, _step: &R::Step) {}

    fn ends(&self, _state: u32) -> bool {
        true
    }

    fn fits_step(&self, _step: &R::Step) -> bool {
        true
    }

    fn fits_end(&self, _end: &R::End) -> bool {
        true
    }

    ghost laws = { λ view. blind_laws R.extend R.done };
}
