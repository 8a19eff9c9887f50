//! Views of a part of a pair.

ghost use Rattle.chain_search.specs.PartLaws.{first_laws, second_laws};

use crate::coarse::Coarse;
use crate::shifts::Shift;
use label_lattice::{Pair, Resource};

/// A view of the first part.
#[derive(Clone, Copy, Debug, Drop, PartialEq, Eq)]
pub struct First<C> {
    pub view: C,
}

/// A view of the second part.
#[derive(Clone, Copy, Debug, Drop, PartialEq, Eq)]
pub struct Second<C> {
    pub view: C,
}

impl<A: Resource, B: Resource, C: Coarse<A>> Coarse<Pair<A, B>> for First<C> {
    type Move = C::Move;

    ghost count = { λ part. C.count part.view };

    ghost shows = { λ part a. C.shows part.view a.first };

    ghost sees = { λ part a. C.sees part.view a.first };

    ghost moves = { C.moves };

    ghost move_of = { λ part step. C.move_of part.view step.0 };

    ghost ends = { λ part state. C.ends part.view state };

    ghost fits_step = { λ part step. C.fits_step part.view step.0 };

    ghost fits_end = { λ part end. C.fits_end part.view end.0 };

    fn count(&self) -> usize {
        self.view.count()
    }

    fn shows(&self, resource: &Pair<A, B>) -> u32 {
        self.view.shows(&resource.first)
    }

    fn moves(by: &C::Move, state: u32) -> Option<u32> {
        C::moves(by, state)
    }

    fn shift(&self, by: &C::Move) -> Shift {
        self.view.shift(by)
    }

    fn move_of(&self, step: &(A::Step, B::Step)) -> C::Move {
        self.view.move_of(&step.0)
    }

    fn ends(&self, state: u32) -> bool {
        self.view.ends(state)
    }

    fn fits_step(&self, step: &(A::Step, B::Step)) -> bool {
        self.view.fits_step(&step.0)
    }

    fn fits_end(&self, end: &(A::End, B::End)) -> bool {
        self.view.fits_end(&end.0)
    }

    ghost laws = { λ part. first_laws A.extend A.done B.extend B.done (C.laws part.view) };
}

impl<A: Resource, B: Resource, C: Coarse<B>> Coarse<Pair<A, B>> for Second<C> {
    type Move = C::Move;

    ghost count = { λ part. C.count part.view };

    ghost shows = { λ part a. C.shows part.view a.second };

    ghost sees = { λ part a. C.sees part.view a.second };

    ghost moves = { C.moves };

    ghost move_of = { λ part step. C.move_of part.view step.1 };

    ghost ends = { λ part state. C.ends part.view state };

    ghost fits_step = { λ part step. C.fits_step part.view step.1 };

    ghost fits_end = { λ part end. C.fits_end part.view end.1 };

    fn count(&self) -> usize {
        self.view.count()
    }

    fn shows(&self, resource: &Pair<A, B>) -> u32 {
        self.view.shows(&resource.second)
    }

    fn moves(by: &C::Move, state: u32) -> Option<u32> {
        C::moves(by, state)
    }

    fn shift(&self, by: &C::Move) -> Shift {
        self.view.shift(by)
    }

    fn move_of(&self, step: &(A::Step, B::Step)) -> C::Move {
        self.view.move_of(&step.1)
    }

    fn ends(&self, state: u32) -> bool {
        self.view.ends(state)
    }

    fn fits_step(&self, step: &(A::Step, B::Step)) -> bool {
        self.view.fits_step(&step.1)
    }

    fn fits_end(&self, end: &(A::End, B::End)) -> bool {
        self.view.fits_end(&end.1)
    }

    ghost laws = { λ part. second_laws A.extend A.done B.extend B.done (C.laws part.view) };
}
