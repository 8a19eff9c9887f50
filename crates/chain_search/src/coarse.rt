//! What resources look like from afar.

ghost use Rattle.std.specs.Prelude.{◌≡◌, ◌<◌, ◌≤◌, ◌^◌, ℕ, Bool, Option};
ghost use Rattle.std.specs.List.{list_all};
ghost use Rattle.chain_search.specs.Shifts.{IsShifted};
ghost use Rattle.chain_search.specs.Views.{CoarseLaws, follows};

use crate::shifts::Shift;
use label_lattice::Resource;
use label_setter::{Arc, Graph};

/// A view of a resource that tells finitely many states apart. Along a step that the view follows a state goes on as
/// the move of the step says, whatever else the resource holds; a view may round, and so go on to a state of more.
pub trait Coarse<R: Resource> {
    /// What a step does to states.
    type Move: Copy;

    /// How many states there are.
    ghost count: { Self → ℕ };

    /// The state of a resource.
    ghost shows: { Self → R → ℕ };

    /// A resource is seen in this state: in its own, or in one from which no less may come.
    ghost sees: { Self → R → ℕ → Bool };

    /// What a move makes of a state; nothing where no resource in this state takes the step.
    ghost moves: { Self.Move → ℕ → Option ℕ };

    /// The move of a step.
    ghost move_of: { Self → R.Step → Self.Move };

    /// A resource in this state may be done.
    ghost ends: { Self → ℕ → Bool };

    /// The view follows the step.
    ghost fits_step: { Self → R.Step → Bool };

    /// The view knows this end.
    ghost fits_end: { Self → R.End → Bool };

    fn count(&self) -> usize
        ensures count { result ≡ count self.now }
        ensures few { result ≤ 2 ^ 32 };

    fn shows(&self, resource: &R) -> u32
        ensures shows { result ≡ shows self.now resource.now };

    fn moves(by: &Self::Move, state: u32) -> Option<u32>
        ensures moves { result ≡ moves by.now state };

    /// The move in one word, as far as it goes on states that are counted.
    fn shift(&self, by: &Self::Move) -> Shift
        ensures shift { (state : ℕ) → state < count self.now → IsShifted result state (moves by.now state) };

    fn move_of(&self, step: &R::Step) -> Self::Move
        ensures is_move { result ≡ move_of self.now step.now };

    fn ends(&self, state: u32) -> bool
        ensures ends { result ≡ ends self.now state };

    fn fits_step(&self, step: &R::Step) -> bool
        ensures fits { result ≡ fits_step self.now step.now };

    fn fits_end(&self, end: &R::End) -> bool
        ensures fits { result ≡ fits_end self.now end.now };

    /// The states that are shown are among those that are counted; states in which resources are seen go on by the moves
    /// to such states, and to those that may be done.
    ghost laws: { (view : Self) → CoarseLaws R.extend R.done (count view) (shows view) (sees view) (λ step. moves (move_of view step)) (ends view) (fits_step view) (fits_end view) };
}

/// The view follows the steps of these arcs.
fn fits_all<R: Resource, C: Coarse<R>>(arcs: &[Arc<R::Step>], coarse: &C) -> bool
    ensures fits { result ≡ list_all (λ arc. C.fits_step coarse.now arc.step) arcs.now }
{
    arcs.iter().all(|arc| coarse.fits_step(&arc.step))
}

/// The view follows the steps of all arcs of the graph, and knows its end.
pub fn follows<R: Resource, C: Coarse<R>>(graph: &Graph<R>, coarse: &C) -> bool
    ensures follows { result ≡ follows (C.fits_step coarse.now) (C.fits_end coarse.now) graph.now }
{
    coarse.fits_end(graph.end()) && fits_all(graph.arcs(), coarse)
}
