//! The goals of a roster's places.
ghost use Rattle.std.specs.Prelude.{◌≡◌, ◌+◌, ◌^◌, ◌<◌, length, All, IfOk};
ghost use Rattle.roster_model.specs.Awards.{above_at};

use duty_calendar::Memory;
use roster_model::Goal;
use std::alloc::Global;

/// The goal of a place: the scores before it, and one more than the score at it.
pub(crate) fn goal_above(alloc: Global, scores: &[u32], place: usize) -> Result<Goal, Memory>
    requires place { place < length scores.now }
    requires room { All (λ s. s + 1 < 2 ^ 32) scores.now }
    ensures value { IfOk result (λ goal. goal ≡ above_at scores.now place) }
{
    Goal::reaching(alloc, &scores[..place], scores[place] + 1)
}
