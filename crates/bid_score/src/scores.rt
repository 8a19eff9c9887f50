//! The scores of a roster.
ghost use Rattle.std.specs.Prelude.{◌≡◌, ◌<◌, ◌∷◌, ◌++◌, [], length, All, IfOk, OnOk};
ghost use Rattle.roster_model.specs.Rosters.{scores_of};

use crate::grants::score;
use duty_calendar::{List, Memory};
use roster_model::{Problem, Roster};
use std::alloc::Global;

/// Appends a score.
fn add(scores: &mut List<u32>, score: u32) -> Result<(), Memory>
    ensures ok { OnOk result (scores.new ≡ scores.old ++ score ∷ []) }
{
    match scores.push(score) {
        Ok(()) => Ok(()),
        Err(_) => Err(Memory::NoMemory),
    }
}

/// The score of each line, in the order of the members.
pub fn scores_of(alloc: Global, problem: &Problem, roster: &Roster) -> Result<List<u32>, Memory>
    requires lines { length roster.now ≡ length problem.now.base.members }
    requires pairings { All (All (λ p. p < length problem.now.base.pairings)) roster.now }
    ensures value { IfOk result (λ scores. scores ≡ scores_of problem.now roster.now) }
{
    let mut scores = List::new(alloc);
    for (member, line) in roster.as_slice().iter().enumerate() {
        add(&mut scores, score(problem, member as u32, line))?;
    }
    Ok(scores)
}
