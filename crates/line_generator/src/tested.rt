//! What searches for lines ask of their caller, where it is not known.
ghost use Rattle.std.specs.Prelude.{◌<◌, All, IsTrue, length};
ghost use Rattle.roster_model.specs.Weights.{AreSmallWeights};

use roster_model::Problem;

/// Whether each weight is within its limit.
pub fn are_small(weights: &[i64]) -> bool
    ensures small { IsTrue result → AreSmallWeights weights.now }
    ensures yes { AreSmallWeights weights.now → IsTrue result }
{
    for weight in weights {
        if *weight < -2_147_483_647 || *weight > 2_147_483_647 {
            return false;
        }
    }
    true
}

/// Whether all pairings of the line are of the problem.
pub fn are_known(problem: &Problem, line: &[u32]) -> bool
    ensures known { IsTrue result → All (λ p. p < length problem.now.base.pairings) line.now }
    ensures yes { All (λ p. p < length problem.now.base.pairings) line.now → IsTrue result }
{
    let count = problem.base.pairings.len();
    line.iter().all(|pairing| (*pairing as usize) < count)
}
