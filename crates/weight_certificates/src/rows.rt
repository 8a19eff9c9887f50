//! Rows of integers, one for each pairing.
ghost use Rattle.std.specs.Prelude.{◌≡◌, ℕ, ◌<◌, ◌≤◌, ◌^◌, length, pos, ◌+ℤ◌, ◌-ℤ◌, All, cond};
ghost use Rattle.roster_model.specs.Scores.{is_flown};
ghost use Rattle.roster_model.specs.Rosters.{need_of};
ghost use Rattle.roster_model.specs.Rounds.{miss_of};
ghost use Rattle.roster_model.specs.Weights.{weight_at};
ghost use Rattle.weight_certificates.specs.Rows.{AreWithin, product_of};

use crate::crews::need_of;
use roster_model::{Line, Problem};

/// The inner product of two rows.
pub(crate) fn product(xs: &[i64], ys: &[i64]) -> i64
    requires same { length xs.now ≡ length ys.now }
    requires few { length xs.now ≤ 600 }
    requires xs_small { AreWithin 2147483647 xs.now }
    requires ys_small { AreWithin 200 ys.now }
    ensures value { result ≡ product_of xs.now ys.now }
{
    let mut sum = 0;
    for (k, x) in xs.iter().enumerate() {
        sum += *x * ys[k];
    }
    sum
}

/// Takes one row from another, entry by entry.
pub(crate) fn subtract(from: &mut [i64], row: &[i64])
    requires same { length from.old ≡ length row.now }
    requires from_small { AreWithin (2 ^ 40) from.old }
    requires row_small { AreWithin (2 ^ 40) row.now }
    ensures less { (k : ℕ) → k < length from.old
        → weight_at from.new k ≡ weight_at from.old k -ℤ weight_at row.now k }
{
    for (k, x) in row.iter().enumerate() {
        from[k] -= *x;
    }
}

/// Sets a row to how many members each pairing needs.
pub(crate) fn set_needs(row: &mut [i64], problem: &Problem)
    requires per_pairing { length row.old ≡ length problem.now.base.pairings }
    ensures needs { (p : ℕ) → p < length problem.now.base.pairings
        → weight_at row.new p ≡ pos (need_of problem.now p) }
    ensures within { AreWithin 200 row.new }
{
    for p in 0..problem.base.pairings.len() as u32 {
        row[p as usize] = i64::from(need_of(problem, p));
    }
}

/// Adds one at each pairing of a line.
fn count_line(counts: &mut [i64], line: &Line)
    requires in_range { All (λ p. p < length counts.old) line.now }
    requires few { length counts.old ≤ 600 }
    requires small { AreWithin (2 ^ 40) counts.old }
    ensures more { (k : ℕ) → k < length counts.old
        → weight_at counts.new k ≡ weight_at counts.old k +ℤ pos (cond (is_flown line.now k) 1 0) }
{
    for p in line.pairings() {
        counts[*p as usize] += 1;
    }
}

/// Sets a row to how many lines of a round have each pairing, less its need.
pub(crate) fn set_miss(row: &mut [i64], problem: &Problem, round: &[Line])
    requires per_pairing { length row.old ≡ length problem.now.base.pairings }
    requires per_member { length round.now ≡ length problem.now.base.members }
    requires in_range { All (All (λ p. p < length problem.now.base.pairings)) round.now }
    ensures miss { (p : ℕ) → p < length problem.now.base.pairings
        → weight_at row.new p ≡ miss_of problem.now round.now p }
    ensures within { AreWithin 200 row.new }
{
    for p in 0..problem.base.pairings.len() as u32 {
        row[p as usize] = -i64::from(need_of(problem, p));
    }
    for line in round {
        count_line(row, line);
    }
}
