//! What the definitions of made months say.
ghost use Rattle.std.specs.Prelude.{◌≡◌, ◌<◌, ◌≤◌, ◌^◌, ℕ, length, map};
ghost use Rattle.std.specs.List.{range_with_len};
ghost use Rattle.roster_model.specs.declared.problem.Problem.{Problem as Month};
ghost use Rattle.instance_maker.specs.Draws.{below};
ghost use Rattle.instance_maker.specs.Months.{IsMade, made_pairings, made_bids, pairing_name};

/// A draw lies below its limit, and the first one of 31 bits that 7 gives is 1,059,165,278. A number
/// makes one month of each size, with as many pairings as were asked for, named in order, and a list
/// of bids for each member.
pub fn made_months_are_as_asked()
    ensures draws { (k state : ℕ) → 1 ≤ k → (below k state).0 < k }
    ensures first { (below (2 ^ 31) 7).0 ≡ 1059165278 }
    ensures one { (number members pairings : ℕ) (a b : Month) → IsMade number members pairings a
        → IsMade number members pairings b → a ≡ b }
    ensures sizes { (number members pairings : ℕ)
        → (length (made_pairings number members pairings) ≡ pairings)
        × (length (made_bids number members pairings) ≡ members) }
    ensures names { (number members pairings : ℕ)
        → map (λ p. p.name) (made_pairings number members pairings)
        ≡ map pairing_name (range_with_len 0 pairings) }
{}
