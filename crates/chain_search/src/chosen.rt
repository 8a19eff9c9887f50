//! Groups of bits that were chosen.

ghost use Rattle.std.specs.Prelude.{◌≤◌, ◌<◌, ◌^◌, All, length};

/// Bits that are told as one, and what they weigh together at the end.
#[derive(Clone, Copy, Debug, Drop, PartialEq, Eq)]
pub struct Chosen {
    pub bits: u64,
    pub weight: u64,
}

/// The chosen groups of bits of a set, the first one as the lowest bit of the state, which is set where all bits of the
/// group are. It follows each step that clears all bits of a group or none, and sets all or none. It knows ends at
/// which no two groups share a bit, the bits of each weigh no less, and all bits weigh no more than the floor and what
/// is allowed.
#[derive(Drop)]
pub struct Bits {
    pub chosen: Vec<Chosen>,
    pub allowed: u64,
    ghost few: { length chosen.items ≤ 14 },
    ghost inside: { All (λ bit. bit.bits < 2 ^ 64) chosen.items },
    ghost light: { All (λ bit. bit.weight < 2 ^ 39) chosen.items },
    ghost small: { allowed < 2 ^ 39 },
}
