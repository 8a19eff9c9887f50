//! Ends of sets of bits, with what all bits weigh.

ghost use Rattle.std.specs.Prelude.{◌≡◌, ◌+◌, ◌<◌, ◌^◌, length, sum};
ghost use Rattle.label_lattice.specs.Mask.{mask_done, unset_weight};

use crate::bits::all_weights;
use label_lattice::MaskEnd;

/// An end, and what all bits weigh there.
#[derive(Drop)]
pub(crate) struct Weighed {
    pub end: MaskEnd,
    pub whole: u64,
    ghost all: { whole ≡ sum end.weights },
    ghost small: { whole < 2 ^ 39 },
}

/// What the bits of a set weigh together.
pub(crate) fn weight_of_set(weights: &[u32; 64], bits: u64) -> u64
    requires small { sum weights.now < 2 ^ 39 }
    ensures weight { unset_weight bits weights.now (length weights.now) + result ≡ sum weights.now }
{
    let mut total = 0u64;
    let mut left = bits;
    while left != 0 {
        let place = left.trailing_zeros();
        total += u64::from(weights[place as usize]);
        left ^= 1 << place;
    }
    total
}

impl Weighed {
    pub(crate) fn new(end: MaskEnd) -> Weighed
        ensures end { result.end ≡ end }
    {
        let whole = all_weights(&end.weights);
        Weighed { end, whole }
    }

    /// The set is done at the end. No more than its bits are looked at.
    pub(crate) fn is_done(&self, bits: u64) -> bool
        ensures done { result ≡ mask_done (record { bits = bits }) self.now.end }
    {
        weight_of_set(&self.end.weights, bits) + u64::from(self.end.floor) <= self.whole
    }
}
