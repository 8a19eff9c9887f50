//! The bids that a lens tracks, as bits of a mask that are set where a bid is not granted.
ghost use Rattle.std.specs.Prelude.{◌≡◌, ◌≢◌, ℕ, ◌+◌, ◌<◌, ◌≤◌, ◌^◌, ◌&&◌, ◌==◌, false, length, slice_get, slice_index, All, if◌then◌else◌};
ghost use Rattle.std.specs.Int.{bit_at};
ghost use Rattle.std.specs.Option.{option_map_or};
ghost use Rattle.roster_model.specs.Lenses.{is_tracked};
ghost use Rattle.roster_model.specs.Scores.{bids_of};
ghost use Rattle.line_items.specs.Masks.{IsBidsEnd, IsMask, asked_bid, end_floor, end_weight, is_bit, is_item_hit, is_marked};
ghost use Rattle.line_items.specs.declared.masks.Mark.TheVariants.{Start, Clear, Set};

use crate::hits::{is_hit, is_spoiled, is_wanting};
use label_lattice::{MaskEnd, MaskStep};
use lens_classes::Terms;
use roster_model::{Bid, Lens, Problem, Wish};

/// Which bits of a mask: those of the bids that the member's own events leave open or spoil, those that an item
/// clears, or those that it sets. An item is a number of a pairing, or a number behind all pairings.
#[derive(Clone, Copy)]
pub enum Mark {
    Start,
    Clear(u32),
    Set(u32),
}

/// What a demanded bid weighs beside its weight: more than all bids of a member.
const DEMAND: u32 = 100_000;

/// More than all bids of a member weigh.
const UNREACHABLE: u64 = 64_001;

/// Whether the bit is set.
#[tactic(auto, using(std::proofs::lemmas::Nat::Bits::shr_and_one))]
pub fn is_set(bits: u64, bit: u32) -> bool
    requires in_bits { bit < 64 }
    ensures set { result ≡ (bit_at bits bit == 1) }
{
    (bits >> bit) & 1 == 1
}

/// The member's bids.
#[tactic(auto, using(crate::proofs::MaskParts::few_bids, crate::proofs::MaskParts::small_bids))]
pub fn bids_of(problem: &Problem, member: u32) -> &[Bid]
    requires member { member < length problem.now.base.members }
    ensures bids { result.now ≡ bids_of problem.now member }
    ensures few { length result.now ≤ 64 }
    ensures each { All (λ b. b.weight ≤ 1000) result.now }
{
    let lists = problem.bids.as_slice();
    lists[member as usize].as_slice()
}

/// Whether the item is a pairing of the wish's kind.
fn is_item_hit(problem: &Problem, wish: &Wish, item: u32) -> bool
    ensures hit { result ≡ is_item_hit problem.now wish.now item }
{
    if (item as usize) < problem.base.pairings.as_slice().len() {
        is_hit(problem, wish, item)
    } else {
        false
    }
}

/// Whether the bit of a bid with this wish has the mark.
fn is_marked(problem: &Problem, member: u32, wish: &Wish, mark: Mark) -> bool
    requires member { member < length problem.now.base.members }
    ensures marked { result ≡ is_marked problem.now member mark wish.now }
{
    match mark {
        Mark::Start => is_wanting(wish) || is_spoiled(problem, member, wish),
        Mark::Clear(item) => is_wanting(wish) && is_item_hit(problem, wish, item),
        Mark::Set(item) => !is_wanting(wish) && is_item_hit(problem, wish, item),
    }
}

/// The mask with this bit set, or as it is.
fn with_bit(mask: u64, bit: usize, on: bool) -> u64
    requires within { bit < 64 }
    ensures here { bit_at result bit ≡ (if on then 1 else bit_at mask bit) }
    ensures others { (b : ℕ) → b ≢ bit → bit_at result b ≡ bit_at mask b }
{
    if on {
        return mask | (1 << bit);
    }
    mask
}

/// Whether the lens tracks the member's bid of this number, and its bit has the mark.
fn is_bit(problem: &Problem, member: u32, lens: &Lens, mark: Mark, bid: usize) -> bool
    requires member { member < length problem.now.base.members }
    requires bid { bid < length (bids_of problem.now member) }
    ensures bit { result ≡ is_bit problem.now member lens.now mark bid }
{
    if is_set(lens.tracked, bid as u32) {
        return is_marked(problem, member, &bids_of(problem, member)[bid].wish, mark);
    }
    false
}

/// The bits that have the mark.
fn mask_of(problem: &Problem, member: u32, lens: &Lens, mark: Mark) -> u64
    requires member { member < length problem.now.base.members }
    ensures mask { IsMask problem.now member lens.now mark result }
{
    let count = bids_of(problem, member).len();
    let mut mask = 0;
    for bid in 0..count {
        mask = with_bit(mask, bid, is_bit(problem, member, lens, mark, bid));
    }
    mask
}

/// The bits before any pairing.
pub fn start_bits(problem: &Problem, member: u32, lens: &Lens) -> u64
    requires member { member < length problem.now.base.members }
    ensures bits { IsMask problem.now member lens.now Start result }
{
    mask_of(problem, member, lens, Mark::Start)
}

/// What an item does to the bits. An item at or past the number of pairings does nothing.
pub fn mask_step(problem: &Problem, member: u32, lens: &Lens, item: u32) -> MaskStep
    requires member { member < length problem.now.base.members }
    ensures clears { IsMask problem.now member lens.now (Clear item) result.clear }
    ensures sets { IsMask problem.now member lens.now (Set item) result.set }
{
    MaskStep {
        clear: mask_of(problem, member, lens, Mark::Clear(item)),
        set: mask_of(problem, member, lens, Mark::Set(item)),
    }
}

/// Whether the lens tracks a bid of this number.
pub fn is_tracked(lens: &Lens, bid: u32) -> bool
    ensures tracked { result ≡ is_tracked lens.now bid }
{
    let tracked = lens.tracked;
    if bid < 64 {
        return is_set(tracked, bid);
    }
    false
}

/// The bid that the terms ask for, where the lens tracks it.
fn asked_bid(terms: &Terms, lens: &Lens) -> Option<u32>
    ensures asked { result ≡ asked_bid lens.now terms.now }
{
    match terms.asked {
        Some(bid) => {
            if is_tracked(lens, bid) {
                Some(bid)
            } else {
                None
            }
        }
        None => None,
    }
}

/// What the bid of this number weighs at the end.
fn end_weight(bids: &[Bid], asked: Option<u32>, bid: u32) -> u32
    requires each { All (λ b. b.weight ≤ 1000) bids.now }
    ensures weight { result ≡ end_weight bids.now asked bid }
{
    let weight = bids.get(bid as usize).map_or(0, |bid| bid.weight);
    let is_asked = asked.is_some_and(|wanted| bid == wanted);
    weight + if is_asked { DEMAND } else { 0 }
}

/// What each bit weighs at the end.
fn end_weights(bids: &[Bid], asked: Option<u32>) -> [u32; 64]
    requires each { All (λ b. b.weight ≤ 1000) bids.now }
    ensures bits { length result ≡ 64 }
    ensures weights { (b : ℕ) → b < 64 → slice_index result b ≡ end_weight bids.now asked b }
{
    let mut weights = [0; 64];
    for bid in 0..64u32 {
        weights[bid as usize] = end_weight(bids, asked, bid);
    }
    weights
}

/// What the weights are to reach.
fn end_floor(terms: &Terms, asked: Option<u32>) -> u32
    ensures floor { result ≡ end_floor terms.now asked }
{
    let floor = terms.floor.min(UNREACHABLE) as u32;
    floor + asked.map_or(0, |_| DEMAND)
}

/// What the end asks of the bits: the floor of the terms, and the bid that they ask for, where it is tracked.
pub fn bids_end(problem: &Problem, member: u32, terms: &Terms, lens: &Lens) -> MaskEnd
    requires member { member < length problem.now.base.members }
    ensures end { IsBidsEnd problem.now member lens.now terms.now result }
{
    let asked = asked_bid(terms, lens);
    MaskEnd {
        weights: end_weights(bids_of(problem, member), asked),
        floor: end_floor(terms, asked),
    }
}
