//! Chosen groups of bits of a set.

ghost use Rattle.std.specs.Prelude.{◌≡◌, ◌≤◌, ◌<◌, ◌^◌, ◌-◌, ◌%◌, ◌==◌, All, if◌then◌else◌, IfOk, length, sum, true};
ghost use Rattle.chain_search.specs.BitStates.{all_set, are_even, are_known, bits_count, bits_ends, bits_fit_end, bits_fit_step, bits_move, bits_moves, bits_sees, bits_shows, chosen_of, is_even, is_known, state_of, weight_of};
ghost use Rattle.chain_search.specs.BitLaws.{bits_laws};

use crate::chosen::{Bits, Chosen};
use crate::coarse::Coarse;
use crate::shifts::Shift;
use crate::weighed::weight_of_set;
use duty_calendar::Memory;
use label_lattice::{Mask, MaskEnd, MaskStep};
use std::alloc::Global;

/// No more groups of bits than these are chosen.
const MOST: usize = 14;

/// What a step leaves of the state, and what it sets.
#[derive(Clone, Copy, Debug, Drop, PartialEq, Eq)]
pub struct BitsMove {
    pub keep: u32,
    pub set: u32,
}

/// One where all bits of the mask are set, else 0.
fn all_set(bits: u64, mask: u64) -> u32
    ensures set { result ≡ all_set bits mask }
    ensures small { result < 2 }
{
    if bits & mask == mask { 1 } else { 0 }
}

/// The chosen groups as a state, each set where all its bits are.
fn state_of(chosen: &[Chosen], bits: u64) -> u32
    requires few { length chosen.now ≤ 14 }
    ensures state { result ≡ state_of chosen.now bits }
{
    let mut state = 0;
    for back in 0..chosen.len() {
        let mask = chosen[chosen.len() - 1 - back].bits;
        state = 2 * state + all_set(bits, mask);
    }
    state
}

/// What the group weighs, where it is the lowest bit of the state and set.
fn weight_if(bit: &Chosen, state: u32) -> u64
    requires light { bit.now.weight < 2 ^ 39 }
    ensures weight { result ≡ (if state % 2 == 1 then bit.now.weight else 0) }
    ensures small { result < 2 ^ 39 }
{
    if state % 2 == 1 { bit.weight } else { 0 }
}

/// What the bits of a state weigh.
fn weight_of(chosen: &[Chosen], state: u32) -> u64
    requires few { length chosen.now ≤ 14 }
    requires light { All (λ bit. bit.weight < 2 ^ 39) chosen.now }
    ensures weight { result ≡ weight_of chosen.now state }
{
    let mut total = 0u64;
    let mut left = state;
    for bit in chosen {
        total += weight_if(bit, left);
        left /= 2;
    }
    total
}

/// The weights of an end together.
pub(crate) fn all_weights(weights: &[u32; 64]) -> u64
    ensures total { result ≡ sum weights.now }
    ensures small { result < 2 ^ 39 }
{
    let mut total = 0u64;
    for k in 0..64usize {
        total += u64::from(weights[k]);
    }
    total
}

/// The group has no bit that is used, and weighs no more than its bits do here.
fn is_known(bit: &Chosen, used: u64, weights: &[u32; 64]) -> bool
    requires small { sum weights.now < 2 ^ 39 }
    ensures known { result ≡ is_known used bit.now weights.now }
{
    bit.bits & used == 0 && bit.weight <= weight_of_set(weights, bit.bits)
}

/// The chosen groups have no bit in common, and weigh no more than their bits do here.
fn are_known(chosen: &[Chosen], weights: &[u32; 64]) -> bool
    requires small { sum weights.now < 2 ^ 39 }
    ensures known { result ≡ are_known 0 chosen.now weights.now }
{
    let mut used = 0;
    for bit in chosen {
        if !is_known(bit, used, weights) {
            return false;
        }
        used |= bit.bits;
    }
    true
}

/// None of the bits of the mask are set, or all.
fn is_even(bits: u64, mask: u64) -> bool
    ensures even { result ≡ is_even bits mask }
{
    bits & mask == 0 || bits & mask == mask
}

/// None of the bits of each chosen group are set, or all.
fn are_even(chosen: &[Chosen], bits: u64) -> bool
    ensures even { result ≡ are_even chosen.now bits }
{
    chosen.iter().all(|bit| is_even(bits, bit.bits))
}

/// The first fourteen groups of bits, each without the bits of those before it, and their weights.
fn choose(alloc: Global, groups: &[u64], weights: &[u32; 64]) -> Result<Vec<Chosen>, Memory>
    requires small { sum weights.now < 2 ^ 39 }
    ensures few { IfOk result (λ chosen. length chosen.items ≤ 14) }
    ensures inside { IfOk result (λ chosen. All (λ bit. bit.bits < 2 ^ 64) chosen.items) }
    ensures light { IfOk result (λ chosen. All (λ bit. bit.weight < 2 ^ 39) chosen.items) }
    ensures known { IfOk result (λ chosen. are_known 0 chosen.items weights.now ≡ true) }
    ensures chosen { IfOk result (λ chosen. chosen.items ≡ chosen_of groups.now weights.now) }
{
    let mut chosen = Vec::new(alloc);
    let mut used = 0u64;
    for &group in groups {
        if chosen.len() >= MOST {
            continue;
        }
        let bits = group & !used;
        let weight = weight_of_set(weights, bits);
        chosen.push(Chosen { bits, weight })?;
        used |= group;
    }
    Ok(chosen)
}

impl Bits {
    /// The first fourteen groups of bits, each without the bits of those before it, for this end.
    pub fn new(alloc: Global, groups: &[u64], end: &MaskEnd) -> Result<Bits, Memory>
        ensures chosen { IfOk result
            (λ bits. bits.chosen.items ≡ chosen_of groups.now end.now.weights) }
        ensures allowed { IfOk result (λ bits. bits.allowed ≡ sum end.now.weights - end.now.floor) }
        ensures knows { IfOk result (λ bits. bits_fit_end bits end.now ≡ true) }
    {
        let total = all_weights(&end.weights);
        let chosen = choose(alloc, groups, &end.weights)?;
        let allowed = total.saturating_sub(u64::from(end.floor));
        Ok(Bits { chosen, allowed })
    }

    /// All chosen groups as a state.
    fn all(&self) -> u32
        ensures all { result ≡ bits_count self.now - 1 }
    {
        (1 << self.chosen.len()) - 1
    }
}

impl Coarse<Mask> for Bits {
    type Move = BitsMove;

    ghost count = { bits_count };

    ghost shows = { bits_shows };

    ghost sees = { bits_sees };

    ghost moves = { bits_moves };

    ghost move_of = { bits_move };

    ghost ends = { bits_ends };

    ghost fits_step = { bits_fit_step };

    ghost fits_end = { bits_fit_end };

    fn count(&self) -> usize {
        1 << self.chosen.len()
    }

    fn shows(&self, resource: &Mask) -> u32 {
        state_of(&self.chosen, resource.bits)
    }

    fn moves(by: &BitsMove, state: u32) -> Option<u32> {
        Some(state & by.keep | by.set)
    }

    fn shift(&self, by: &BitsMove) -> Shift {
        if by.set == 0 && by.keep == self.all() {
            Shift::Floor(0)
        } else {
            Shift::Own
        }
    }

    fn move_of(&self, step: &MaskStep) -> BitsMove {
        BitsMove {
            keep: state_of(&self.chosen, !step.clear),
            set: state_of(&self.chosen, step.set),
        }
    }

    fn ends(&self, state: u32) -> bool {
        weight_of(&self.chosen, state) <= self.allowed
    }

    fn fits_step(&self, step: &MaskStep) -> bool {
        are_even(&self.chosen, step.clear) && are_even(&self.chosen, step.set)
    }

    fn fits_end(&self, end: &MaskEnd) -> bool {
        let total = all_weights(&end.weights);
        are_known(&self.chosen, &end.weights) && total <= self.allowed + u64::from(end.floor)
    }

    ghost laws = { bits_laws };
}
