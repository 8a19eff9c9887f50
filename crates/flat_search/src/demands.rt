//! What a goal asks of a member's line, as bits of bids: what each weighs, and how much of it a line may lose.

use crate::board::Row;
use crate::pairings::PairingSet;
use crate::places::Place;
use crate::profiles::{bid_asked, bit_of, floor_of};
use crate::sheets::Sheet;
use duty_calendar::Memory;
use roster_model::Goal;
use std::alloc::Global;

/// What the goal's own bid weighs: more than any line may lose.
const DEMANDED: u32 = 10_000_000;

/// What the bids of a member weigh for a goal, by their numbers, and how much a line may lose.
#[derive(Drop)]
pub(crate) struct Demand {
    pub weights: Vec<u32>,
    pub allowed: u32,
}

/// A bid that some open pairings decide, or several that the same ones do: what it weighs, these pairings, and whether they
/// spoil it.
#[derive(Clone, Copy)]
pub(crate) struct Wanted {
    pub weight: u32,
    pub pairings: PairingSet,
    pub spoils: bool,
}

impl Demand {
    /// What the goal asks of the member; none where all bids together weigh too little.
    pub(crate) fn of(
        alloc: Global,
        sheet: &Sheet,
        member: usize,
        goal: &Goal,
    ) -> Result<Option<Demand>, Memory> {
        let floor = floor_of(goal, member);
        let asked = bid_asked(goal, member);
        let mut weights = Vec::new(alloc);
        let mut sum: u32 = 0;
        for (bid, weight) in sheet.weights.iter().enumerate() {
            sum = sum.saturating_add(*weight);
            let own = if floor == 0 { 0 } else { *weight };
            let is_asked = asked & bit_of(bid) != 0;
            weights.push(if is_asked { DEMANDED } else { own })?;
        }
        let spare = sum.saturating_sub(floor);
        let allowed = if floor == 0 { 0 } else { spare };
        Ok(if floor > sum {
            None
        } else {
            Some(Demand { weights, allowed })
        })
    }

    /// A line loses so much. Tells whether it may.
    pub(crate) fn lose(&mut self, weight: u32) -> bool {
        let may_lose = weight <= self.allowed;
        self.allowed = self.allowed.saturating_sub(weight);
        may_lose
    }
}

/// The pairings of these places that decide a bid.
fn deciding(places: &[Place], bit: u64, spoils: bool) -> PairingSet {
    let mut pairings = PairingSet::new();
    for place in places {
        let flight = &place.flight;
        let bits = if spoils { flight.spoils } else { flight.grants };
        if bits & bit != 0 {
            pairings.insert(flight.pairing as usize);
        }
    }
    pairings
}

/// Adds a bid to those that the same pairings decide.
fn add(all: &mut Vec<Wanted>, one: Wanted) -> Result<(), Memory> {
    let like = all.iter_mut().find(|other| other.spoils == one.spoils
        && other.pairings == one.pairings);
    match like {
        Some(other) => other.weight = other.weight.saturating_add(one.weight),
        None => all.push(one)?,
    }
    Ok(())
}

/// Lets no bid weigh more than this.
fn limit(all: &mut [Wanted], most: u32) {
    for one in all.iter_mut() {
        one.weight = one.weight.min(most);
    }
}

/// The bids that weigh something and that the open pairings decide, the heaviest first; none where too much is lost without
/// them. What no pairing can grant is lost, and takes from what a line may lose.
pub(crate) fn wanted_of(
    alloc: Global,
    sheet: &Sheet,
    places: &[Place],
    row: &Row,
    demand: &mut Demand,
) -> Result<Option<Vec<Wanted>>, Memory> {
    let mut all: Vec<Wanted> = Vec::new(alloc);
    for bid in 0..demand.weights.len() {
        let bit = bit_of(bid);
        let weight = demand.weights.get(bid).copied().unwrap_or(0);
        if weight == 0 || sheet.tracked & bit == 0 {
            continue;
        }
        let spoils = sheet.wanting & bit == 0;
        let pairings = deciding(places, bit, spoils);
        let is_free = pairings == PairingSet::new();
        let is_lost = if spoils {
            sheet.start & bit != 0
        } else {
            is_free
        };
        if is_lost && !demand.lose(weight) {
            return Ok(None);
        }
        let is_granted = !spoils && row.flown.meets(&pairings);
        if !is_lost && !is_free && !is_granted {
            add(
                &mut all,
                Wanted {
                    weight,
                    pairings,
                    spoils,
                },
            )?;
        }
    }
    limit(&mut all, demand.allowed.saturating_add(1));
    all.sort_by_key(|one: &Wanted| u32::MAX.wrapping_sub(one.weight))?;
    Ok(Some(all))
}
