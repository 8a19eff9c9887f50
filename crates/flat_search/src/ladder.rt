//! Lenses that look at more and more.

use crate::profiles::{bid_asked, bit_of, floor_of};
use crate::sizes::{MOST_WHOLE, MOST_WINDOWS, WINDOWS};
use duty_calendar::{List, Member, Memory};
use line_legality::Illegal;
use roster_model::{Bid, Goal, Lens, Problem, Window, WindowKind, Wish};
use std::alloc::Global;

/// Whether one pairing of a line can decide the wish.
pub(crate) fn is_trackable(wish: &Wish) -> bool {
    match wish {
        Wish::Fly(_) | Wish::Avoid(_) | Wish::Off(_, _) => true,
        Wish::Prefer(least, _) => *least == 1,
        Wish::CreditBelow(_) | Wish::CreditAbove(_) | Wish::DaysOff(_) => false,
    }
}

/// The member's bids that can be tracked.
fn trackable_bids(problem: &Problem, member: usize) -> u64 {
    let mut tracked = 0;
    if let Some(bids) = problem.bids.as_slice().get(member) {
        for (number, bid) in bids.as_slice().iter().enumerate() {
            if number < 64 && is_trackable(&bid.wish) {
                tracked |= 1u64 << number;
            }
        }
    }
    tracked
}

/// Whether the wish is about the whole line, and some legal lines of the member may not grant it.
pub(crate) fn is_of_line(problem: &Problem, member: &Member, wish: &Wish) -> bool {
    match wish {
        Wish::Prefer(least, _) => *least > 1,
        Wish::CreditBelow(minutes) => *minutes <= member.high,
        Wish::CreditAbove(minutes) => *minutes >= member.low,
        Wish::DaysOff(days) => *days > problem.base.rules.days_off,
        Wish::Fly(_) | Wish::Avoid(_) | Wish::Off(_, _) => false,
    }
}

/// The bit of the heaviest of some bids.
fn heaviest(bids: &[Bid], among: u64) -> u64 {
    let mut best = 0;
    let mut most = 0;
    for (number, bid) in bids.iter().enumerate() {
        let bit = bit_of(number);
        if among & bit != 0 && (best == 0 || bid.weight > most) {
            best = bit;
            most = bid.weight;
        }
    }
    best
}

/// The member's bids about whole lines that some legal lines may not grant.
fn bids_of_line(problem: &Problem, member: usize) -> u64 {
    let mut set = 0;
    if let (Some(owner), Some(bids)) = (
        problem.base.members.as_slice().get(member),
        problem.bids.as_slice().get(member),
    ) {
        for (number, bid) in bids.as_slice().iter().enumerate() {
            if is_of_line(problem, owner, &bid.wish) {
                set |= bit_of(number);
            }
        }
    }
    set
}

/// The bids about whole lines that a lens for the goal is to track: the goal's own, and the heaviest where there is a
/// floor to be reached.
fn tracked_of_line(problem: &Problem, member: usize, goal: &Goal) -> u64 {
    let all = bids_of_line(problem, member);
    let mut tracked = all & bid_asked(goal, member);
    let Some(bids) = problem.bids.as_slice().get(member) else {
        return tracked;
    };
    if floor_of(goal, member) == 0 {
        return tracked;
    }
    for _ in 0..MOST_WHOLE {
        if tracked.count_ones() < MOST_WHOLE {
            tracked |= heaviest(bids.as_slice(), all & !tracked);
        }
    }
    tracked
}

/// The bids that can be tracked and matter for the goal: all, or where there is no floor to be reached the goal's own.
fn tracked_of(problem: &Problem, member: usize, goal: &Goal) -> u64 {
    let all = trackable_bids(problem, member);
    if floor_of(goal, member) == 0 {
        all & bid_asked(goal, member)
    } else {
        all
    }
}

/// Whether bids about whole lines matter for the goal.
pub fn is_decided_by_lines(problem: &Problem, member: usize, goal: &Goal) -> bool {
    tracked_of_line(problem, member, goal) != 0
}

/// Lets the lens look at pairings one by one.
pub(crate) fn look_at_pairings(problem: &Problem, member: usize, goal: &Goal, lens: &mut Lens) {
    lens.tracked = tracked_of(problem, member, goal);
    lens.whole = false;
}

/// Lets the lens look at whole lines too, if bids about them matter for the goal.
pub(crate) fn look_at_lines(problem: &Problem, member: usize, goal: &Goal, lens: &mut Lens) {
    let tracked = tracked_of_line(problem, member, goal);
    lens.tracked = tracked_of(problem, member, goal) | tracked;
    lens.whole = tracked != 0;
}

/// The first lens of the ladder: credit in hours, and all bids that can be tracked.
pub fn first_lens(alloc: Global, problem: &Problem, member: usize) -> Lens {
    Lens {
        grain: 60,
        tracked: trackable_bids(problem, member),
        free30: false,
        days: false,
        whole: false,
        windows: List::new(alloc),
    }
}

/// Whether the lens is the first one of its member.
pub fn is_first(lens: &Lens) -> bool {
    lens.grain == 60 && !lens.free30 && !lens.days && lens.windows.len() == 0
}

/// The first lenses of all members.
pub fn first_lenses(alloc: Global, problem: &Problem) -> Result<List<Lens>, Memory> {
    let mut lenses = List::new(alloc);
    for member in 0..problem.base.members.len() {
        if lenses.push(first_lens(alloc, problem, member)).is_err() {
            return Err(Memory::NoMemory);
        }
    }
    Ok(lenses)
}

/// The lens once more, with the last few of its windows.
pub fn lately(alloc: Global, lens: &Lens) -> Result<Lens, Memory> {
    let all = lens.windows.as_slice();
    let from = all.len().saturating_sub(WINDOWS);
    let mut windows = List::new(alloc);
    for window in all.get(from..).unwrap_or(&[]) {
        if windows.push(*window).is_err() {
            return Err(Memory::NoMemory);
        }
    }
    Ok(Lens {
        grain: lens.grain,
        tracked: lens.tracked,
        free30: lens.free30,
        days: lens.days,
        whole: lens.whole,
        windows,
    })
}

/// Sets a flag, and tells whether it was not set.
fn set(flag: &mut bool) -> bool {
    let was = *flag;
    *flag = true;
    !was
}

/// Makes the grain finer, and tells whether it could be.
pub fn make_finer(grain: &mut u32) -> bool {
    let finer = match *grain {
        60 => 15,
        15 => 5,
        5 => 1,
        _ => return false,
    };
    *grain = finer;
    true
}

/// Adds a window, and tells whether there was room for it and it was not there.
fn add_window(windows: &mut List<Window>, kind: WindowKind, start: u32) -> bool {
    let window = Window { kind, start };
    if windows.len() >= MOST_WINDOWS || windows.as_slice().contains(&window) {
        return false;
    }
    windows.push(window).is_ok()
}

/// Lets the lens look at the rule that a line broke, and tells whether it did not before.
pub fn refine(lens: &mut Lens, why: Illegal) -> bool {
    match why {
        Illegal::Credit(_) => make_finer(&mut lens.grain),
        Illegal::DaysOff(_) => set(&mut lens.days),
        Illegal::Free30(_) | Illegal::Night(_) => set(&mut lens.free30),
        Illegal::Flight672(start) => add_window(&mut lens.windows, WindowKind::Flight672, start),
        Illegal::Duty672(start) => add_window(&mut lens.windows, WindowKind::Duty672, start),
        Illegal::Duty168(start) => add_window(&mut lens.windows, WindowKind::Duty168, start),
        Illegal::Flight365(last) => add_window(&mut lens.windows, WindowKind::Flight365, last),
        Illegal::NoMemory | Illegal::Overlap(_) | Illegal::Rest(_) => false,
    }
}
