//! Lines of lenses that look at whole lines, against all lines that there are.
ghost use Rattle.std.specs.Option.{ForSome};
ghost use Rattle.std.specs.Prelude.{◌≡◌, ◌+◌, ◌<◌, ◌≤◌, ◌^◌, ℕ, All, IfOk, length};
ghost use Rattle.duty_calendar.specs.Calendar.{month_days};
ghost use Rattle.duty_calendar.specs.declared.horizon.Horizon.{Horizon as Month};
ghost use Rattle.duty_calendar.specs.Checks.{ArePairings};
ghost use Rattle.roster_model.specs.Goals.{IsBidOf, IsGoal};
ghost use Rattle.roster_model.specs.Valid.{IsBid};
ghost use Rattle.roster_model.specs.Weights.{AreSmallWeights};

use duty_calendar::{List, Memory, Pairing, Weekday};
use june_months::{month, one, pairings_of, single, with};
use label_lattice::Steps;
use line_generator::{BestFault, Over, PricedLine, are_small, best, heaviest_over};
use line_lens::{LensFault, check_lens};
use roster_model::{Atom, Bid, BidRef, Goal, Lens, Node, Problem, Test, Wish};
use std::alloc::Global;
use std::marker::Brand;
use std::sync::ledger::{Blank, Ledger};

/// The bid to have less credit than that.
fn below(weight: u32, credit: u32) -> Bid
    requires some { 1 ≤ weight }
    requires few { weight ≤ 1000 }
    requires credit { credit ≤ 59999 }
    ensures form { (h : Month) (n : ℕ) → IsBid h n result }
{
    Bid {
        weight,
        wish: Wish::CreditBelow(credit),
    }
}

/// The bid to have more credit than that.
fn above(weight: u32, credit: u32) -> Bid
    requires some { 1 ≤ weight }
    requires few { weight ≤ 1000 }
    requires credit { credit ≤ 59999 }
    ensures form { (h : Month) (n : ℕ) → IsBid h n result }
{
    Bid {
        weight,
        wish: Wish::CreditAbove(credit),
    }
}

/// The bid to have so many days off.
fn days_off(weight: u32, days: u32) -> Bid
    requires some { 1 ≤ weight }
    requires few { weight ≤ 1000 }
    requires days { days ≤ 31 }
    ensures form { (h : Month) (n : ℕ) → IsBid h n result }
{
    Bid {
        weight,
        wish: Wish::DaysOff(days),
    }
}

/// The bid to have so many pairings that are not on a Monday.
fn late(alloc: Global, weight: u32, least: u32) -> Result<Bid, Memory>
    requires some { 1 ≤ weight }
    requires few { weight ≤ 1000 }
    requires least { 1 ≤ least }
    requires most { least ≤ 600 }
    ensures form { IfOk result (λ bid. (h : Month) (n : ℕ) → IsBid h n bid) }
{
    let atom = Atom {
        negated: true,
        test: Test::OnWeekday(Weekday::Mon),
    };
    Ok(Bid {
        weight,
        wish: Wish::Prefer(least, one(alloc, atom)?),
    })
}

/// The bids with one more.
fn more(list: List<Bid>, bid: Bid) -> Result<List<Bid>, Memory>
    requires few { length list < 64 }
    requires list { (h : Month) (n : ℕ) → All (IsBid h n) list }
    requires bid { (h : Month) (n : ℕ) → IsBid h n bid }
    ensures count { IfOk result (λ longer. length longer ≡ length list + 1) }
    ensures form { IfOk result (λ longer. (h : Month) (n : ℕ) → All (IsBid h n) longer) }
{
    with(list, bid)
}

/// The month of one member with these bids.
fn month_of(
    alloc: Global,
    pairings: List<Pairing>,
    bids: List<Bid>,
    low: u32,
    high: u32,
) -> Result<Problem, Memory>
    requires pairings { (h : Month) → 30 ≤ month_days h → ArePairings h pairings }
    requires few_bids { length bids ≤ 64 }
    requires bids { (h : Month) (n : ℕ) → All (IsBid h n) bids }
    requires window { low ≤ high }
    requires few_credit { high ≤ 12000 }
    ensures members { IfOk result (λ p. length p.base.members ≡ 1) }
    ensures pairings { IfOk result (λ p. length p.base.pairings ≡ length pairings) }
{
    let lists = one(alloc, bids)?;
    month(pairings, single(alloc, low, high)?, lists)
}

/// A lens that looks at whole lines, and at nothing else beside these bids and credit.
fn whole_lens(alloc: Global, grain: u32, tracked: u64) -> Lens
    ensures windows { length result.windows < 2 ^ 32 }
{
    Lens {
        grain,
        tracked,
        free30: false,
        days: false,
        whole: true,
        windows: List::new(alloc),
    }
}

/// The bid of this number of the one member, if there is one.
fn asked_of_one(problem: &Problem, grant: Option<u32>) -> Option<BidRef>
    requires one { length problem.now.base.members ≡ 1 }
    ensures asked { ForSome result (IsBidOf problem.now) }
{
    let bid = grant?;
    let bids = problem.bids.as_slice()[0].as_slice();
    if (bid as usize) < bids.len() {
        return Some(BidRef { member: 0, bid });
    }
    None
}

/// The heaviest line of the one member who is to reach the floor, and one above a bound.
type Found = (Option<i64>, Over);

fn found_from<L: Ledger>(
    alloc: Global,
    problem: &Problem,
    goal: &Goal,
    lens: &Lens,
    weights: &[i64],
    over: i64,
    blank: Blank,
) -> Result<Found, BestFault>
    requires some { 0 < length problem.now.base.members }
    requires goal { IsGoal problem.now goal.now }
    requires windows { length lens.now.windows < 2 ^ 32 }
    requires per_pairing { length weights.now ≡ length problem.now.base.pairings }
    requires small { AreSmallWeights weights.now }
    requires name { blank.name ≡ L.name }
    requires parts { blank.parts ≡ L.parts }
    requires share { 0 < blank.parts }
{
    let node = Node::new(alloc);
    let mut steps: Steps<L> = Steps::new(blank);
    let most = best(alloc, problem, 0, goal, &node, lens, weights, &mut steps)?;
    let above = heaviest_over(
        alloc, problem, 0, goal, &node, lens, weights, over, 1_000_000, &mut steps,
    )?;
    Ok((most.map(|priced: PricedLine| priced.weight), above))
}

fn found(
    alloc: Global,
    problem: &Problem,
    lens: &Lens,
    floor: u32,
    grant: Option<u32>,
    weights: &[i64],
    over: i64,
) -> Result<Found, BestFault>
    requires one { length problem.now.base.members ≡ 1 }
    requires windows { length lens.now.windows < 2 ^ 32 }
    requires per_pairing { length weights.now ≡ length problem.now.base.pairings }
{
    if !are_small(weights) {
        return Err(BestFault::NoMemory);
    }
    let goal = Goal {
        floors: one(alloc, floor)?,
        grant: asked_of_one(problem, grant),
    };
    found_from::<Brand>(alloc, problem, &goal, lens, weights, over, Blank::new(1))
}

/// Whether the set has the number.
fn has(set: u64, number: usize) -> bool {
    number < 64 && (set >> number) & 1 == 1
}

/// The credit of these pairings, each rounded to the grain after so much is added.
fn credit_of(set: u64, credits: &[u32], grain: u32, add: u32) -> u32 {
    let mut total: u32 = 0;
    for number in 0..credits.len() {
        if has(set, number) {
            let times = credits[number].wrapping_add(add).checked_div(grain);
            total = total.wrapping_add(times.unwrap_or(0).wrapping_mul(grain));
        }
    }
    total
}

/// What these pairings weigh.
fn weight_of(set: u64, weights: &[i64]) -> i64 {
    let mut total: i64 = 0;
    for number in 0..weights.len() {
        if has(set, number) {
            total = total.wrapping_add(weights[number]);
        }
    }
    total
}

/// How many days off there are beside these pairings, each of one day.
fn days_beside(set: u64) -> u32 {
    30_u32.wrapping_sub(set.count_ones())
}

/// How many of these pairings, the first of which is on a Monday, are on another day.
fn late_pairings(set: u64) -> u32 {
    (set & !1).count_ones()
}

/// Whether the line of these pairings, taken with so much credit, grants the bid.
fn is_granted(bid: &Bid, credit: u32, set: u64) -> bool {
    match &bid.wish {
        Wish::CreditBelow(most) => credit < *most,
        Wish::CreditAbove(least) => *least < credit,
        Wish::DaysOff(least) => *least <= days_beside(set),
        Wish::Prefer(least, _) => *least <= late_pairings(set),
        Wish::Fly(_) | Wish::Avoid(_) | Wish::Off(_, _) => false,
    }
}

/// What the line of these pairings, taken with so much credit, has of the bids.
fn score_of(bids: &[Bid], tracked: u64, credit: u32, set: u64) -> u32 {
    let mut total: u32 = 0;
    for number in 0..bids.len() {
        if !has(tracked, number) || is_granted(&bids[number], credit, set) {
            total = total.wrapping_add(bids[number].weight);
        }
    }
    total
}

/// What lines are to come up to.
#[derive(Clone, Copy)]
struct Row {
    grain: u32,
    tracked: u64,
    low: u32,
    high: u32,
    floor: u32,
    grant: Option<u32>,
}

/// Whether the line of these pairings, taken with so much credit, has the bid that is asked for, if the lens tracks it.
fn has_asked(row: Row, bids: &[Bid], credit: u32, set: u64) -> bool {
    match row.grant {
        Some(number) => {
            !has(row.tracked, number as usize)
                || bids
                    .get(number as usize)
                    .is_some_and(|bid| is_granted(bid, credit, set))
        }
        None => true,
    }
}

/// Whether the line of these pairings, each of one day, passes the lens of the row.
fn passes(row: Row, bids: &[Bid], credits: &[u32], set: u64) -> bool {
    let down = credit_of(set, credits, row.grain, 0);
    let up = credit_of(set, credits, row.grain, row.grain.wrapping_sub(1));
    for credit in down.max(row.low)..up.min(row.high).wrapping_add(1) {
        let score = score_of(bids, row.tracked, credit, set);
        if score >= row.floor && has_asked(row, bids, credit, set) {
            return true;
        }
    }
    false
}

/// The greatest weight of a line of a month of five pairings.
fn most_of_all(row: Row, bids: &[Bid], credits: &[u32], weights: &[i64]) -> Option<i64> {
    let mut most: Option<i64> = None;
    for set in 0..32_u64 {
        if passes(row, bids, credits, set) {
            let weight = weight_of(set, weights);
            most = Some(most.map_or(weight, |before| before.max(weight)));
        }
    }
    most
}

/// What the searches find is what all lines show.
fn agrees(found: &Found, most: Option<i64>, over: i64) -> bool {
    let above = match &found.1 {
        Over::Line(priced) => Some(priced.weight),
        Over::Nothing => None,
        Over::Limit => return false,
    };
    found.0 == most && above == most.filter(|weight| *weight > over)
}

const CREDITS: [u32; 5] = [61, 150, 299, 300, 421];

const WEIGHTS: [[i64; 5]; 4] = [
    [1, 1, 1, 1, 1],
    [-1, -1, -1, -1, -1],
    [3, -2, 5, -7, 4],
    [0, 0, 0, 0, 0],
];

/// Less than 700 minutes, more than 500, more than 800, 28 days off, and two pairings that are not on a Monday.
fn five_bids(alloc: Global) -> Result<List<Bid>, Memory>
    ensures count { IfOk result (λ list. length list ≡ 5) }
    ensures form { IfOk result (λ list. (h : Month) (n : ℕ) → All (IsBid h n) list) }
{
    let first = more(List::new(alloc), below(10, 700))?;
    let second = more(first, above(20, 500))?;
    let third = more(second, above(40, 800))?;
    let fourth = more(third, days_off(80, 28))?;
    more(fourth, late(alloc, 160, 2)?)
}

/// Whether the lens of the row has the lines that it is to have, at all weights.
fn is_right(alloc: Global, row: Row) -> Result<bool, BestFault>
    requires window { row.low ≤ row.high }
    requires few_credit { row.high ≤ 12000 }
{
    let problem = month_of(
        alloc,
        pairings_of(alloc, &CREDITS)?,
        five_bids(alloc)?,
        row.low,
        row.high,
    )?;
    let bids = five_bids(alloc)?;
    let lens = whole_lens(alloc, row.grain, row.tracked);
    for weights in &WEIGHTS {
        let most = most_of_all(row, bids.as_slice(), &CREDITS, weights);
        let told = found(alloc, &problem, &lens, row.floor, row.grant, weights, 2)?;
        if !agrees(&told, most, 2) {
            return Ok(false);
        }
    }
    Ok(true)
}

/// Whether the lens of this grain that tracks these bids is right for all floors.
fn is_right_from(
    alloc: Global,
    grain: u32,
    tracked: u64,
    grant: Option<u32>,
) -> Result<bool, BestFault> {
    for floor in [0_u32, 10, 70, 130, 150, 170, 210, 310] {
        let row = Row {
            grain,
            tracked,
            low: 100,
            high: 900,
            floor,
            grant,
        };
        if !is_right(alloc, row)? {
            return Ok(false);
        }
    }
    Ok(true)
}

#[test]
fn whole_lenses_pass_what_they_say(rt: HostRuntime) -> Result<(), BestFault> {
    let alloc = rt.alloc();
    for tracked in [31_u64, 15, 19, 16, 0] {
        for grant in [None, Some(0_u32), Some(2), Some(3), Some(4)] {
            assert!(rt; is_right_from(alloc, 60, tracked, grant)?);
            assert!(rt; is_right_from(alloc, 15, tracked, grant)?);
            assert!(rt; is_right_from(alloc, 1, tracked, grant)?);
        }
    }
    Ok(())
}

/// So many bids on credit.
fn credit_bids(alloc: Global, count: u32) -> Result<List<Bid>, Memory>
    requires few { count ≤ 64 }
    ensures count { IfOk result (λ list. length list ≡ count) }
    ensures form { IfOk result (λ list. (h : Month) (n : ℕ) → All (IsBid h n) list) }
{
    let mut list = List::new(alloc);
    for number in 0..count {
        list = more(list, below(1, 700 + number))?;
    }
    Ok(list)
}

/// What is wrong with a lens of so many bids on credit.
fn fault_of(alloc: Global, count: u32, tracked: u64) -> Result<Option<LensFault>, Memory>
    requires few { count ≤ 64 }
{
    let problem = month_of(
        alloc,
        pairings_of(alloc, &CREDITS)?,
        credit_bids(alloc, count)?,
        0,
        900,
    )?;
    let lens = whole_lens(alloc, 60, tracked);
    Ok(check_lens(&problem, 0, &lens).err())
}

#[test]
fn a_lens_has_six_bids_of_whole_lines(rt: HostRuntime) -> Result<(), Memory> {
    let alloc = rt.alloc();
    assert!(rt; fault_of(alloc, 10, 0x3f)?.is_none());
    assert!(rt; fault_of(alloc, 10, 0x3f0)?.is_none());
    assert!(rt; fault_of(alloc, 10, 0x7f)? == Some(LensFault::Untrackable(6)));
    assert!(rt; fault_of(alloc, 10, 0x3ff)? == Some(LensFault::Untrackable(6)));
    assert!(rt; fault_of(alloc, 6, 0x40)? == Some(LensFault::Untrackable(6)));
    Ok(())
}

/// The greatest weight of a line of one who is to reach the floor and wants so many days off.
fn most_with_days(alloc: Global, days: u32, floor: u32) -> Result<Option<i64>, BestFault>
    requires days { days ≤ 31 }
{
    let bids = more(List::new(alloc), days_off(10, days))?;
    let problem = month_of(alloc, pairings_of(alloc, &CREDITS)?, bids, 0, 5400)?;
    let lens = whole_lens(alloc, 60, 1);
    Ok(found(alloc, &problem, &lens, floor, None, &[1; 5], 0)?.0)
}

#[test]
fn days_off_are_days_of_the_month(rt: HostRuntime) -> Result<(), BestFault> {
    let alloc = rt.alloc();
    assert!(rt; most_with_days(alloc, 28, 10)? == Some(2));
    assert!(rt; most_with_days(alloc, 30, 10)? == Some(0));
    assert!(rt; most_with_days(alloc, 31, 10)?.is_none());
    assert!(rt; most_with_days(alloc, 31, 0)? == Some(5));
    Ok(())
}
