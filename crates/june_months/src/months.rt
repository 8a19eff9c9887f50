//! June 2026 in Dublin: pairings, members, bids and months of them.
ghost use Rattle.std.specs.Prelude.{◌≡◌, ◌≢◌, ◌+◌, ◌<◌, ◌≤◌, ◌++◌, ◌∷◌, [], ℕ, All, IfOk, IsTrue, length, true};
ghost use Rattle.std.specs.Option.{ForSome};
ghost use Rattle.duty_calendar.specs.Calendar.{month_days};
ghost use Rattle.duty_calendar.specs.declared.horizon.Horizon.{Horizon as Month};
ghost use Rattle.duty_calendar.specs.Checks.{AreMembers, ArePairings, IsDuty, IsMember, IsPairing, IsRules};
ghost use Rattle.duty_calendar.specs.Forms.{is_station_code};
ghost use Rattle.roster_model.specs.declared.bid.Wish.TheVariants.{Fly};
ghost use Rattle.roster_model.specs.Valid.{IsBid};

use duty_calendar::{
    Base, Duty, Flown, Horizon, Leg, List, Member, Memory, Name, Pairing, Rules, Station,
};
use roster_model::{Bid, Line, Problem, Wish};
use std::alloc::Global;

/// The list with one element more.
pub fn with<T: Drop>(mut list: List<T>, item: T) -> Result<List<T>, Memory>
    ensures added { IfOk result (λ longer. longer ≡ list ++ item ∷ []) }
{
    match list.push(item) {
        Ok(()) => Ok(list),
        Err(_item) => Err(Memory::NoMemory),
    }
}

/// The list of one element.
pub fn one<T: Drop>(alloc: Global, item: T) -> Result<List<T>, Memory>
    ensures only { IfOk result (λ list. list ≡ item ∷ []) }
{
    with(List::new(alloc), item)
}

/// The list of two elements.
pub fn pair<T: Drop>(alloc: Global, first: T, second: T) -> Result<List<T>, Memory>
    ensures both { IfOk result (λ list. list ≡ first ∷ second ∷ []) }
{
    with(one(alloc, first)?, second)
}

/// A duty with one leg from a station to another, and a night at a third, if there is one.
pub fn shift(
    alloc: Global,
    report: u32,
    from: Station,
    to: Station,
    layover: Option<Station>,
) -> Result<Duty, Memory>
    requires in_month { report ≤ 600000 }
    requires from { IsTrue (is_station_code from) }
    requires to { IsTrue (is_station_code to) }
    requires stays { ForSome layover (λ s. IsTrue (is_station_code s)) }
    ensures form { IfOk result IsDuty }
    ensures report { IfOk result (λ d. d.report ≡ report) }
    ensures release { IfOk result (λ d. d.release ≡ report + 390) }
{
    let flown = Flown {
        out_at: report + 60,
        in_at: report + 300,
    };
    Ok(Duty {
        report,
        parked: report + 360,
        release: report + 390,
        layover,
        legs: one(alloc, Leg { from, to, flown })?,
    })
}

/// The day's duty from 8 to 14 o'clock, with one leg.
fn duty(alloc: Global, day: u32) -> Result<Duty, Memory>
    requires from { 1 ≤ day }
    requires to { day ≤ 30 }
    ensures form { IfOk result IsDuty }
    ensures comes { IfOk result (λ d. 525600 ≤ d.report) }
    ensures begins { IfOk result (λ d. d.report < 568800) }
    ensures ends { IfOk result (λ d. d.release ≤ 569280) }
{
    let (Some(from), Some(to)) = (Station::new(*b"DUB"), Station::new(*b"LHR")) else {
        return Err(Memory::NoMemory);
    };
    shift(alloc, 525_600 + 1440 * (day - 1) + 480, from, to, None)
}

/// A pairing of one duty, named by a number.
fn pairing(alloc: Global, number: u32, day: u32, need: u32, credit: u32) -> Result<Pairing, Memory>
    requires few { number < 600 }
    requires from { 1 ≤ day }
    requires to { day ≤ 30 }
    requires some_need { 1 ≤ need }
    requires few_need { need ≤ 9 }
    requires few_credit { credit ≤ 12000 }
    ensures form { IfOk result (λ p. (h : Month) → 30 ≤ month_days h → IsPairing h p) }
{
    let bytes = [
        b'0' + (number / 100) as u8,
        b'0' + (number / 10 % 10) as u8,
        b'0' + (number % 10) as u8,
    ];
    let Some(name) = Name::new(&bytes) else {
        return Err(Memory::NoMemory);
    };
    Ok(Pairing {
        name,
        need,
        credit,
        duties: one(alloc, duty(alloc, day)?)?,
    })
}

/// Whether no pairing has the name.
fn is_new(pairings: &[Pairing], name: &Name) -> bool
    ensures other { result ≡ true → All (λ p. p.name ≢ name.now) pairings.now }
{
    pairings.iter().all(|pairing| pairing.name != *name)
}

/// No pairing.
#[tactic(auto, using(crate::proofs::Held::no_pairings))]
pub fn no_pairing(alloc: Global) -> List<Pairing>
    ensures none { result ≡ [] }
    ensures form { (h : Month) → ArePairings h result }
{
    List::new(alloc)
}

/// The list with one pairing more, which has a name of its own.
pub fn with_pairing(list: List<Pairing>, pairing: Pairing) -> Result<List<Pairing>, Memory>
    requires few { length list < 600 }
    requires list { (h : Month) → 30 ≤ month_days h → ArePairings h list }
    requires pairing { (h : Month) → 30 ≤ month_days h → IsPairing h pairing }
    ensures count { IfOk result (λ longer. length longer ≡ length list + 1) }
    ensures form { IfOk result (λ longer. (h : Month) → 30 ≤ month_days h → ArePairings h longer) }
{
    if !is_new(list.as_slice(), &pairing.name) {
        return Err(Memory::NoMemory);
    }
    with(list, pairing)
}

/// So many pairings, one day after the other, and again from the first day on.
pub fn pairings(alloc: Global, count: u32, need: u32) -> Result<List<Pairing>, Memory>
    requires few { count ≤ 600 }
    requires some_need { 1 ≤ need }
    requires few_need { need ≤ 9 }
    ensures count { IfOk result (λ list. length list ≡ count) }
    ensures form { IfOk result (λ list. (h : Month) → 30 ≤ month_days h → ArePairings h list) }
{
    let mut list = List::new(alloc);
    for number in 0..count {
        let pairing = pairing(alloc, number, 1 + number % 30, need, 300)?;
        list = with_pairing(list, pairing)?;
    }
    Ok(list)
}

/// Pairings of these credits, at most 200 hours, one day after the other.
pub fn pairings_of(alloc: Global, credits: &[u32]) -> Result<List<Pairing>, Memory>
    requires few { length credits.now ≤ 30 }
    ensures count { IfOk result (λ list. length list ≡ length credits.now) }
    ensures form { IfOk result (λ list. (h : Month) → 30 ≤ month_days h → ArePairings h list) }
{
    let mut list = List::new(alloc);
    for number in 0..credits.len() as u32 {
        let credit = credits[number as usize].min(12_000);
        list = with_pairing(list, pairing(alloc, number, 1 + number, 1, credit)?)?;
    }
    Ok(list)
}

/// One pairing of the tenth day.
pub fn tenth(alloc: Global, credit: u32) -> Result<List<Pairing>, Memory>
    requires few_credit { credit ≤ 12000 }
    ensures count { IfOk result (λ list. length list ≡ 1) }
    ensures form { IfOk result (λ list. (h : Month) → 30 ≤ month_days h → ArePairings h list) }
{
    one(alloc, pairing(alloc, 1, 10, 1, credit)?)
}

/// The rules of the month.
fn rules() -> Result<Rules, Memory>
    ensures form { IfOk result IsRules }
    ensures days { IfOk result (λ r. 30 ≤ month_days r.horizon) }
{
    let Ok(horizon) = Horizon::new(2026, 6, 0) else {
        return Err(Memory::NoMemory);
    };
    let (Some(base), Some(seat)) = (Station::new(*b"DUB"), Name::new(b"FO")) else {
        return Err(Memory::NoMemory);
    };
    if horizon.days() < 30 {
        return Err(Memory::NoMemory);
    }
    Ok(Rules {
        base,
        seat,
        horizon,
        days_off: 0,
    })
}

/// A member without events.
fn member(alloc: Global, name: &[u8], low: u32, high: u32) -> Result<Member, Memory>
    requires window { low ≤ high }
    requires few_credit { high ≤ 12000 }
    ensures form { IfOk result (λ m. (h : Month) → IsMember h m) }
    ensures name { IfOk result (λ m. m.name ≡ name.now) }
{
    let Some(name) = Name::new(name) else {
        return Err(Memory::NoMemory);
    };
    Ok(Member {
        name,
        low,
        high,
        history: List::new(alloc),
        fixed: List::new(alloc),
    })
}

/// One member.
pub fn single(alloc: Global, low: u32, high: u32) -> Result<List<Member>, Memory>
    requires window { low ≤ high }
    requires few_credit { high ≤ 12000 }
    ensures count { IfOk result (λ list. length list ≡ 1) }
    ensures form { IfOk result (λ list. (h : Month) → AreMembers h list) }
    ensures names { IfOk result (λ list. All (λ m. m.name ≡ 77 ∷ 49 ∷ []) list) }
{
    one(alloc, member(alloc, b"M1", low, high)?)
}

/// Two members.
pub fn rivals(alloc: Global, low: u32, high: u32) -> Result<List<Member>, Memory>
    requires window { low ≤ high }
    requires few_credit { high ≤ 12000 }
    ensures count { IfOk result (λ list. length list ≡ 2) }
    ensures form { IfOk result (λ list. (h : Month) → AreMembers h list) }
{
    let junior = member(alloc, b"M2", low, high)?;
    with(single(alloc, low, high)?, junior)
}

/// The bid to fly the first pairing.
pub fn first_pairing(alloc: Global) -> Result<List<Bid>, Memory>
    ensures bid { IfOk result (λ list. list ≡ record { weight = 10; wish = Fly 0 } ∷ []) }
{
    let bid = Bid {
        weight: 10,
        wish: Wish::Fly(0),
    };
    one(alloc, bid)
}

/// The line of the first pairing.
pub fn first_line(alloc: Global) -> Result<Line, Memory>
    ensures line { IfOk result (λ line. line ≡ 0 ∷ []) }
{
    match Line::new(one(alloc, 0)?) {
        Some(line) => Ok(line),
        None => Err(Memory::NoMemory),
    }
}

/// The floors of a senior who is to reach 10 and of a junior who is to reach 1.
pub fn two_floors(alloc: Global) -> Result<List<u32>, Memory>
    ensures count { IfOk result (λ floors. length floors ≡ 2) }
{
    pair(alloc, 10, 1)
}

/// The month.
pub fn month(
    pairings: List<Pairing>,
    members: List<Member>,
    bids: List<List<Bid>>,
) -> Result<Problem, Memory>
    requires pairings { (h : Month) → 30 ≤ month_days h → ArePairings h pairings }
    requires members { (h : Month) → AreMembers h members }
    requires lists { length bids ≡ length members }
    requires few_bids { All (λ list. length list ≤ 64) bids }
    requires each_bid { (h : Month) → 30 ≤ month_days h
        → All (All (IsBid h (length pairings))) bids }
    ensures members { IfOk result (λ p. length p.base.members ≡ length members) }
    ensures pairings { IfOk result (λ p. length p.base.pairings ≡ length pairings) }
{
    let base = Base {
        rules: rules()?,
        pairings,
        members,
    };
    Ok(Problem { base, bids })
}

/// The month of one member who wants to fly the one pairing.
pub fn smallest(alloc: Global) -> Result<Problem, Memory>
    ensures members { IfOk result (λ p. length p.base.members ≡ 1) }
    ensures pairings { IfOk result (λ p. length p.base.pairings ≡ 1) }
{
    let bids = one(alloc, first_pairing(alloc)?)?;
    month(tenth(alloc, 300)?, single(alloc, 0, 5400)?, bids)
}

/// The month of two members who both want to fly the one pairing.
pub fn contest(alloc: Global) -> Result<Problem, Memory>
    ensures members { IfOk result (λ p. length p.base.members ≡ 2) }
    ensures pairings { IfOk result (λ p. length p.base.pairings ≡ 1) }
{
    let senior = first_pairing(alloc)?;
    let junior = first_pairing(alloc)?;
    let bids = pair(alloc, senior, junior)?;
    month(tenth(alloc, 300)?, rivals(alloc, 0, 5400)?, bids)
}

/// The month of two members without bids, whose credit is from `low` to `high`, and of so many
/// pairings of such need.
pub fn shared(alloc: Global, count: u32, need: u32, low: u32, high: u32) -> Result<Problem, Memory>
    requires few { count ≤ 600 }
    requires some_need { 1 ≤ need }
    requires few_need { need ≤ 9 }
    requires window { low ≤ high }
    requires few_credit { high ≤ 12000 }
    ensures members { IfOk result (λ p. length p.base.members ≡ 2) }
{
    let bids = pair(alloc, List::new(alloc), List::new(alloc))?;
    let members = rivals(alloc, low, high)?;
    month(pairings(alloc, count, need)?, members, bids)
}
