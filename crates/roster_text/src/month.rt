//! Printing the view of a member's month.
ghost use Rattle.std.specs.Prelude.{◌≡◌, ◌++◌, ◌∷◌, ◌+◌, ◌<◌, ◌≤◌, IfOk, OnOk, All, length};
ghost use Rattle.std.specs.List.{flat_map};
ghost use Rattle.duty_calendar.specs.Calendar.{month_days};
ghost use Rattle.field_text.specs.Spelling.{number_text, minutes_text};
ghost use Rattle.roster_model.specs.Legality.{low_of, high_of};
ghost use Rattle.roster_model.specs.Rosters.{line_at};
ghost use Rattle.roster_model.specs.Scores.{bids_of};
ghost use Rattle.roster_text.specs.RosterText.{pairing_name};
ghost use Rattle.roster_text.specs.MonthEntries.{IsListedInTime};
ghost use Rattle.roster_text.specs.MonthText.{window_text, worth_text, sums_line, weekday_text, mark_word, entries_text, day_line, days_text, bid_line, bids_text, line_month, month_text};

use crate::month_entries::{Entry, Mark, entries_on};
use crate::printing::put_member;
use crate::reason_reading::bid_count;
use bid_language::{put_bid, put_date, weekday_word};
use bid_score::{credit, days_off, granted, score};
use duty_calendar::{Horizon, List, Memory};
use field_text::{kind_word, put_bytes, put_minutes, put_number};
use roster_model::{BidRef, Line, Problem, Roster};
use std::alloc::Global;

/// Appends minutes behind words.
fn put_time(out: &mut List<u8>, front: &[u8], value: u32) -> Result<(), Memory>
    ensures whole { OnOk result (out.new ≡ out.old ++ (front.now ++ minutes_text value)) }
{
    put_bytes(out, front)?;
    put_minutes(out, value)
}

/// Appends a number behind words.
fn put_count(out: &mut List<u8>, front: &[u8], value: u32) -> Result<(), Memory>
    ensures whole { OnOk result (out.new ≡ out.old ++ (front.now ++ number_text value)) }
{
    put_bytes(out, front)?;
    put_number(out, value)
}

/// The least credit of a member.
fn low_of(problem: &Problem, member: u32) -> u32
    requires member { member < length problem.now.base.members }
    ensures value { result ≡ low_of problem.now member }
{
    problem.base.members.as_slice()[member as usize].low
}

/// The greatest credit of a member.
fn high_of(problem: &Problem, member: u32) -> u32
    requires member { member < length problem.now.base.members }
    ensures value { result ≡ high_of problem.now member }
{
    problem.base.members.as_slice()[member as usize].high
}

/// Appends the least and the greatest credit of a member.
fn put_window(out: &mut List<u8>, problem: &Problem, member: u32) -> Result<(), Memory>
    requires member { member < length problem.now.base.members }
    ensures whole { OnOk result (out.new ≡ out.old ++ window_text problem.now member) }
{
    put_time(out, b" of ", low_of(problem, member))?;
    put_time(out, b" to ", high_of(problem, member))
}

/// Appends the score and the days off of a line.
#[tactic(auto, unfolding(crate::specs::MonthText::worth_text))]
fn put_worth(out: &mut List<u8>, problem: &Problem, member: u32, line: &Line) -> Result<(), Memory>
    requires member { member < length problem.now.base.members }
    requires in_range { All (λ p. p < length problem.now.base.pairings) line.now }
    ensures whole { OnOk result (out.new ≡ out.old ++ worth_text problem.now member line.now) }
{
    put_count(out, b" score ", score(problem, member, line))?;
    put_count(out, b" daysoff ", days_off(problem, member, line))
}

/// Appends the first line.
#[tactic(auto, unfolding(crate::specs::MonthText::sums_line))]
fn put_sums_line(
    out: &mut List<u8>,
    problem: &Problem,
    member: u32,
    line: &Line,
) -> Result<(), Memory>
    requires member { member < length problem.now.base.members }
    requires in_range { All (λ p. p < length problem.now.base.pairings) line.now }
    ensures whole { OnOk result (out.new ≡ out.old ++ sums_line problem.now member line.now) }
{
    put_bytes(out, b"member ")?;
    put_member(out, problem, member)?;
    put_time(out, b" credit ", credit(problem, member, line))?;
    put_window(out, problem, member)?;
    put_worth(out, problem, member, line)?;
    put_bytes(out, b"\n")
}

/// Appends the three letters of the day of the week of a day of the month.
#[tactic(auto, using(crate::proofs::Months::weekday_named))]
fn put_weekday(out: &mut List<u8>, horizon: &Horizon, day: u32) -> Result<(), Memory>
    requires first { 365 ≤ day }
    requires last { day < 365 + month_days horizon.now }
    ensures whole { OnOk result (out.new ≡ out.old ++ weekday_text horizon.now day) }
{
    put_bytes(out, weekday_word(horizon.weekday(day)))
}

/// The name of a pairing.
fn name_of(problem: &Problem, pairing: u32) -> &[u8]
    ensures value { result.now ≡ pairing_name problem.now pairing }
{
    match problem.base.pairings.as_slice().get(pairing as usize) {
        Some(known) => known.name.bytes(),
        None => b"",
    }
}

/// What is written for an entry.
fn mark_word(problem: &Problem, mark: Mark) -> &[u8]
    ensures value { result.now ≡ mark_word problem.now mark }
{
    match mark {
        Mark::Flown(pairing) => name_of(problem, pairing),
        Mark::Fixed(kind) => kind_word(kind),
    }
}

/// Appends the words of entries, each behind a space.
fn put_others(out: &mut List<u8>, problem: &Problem, entries: &[Entry]) -> Result<(), Memory>
    ensures whole { OnOk result (out.new ≡ out.old
        ++ flat_map (λ e. 32 ∷ mark_word problem.now e.mark) entries.now) }
{
    for entry in entries {
        put_bytes(out, b" ")?;
        put_bytes(out, mark_word(problem, entry.mark))?;
    }
    Ok(())
}

/// Appends the words of entries, or a dash where there are none.
fn put_entries(out: &mut List<u8>, problem: &Problem, entries: &[Entry]) -> Result<(), Memory>
    ensures whole { OnOk result (out.new ≡ out.old ++ entries_text problem.now entries.now) }
{
    let Some((first, others)) = entries.split_first() else {
        return put_bytes(out, b"-");
    };
    put_bytes(out, mark_word(problem, first.mark))?;
    put_others(out, problem, others)
}

/// Appends the line of a day.
fn put_day_line(
    alloc: Global,
    out: &mut List<u8>,
    problem: &Problem,
    member: u32,
    line: &[u32],
    day: u32,
) -> Result<(), Memory>
    requires member { member < length problem.now.base.members }
    requires in_range { All (λ p. p < length problem.now.base.pairings) line.now }
    requires first { 365 ≤ day }
    requires last { day < 365 + month_days problem.now.base.rules.horizon }
    ensures whole { OnOk result (out.new ≡ out.old ++ day_line problem.now member line.now day) }
{
    let entries = entries_on(alloc, problem, member, line, day)?;
    put_date(out, &problem.base.rules.horizon, day)?;
    put_bytes(out, b" ")?;
    put_weekday(out, &problem.base.rules.horizon, day)?;
    put_bytes(out, b" ")?;
    put_entries(out, problem, entries.as_slice())?;
    put_bytes(out, b"\n")
}

/// Appends the lines of the days.
fn put_days(
    alloc: Global,
    out: &mut List<u8>,
    problem: &Problem,
    member: u32,
    line: &[u32],
) -> Result<(), Memory>
    requires member { member < length problem.now.base.members }
    requires in_range { All (λ p. p < length problem.now.base.pairings) line.now }
    ensures whole { OnOk result (out.new ≡ out.old ++ days_text problem.now member line.now) }
{
    for day in 365..365 + problem.base.rules.horizon.days() {
        put_day_line(alloc, out, problem, member, line, day)?;
    }
    Ok(())
}

/// Appends the line of a bid.
fn put_bid_line(
    out: &mut List<u8>,
    problem: &Problem,
    member: u32,
    line: &Line,
    bid: u32,
) -> Result<(), Memory>
    requires member { member < length problem.now.base.members }
    requires in_range { All (λ p. p < length problem.now.base.pairings) line.now }
    requires bid { bid < length (bids_of problem.now member) }
    ensures whole { OnOk result (out.new ≡ out.old ++ bid_line problem.now member line.now bid) }
{
    put_count(out, b"bid ", bid + 1)?;
    if granted(problem, member, bid, line) {
        put_bytes(out, b" granted ")?;
    } else {
        put_bytes(out, b" denied ")?;
    }
    put_bid(out, problem, BidRef { member, bid })?;
    put_bytes(out, b"\n")
}

/// Appends the lines of the member's bids.
fn put_bids(out: &mut List<u8>, problem: &Problem, member: u32, line: &Line) -> Result<(), Memory>
    requires member { member < length problem.now.base.members }
    requires in_range { All (λ p. p < length problem.now.base.pairings) line.now }
    ensures whole { OnOk result (out.new ≡ out.old ++ bids_text problem.now member line.now) }
{
    for bid in 0..bid_count(problem, member as usize) {
        put_bid_line(out, problem, member, line, bid)?;
    }
    Ok(())
}

/// Appends the view of the member's month with a line.
fn put_month(
    alloc: Global,
    out: &mut List<u8>,
    problem: &Problem,
    member: u32,
    line: &Line,
) -> Result<(), Memory>
    requires member { member < length problem.now.base.members }
    requires in_range { All (λ p. p < length problem.now.base.pairings) line.now }
    ensures whole { OnOk result (out.new ≡ out.old ++ line_month problem.now member line.now) }
{
    put_sums_line(out, problem, member, line)?;
    put_days(alloc, out, problem, member, line.pairings())?;
    put_bids(out, problem, member, line)
}

/// The calendar view of a member's month in a roster: a line of sums, a line for each day with what
/// touches it, and a line for each bid.
pub fn print_month(
    alloc: Global,
    problem: &Problem,
    roster: &Roster,
    member: u32,
) -> Result<List<u8>, Memory>
    requires lines { length roster.now ≡ length problem.now.base.members }
    requires in_range { All (All (λ p. p < length problem.now.base.pairings)) roster.now }
    requires member { member < length problem.now.base.members }
    ensures whole { IfOk result (λ text. text ≡ month_text problem.now roster.now member) }
    ensures order { IsListedInTime problem.now member (line_at roster.now member) }
{
    let mut out = List::new(alloc);
    put_month(
        alloc,
        &mut out,
        problem,
        member,
        &roster.as_slice()[member as usize],
    )?;
    Ok(out)
}
