//! What was done, in words.

use duty_calendar::Memory;
use file_places::Prose;
use printed_lines::{Done, View};

/// Appends a number between words.
fn put_count(
    prose: &mut Prose,
    before: &'static [u8],
    count: u64,
    behind: &'static [u8],
) -> Result<(), Memory> {
    prose.say(before)?;
    prose.number(count)?;
    prose.say(behind)
}

/// Appends a name between words.
fn put_name(
    prose: &mut Prose,
    before: &'static [u8],
    name: &[u8],
    behind: &'static [u8],
) -> Result<(), Memory> {
    prose.say(before)?;
    prose.text(name)?;
    prose.say(behind)
}

/// What a line of the month of a member says.
fn view_words(view: View) -> &'static [u8] {
    match view {
        View::Sums =>
            b"the pilot's credit with fixed events, the window from low to high, the score and the days off",
        View::Day =>
            b"a day of the month, with what touches it in order of time; - is a day with nothing",
        View::Granted => b"the roster grants this bid",
        View::Denied => b"the roster denies this bid",
    }
}

/// Appends who could fly a pairing of a vacant line.
fn put_open_trip(prose: &mut Prose, name: &[u8], count: u64, pilots: u64) -> Result<(), Memory> {
    put_name(prose, b"pairing ", name, b" is on ")?;
    put_count(prose, b"", count, b" vacant lines; ")?;
    if pilots == 0 {
        return prose.say(b"no pilot could fly it beside the own line");
    }
    put_count(
        prose,
        b"",
        pilots,
        b" pilots, who are named, could each fly it beside the own line",
    )
}

/// Appends what was made: a month of so many pilots and pairings.
fn put_made(prose: &mut Prose, members: u64, pairings: u64) -> Result<(), Memory> {
    put_count(
        prose,
        b"the eight files of a month were written, with ",
        members,
        b" pilots and ",
    )?;
    put_count(prose, b"", pairings, b" pairings")
}

/// Appends what a line of the sums of a search says.
fn put_sums(prose: &mut Prose, done: Done<'_>) -> Result<(), Memory> {
    match done {
        Done::Vector(count) => put_count(
            prose,
            b"the scores of the ",
            count,
            b" lines, in order of seniority",
        ),
        Done::Nodes(count) => put_count(
            prose,
            b"the search counted ",
            count,
            b" nodes, which says how hard the month was",
        ),
        Done::Denials(count) => put_count(
            prose,
            b"the award denies ",
            count,
            b" bids; reasons.txt says why",
        ),
        Done::Budget(count) => put_count(
            prose,
            b"the search came to its limit of ",
            count,
            b" nodes and found no end: nothing is said of the month; a larger --nodes gives it more",
        ),
        Done::Made(members, pairings) => put_made(prose, members, pairings),
        Done::Migrated(version) => put_count(
            prose,
            b"certificate.txt was written anew in the version of today; it was of version ",
            version,
            b"",
        ),
        _ => Ok(()),
    }
}

/// Appends what a line of vacant lines says.
fn put_opened(prose: &mut Prose, done: Done<'_>) -> Result<(), Memory> {
    match done {
        Done::YesOpen(0) => prose.say(
            b"the award is accepted: the crew is enough, without a vacant line",
        ),
        Done::YesOpen(lines) => put_count(
            prose,
            b"the award with vacant lines is accepted: with ",
            lines,
            b" of them the month has a complete roster, and with fewer it has none",
        ),
        Done::Open(0) => prose.say(
            b"the crew is enough: the month has a complete roster without a vacant line",
        ),
        Done::Open(lines) => put_count(
            prose,
            b"with ",
            lines,
            b" vacant lines the month has a complete roster, with fewer it has none; the award with them was written",
        ),
        Done::OpenTrip(name, count, pilots) => put_open_trip(prose, name, count, pilots),
        _ => Ok(()),
    }
}

/// Appends what a line says was done.
pub fn put_done(prose: &mut Prose, done: Done<'_>) -> Result<(), Memory> {
    match done {
        Done::Award => prose.say(
            b"the month is awarded, and its three files are written (after trial nothing is)",
        ),
        Done::NoRoster => prose.say(
            b"there is no way to give each pilot a legal line so that each pairing has its crew; the certificate shows it",
        ),
        Done::Yes => prose.say(
            b"the award in the folder is accepted: no complete roster is better, and each reason is right",
        ),
        Done::YesNone => prose.say(
            b"the certificate is accepted: it shows that the month has no complete roster",
        ),
        Done::Traded(number) => put_count(prose, b"trade ", number, b" of trades.txt was made"),
        Done::WhatIf => prose.say(
            b"the month was awarded with the other bids; the roster is in whatif-roster.csv",
        ),
        Done::Calendar(name, count) => {
            put_name(prose, b"the calendar of ", name, b" was written, with ")?;
            put_count(prose, b"", count, b" events")
        }
        Done::Page(count) => put_count(
            prose,
            b"month.html was written, with ",
            count,
            b" pilots on it",
        ),
        Done::View(view) => prose.say(view_words(view)),
        Done::YesOpen(_) | Done::Open(_) | Done::OpenTrip(_, _, _) => put_opened(prose, done),
        Done::Vector(_)
        | Done::Nodes(_)
        | Done::Denials(_)
        | Done::Budget(_)
        | Done::Made(_, _)
        | Done::Migrated(_) => put_sums(prose, done),
    }
}
