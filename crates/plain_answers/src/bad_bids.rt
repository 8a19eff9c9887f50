//! Faults of bids, in words.

use crate::bids_words::due_at;
use duty_calendar::Memory;
use file_places::{Place, Prose};
use printed_lines::BidFlaw;

/// Appends words with what is marked behind them.
fn put_named(prose: &mut Prose, words: &'static [u8], place: &Place<'_>) -> Result<(), Memory> {
    prose.say(words)?;
    prose.text(place.word)
}

/// Whether a place is the first word of its line.
fn begins(place: &Place<'_>) -> bool {
    place.before.trim_ascii().is_empty()
}

/// Appends which word was expected.
fn put_expected(prose: &mut Prose, place: &Place<'_>) -> Result<(), Memory> {
    if place.word.is_empty() {
        prose.say(b"a word is missing here: ")?;
    } else {
        prose.say(b"another word must stand here: ")?;
    }
    prose.say(due_at(place.before))
}

/// Appends what is wrong at a place of a file of bids.
pub fn put_bid_flaw(prose: &mut Prose, flaw: BidFlaw, place: &Place<'_>) -> Result<(), Memory> {
    match flaw {
        BidFlaw::Token => prose.say(
            b"a byte that may not stand in a bid, but in a comment: an accent, a typographic dash, a byte order mark or a carriage return in the line",
        ),
        BidFlaw::Expected => put_expected(prose, place),
        BidFlaw::Number if begins(place) => prose.say(
            b"a line begins with member and a name, or with a weight from 1 to 1000",
        ),
        BidFlaw::Number => prose.say(
            b"no number that may stand here: days go from 1 to 40, days off to 31, prefer from 1 to 600; a clock is 08:00 to 23:59, credit is such as 75:00, and nothing has a leading zero but the clock",
        ),
        BidFlaw::Date => prose.say(
            b"no day of this month in the form 2026-06-10, or a second day before the first",
        ),
        BidFlaw::UnknownMember => put_named(prose, b"there is no pilot ", place),
        BidFlaw::UnknownPairing => put_named(prose, b"there is no pairing ", place),
        BidFlaw::Weight => prose.say(b"a weight goes from 1 to 1000"),
        BidFlaw::TooMany => prose.say(
            b"a pilot has at most 64 bids, and a bid at most 8 tests joined by and",
        ),
        BidFlaw::MemberTwice => prose.say(
            b"the bids of this pilot began further up: all of them stand below one member line",
        ),
    }
}
