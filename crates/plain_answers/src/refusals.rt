//! Why a command did nothing, in words.

use crate::judge_words::put_judged;
use crate::names::{put_pilot, put_trip};
use crate::rule_words::put_rule;
use duty_calendar::Memory;
use file_places::Prose;
use printed_lines::{Denied, Open, Refused, Trouble};
use roster_model::Problem;

/// What became of a file.
fn trouble_words(trouble: Trouble) -> &'static [u8] {
    match trouble {
        Trouble::Missing => b"there is no such file in the folder (or no such folder)",
        Trouble::ReadFault => {
            b"the file is there and was not read: no permission, a folder of that name, or a fault of the disk"
        }
        Trouble::TooLong => b"the file has more bytes than it may have",
        Trouble::WriteFault => {
            b"the file was not written: no permission, no room, no such folder, or a folder of that name; it may hold anything now"
        }
    }
}

/// Appends what became of a file.
pub fn put_trouble(prose: &mut Prose, trouble: Trouble) -> Result<(), Memory> {
    prose.say(trouble_words(trouble))
}

/// Appends a name between words.
fn put_name(
    prose: &mut Prose,
    before: &'static [u8],
    name: &[u8],
    behind: &'static [u8],
) -> Result<(), Memory> {
    prose.say(before)?;
    prose.text(name)?;
    prose.say(behind)
}

/// Appends what is not there for a command.
pub fn put_denied(prose: &mut Prose, denied: Denied<'_>) -> Result<(), Memory> {
    match denied {
        Denied::Award => prose.say(
            b"there is no award to start from: certificate.txt shows that the month has no complete roster",
        ),
        Denied::Events(name) => put_name(
            prose,
            b"pilot ",
            name,
            b" has no pairing in roster.csv and no row in fixed.csv, so there is no calendar to write",
        ),
        Denied::Bids(name) => put_name(
            prose,
            b"bids2.txt has other bids for pilot ",
            name,
            b" too, and whatif asks about one pilot: all others have the bids of bids.txt there",
        ),
        Denied::Member(name) => put_name(
            prose,
            b"there is no pilot ",
            name,
            b" in crew.csv; names are spelt exactly as there, capitals too",
        ),
    }
}

/// Appends why an award with vacant lines is not made or not accepted.
pub fn put_open(prose: &mut Prose, month: Option<&Problem>, open: Open) -> Result<(), Memory> {
    match open {
        Open::Members(total) => {
            prose.say(b"pilots and vacant lines together are ")?;
            prose.number(u64::from(total))?;
            prose.say(b", and at most 200 may be")
        }
        Open::NameTaken(member) => {
            put_pilot(prose, month, member)?;
            prose.say(b" has the name of a vacant line: give this pilot another name")
        }
        Open::NoneProof => prose.say(b"open-none.txt is missing or is not due"),
        Open::Fewer(why) => {
            prose.say(b"open-none.txt does not show that one vacant line less is too few: ")?;
            put_judged(prose, month, why)
        }
        Open::Award(why) => {
            prose.say(
                b"the award with the vacant lines, which are the last of its lines, is not accepted: ",
            )?;
            put_judged(prose, month, why)
        }
    }
}

/// Appends that a pilot has not a pairing to give, or has one to get.
fn put_holding(
    prose: &mut Prose,
    month: Option<&Problem>,
    member: u32,
    words: &'static [u8],
    pairing: u32,
) -> Result<(), Memory> {
    put_pilot(prose, month, member)?;
    prose.say(words)?;
    put_trip(prose, month, pairing)
}

/// Appends why a trade was not made.
pub fn put_refused(
    prose: &mut Prose,
    month: Option<&Problem>,
    number: u64,
    why: Refused,
) -> Result<(), Memory> {
    prose.say(b"trade ")?;
    prose.number(number)?;
    prose.say(b" was not made: ")?;
    match why {
        Refused::SameMember => prose.say(b"nobody trades alone"),
        Refused::NotHeld(member, pairing) => {
            put_holding(prose, month, member, b" does not have ", pairing)
        }
        Refused::Held(member, pairing) => {
            put_holding(prose, month, member, b" already has ", pairing)
        }
        Refused::Line(member, why) => {
            prose.say(b"with it, the line of ")?;
            put_pilot(prose, month, member)?;
            prose.say(b" would not be legal: ")?;
            put_rule(prose, month, why)
        }
    }
}
