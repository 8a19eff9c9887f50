//! What is said of a file that a pilot sent.

use bid_language::BidFault;
use duty_calendar::Memory;
use file_places::{Place, Prose, line_place};
use folder_answers::bid_place;
use plain_answers::put_bid_flaw;

/// Appends the name of a pilot's file.
pub fn put_file(prose: &mut Prose, name: &[u8]) -> Result<(), Memory> {
    prose.text(name)?;
    prose.say(b".txt")
}

/// Appends a place of a pilot's file.
fn put_head(prose: &mut Prose, name: &[u8], place: &Place<'_>) -> Result<(), Memory> {
    put_file(prose, name)?;
    prose.say(b", line ")?;
    prose.number(place.line)?;
    prose.say(b", column ")?;
    prose.number(place.column)?;
    prose.say(b": ")
}

/// Appends a fault of what a pilot sent, of which the text of bids has each line one further down.
pub fn put_fault(
    prose: &mut Prose,
    name: &[u8],
    sent: &[u8],
    fault: &BidFault,
) -> Result<(), Memory> {
    let Some(found) = bid_place(fault) else {
        return Ok(());
    };
    let place = line_place(sent, found.line.saturating_sub(1), found.column);
    put_head(prose, name, &place)?;
    put_bid_flaw(prose, found.flaw, &place)?;
    prose.say(b"\n")?;
    prose.mark(&place)
}

/// Appends that a line of what a pilot sent names another pilot.
pub fn put_foreign(prose: &mut Prose, name: &[u8], sent: &[u8], number: u64) -> Result<(), Memory> {
    let place = line_place(sent, number, 1);
    put_head(prose, name, &place)?;
    prose.say(b"a file has the bids of the pilot whose name it has, and no others\n")?;
    prose.mark(&place)
}

/// Appends that a bid that stands is left out, since it does not read in this month.
pub fn put_left_out(
    prose: &mut Prose,
    name: &[u8],
    lines: &[u8],
    fault: &BidFault,
) -> Result<(), Memory> {
    let Some(found) = bid_place(fault) else {
        return Ok(());
    };
    let place = line_place(lines, found.line.saturating_sub(1), found.column);
    prose.text(name)?;
    prose.say(b": a standing bid is left out: ")?;
    put_bid_flaw(prose, found.flaw, &place)?;
    prose.say(b"\n")?;
    prose.mark(&place)
}
