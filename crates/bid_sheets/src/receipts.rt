//! What a pilot may keep: how many bids were taken, and the sum of the file that was sent.

use crate::words::put_file;
use duty_calendar::Memory;
use file_places::Prose;
use page_parts::{hex_of, sum_of};
use std::alloc::Global;

/// Appends how many bids there are.
pub fn put_count(prose: &mut Prose, count: u32) -> Result<(), Memory> {
    prose.number(u64::from(count))?;
    if count == 1 {
        return prose.say(b" bid");
    }
    prose.say(b" bids")
}

/// Appends the receipt of a pilot.
pub fn put_receipt(
    alloc: Global,
    prose: &mut Prose,
    name: &[u8],
    bids: u32,
    sent: &[u8],
) -> Result<(), Memory> {
    let digits = hex_of(alloc, &sum_of("", sent).sum)?;
    prose.text(name)?;
    prose.say(b": ")?;
    put_count(prose, bids)?;
    prose.say(b", SHA-256 of ")?;
    put_file(prose, name)?;
    prose.say(b" ")?;
    prose.text(digits.as_slice())?;
    prose.say(b"\n")
}
