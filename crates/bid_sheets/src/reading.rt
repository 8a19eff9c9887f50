//! A pilot's text of bids, read by the reader of bids: what reads of it, and each line that does not.

use crate::framing::without_line;
use bid_language::{BidCode, BidFault, read_bids};
use duty_calendar::Memory;
use roster_model::Problem;
use std::alloc::Global;

/// The most bytes of what a pilot sends.
pub const LONGEST: usize = 262_144;

/// What was read of a text: what is left of it, how many bids that has, the faults that were taken out with their lines, and
/// whether it was read to its end.
#[derive(Drop)]
pub struct Read {
    pub text: Vec<u8>,
    pub bids: u32,
    pub faults: Vec<BidFault>,
    pub is_read: bool,
}

/// How many bids a text has, or its first fault. Nothing where it is too long to be read.
fn count_bids(alloc: Global, problem: &Problem, text: &[u8]) -> Option<Result<u32, BidFault>> {
    if text.len() > LONGEST {
        return None;
    }
    match read_bids(alloc, text, &problem.base) {
        Err(fault) => Some(Err(fault)),
        Ok(lists) => {
            let mut count: u32 = 0;
            for list in lists.as_slice() {
                count = count.saturating_add(u32::try_from(list.len()).unwrap_or(u32::MAX));
            }
            Some(Ok(count))
        }
    }
}

/// Reads a text, and takes out each line that does not read.
pub fn read_all(alloc: Global, problem: &Problem, text: Vec<u8>) -> Result<Read, Memory> {
    let mut read = Read {
        text,
        bids: 0,
        faults: Vec::new(alloc),
        is_read: false,
    };
    for _ in 0..2_000_u32 {
        match count_bids(alloc, problem, &read.text) {
            None => return Ok(read),
            Some(Ok(bids)) => {
                read.bids = bids;
                read.is_read = true;
                return Ok(read);
            }
            Some(Err(fault)) => {
                if let BidCode::NoMemory = fault.code {
                    return Err(Memory::NoMemory);
                }
                read.text = without_line(alloc, &read.text, u64::from(fault.line))?;
                read.faults.push(fault)?;
            }
        }
    }
    Ok(read)
}
