//! All faults of a month: what has the first is taken out, so that the next becomes the first.
ghost use Rattle.std.specs.Prelude.{◌≡◌, true};
ghost use Rattle.month_files.specs.Reading.{AreShort, view_texts};

use crate::drawer::Drawer;
use crate::findings::Findings;
use crate::mending::{Mended, mend};
use duty_calendar::Memory;
use month_files::{BadInput, Texts, read_month};
use roster_model::Problem;
use std::alloc::Global;

/// The most bytes of an input.
const LONGEST: usize = 67_108_864;

/// Whether the eight inputs are short enough to be read.
fn are_short(texts: &Texts) -> bool
    ensures short { result ≡ true → AreShort (view_texts texts.now) }
{
    texts.rules.len() <= LONGEST
        && texts.pairings.len() <= LONGEST
        && texts.duties.len() <= LONGEST
        && texts.legs.len() <= LONGEST
        && texts.crew.len() <= LONGEST
        && texts.history.len() <= LONGEST
        && texts.fixed.len() <= LONGEST
        && texts.bids.len() <= LONGEST
}

/// The month that the texts are left with, or its first fault; nothing where they are too long to be read.
fn month_of(alloc: Global, drawer: &Drawer) -> Option<Result<Problem, BadInput>> {
    if are_short(&drawer.texts) {
        return Some(read_month(alloc, &drawer.texts));
    }
    None
}

/// Notes each fault, and gives what is left without them, where that can be read.
pub fn without_faults(
    found: &mut Findings,
    drawer: &mut Drawer,
) -> Result<Option<Problem>, Memory> {
    for _ in 0..5_000_u32 {
        match month_of(found.alloc(), drawer) {
            None => return Ok(None),
            Some(Ok(problem)) => return Ok(Some(problem)),
            Some(Err(BadInput::NoMemory)) => return Err(Memory::NoMemory),
            Some(Err(BadInput::Fault(fault))) => {
                if found.is_full() {
                    return Ok(None);
                }
                if let Mended::Stop = mend(found, drawer, &fault)? {
                    return Ok(None);
                }
            }
        }
    }
    Ok(None)
}
