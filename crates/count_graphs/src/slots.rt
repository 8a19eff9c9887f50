//! The bids that terms count, one beside the other.
ghost use Rattle.std.specs.Prelude.{◌≡◌, ◌≤◌};
ghost use Rattle.duty_calendar.specs.Minutes.{count_between};
ghost use Rattle.lens_classes.specs.TermLines.{is_counted};
ghost use Rattle.count_graphs.specs.Counts.{AreSlots};

use lens_classes::Terms;
use line_items::is_set;

/// A number that no bid has.
const NO_BID: u32 = 64;

/// The counted bids, each in a place of its own.
pub(crate) fn slots_of(terms: &Terms) -> [u32; 8]
    requires few { count_between (is_counted terms.now) 0 64 ≤ 8 }
    ensures slots { AreSlots terms.now result }
{
    let counted = terms.counted;
    let mut slots = [NO_BID; 8];
    let mut next = 0;
    for bid in 0..64u32 {
        if is_set(counted, bid) {
            slots[next] = bid;
            next += 1;
        }
    }
    slots
}
