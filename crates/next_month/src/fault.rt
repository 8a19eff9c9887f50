//! Why members of the next month cannot be written.

use duty_calendar::Memory;
use thiserror::Error;

/// Why the members of the next month cannot be written. A member is a place in the crew, counted from 0.
#[derive(Clone, Copy, Debug, PartialEq, Eq, Error)]
pub enum HeirFault {
    /// No memory was left.
    #[error("out of memory")]
    NoMemory,
    /// Two events that are carried for the member share a minute.
    #[error("events overlap")]
    Overlap(u32),
    /// The member has more events before the month than the reader takes.
    #[error("more than 500 events of history")]
    LongHistory(u32),
    /// The member has more fixed events than the reader takes.
    #[error("more than 60 fixed events")]
    LongFixed(u32),
}

impl From<Memory> for HeirFault {
    ghost use Rattle.std.specs.Prelude.{◌≡◌};
    ghost use Rattle.next_month.specs.declared.fault.HeirFault.TheVariants.{NoMemory as NoRoom};

    ghost from_gives = { λ _ e. e ≡ NoRoom };

    fn from(_want: Memory) -> HeirFault {
        HeirFault::NoMemory
    }
}
