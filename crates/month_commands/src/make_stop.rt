//! Why `make` did not write a month.
ghost use Rattle.std.specs.Prelude.{◌≡◌};
ghost use Rattle.month_commands.specs.declared.make_stop.MakeStop.TheVariants.{NoMemory as NoRoom};

use duty_calendar::{List, Memory};
use month_files::{Draft, Unwritten};

/// Why `make` did not write a month.
#[derive(Drop, Debug)]
pub enum MakeStop {
    /// These are the files of the month, and one was not written.
    Unwritten(List<Draft>, Unwritten),
    /// No memory was left.
    NoMemory,
}

impl From<Memory> for MakeStop {
    ghost from_gives = { λ _ e. e ≡ NoRoom };

    fn from(_want: Memory) -> MakeStop {
        MakeStop::NoMemory
    }
}
