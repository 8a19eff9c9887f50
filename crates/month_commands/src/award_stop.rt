//! What `award` finds, and why it ends without.
ghost use Rattle.std.specs.Prelude.{◌≡◌};
ghost use Rattle.month_commands.specs.AwardEnds.{miss_stop};
ghost use Rattle.month_commands.specs.declared.award_stop.AwardStop.TheVariants.{Unread as NotRead, BadInput as Bad};
ghost use Rattle.month_commands.specs.declared.award_stop.Miss.TheVariants.{NoMemory as NoRoom};

use branch_log::Ledger;
use duty_calendar::{List, Memory};
use month_files::{BadInput, Draft, Unread, Unwritten};

/// What was found of a month.
#[derive(Drop, Debug)]
pub enum Found {
    /// The award: its scores in order of seniority, and how many bids it denies.
    Award(List<u32>, u32),
    /// There is no complete roster.
    NoRoster,
}

/// What was found, and the files that say it, in the order in which they are written.
#[derive(Drop, Debug)]
pub struct Finding {
    pub found: Found,
    /// The open nodes that were counted.
    pub ledger: Ledger,
    pub drafts: List<Draft>,
}

/// Why nothing was found.
#[derive(Drop, Debug)]
pub enum Miss {
    /// These nodes were counted, and were not enough.
    Budget(Ledger),
    /// No memory was left.
    NoMemory,
}

impl From<Memory> for Miss {
    ghost from_gives = { λ _ e. e ≡ NoRoom };

    fn from(_want: Memory) -> Miss {
        Miss::NoMemory
    }
}

/// Why `award` did not write what there is to find.
#[derive(Drop, Debug)]
pub enum AwardStop {
    /// A file was not read.
    Unread(Unread),
    /// The inputs name no problem.
    BadInput(BadInput),
    /// These nodes were counted, and were not enough.
    Budget(Ledger),
    /// This was found, and a file was not written.
    Unwritten(Finding, Unwritten),
    /// No memory was left.
    NoMemory,
}

impl From<Unread> for AwardStop {
    ghost from_gives = { λ why e. e ≡ NotRead why };

    fn from(why: Unread) -> AwardStop {
        AwardStop::Unread(why)
    }
}

impl From<BadInput> for AwardStop {
    ghost from_gives = { λ why e. e ≡ Bad why };

    fn from(why: BadInput) -> AwardStop {
        AwardStop::BadInput(why)
    }
}

impl From<Miss> for AwardStop {
    ghost from_gives = { λ miss e. e ≡ miss_stop miss };

    fn from(miss: Miss) -> AwardStop {
        match miss {
            Miss::Budget(ledger) => AwardStop::Budget(ledger),
            Miss::NoMemory => AwardStop::NoMemory,
        }
    }
}
