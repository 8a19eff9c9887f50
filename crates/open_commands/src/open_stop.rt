//! What `open` finds, and why it ends without.
ghost use Rattle.std.specs.Prelude.{◌≡◌};
ghost use Rattle.open_commands.specs.OpeningEnds.{miss_end};
ghost use Rattle.open_commands.specs.declared.open_stop.OpenMiss.TheVariants.{NoMemory as NoRoom};
ghost use Rattle.open_commands.specs.declared.open_stop.OpenStop.TheVariants.{Unread as NotRead, BadInput as Bad};

use branch_log::Ledger;
use duty_calendar::{List, Memory, Name};
use month_files::{BadInput, Draft, Unread, Unwritten};
use open_time::OpenFault;

/// A pairing that vacant lines have, and who may fly it.
#[derive(Drop, Debug)]
pub struct OpenRow {
    /// The pairing's number, from 0.
    pub number: u32,
    pub pairing: Name,
    /// How many vacant lines have it.
    pub count: u32,
    /// The members who could fly it beside their lines, in the order of the crew.
    pub members: List<Name>,
}

/// What was found of a month.
#[derive(Drop, Debug)]
pub enum Opening {
    /// So many vacant lines are needed; the scores of the award with them, those of the vacant lines last; and the pairings
    /// that vacant lines have.
    Award(u32, List<u32>, List<OpenRow>),
    /// The most that were asked for are not enough.
    NoRoster,
}

/// What was found, and the files that say it, in the order in which they are written.
#[derive(Drop, Debug)]
pub struct OpenFinding {
    pub found: Opening,
    /// The open nodes that were counted.
    pub ledger: Ledger,
    pub drafts: List<Draft>,
}

/// Why nothing was found.
#[derive(Drop, Debug)]
pub enum OpenMiss {
    /// The vacant lines cannot be added.
    No(OpenFault),
    /// These nodes were counted, and were not enough.
    Budget(Ledger),
    /// No memory was left.
    NoMemory,
}

impl From<Memory> for OpenMiss {
    ghost from_gives = { λ _ e. e ≡ NoRoom };

    fn from(_want: Memory) -> OpenMiss {
        OpenMiss::NoMemory
    }
}

/// Why `open` did not write what there is to find.
#[derive(Drop, Debug)]
pub enum OpenStop {
    /// A file was not read.
    Unread(Unread),
    /// The inputs name no problem.
    BadInput(BadInput),
    /// The vacant lines cannot be added.
    No(OpenFault),
    /// These nodes were counted, and were not enough.
    Budget(Ledger),
    /// This was found, and a file was not written.
    Unwritten(OpenFinding, Unwritten),
    /// No memory was left.
    NoMemory,
}

impl From<Unread> for OpenStop {
    ghost from_gives = { λ why e. e ≡ NotRead why };

    fn from(why: Unread) -> OpenStop {
        OpenStop::Unread(why)
    }
}

impl From<BadInput> for OpenStop {
    ghost from_gives = { λ why e. e ≡ Bad why };

    fn from(why: BadInput) -> OpenStop {
        OpenStop::BadInput(why)
    }
}

impl From<OpenMiss> for OpenStop {
    ghost from_gives = { λ miss e. e ≡ miss_end miss };

    fn from(miss: OpenMiss) -> OpenStop {
        match miss {
            OpenMiss::No(why) => OpenStop::No(why),
            OpenMiss::Budget(ledger) => OpenStop::Budget(ledger),
            OpenMiss::NoMemory => OpenStop::NoMemory,
        }
    }
}
