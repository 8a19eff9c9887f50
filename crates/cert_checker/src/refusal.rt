//! Why an award is not accepted.

use duty_calendar::Memory;
use line_legality::Illegal;
use line_lens::LensFault;
use std::alloc::AllocError;
use thiserror::Error;

/// What is wrong with an item of a closing proof. Members and pairings are numbers from 0.
#[derive(Clone, Copy, PartialEq, Eq, Debug, Error)]
pub enum ItemFault {
    /// A member or pairing that is none of the problem. Code 1.
    #[error("no such member or pairing")]
    Index,
    /// The pair is decided already. Code 2.
    #[error("the pair is decided already")]
    Decided,
    /// The pairing can still have the crew that it needs. Code 3.
    #[error("the pairing can still be covered")]
    Covered,
    /// The first pairing that is not decided for the member. Code 4.
    #[error("pairing {0} is not decided for the member")]
    Undecided(u32),
    /// The member's line is legal and meets the goal. Code 5.
    #[error("the member's line fits")]
    Fits,
    /// The member's lens has not its shape, and its first fault. Code 6.
    #[error("the lens of member {0}: {1}")]
    Lens(u32, LensFault),
    /// A line of the member passes the lens. Code 7.
    #[error("a line of member {0} passes the lens")]
    Line(u32),
    /// No line of the member passes the lens. Code 8.
    #[error("no line of member {0} passes the lens")]
    Nothing(u32),
    /// The best lines weigh so much together, and the crews that are needed no more. Code 9.
    #[error("the lines weigh {0} and the needs {1}")]
    Sum(i64, i64),
    /// So many weights and so many lenses, and not one for each pairing and one for each member.
    /// Code 10.
    #[error("{0} weights and {1} lenses")]
    Width(u32, u32),
}

/// The first test of an award that fails. Members, pairings, bids, searches and items are numbers
/// from 0. The search of a place has the place's number, and that of a reason the reason's number
/// and the number of members added to it.
#[derive(Clone, Copy, PartialEq, Eq, Debug, Error)]
pub enum No {
    /// No memory was left. Code 0.
    #[error("out of memory")]
    NoMemory,
    /// The first member whose line is illegal, and why. Code 1.
    #[error("the line of member {0}: {1}")]
    Member(u32, Illegal),
    /// The first pairing without its crew, and the crew that it has. Code 2.
    #[error("pairing {0} has a crew of {1}")]
    Cover(u32, u32),
    /// There are so many proofs, and not one for each place; or so many parts are shown, and not
    /// one for each reason. Code 3.
    #[error("{0} proofs or parts")]
    Amount(u32),
    /// A search, the first of its items that is not accepted, and why. Code 4.
    #[error("search {0}, item {1}: {2}")]
    Item(u32, u32, ItemFault),
    /// The items of a search end before it is closed, or go on after it. Code 5.
    #[error("search {0} does not end with its items")]
    Left(u32),
    /// A bid that the reasons wrongly name or leave out, by its member. Code 6.
    #[error("the reason of member {0}, bid {1}")]
    Reason(u32, u32),
    /// A bid whose reason is not shown, by its member. Code 7.
    #[error("what is shown for member {0}, bid {1}")]
    Shown(u32, u32),
}

/// Why an item was not gone over.
#[derive(Clone, Copy, PartialEq, Eq, Debug)]
pub(crate) enum StepFault {
    Of(ItemFault),
    NoMemory,
}

impl From<ItemFault> for StepFault {
    ghost use Rattle.std.specs.Prelude.{◌≡◌};
    ghost use Rattle.cert_checker.specs.declared.refusal.StepFault.TheVariants.{Of};

    ghost from_gives = { λ fault e. e ≡ Of fault };

    fn from(fault: ItemFault) -> StepFault {
        StepFault::Of(fault)
    }
}

impl From<Memory> for StepFault {
    ghost use Rattle.std.specs.Prelude.{◌≡◌};
    ghost use Rattle.cert_checker.specs.declared.refusal.StepFault.TheVariants.{NoMemory};

    ghost from_gives = { λ _ e. e ≡ NoMemory };

    fn from(_error: Memory) -> StepFault {
        StepFault::NoMemory
    }
}

impl From<AllocError> for No {
    ghost use Rattle.std.specs.Prelude.{◌≡◌};
    ghost use Rattle.cert_checker.specs.declared.refusal.No.TheVariants.{NoMemory};

    ghost from_gives = { λ _ e. e ≡ NoMemory };

    fn from(_error: AllocError) -> No {
        No::NoMemory
    }
}

impl From<Memory> for No {
    ghost use Rattle.std.specs.Prelude.{◌≡◌};
    ghost use Rattle.cert_checker.specs.declared.refusal.No.TheVariants.{NoMemory};

    ghost from_gives = { λ _ e. e ≡ NoMemory };

    fn from(_error: Memory) -> No {
        No::NoMemory
    }
}
