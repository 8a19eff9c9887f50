//! What stands against a history.
ghost use Rattle.std.specs.Prelude.{◌≡◌};
ghost use Rattle.next_folder.specs.Ends.{heir_bar, incomplete_roster, member_bar, rule_bar, unread_roster};
ghost use Rattle.next_folder.specs.declared.barrier.Barrier.TheVariants.{Unread as NotRead, BadInput as Bad, NoMemory as NoRoom};

use duty_calendar::Memory;
use field_text::{FileCode, FileFault};
use line_legality::RosterFault;
use month_files::{BadInput, File, Unread};
use next_month::HeirFault;
use roster_text::{RosterTextCode, RosterTextFault};
use rules_file::RuleFault;

/// What stands against a history, so that no file is written.
#[derive(Drop, Debug)]
pub enum Barrier {
    /// A file of this month was not read.
    Unread(Unread),
    /// The inputs of this month name no problem.
    BadInput(BadInput),
    /// The roster is no roster's text of this month, from this row on.
    Roster(RosterTextFault),
    /// The roster is not complete.
    Incomplete(RosterFault),
    /// No month follows on December 2099.
    LastMonth,
    /// A file of the next month was not read.
    NextUnread(Unread),
    /// The rules of the next month are none.
    NextRules(RuleFault),
    /// The rules of the next month are those of another month.
    OtherMonth,
    /// The members of the next month do not read, as their files would stand.
    NextMembers(FileFault),
    /// History of the next month is there.
    IsThere,
    /// The members of the next month cannot be written.
    Heir(HeirFault),
    /// The file of the next month would be longer than its limit.
    TooLong(File),
    /// No memory was left.
    NoMemory,
}

impl From<Unread> for Barrier {
    ghost from_gives = { λ why e. e ≡ NotRead why };

    fn from(why: Unread) -> Barrier {
        Barrier::Unread(why)
    }
}

impl From<Memory> for Barrier {
    ghost from_gives = { λ _ e. e ≡ NoRoom };

    fn from(_want: Memory) -> Barrier {
        Barrier::NoMemory
    }
}

impl From<BadInput> for Barrier {
    ghost from_gives = { λ why e. e ≡ Bad why };

    fn from(why: BadInput) -> Barrier {
        Barrier::BadInput(why)
    }
}

impl From<RosterTextFault> for Barrier {
    ghost from_gives = { λ fault e. e ≡ unread_roster fault.code fault };

    fn from(fault: RosterTextFault) -> Barrier {
        match fault.code {
            RosterTextCode::NoMemory => Barrier::NoMemory,
            RosterTextCode::Header
            | RosterTextCode::Shape
            | RosterTextCode::Member
            | RosterTextCode::Pairing
            | RosterTextCode::Sums
            | RosterTextCode::Rows => Barrier::Roster(fault),
        }
    }
}

impl From<RosterFault> for Barrier {
    ghost from_gives = { λ fault e. e ≡ incomplete_roster fault };

    fn from(fault: RosterFault) -> Barrier {
        match fault {
            RosterFault::NoMemory => Barrier::NoMemory,
            RosterFault::Line(member, why) => {
                Barrier::Incomplete(RosterFault::Line(member, why))
            }
            RosterFault::Cover(pairing, count) => {
                Barrier::Incomplete(RosterFault::Cover(pairing, count))
            }
        }
    }
}

impl From<HeirFault> for Barrier {
    ghost from_gives = { λ fault e. e ≡ heir_bar fault };

    fn from(fault: HeirFault) -> Barrier {
        match fault {
            HeirFault::NoMemory => Barrier::NoMemory,
            HeirFault::Overlap(member) => Barrier::Heir(HeirFault::Overlap(member)),
            HeirFault::LongHistory(member) => Barrier::Heir(HeirFault::LongHistory(member)),
            HeirFault::LongFixed(member) => Barrier::Heir(HeirFault::LongFixed(member)),
        }
    }
}

impl From<RuleFault> for Barrier {
    ghost from_gives = { λ fault e. e ≡ rule_bar fault };

    fn from(fault: RuleFault) -> Barrier {
        match fault {
            RuleFault::NoMemory => Barrier::NoMemory,
            RuleFault::NotToml => Barrier::NextRules(RuleFault::NotToml),
            RuleFault::MissingKey(key) => Barrier::NextRules(RuleFault::MissingKey(key)),
            RuleFault::UnknownKey(key) => Barrier::NextRules(RuleFault::UnknownKey(key)),
            RuleFault::Range(key) => Barrier::NextRules(RuleFault::Range(key)),
        }
    }
}

impl From<FileFault> for Barrier {
    ghost from_gives = { λ fault e. e ≡ member_bar fault fault.code };

    fn from(fault: FileFault) -> Barrier {
        match fault.code {
            FileCode::NoMemory => Barrier::NoMemory,
            FileCode::Header
            | FileCode::Utf8
            | FileCode::Width
            | FileCode::Field(_, _)
            | FileCode::Duplicate
            | FileCode::Unknown
            | FileCode::Order
            | FileCode::OutsideMonth
            | FileCode::InnerRest
            | FileCode::Limit(_)
            | FileCode::Empty => Barrier::NextMembers(fault),
        }
    }
}
