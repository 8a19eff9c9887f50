//! What comes of trades, and why `trade` ends without.
ghost use Rattle.std.specs.Prelude.{◌≡◌};
ghost use Rattle.desk_commands.specs.TradeEnds.{unread_roster, incomplete_roster, unread_trades};
ghost use Rattle.desk_commands.specs.declared.trade_stop.TradeStop.TheVariants.{Unread as NotRead, BadInput as Bad, NoMemory as NoRoom};

use duty_calendar::{List, Memory};
use line_legality::RosterFault;
use month_files::{BadInput, Draft, Unread, Unwritten};
use roster_text::{RosterTextCode, RosterTextFault};
use trade_desk::{TradeCode, TradeFault, TradeVerdict};

/// What came of trades, and the file that says the roster that they left.
#[derive(Drop, Debug)]
pub struct Traded {
    /// What became of each trade, in order.
    pub verdicts: List<TradeVerdict>,
    /// The scores of the roster that is left, in order of seniority.
    pub scores: List<u32>,
    pub drafts: List<Draft>,
}

/// Why `trade` says no.
#[derive(Clone, Copy, Debug, PartialEq, Eq)]
pub enum Untraded {
    /// The roster is no roster's text of this month, from this row on.
    Roster(RosterTextFault),
    /// The roster is not complete.
    Incomplete(RosterFault),
    /// The trades are no trades of this month, from this line on.
    Trades(TradeFault),
}

/// Why `trade` did not write what comes of the trades.
#[derive(Drop, Debug)]
pub enum TradeStop {
    /// A file was not read.
    Unread(Unread),
    /// The inputs name no problem.
    BadInput(BadInput),
    /// The answer is no.
    No(Untraded),
    /// This came of the trades, and the file was not written.
    Unwritten(Traded, Unwritten),
    /// No memory was left.
    NoMemory,
}

impl From<Unread> for TradeStop {
    ghost from_gives = { λ why e. e ≡ NotRead why };

    fn from(why: Unread) -> TradeStop {
        TradeStop::Unread(why)
    }
}

impl From<BadInput> for TradeStop {
    ghost from_gives = { λ why e. e ≡ Bad why };

    fn from(why: BadInput) -> TradeStop {
        TradeStop::BadInput(why)
    }
}

impl From<Memory> for TradeStop {
    ghost from_gives = { λ _ e. e ≡ NoRoom };

    fn from(_want: Memory) -> TradeStop {
        TradeStop::NoMemory
    }
}

impl From<RosterTextFault> for TradeStop {
    ghost from_gives = { λ fault e. e ≡ unread_roster fault.code fault };

    fn from(fault: RosterTextFault) -> TradeStop {
        match fault.code {
            RosterTextCode::NoMemory => TradeStop::NoMemory,
            RosterTextCode::Header
            | RosterTextCode::Shape
            | RosterTextCode::Member
            | RosterTextCode::Pairing
            | RosterTextCode::Sums
            | RosterTextCode::Rows => TradeStop::No(Untraded::Roster(fault)),
        }
    }
}

impl From<RosterFault> for TradeStop {
    ghost from_gives = { λ fault e. e ≡ incomplete_roster fault };

    fn from(fault: RosterFault) -> TradeStop {
        match fault {
            RosterFault::NoMemory => TradeStop::NoMemory,
            RosterFault::Line(member, why) => {
                TradeStop::No(Untraded::Incomplete(RosterFault::Line(member, why)))
            }
            RosterFault::Cover(pairing, count) => {
                TradeStop::No(Untraded::Incomplete(RosterFault::Cover(pairing, count)))
            }
        }
    }
}

impl From<TradeFault> for TradeStop {
    ghost from_gives = { λ fault e. e ≡ unread_trades fault.code fault };

    fn from(fault: TradeFault) -> TradeStop {
        match fault.code {
            TradeCode::NoMemory => TradeStop::NoMemory,
            TradeCode::Shape | TradeCode::Member | TradeCode::Pairing | TradeCode::Limit => {
                TradeStop::No(Untraded::Trades(fault))
            }
        }
    }
}
