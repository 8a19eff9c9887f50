//! The command `trade`.
ghost use Rattle.std.specs.Prelude.{◌≡◌, ◌++◌, ◌∷◌, [], IfOk, IfErr, OnOk, Err};
ghost use Rattle.std.specs.Option.{ForSome};
ghost use Rattle.month_files.specs.Handing.{FromReads};
ghost use Rattle.month_files.specs.Reading.{HasCause, Finds, AreShort, view_texts};
ghost use Rattle.month_files.specs.Writes.{Leaves};
ghost use Rattle.roster_model.specs.Rosters.{IsComplete, scores_of};
ghost use Rattle.shelf.specs.Files.{Files};
ghost use Rattle.shelf.specs.Logs.{Entries};
ghost use Rattle.desk_commands.specs.Trade.{offered_in, roster_draft, trading_order, HasRoster, IsReadableRoster, IsDeskEnd, HasTraded, IsTrading, IsTradingHanded};
ghost use Rattle.desk_commands.specs.TradeEnds.{TradeCause, trade_written};
ghost use Rattle.desk_commands.specs.TradeTexts.{view_offered, offered_texts, AreBrief};

use crate::trade_stop::{TradeStop, Traded};
use bid_score::scores_of;
use duty_calendar::{List, Memory};
use line_legality::complete;
use month_files::{Draft, File, Texts, Unread, read_file, read_month, read_texts, write_all};
use roster_model::{Problem, Roster};
use roster_text::{print_roster, read_roster};
use shelf::Shelf;
use std::alloc::Global;
use trade_desk::{Desk, read_trades, run_trades};

/// The texts that are read: the inputs, the roster and the trades.
#[derive(Drop)]
pub struct TradeTexts {
    pub inputs: Texts,
    pub roster: Vec<u8>,
    pub trades: Vec<u8>,
}

/// Reads them in their order.
#[tactic(auto, unfolding(crate::specs::Trade::offered_in))]
fn read_offered<S: Shelf>(alloc: Global, shelf: &mut S) -> Result<TradeTexts, Unread>
    ensures cause { HasCause (S.tally shelf.old) (S.tally shelf.new) result }
    ensures told { ForSome (S.holds shelf.old) (λ files.
        Finds view_offered result (offered_in files)) }
    ensures short { IfOk result (λ texts. AreShort (view_texts texts.inputs)) }
    ensures brief { IfOk result (λ texts. AreBrief (view_offered texts)) }
    ensures kept { S.holds shelf.new ≡ S.holds shelf.old }
    ensures logged { IfOk result (λ texts.
        S.log shelf.new ≡ S.log shelf.old ++ offered_texts (view_offered texts)) }
{
    let inputs = read_texts(alloc, shelf)?;
    let roster = read_file(alloc, shelf, File::Roster)?;
    let trades = read_file(alloc, shelf, File::Trades)?;
    Ok(TradeTexts {
        inputs,
        roster,
        trades,
    })
}

/// The complete roster whose text was read.
fn roster_of(alloc: Global, problem: &Problem, texts: &TradeTexts) -> Result<Roster, TradeStop>
    ensures found { IfOk result (HasRoster problem.now (view_offered texts.now)) }
    ensures refused { IfErr result (λ why. IsDeskEnd problem.now (view_offered texts.now)
        (Err why)) }
{
    let roster = read_roster(alloc, &texts.roster, problem)?;
    complete(alloc, problem, &roster)?;
    Ok(roster)
}

/// The file to write, which is the roster's.
fn roster_drafts(alloc: Global, problem: &Problem, roster: &Roster) -> Result<List<Draft>, Memory>
    requires complete { IsComplete problem.now roster.now }
    ensures drafts { IfOk result (λ drafts. drafts ≡ roster_draft problem.now roster.now ∷ []) }
    ensures readable { OnOk result (IsReadableRoster problem.now roster.now) }
{
    let bytes = print_roster(alloc, problem, roster)?;
    let mut drafts = List::new(alloc);
    let draft = Draft {
        file: File::Roster,
        bytes,
    };
    if drafts.push(draft).is_err() {
        return Err(Memory::NoMemory);
    }
    Ok(drafts)
}

/// What is said of the trades that a desk took.
fn traded(alloc: Global, problem: &Problem, desk: Desk) -> Result<Traded, Memory>
    requires complete { IsComplete problem.now desk.roster }
    ensures verdicts { IfOk result (λ t. t.verdicts ≡ desk.verdicts) }
    ensures scores { IfOk result (λ t. t.scores ≡ scores_of problem.now desk.roster) }
    ensures drafts { IfOk result (λ t. t.drafts ≡ roster_draft problem.now desk.roster ∷ []) }
    ensures readable { OnOk result (IsReadableRoster problem.now desk.roster) }
{
    let Desk { roster, verdicts } = desk;
    let scores = scores_of(alloc, problem, &roster)?;
    let drafts = roster_drafts(alloc, problem, &roster)?;
    Ok(Traded {
        verdicts,
        scores,
        drafts,
    })
}

/// Takes the trades one after the other, and writes nothing.
fn take_trades(alloc: Global, problem: &Problem, texts: &TradeTexts) -> Result<Traded, TradeStop>
    ensures end { IsDeskEnd problem.now (view_offered texts.now) result }
{
    let roster = roster_of(alloc, problem, texts)?;
    let trades = read_trades(alloc, &texts.trades, problem)?;
    let desk = run_trades(alloc, problem, &roster, trades.as_slice())?;
    Ok(traded(alloc, problem, desk)?)
}

/// Writes the roster that trades left.
fn write_traded<S: Shelf>(alloc: Global, shelf: &mut S, traded: Traded) -> Result<Traded, TradeStop>
    ensures cause { TradeCause (S.tally shelf.old) (S.tally shelf.new) result }
    ensures told { (files : Files) → HasTraded files traded → IsTrading files result }
    ensures left { Leaves (S.holds shelf.old) (S.holds shelf.new) (trade_written result) }
    ensures handed { (old : Entries)
        → FromReads trading_order old (S.log shelf.old) (λ files. HasTraded files traded)
        → IsTradingHanded old (S.log shelf.new) result }
{
    match write_all(alloc, shelf, traded.drafts.as_slice()) {
        Ok(()) => Ok(traded),
        Err(stop) => Err(TradeStop::Unwritten(traded, stop)),
    }
}

/// Takes the trades in the folder one after the other on its roster, and writes the roster that they leave.
pub fn trade<S: Shelf>(alloc: Global, shelf: &mut S) -> Result<Traded, TradeStop>
    ensures cause { TradeCause (S.tally shelf.old) (S.tally shelf.new) result }
    ensures told { ForSome (S.holds shelf.old) (λ files. IsTrading files result) }
    ensures left { Leaves (S.holds shelf.old) (S.holds shelf.new) (trade_written result) }
    ensures handed { IsTradingHanded (S.log shelf.old) (S.log shelf.new) result }
{
    let texts = read_offered(alloc, shelf)?;
    let problem = read_month(alloc, &texts.inputs)?;
    match take_trades(alloc, &problem, &texts) {
        Ok(traded) => write_traded(alloc, shelf, traded),
        Err(stop) => Err(stop),
    }
}
