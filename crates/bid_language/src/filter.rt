//! Reading filters.
ghost use Rattle.std.specs.Prelude.{◌≡◌, length, ◌<◌, ◌^◌, ◌++◌, ◌∷◌, [], OnOk, IfErr};
ghost use Rattle.bid_language.specs.declared.fault.Stop.TheVariants.{NoMemory};
ghost use Rattle.bid_language.specs.Words.{Reads};
ghost use Rattle.bid_language.specs.Spots.{spot_seen};
ghost use Rattle.bid_language.specs.Grammar.{report_test, release_test, test_of, test_from, atom, begins_atom, too_many, follows, joined, filter};

use crate::fault::{BidCode, Stop, Word};
use crate::keywords::{Side, TestKind, is_text, test_kind_of};
use crate::values::{clock, number, pairing, side, station, weekday};
use crate::words::{Spot, Words};
use duty_calendar::{List, Pairing};
use roster_model::{Atom, Filter, Test};
use std::alloc::Global;

/// A test of the first report.
fn report_test(side: Side, clock: u32) -> Test
    ensures value { result ≡ report_test side clock }
{
    match side {
        Side::Before => Test::ReportBefore(clock),
        Side::After => Test::ReportAfter(clock),
    }
}

/// A test of the last release.
fn release_test(side: Side, clock: u32) -> Test
    ensures value { result ≡ release_test side clock }
{
    match side {
        Side::Before => Test::ReleaseBefore(clock),
        Side::After => Test::ReleaseAfter(clock),
    }
}

/// What follows the first word of a test.
#[tactic(auto, unfolding(crate::specs::Grammar::test_of))]
fn test_of(pairings: &[Pairing], kind: TestKind, words: &mut Words) -> Result<Test, Stop>
    requires few { length pairings.now < 2 ^ 32 }
    ensures reads { Reads result (test_of pairings.now kind) words.old words.new }
{
    match kind {
        TestKind::Layover => Ok(Test::Layover(station(words)?)),
        TestKind::Departs => Ok(Test::Departs(station(words)?)),
        TestKind::Arrives => Ok(Test::Arrives(station(words)?)),
        TestKind::Report => {
            let side = side(words)?;
            Ok(report_test(side, clock(words)?))
        }
        TestKind::Release => {
            let side = side(words)?;
            Ok(release_test(side, clock(words)?))
        }
        TestKind::Days => Ok(Test::Days(number(words, 1, 40)?)),
        TestKind::Weekday => Ok(Test::OnWeekday(weekday(words)?)),
        TestKind::Pairing => Ok(Test::Is(pairing(pairings, words)?)),
    }
}

/// A test whose first word is this token.
#[tactic(auto, unfolding(crate::specs::Grammar::test_from))]
fn test_from(pairings: &[Pairing], spot: &Spot, words: &mut Words) -> Result<Test, Stop>
    requires few { length pairings.now < 2 ^ 32 }
    ensures reads { Reads result (test_from pairings.now
        (spot_seen spot.now)) words.old words.new }
{
    match test_kind_of(spot.text) {
        Some(kind) => test_of(pairings, kind, words),
        None => Err(spot.wrong(BidCode::Expected(Word::Filter))),
    }
}

/// A test or its opposite.
#[tactic(auto, unfolding(crate::specs::Grammar::atom))]
fn atom(pairings: &[Pairing], words: &mut Words) -> Result<Atom, Stop>
    requires few { length pairings.now < 2 ^ 32 }
    ensures reads { Reads result (atom pairings.now) words.old words.new }
{
    let spot = words.next(Word::Filter)?;
    if is_text(spot.text, b"not") {
        let spot = words.next(Word::Filter)?;
        let test = test_from(pairings, &spot, words)?;
        return Ok(Atom {
            negated: true,
            test,
        });
    }
    let test = test_from(pairings, &spot, words)?;
    Ok(Atom {
        negated: false,
        test,
    })
}

/// Whether an atom may begin with this word.
fn begins_atom(text: &[u8]) -> bool
    ensures value { result ≡ begins_atom text.now }
{
    is_text(text, b"not") || test_kind_of(text).is_some()
}

/// The fault of a filter that has as many atoms as it may have, and goes on.
#[tactic(auto, unfolding(crate::specs::Grammar::too_many))]
fn too_many(words: &mut Words) -> Result<Filter, Stop>
    ensures reads { Reads result too_many words.old words.new }
{
    let spot = words.next(Word::Filter)?;
    if begins_atom(spot.text) {
        return Err(spot.wrong(BidCode::TooMany));
    }
    Err(spot.wrong(BidCode::Expected(Word::Filter)))
}

/// Whether another atom follows.
#[tactic(auto, unfolding(crate::specs::Grammar::follows))]
fn follows(words: &mut Words) -> Result<bool, Stop>
    ensures reads { Reads result follows words.old words.new }
{
    let Some(spot) = words.optional() else {
        return Ok(false);
    };
    if is_text(spot.text, b"and") {
        return Ok(true);
    }
    Err(spot.wrong(BidCode::Expected(Word::EndOfLine)))
}

/// Adds an atom at the end.
fn add(atoms: &mut Filter, negated: bool, test: Test) -> Result<(), Stop>
    ensures ok { OnOk result (atoms.new ≡ atoms.old ++ record { negated = negated; test = test }
        ∷ []) }
    ensures fault { IfErr result (λ e. e ≡ NoMemory) }
{
    if atoms.push(Atom { negated, test }).is_err() {
        return Err(Stop::NoMemory);
    }
    Ok(())
}

/// An atom, and whether another one follows.
#[tactic(auto, unfolding(crate::specs::Grammar::joined))]
fn joined(pairings: &[Pairing], words: &mut Words) -> Result<(Atom, bool), Stop>
    requires few { length pairings.now < 2 ^ 32 }
    ensures reads { Reads result (joined pairings.now) words.old words.new }
{
    let atom = atom(pairings, words)?;
    let more = follows(words)?;
    Ok((atom, more))
}

/// Atoms joined by `and`, to the end of the line.
pub fn filter(alloc: Global, pairings: &[Pairing], words: &mut Words) -> Result<Filter, Stop>
    requires few { length pairings.now < 2 ^ 32 }
    ensures reads { Reads result (filter pairings.now) words.old words.new }
{
    let mut atoms = List::new(alloc);
    for n in 0..8u32 {
        let (Atom { negated, test }, more) = match joined(pairings, words) {
            Ok(found) => found,
            Err(stop) => return Err(stop),
        };
        add(&mut atoms, negated, test)?;
        if !more {
            return Ok(atoms);
        }
    }
    too_many(words)
}
