//! Reading what a line says.
ghost use Rattle.std.specs.Prelude.{◌≡◌, ◌<◌, ◌^◌, length, vec_len, IfOk};
ghost use Rattle.std.specs.Option.{ForSome};
ghost use Rattle.bid_language.specs.Words.{Reads};
ghost use Rattle.bid_language.specs.Spots.{spot_seen};
ghost use Rattle.bid_language.specs.Lines.{known, unseen, member_line, bid_line, entry_of};
ghost use Rattle.bid_language.specs.Sheets.{read_of, IsWithin};

use crate::fault::{BidCode, Stop, Word};
use crate::keywords::is_text;
use crate::sheet::{Entry, Sheet, member_named};
use crate::wish::bid;
use crate::words::{Spot, Words};
use duty_calendar::{Base, Name};
use roster_model::{Atom, Bid, Test, Wish};
use std::alloc::Global;

/// The member whom a token names.
fn known(spot: &Spot, found: Option<usize>, words: &mut Words) -> Result<u32, Stop>
    requires small { ForSome found (λ m. m < 2 ^ 32) }
    ensures reads { Reads result
        (known (spot_seen spot.now) found)
        words.old words.new }
{
    if Name::new(spot.text).is_none() {
        return Err(spot.wrong(BidCode::Expected(Word::Name)));
    }
    match found {
        Some(m) => Ok(m as u32),
        None => Err(spot.wrong(BidCode::UnknownMember)),
    }
}

/// The member of this number, unless it had its line.
fn unseen(spot: &Spot, seen: &[bool], m: u32, words: &mut Words) -> Result<Entry, Stop>
    requires known { m < length seen.now }
    ensures reads { Reads result (unseen
        (spot_seen spot.now) seen.now m)
        words.old words.new }
    ensures within { IfOk result (IsWithin (length seen.now)) }
{
    if seen[m as usize] {
        return Err(spot.wrong(BidCode::MemberTwice));
    }
    words.finish()?;
    Ok(Entry::Member(m))
}

/// The member of the line, behind its first word.
#[tactic(auto, unfolding(crate::specs::Lines::member_line))]
fn member_line(base: &Base, sheet: &Sheet, words: &mut Words) -> Result<Entry, Stop>
    requires few { length base.now.members < 2 ^ 32 }
    requires same { vec_len sheet.now.seen ≡ length base.now.members }
    ensures reads { Reads result (member_line base.now (read_of sheet.now)) words.old words.new }
    ensures within { IfOk result (IsWithin (vec_len sheet.now.lists)) }
{
    let spot = words.next(Word::Name)?;
    let m = known(
        &spot,
        member_named(base.members.as_slice(), spot.text),
        words,
    )?;
    unseen(&spot, sheet.seen.as_slice(), m, words)
}

/// A bid of the member whose bids these are, which begins with this token.
fn bid_line(
    alloc: Global,
    base: &Base,
    sheet: &Sheet,
    spot: &Spot,
    words: &mut Words,
) -> Result<Entry, Stop>
    requires few { length base.now.pairings < 2 ^ 32 }
    ensures reads { Reads result (bid_line base.now (read_of sheet.now)
        (spot_seen spot.now) sheet.now.current)
        words.old words.new }
    ensures within { IfOk result (IsWithin (vec_len sheet.now.lists)) }
{
    match sheet.current {
        Some(m) => {
            let count = sheet.lists[m as usize].len();
            let bid = bid(alloc, base, count, spot, words)?;
            Ok(Entry::Bid(m, bid))
        }
        None => Err(spot.wrong(BidCode::Expected(Word::MemberLine))),
    }
}

/// What a line says.
#[tactic(auto, unfolding(crate::specs::Lines::entry_of))]
pub fn entry_of(alloc: Global, base: &Base, sheet: &Sheet, words: &mut Words) -> Result<Entry, Stop>
    requires pairings { length base.now.pairings < 2 ^ 32 }
    requires members { length base.now.members < 2 ^ 32 }
    requires same { vec_len sheet.now.seen ≡ length base.now.members }
    ensures reads { Reads result (entry_of base.now (read_of sheet.now)) words.old words.new }
    ensures within { IfOk result (IsWithin (vec_len sheet.now.lists)) }
{
    let Some(spot) = words.optional() else {
        return Ok(Entry::Nothing);
    };
    if is_text(spot.text, b"member") {
        return member_line(base, sheet, words);
    }
    bid_line(alloc, base, sheet, &spot, words)
}
