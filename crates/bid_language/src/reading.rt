//! Reading bids.
ghost use Rattle.std.specs.Prelude.{◌≡◌, ◌≤◌, ◌<◌, ◌^◌, ◌+◌, ◌++◌, ◌∷◌, [], length, vec_len, slice_set, slice_index_or, true, Ok, Err, IfOk, IfErr, OnOk, MatchResult};
ghost use Rattle.std.specs.Str.{IsAscii};
ghost use Rattle.duty_calendar.specs.Checks.{IsBase};
ghost use Rattle.field_text.specs.Gives.{GivesOr};
ghost use Rattle.field_text.specs.Sizes.{longest};
ghost use Rattle.field_text.specs.Tokens.{read_tokens};
ghost use Rattle.roster_model.specs.Valid.{IsValid};
ghost use Rattle.bid_language.specs.declared.fault.BidCode.TheVariants.{NoMemory};
ghost use Rattle.bid_language.specs.Words.{are_within};
ghost use Rattle.bid_language.specs.Lines.{line_of, with_entry, lines_from, lines_of, empty_read, bids_in};
ghost use Rattle.bid_language.specs.Sheets.{fault_at, token_fault_at, read_of, told, IsNowhere, IsTokenFault, IsWithin};

use crate::entry::entry_of;
use crate::fault::{BidCode, BidFault, Stop};
use crate::lines::{before_comment, next_line};
use crate::sheet::{Entry, Sheet};
use crate::words::Words;
use duty_calendar::{Base, List, Member};
use field_text::{Token, TokenFault, tokens};
use roster_model::{Atom, Bid, Test, Wish};
use std::alloc::Global;

/// A fault of a line, with the line's number.
fn at_line(line: u32, stop: Stop) -> BidFault
    ensures value { result ≡ fault_at line stop }
{
    match stop {
        Stop::NoMemory => no_memory(),
        Stop::Fault(fault) => BidFault {
            line,
            column: fault.column,
            code: fault.code,
        },
    }
}

fn no_memory() -> BidFault
    ensures value { result ≡ record { line = 0; column = 0; code = NoMemory } }
{
    BidFault {
        line: 0,
        column: 0,
        code: BidCode::NoMemory,
    }
}

/// The tokens of a line.
fn tokens_of(alloc: Global, number: u32, line: &[u8]) -> Result<List<Token>, BidFault>
    requires short { length line.now ≤ longest }
    ensures value { MatchResult result (λ ts. read_tokens line.now ≡ Ok ts)
        (IsTokenFault number (read_tokens line.now)) }
    ensures within { IfOk result (λ ts. are_within line.now ts ≡ true) }
    ensures ascii { IfOk result (λ ts. IsAscii line.now) }
{
    match tokens(alloc, line) {
        Ok(tokens) => Ok(tokens),
        Err(TokenFault::NoMemory) => Err(no_memory()),
        Err(TokenFault::Byte(column)) => Err(BidFault {
            line: number,
            column,
            code: BidCode::Token,
        }),
    }
}

/// What a line says.
fn read_line(
    alloc: Global,
    base: &Base,
    number: u32,
    sheet: &Sheet,
    text: &[u8],
) -> Result<Entry, BidFault>
    requires pairings { length base.now.pairings < 2 ^ 32 }
    requires members { length base.now.members < 2 ^ 32 }
    requires same { vec_len sheet.now.seen ≡ length base.now.members }
    requires short { length text.now ≤ longest }
    ensures value { GivesOr told IsNowhere (λ e. e) result
        (line_of base.now number (read_of sheet.now) text.now) }
    ensures within { IfOk result (IsWithin (vec_len sheet.now.lists)) }
{
    let line = before_comment(text);
    let tokens = match tokens_of(alloc, number, line) {
        Ok(tokens) => tokens,
        Err(fault) => return Err(fault),
    };
    let mut words = Words::new(line, tokens.as_slice());
    match entry_of(alloc, base, sheet, &mut words) {
        Ok(entry) => Ok(entry),
        Err(stop) => Err(at_line(number, stop)),
    }
}

/// Adds a bid to the list of a member.
fn add_bid(lists: &mut Vec<List<Bid>>, m: u32, bid: Bid) -> Result<(), BidFault>
    requires known { m < vec_len lists.old }
    ensures ok { OnOk result (lists.new.items
        ≡ slice_set lists.old.items m (slice_index_or lists.old.items m [] ++ bid ∷ [])) }
    ensures same { vec_len lists.new ≡ vec_len lists.old }
    ensures fault { IfErr result (λ e. e ≡ record { line = 0; column = 0; code = NoMemory }) }
{
    let list = &mut lists[m as usize];
    if list.push(bid).is_err() {
        return Err(no_memory());
    }
    Ok(())
}

/// Takes what a line says.
fn apply(sheet: &mut Sheet, entry: Entry) -> Result<(), BidFault>
    requires within { IsWithin (vec_len sheet.old.lists) entry }
    ensures ok { OnOk result (read_of sheet.new ≡ with_entry (read_of sheet.old) entry) }
    ensures same { vec_len sheet.new.seen ≡ vec_len sheet.old.seen }
    ensures fault { IfErr result (λ e. e ≡ record { line = 0; column = 0; code = NoMemory }) }
{
    match entry {
        Entry::Nothing => Ok(()),
        Entry::Member(m) => {
            sheet.seen[m as usize] = true;
            sheet.current = Some(m);
            Ok(())
        }
        Entry::Bid(m, bid) => add_bid(&mut sheet.lists, m, bid),
    }
}

/// Reads the lines of a text.
fn read_lines(alloc: Global, text: &[u8], base: &Base, sheet: &mut Sheet) -> Result<(), BidFault>
    requires pairings { length base.now.pairings < 2 ^ 32 }
    requires members { length base.now.members < 2 ^ 32 }
    requires same { vec_len sheet.old.seen ≡ length base.now.members }
    requires short { length text.now ≤ longest }
    ensures value { GivesOr told IsNowhere (λ _. read_of sheet.new) result
        (lines_from base.now 1 (read_of sheet.old) (lines_of text.now)) }
{
    let mut rest = text;
    let mut number = 1;
    while !rest.is_empty() {
        let (line, after) = next_line(rest);
        let entry = match read_line(alloc, base, number, sheet, line) {
            Ok(entry) => entry,
            Err(fault) => return Err(fault),
        };
        apply(sheet, entry)?;
        rest = after;
        number += 1;
    }
    Ok(())
}

/// The list of each member, of which nothing was read yet.
fn empty_sheet(alloc: Global, members: &[Member]) -> Result<Sheet, BidFault>
    ensures ok { IfOk result (λ sheet. read_of sheet ≡ empty_read members.now) }
    ensures same { IfOk result (λ sheet. vec_len sheet.seen ≡ length members.now) }
    ensures fault { IfErr result (λ e. e ≡ record { line = 0; column = 0; code = NoMemory }) }
{
    let mut seen = Vec::new(alloc);
    let mut lists = Vec::new(alloc);
    for _member in members {
        if seen.push(false).is_err() || lists.push(List::new(alloc)).is_err() {
            return Err(no_memory());
        }
    }
    Ok(Sheet {
        current: None,
        seen,
        lists,
    })
}

/// The lists as one list.
fn list_of(alloc: Global, lists: Vec<List<Bid>>) -> Result<List<List<Bid>>, BidFault>
    ensures ok { IfOk result (λ all. all ≡ lists.items) }
    ensures fault { IfErr result (λ e. e ≡ record { line = 0; column = 0; code = NoMemory }) }
{
    let mut all = List::new(alloc);
    for list in lists {
        if all.push(list).is_err() {
            return Err(no_memory());
        }
    }
    Ok(all)
}

/// What the text says.
fn read_text(alloc: Global, text: &[u8], base: &Base) -> Result<List<List<Bid>>, BidFault>
    requires base { IsBase base.now }
    requires short { length text.now ≤ longest }
    ensures read { GivesOr told IsNowhere (λ bids. bids) result (bids_in base.now text.now) }
{
    let mut sheet = empty_sheet(alloc, base.members.as_slice())?;
    match read_lines(alloc, text, base, &mut sheet) {
        Ok(()) => list_of(alloc, sheet.lists),
        Err(fault) => Err(fault),
    }
}

/// The bids of each member, in the order of the members, or the first fault of the text.
pub fn read_bids(alloc: Global, text: &[u8], base: &Base) -> Result<List<List<Bid>>, BidFault>
    requires base { IsBase base.now }
    requires short { length text.now ≤ longest }
    ensures read { GivesOr told IsNowhere (λ bids. bids) result (bids_in base.now text.now) }
    ensures valid { IfOk result (IsValid base.now) }
{
    read_text(alloc, text, base)
}
