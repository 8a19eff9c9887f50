//! Reading the text of reasons.
ghost use Rattle.std.specs.Prelude.{◌≡◌, ◌≢◌, ◌++◌, ◌<◌, ◌≤◌, IfOk, IfErr, IfSome, OnOk, All, Ok, Err, length};
ghost use Rattle.std.specs.Option.{option_map};
ghost use Rattle.field_text.specs.Sizes.{longest};
ghost use Rattle.roster_model.specs.Goals.{IsBidOf};
ghost use Rattle.roster_model.specs.Scores.{bids_of};
ghost use Rattle.roster_model.specs.Denials.{place_of};
ghost use Rattle.roster_text.specs.declared.reason_fault.ReasonTextFault.{ReasonTextFault as Fault};
ghost use Rattle.roster_text.specs.NameReading.{word_at};
ghost use Rattle.roster_text.specs.ReasonFaults.{HasReasonFault, Listed};
ghost use Rattle.roster_text.specs.ReasonText.{reasons_text, IsReasonsText};
ghost use Rattle.roster_text.specs.ReasonReading.{Gives, Answers, no_memory, bid_end, denial_of, reason_at, reasons_of};
ghost use Rattle.roster_text.specs.ReasonWords.{is_number, member_named, numbered, place_named, cause_named, words_seen};

use crate::reason_fault::{ReasonTextCode, ReasonTextFault, fault_at};
use crate::reason_words::{Words, place_in, words_in};
use bid_language::put_bid;
use duty_calendar::{List, Memory};
use field_text::{put_bytes, put_number};
use roster_model::{BidRef, Cause, Denial, Problem, Reasons};
use std::alloc::Global;

/// The number of the member of this name, counted from 0.
#[tactic(auto, unfolding(crate::specs::ReasonWords::member_named))]
pub fn member_named(problem: &Problem, word: &[u8]) -> Option<usize>
    ensures value { result ≡ member_named problem.now word.now }
    ensures known { IfSome result (λ m. m < length problem.now.base.members) }
{
    let members = problem.base.members.as_slice();
    members
        .iter()
        .position(|member| member.name.bytes() == word)
}

/// Whether the word is this number and one, in its one spelling.
fn is_number(alloc: Global, word: &[u8], number: u32) -> Result<bool, Memory>
    requires small { number < 4294967295 }
    ensures value { IfOk result (λ is. is ≡ is_number word.now number) }
{
    let mut text = List::new(alloc);
    put_number(&mut text, number + 1)?;
    Ok(text.as_slice() == word)
}

/// The bid, of so many, that has the number.
#[tactic(auto, unfolding(crate::specs::ReasonWords::numbered))]
fn numbered(alloc: Global, count: u32, word: &[u8]) -> Result<Option<u32>, Memory>
    ensures value { IfOk result (λ o. o ≡ numbered count word.now) }
    ensures known { IfOk result (λ o. IfSome o (λ k. k < count)) }
{
    for number in 0..count {
        if is_number(alloc, word, number)? {
            return Ok(Some(number));
        }
    }
    Ok(None)
}

/// The place of the member of this name, where the word is its number.
#[tactic(auto, unfolding(crate::specs::ReasonWords::place_named))]
fn place_named(alloc: Global, problem: &Problem, cause: &[u8]) -> Result<Option<Cause>, Memory>
    ensures value { IfOk result (λ o. o ≡ place_named problem.now cause.now) }
{
    let Some((place, name)) = place_in(cause) else {
        return Ok(None);
    };
    let Some(member) = member_named(problem, name) else {
        return Ok(None);
    };
    let member = member as u32;
    if is_number(alloc, place, member)? {
        Ok(Some(Cause::Place(member + 1)))
    } else {
        Ok(None)
    }
}

/// The cause that is spelt so in the month.
#[tactic(auto, unfolding(crate::specs::ReasonWords::cause_named))]
fn cause_named(alloc: Global, problem: &Problem, cause: &[u8]) -> Result<Option<Cause>, Memory>
    ensures value { IfOk result (λ o. o ≡ cause_named problem.now cause.now) }
{
    if cause == b"tie".as_slice() {
        return Ok(Some(Cause::Tie));
    }
    if cause == b"place 0".as_slice() {
        return Ok(Some(Cause::Place(0)));
    }
    place_named(alloc, problem, cause)
}

/// How many bids the member has.
pub fn bid_count(problem: &Problem, member: usize) -> u32
    requires member { member < length problem.now.base.members }
    ensures value { result ≡ length (bids_of problem.now member) }
{
    let lists = problem.bids.as_slice();
    lists[member].len() as u32
}

/// The reason that the words name.
#[tactic(auto, unfolding(crate::specs::ReasonReading::denial_of))]
fn denial_of(alloc: Global, problem: &Problem, words: &Words<'_>) -> Result<Denial, ReasonTextCode>
    ensures value { Gives (λ d. d) result (denial_of problem.now (words_seen words.now)) }
    ensures known { IfOk result (λ d. IsBidOf problem.now d.bid) }
{
    let Some(member) = member_named(problem, words.member) else {
        return Err(ReasonTextCode::Member);
    };
    let Some(bid) = numbered(alloc, bid_count(problem, member), words.number)? else {
        return Err(ReasonTextCode::Bid);
    };
    let Some(cause) = cause_named(alloc, problem, words.cause)? else {
        return Err(ReasonTextCode::Place);
    };
    let bid = BidRef {
        member: member as u32,
        bid,
    };
    Ok(Denial { bid, cause })
}

/// Appends a space, the bid, and a line feed.
pub fn put_bid_end(out: &mut List<u8>, problem: &Problem, bid: BidRef) -> Result<(), Memory>
    requires bid { IsBidOf problem.now bid }
    ensures whole { OnOk result (out.new ≡ out.old ++ bid_end problem.now bid) }
{
    put_bytes(out, b" ")?;
    put_bid(out, problem, bid)?;
    put_bytes(out, b"\n")
}

/// What stands behind the text of the bid.
fn after_bid<'a>(
    alloc: Global,
    problem: &Problem,
    bid: BidRef,
    bytes: &'a [u8],
) -> Result<Option<&'a [u8]>, Memory>
    requires bid { IsBidOf problem.now bid }
    ensures value { IfOk result (λ o. option_map (λ x. x.now) o
        ≡ word_at (bid_end problem.now bid) bytes.now) }
{
    let mut text = List::new(alloc);
    put_bid_end(&mut text, problem, bid)?;
    Ok(bytes.strip_prefix(text.as_slice()))
}

/// The reason of a line, and what stands behind the line.
#[tactic(auto, unfolding(crate::specs::ReasonReading::reason_at))]
fn reason_at<'a>(
    alloc: Global,
    problem: &Problem,
    bytes: &'a [u8],
) -> Result<(Denial, &'a [u8]), ReasonTextCode>
    ensures read { Gives (λ x. (x.0, x.1.now)) result (reason_at problem.now bytes.now) }
{
    let Some(words) = words_in(bytes) else {
        return Err(ReasonTextCode::Shape);
    };
    let denial = denial_of(alloc, problem, &words)?;
    let Some(rest) = after_bid(alloc, problem, denial.bid, words.rest)? else {
        return Err(ReasonTextCode::Text);
    };
    Ok((denial, rest))
}

/// The reasons of the whole text.
fn whole_of(alloc: Global, problem: &Problem, text: &[u8]) -> Result<Reasons, ReasonTextFault>
    requires short { length text.now ≤ longest }
    ensures read { Answers result (reasons_of problem.now text.now) }
{
    let mut reasons = List::new(alloc);
    let mut rest = text;
    let mut line: u32 = 1;
    while !rest.is_empty() {
        let (denial, after) = match reason_at(alloc, problem, rest) {
            Ok(read) => read,
            Err(code) => return Err(fault_at(line, code)),
        };
        if reasons.push(denial).is_err() {
            return Err(fault_at(0, ReasonTextCode::NoMemory));
        }
        rest = after;
        line += 1;
    }
    Ok(reasons)
}

/// The reasons of a text, or the first line at which the text differs from all texts of reasons.
/// Whether these are the reasons of an award, in their order, is not tested here.
pub fn read_reasons(
    alloc: Global,
    text: &[u8],
    problem: &Problem,
) -> Result<Reasons, ReasonTextFault>
    requires short { length text.now ≤ longest }
    ensures read { IfOk result (λ reasons. reasons_text problem.now reasons ≡ text.now) }
    ensures bids { IfOk result (All (λ d. IsBidOf problem.now d.bid)) }
    ensures places { IfOk result (All (λ d. place_of d.cause ≤ length problem.now.base.members)) }
    ensures fault { IfErr result (λ fault. fault ≢ no_memory
        → HasReasonFault problem.now text.now fault) }
    ensures only { (r : Listed) → IsReasonsText problem.now text.now r → Answers result (Ok r) }
    ensures first { (f : Fault) → HasReasonFault problem.now text.now f → Answers result (Err f) }
{
    whole_of(alloc, problem, text)
}
