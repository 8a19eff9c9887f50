//! Writing the bids of a problem.
ghost use Rattle.std.specs.Prelude.{◌≡◌, ◌<◌, ◌++◌, ◌∷◌, [], true, length, All, IfOk, OnOk, OnErr, Some, slice_get};
ghost use Rattle.field_text.specs.Spelling.{HasPartly};
ghost use Rattle.roster_model.specs.Scores.{bids_of};
ghost use Rattle.roster_model.specs.Valid.{IsBid, is_wish};
ghost use Rattle.bid_language.specs.Rereads.{IsAgain, IsBidText};
ghost use Rattle.bid_language.specs.Spelling.{bid_text, text_of, bid_lines, member_text, member_lines, all_lines, bids_text};

use crate::printing::put_text;
use crate::writing::put_word;
use duty_calendar::{Base, List, Member, Memory};
use field_text::put_bytes;
use roster_model::{Bid, BidRef, Problem};
use std::alloc::Global;

/// The bid of this place.
fn bid_at(problem: &Problem, bid: BidRef) -> &Bid
    requires member { bid.member < length problem.now.base.members }
    requires bid { bid.bid < length (bids_of problem.now bid.member) }
    ensures there { slice_get (bids_of problem.now bid.member) bid.bid ≡ Some result.now }
    ensures text { bid_text problem.now.base result.now ≡ text_of problem.now bid }
    ensures form { is_wish problem.now.base.rules.horizon
        (length problem.now.base.pairings) result.now.wish ≡ true }
{
    let lists = problem.bids.as_slice();
    let bids = lists[bid.member as usize].as_slice();
    &bids[bid.bid as usize]
}

/// Appends a bid as its weight and its wish, or a part of that from its begin where memory ends.
/// `read_bids` reads a line of this text as the bid.
pub fn put_bid(out: &mut List<u8>, problem: &Problem, bid: BidRef) -> Result<(), Memory>
    requires member { bid.member < length problem.now.base.members }
    requires bid { bid.bid < length (bids_of problem.now bid.member) }
    ensures whole { OnOk result (out.new ≡ out.old ++ text_of problem.now bid) }
    ensures partly { OnErr result (HasPartly out.old (text_of problem.now bid) out.new) }
    ensures again { IsBidText problem.now bid (text_of problem.now bid) }
{
    put_text(out, &problem.base, bid_at(problem, bid))
}

/// Appends the line of a bid.
fn put_line(out: &mut List<u8>, base: &Base, bid: &Bid) -> Result<(), Memory>
    requires form { IsBid base.now.rules.horizon (length base.now.pairings) bid.now }
    ensures whole { OnOk result (out.new ≡ out.old ++ (bid_text base.now bid.now ++ 10 ∷ [])) }
{
    put_text(out, base, bid)?;
    put_bytes(out, b"\n")
}

/// Appends the lines of bids.
fn put_lines(out: &mut List<u8>, base: &Base, bids: &[Bid]) -> Result<(), Memory>
    requires forms { All (IsBid base.now.rules.horizon (length base.now.pairings)) bids.now }
    ensures whole { OnOk result (out.new ≡ out.old ++ bid_lines base.now bids.now) }
{
    for bid in bids {
        put_line(out, base, bid)?;
    }
    Ok(())
}

/// Appends the line that names a member.
fn put_head(out: &mut List<u8>, member: &Member) -> Result<(), Memory>
    ensures whole { OnOk result (out.new ≡ out.old ++ (member_text member.now ++ 10 ∷ [])) }
{
    put_word(out, b"member ", member.name.bytes())?;
    put_bytes(out, b"\n")
}

/// Appends the lines of a member with bids.
fn put_some(out: &mut List<u8>, base: &Base, member: &Member, bids: &[Bid]) -> Result<(), Memory>
    requires forms { All (IsBid base.now.rules.horizon (length base.now.pairings)) bids.now }
    ensures whole { OnOk result (out.new ≡ out.old
        ++ ((member_text member.now ++ 10 ∷ []) ++ bid_lines base.now bids.now)) }
{
    put_head(out, member)?;
    put_lines(out, base, bids)
}

/// Appends the lines of a member, of which there are none where there are no bids.
fn put_member(out: &mut List<u8>, base: &Base, member: &Member, bids: &[Bid]) -> Result<(), Memory>
    requires forms { All (IsBid base.now.rules.horizon (length base.now.pairings)) bids.now }
    ensures whole { OnOk result (out.new ≡ out.old ++ member_lines base.now member.now bids.now) }
{
    if bids.is_empty() {
        return Ok(());
    }
    put_some(out, base, member, bids)
}

/// Appends the lines of all members.
fn put_members(
    out: &mut List<u8>,
    base: &Base,
    members: &[Member],
    lists: &[List<Bid>],
) -> Result<(), Memory>
    requires same { length lists.now ≡ length members.now }
    requires forms { All (All (IsBid base.now.rules.horizon (length base.now.pairings))) lists.now }
    ensures whole { OnOk result (out.new ≡ out.old ++ all_lines base.now members.now lists.now) }
{
    for m in 0..members.len() {
        put_member(out, base, &members[m], lists[m].as_slice())?;
    }
    Ok(())
}

/// Appends the lines of a problem's members.
fn put_problem(out: &mut List<u8>, problem: &Problem) -> Result<(), Memory>
    ensures whole { OnOk result (out.new ≡ out.old ++ bids_text problem.now) }
{
    put_members(
        out,
        &problem.base,
        problem.base.members.as_slice(),
        problem.bids.as_slice(),
    )
}

/// The text of the problem's bids, which `read_bids` reads as these bids.
pub fn print_bids(alloc: Global, problem: &Problem) -> Result<List<u8>, Memory>
    ensures whole { IfOk result (λ text. text ≡ bids_text problem.now) }
    ensures again { IsAgain problem.now (bids_text problem.now) }
{
    let mut out = List::new(alloc);
    put_problem(&mut out, problem)?;
    Ok(out)
}
