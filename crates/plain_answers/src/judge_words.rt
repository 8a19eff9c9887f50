//! What the judge says, in words.

use crate::names::{put_pilot, put_trip};
use crate::rule_words::put_rule;
use duty_calendar::Memory;
use file_places::Prose;
use line_legality::Illegal;
use printed_lines::{ItemFlaw, Judged, LensFlaw};
use roster_model::Problem;

/// Appends a number behind words.
fn put_count(prose: &mut Prose, words: &'static [u8], count: u32) -> Result<(), Memory> {
    prose.say(words)?;
    prose.number(u64::from(count))
}

/// Appends a sum, with its sign.
fn put_sum(prose: &mut Prose, words: &'static [u8], sum: i64) -> Result<(), Memory> {
    prose.say(words)?;
    if sum < 0 {
        prose.say(b"-")?;
    }
    prose.number(sum.unsigned_abs())
}

/// Appends what is wrong with a lens.
fn put_lens_flaw(prose: &mut Prose, flaw: LensFlaw) -> Result<(), Memory> {
    match flaw {
        LensFlaw::Untrackable(bid) => {
            put_count(
                prose,
                b" tracks a bid that is not there or that cannot be tracked: bid ",
                bid,
            )
        }
        LensFlaw::Windows(count) => put_count(
            prose,
            b" has too many windows, more than 16: ",
            count,
        ),
        LensFlaw::Window(window) => {
            put_count(
                prose,
                b" has a window that the law does not look at: window ",
                window,
            )
        }
        LensFlaw::Grain => prose.say(b" has another grain than 60, 30, 15, 5 or 1"),
    }
}

/// Appends words around a pilot.
fn put_of_pilot(
    prose: &mut Prose,
    month: Option<&Problem>,
    words: &'static [u8],
    member: u32,
) -> Result<(), Memory> {
    prose.say(words)?;
    put_pilot(prose, month, member)
}

/// Appends that the weights of an item do not show enough.
fn put_weighed(prose: &mut Prose, lines: i64, needs: i64) -> Result<(), Memory> {
    put_sum(prose, b"the best lines weigh ", lines)?;
    put_sum(prose, b" and the needs ", needs)?;
    prose.say(b", which is not more")
}

/// Appends that an item has another number of weights or lenses.
fn put_width(prose: &mut Prose, weights: u32, lenses: u32) -> Result<(), Memory> {
    put_count(prose, b"it has ", weights)?;
    put_count(prose, b" weights and ", lenses)?;
    prose.say(b" lenses, and not one for each pairing and one for each pilot")
}

/// Appends why an item is not accepted.
fn put_item_flaw(prose: &mut Prose, month: Option<&Problem>, flaw: ItemFlaw) -> Result<(), Memory> {
    match flaw {
        ItemFlaw::Index => prose.say(b"it names a pilot or a pairing that is not there"),
        ItemFlaw::Decided => prose.say(
            b"it splits on a pilot and a pairing that are decided already",
        ),
        ItemFlaw::Covered => prose.say(b"the pairing has neither too many pilots nor too few left"),
        ItemFlaw::Undecided(pairing) => {
            prose.say(b"a pairing is not decided for the pilot yet: ")?;
            put_trip(prose, month, pairing)
        }
        ItemFlaw::Fits => prose.say(b"the pilot's line is legal and meets the goal"),
        ItemFlaw::Lens(member, flaw) => {
            put_of_pilot(prose, month, b"the lens of ", member)?;
            put_lens_flaw(prose, flaw)
        }
        ItemFlaw::Line(member) => {
            put_of_pilot(prose, month, b"there is a line after all for ", member)
        }
        ItemFlaw::Nothing(member) => {
            put_of_pilot(
                prose,
                month,
                b"there is no line, so no best one, for ",
                member,
            )
        }
        ItemFlaw::Sum(lines, needs) => put_weighed(prose, lines, needs),
        ItemFlaw::Width(weights, lenses) => put_width(prose, weights, lenses),
    }
}

/// Appends that a pairing has another number of pilots.
fn put_cover(
    prose: &mut Prose,
    month: Option<&Problem>,
    pairing: u32,
    count: u32,
) -> Result<(), Memory> {
    put_trip(prose, month, pairing)?;
    put_count(prose, b" has ", count)?;
    prose.say(b" pilots in the roster, and needs another number")?;
    if let Some(problem) = month {
        let place = pairing.saturating_sub(1) as usize;
        if let Some(known) = problem.base.pairings.as_slice().get(place) {
            put_count(prose, b": ", known.need)?;
        }
    }
    Ok(())
}

/// Appends which bid of a pilot it is.
fn put_bid_of(
    prose: &mut Prose,
    month: Option<&Problem>,
    member: u32,
    bid: u32,
) -> Result<(), Memory> {
    put_count(prose, b"bid ", bid)?;
    put_of_pilot(prose, month, b" of ", member)
}

/// Appends the rule that a line breaks.
fn put_broken(
    prose: &mut Prose,
    month: Option<&Problem>,
    member: u32,
    why: Illegal,
) -> Result<(), Memory> {
    put_of_pilot(prose, month, b"the line of ", member)?;
    prose.say(b" is not legal: ")?;
    put_rule(prose, month, why)
}

/// Appends that an item of a proof is not accepted.
fn put_item(
    prose: &mut Prose,
    month: Option<&Problem>,
    proof: u32,
    item: u32,
    flaw: ItemFlaw,
) -> Result<(), Memory> {
    put_count(
        prose,
        b"the certificate does not show what it should: in proof ",
        proof,
    )?;
    put_count(prose, b", item ", item)?;
    prose.say(b", ")?;
    put_item_flaw(prose, month, flaw)
}

/// Appends what the judge says.
pub fn put_judged(
    prose: &mut Prose,
    month: Option<&Problem>,
    verdict: Judged,
) -> Result<(), Memory> {
    match verdict {
        Judged::Member(member, why) => put_broken(prose, month, member, why),
        Judged::Cover(pairing, count) => put_cover(prose, month, pairing, count),
        Judged::Amount(found) => {
            put_count(prose, b"the certificate has ", found)?;
            prose.say(
                b" proofs of places, and not one for each pilot; or so many shown parts, and not one for each line of reasons.txt",
            )
        }
        Judged::Item(proof, item, flaw) => put_item(prose, month, proof, item, flaw),
        Judged::Left(proof) => {
            put_count(
                prose,
                b"the certificate does not show what it should: proof ",
                proof,
            )?;
            prose.say(b" ends while a case is open, or goes on behind its end")
        }
        Judged::Reason(member, bid) => {
            prose.say(
                b"reasons.txt lists a bid that is granted, or lacks one that is denied, or lists one twice or out of order: ",
            )?;
            put_bid_of(prose, month, member, bid)
        }
        Judged::Shown(member, bid) => {
            prose.say(b"the certificate does not show the reason for a denied bid: ")?;
            put_bid_of(prose, month, member, bid)
        }
    }
}
