//! Printing the text of reasons.
ghost use Rattle.std.specs.Prelude.{◌≡◌, ◌++◌, ◌+◌, ◌<◌, ◌≤◌, IfOk, OnOk, All, length};
ghost use Rattle.roster_model.specs.declared.award.Cause.TheVariants.{Place};
ghost use Rattle.roster_model.specs.Goals.{IsBidOf};
ghost use Rattle.roster_model.specs.Denials.{place_of};
ghost use Rattle.roster_text.specs.RosterText.{member_name, longest_text};
ghost use Rattle.roster_text.specs.ReasonFaults.{Listed};
ghost use Rattle.roster_text.specs.ReasonText.{cause_text, head_text, reason_text, reasons_text, most_reasons, IsReason, IsReasonsText};

use crate::printing::put_member;
use crate::reason_reading::put_bid_end;
use duty_calendar::{List, Memory};
use field_text::{put_bytes, put_number};
use roster_model::{Cause, Denial, Problem, Reasons};
use std::alloc::Global;

/// Appends a place above 0 and the name of the member at it.
#[tactic(auto, using(crate::proofs::ReasonPrinted::place_put))]
fn put_place(out: &mut List<u8>, problem: &Problem, place: u32) -> Result<(), Memory>
    requires some { 0 < place }
    requires place { place ≤ length problem.now.base.members }
    ensures whole { OnOk result (out.new ≡ out.old ++ cause_text problem.now (Place place)) }
{
    put_bytes(out, b"place ")?;
    put_number(out, place)?;
    put_bytes(out, b" ")?;
    put_member(out, problem, place - 1)
}

/// Appends a cause.
#[tactic(auto, unfolding(crate::specs::ReasonText::cause_text))]
fn put_cause(out: &mut List<u8>, problem: &Problem, cause: Cause) -> Result<(), Memory>
    requires place { place_of cause ≤ length problem.now.base.members }
    ensures whole { OnOk result (out.new ≡ out.old ++ cause_text problem.now cause) }
{
    match cause {
        Cause::Tie => put_bytes(out, b"tie"),
        Cause::Place(0) => put_bytes(out, b"place 0"),
        Cause::Place(place) => put_place(out, problem, place),
    }
}

/// Appends the member, the number of the bid, and the cause.
fn put_head(out: &mut List<u8>, problem: &Problem, denial: Denial) -> Result<(), Memory>
    requires reason { IsReason problem.now denial }
    ensures whole { OnOk result (out.new ≡ out.old ++ head_text problem.now denial) }
{
    put_member(out, problem, denial.bid.member)?;
    put_bytes(out, b" ")?;
    put_number(out, denial.bid.bid + 1)?;
    put_bytes(out, b" ")?;
    put_cause(out, problem, denial.cause)
}

/// Appends the line of a reason.
#[tactic(auto, unfolding(crate::specs::ReasonText::end_text))]
fn put_reason(out: &mut List<u8>, problem: &Problem, denial: Denial) -> Result<(), Memory>
    requires reason { IsReason problem.now denial }
    ensures whole { OnOk result (out.new ≡ out.old ++ reason_text problem.now denial) }
{
    put_head(out, problem, denial)?;
    put_bytes(out, b":")?;
    put_bid_end(out, problem, denial.bid)
}

/// Appends the lines of reasons.
fn put_reasons(out: &mut List<u8>, problem: &Problem, reasons: &[Denial]) -> Result<(), Memory>
    requires reasons { All (IsReason problem.now) reasons.now }
    ensures whole { OnOk result (out.new ≡ out.old ++ reasons_text problem.now reasons.now) }
{
    for denial in reasons {
        put_reason(out, problem, *denial)?;
    }
    Ok(())
}

/// The text of reasons, which `read_reasons` reads as these reasons, and as no others.
pub fn print_reasons(
    alloc: Global,
    problem: &Problem,
    reasons: &Reasons,
) -> Result<List<u8>, Memory>
    requires bids { All (λ d. IsBidOf problem.now d.bid) reasons.now }
    requires places { All (λ d. place_of d.cause ≤ length problem.now.base.members) reasons.now }
    ensures whole { IfOk result (λ text. text ≡ reasons_text problem.now reasons.now) }
    ensures again { IfOk result (λ text.
        (r : Listed) → IsReasonsText problem.now text r → r ≡ reasons.now) }
    ensures short { length reasons.now ≤ most_reasons
        → IfOk result (λ text. length text ≤ longest_text) }
{
    let mut out = List::new(alloc);
    put_reasons(&mut out, problem, reasons.as_slice())?;
    Ok(out)
}
