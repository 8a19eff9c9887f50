//! The command `whatif`.
ghost use Rattle.std.specs.Prelude.{◌≡◌, ◌↔◌, ◌<◌, ℕ, List as Sequence, true, None, IfOk, IfErr, IfSome, length};
ghost use Rattle.std.specs.Option.{ForSome};
ghost use Rattle.cert_text.specs.Limits.{is_certificate};
ghost use Rattle.month_files.specs.Handing.{FromReads};
ghost use Rattle.month_files.specs.Writes.{Leaves};
ghost use Rattle.roster_model.specs.Scores.{bids_of};
ghost use Rattle.roster_model.specs.declared.award.Certificate.TheVariants.{Award as AwardForm};
ghost use Rattle.roster_text.specs.RosterText.{member_name};
ghost use Rattle.shelf.specs.Files.{Files};
ghost use Rattle.shelf.specs.Logs.{Entries};
ghost use Rattle.what_if.specs.Reused.{AgreeBut};
ghost use Rattle.whatif_commands.specs.Asking.{IsStanding, IsUnclaimed, IsFirstOther, IsClaimEnd, IsAskedIn, HasWhatIf, IsRun, IsRunHanded, asking_order};
ghost use Rattle.whatif_commands.specs.AskingEnds.{AskingCause, whatif_written};
ghost use Rattle.whatif_commands.specs.AskingTexts.{view_claimed, IsBrief, IsQuestionHanded};

use crate::again::again;
use crate::asking_stop::{Unasked, WhatIf, WhatIfStop};
use crate::question::{Question, ask};
use crate::texts::{ClaimedTexts, read_asked, read_claimed};
use branch_log::FreshCloser;
use cert_checker::{Noted, judge_noting};
use duty_calendar::{List, Memory};
use month_files::write_all;
use roster_model::{Bid, Problem, Roster};
use roster_text::{read_reasons, read_roster};
use shelf::Shelf;
use std::alloc::Global;

/// The roster of the award, where the judge accepts it with its reasons. Lines that it found are noted.
fn standing(
    alloc: Global,
    question: &Question,
    claimed: &ClaimedTexts,
    noted: &mut List<Noted>,
) -> Result<Roster, WhatIfStop>
    requires limits { is_certificate (AwardForm question.now.awarded) ≡ true }
    requires brief { IsBrief (view_claimed claimed.now) }
    ensures found { IfOk result (IsStanding question.now (view_claimed claimed.now)) }
    ensures refused { IfErr result (λ why. IsUnclaimed question.now (view_claimed claimed.now)
        why) }
{
    let roster = read_roster(alloc, &claimed.roster, &question.problem)?;
    let reasons = read_reasons(alloc, &claimed.reasons, &question.problem)?;
    judge_noting(
        alloc,
        &question.problem,
        &roster,
        &reasons,
        &question.awarded,
        noted,
    )?;
    Ok(roster)
}

/// The bids of a member.
fn bids_of(problem: &Problem, member: u32) -> &List<Bid>
    requires member { member < length problem.now.base.members }
    ensures bids { result.now ≡ bids_of problem.now member }
{
    &problem.bids.as_slice()[member as usize]
}

/// Whether two lists of bids are the same.
fn are_same(bids: &List<Bid>, others: &List<Bid>) -> bool
    ensures same { (result ≡ true) ↔ (bids.now ≡ others.now) }
{
    bids == others
}

/// The first member who bids otherwise and is not the one who is asked about.
fn first_other(question: &Question) -> Option<u32>
    requires base { question.now.other.base ≡ question.now.problem.base }
    ensures none { result ≡ None → AgreeBut question.now.problem question.now.other
        question.now.member }
    ensures first { IfSome result (IsFirstOther question.now) }
{
    let count = question.problem.base.members.len() as u32;
    for member in 0..count {
        let bids = bids_of(&question.problem, member);
        if member != question.member && !are_same(bids, bids_of(&question.other, member)) {
            return Some(member);
        }
    }
    None
}

/// The name of a member.
fn name_of(alloc: Global, problem: &Problem, member: u32) -> Result<List<u8>, Memory>
    requires in_range { member < length problem.now.base.members }
    ensures name { IfOk result (λ name. name ≡ member_name problem.now member) }
{
    let name = problem.base.members.as_slice()[member as usize]
        .name
        .bytes();
    Ok(List::from_vec(name.to_vec(alloc)?))
}

/// What comes of a question, over the roster and the reasons of its award; nothing is written.
fn answer<C: FreshCloser>(
    alloc: Global,
    question: &Question,
    claimed: &ClaimedTexts,
    nodes: u32,
) -> Result<WhatIf, WhatIfStop>
    requires limits { is_certificate (AwardForm question.now.awarded) ≡ true }
    requires member { question.now.member < length question.now.problem.base.members }
    requires base { question.now.other.base ≡ question.now.problem.base }
    requires brief { IsBrief (view_claimed claimed.now) }
    ensures end { IsClaimEnd question.now (view_claimed claimed.now) nodes result }
{
    let mut noted = List::new(alloc);
    let roster = standing(alloc, question, claimed, &mut noted)?;
    if let Some(other) = first_other(question) {
        let name = name_of(alloc, &question.problem, other)?;
        return Err(WhatIfStop::No(Unasked::Bids(name)));
    }
    again::<C>(alloc, question, &roster, noted.as_slice(), nodes)
}

/// Writes the roster with the other bids.
fn write_again<S: Shelf>(alloc: Global, shelf: &mut S, found: WhatIf) -> Result<WhatIf, WhatIfStop>
    ensures cause { AskingCause (S.tally shelf.old) (S.tally shelf.new) result }
    ensures told { (files : Files) (name : Sequence ℕ) (nodes : ℕ) → HasWhatIf files name nodes found
        → IsRun files name nodes result }
    ensures left { Leaves (S.holds shelf.old) (S.holds shelf.new) (whatif_written result) }
    ensures handed { (old : Entries) (name : Sequence ℕ) (nodes : ℕ)
        → FromReads asking_order old (S.log shelf.old) (λ files. HasWhatIf files name nodes found)
        → IsRunHanded old (S.log shelf.new) name nodes result }
{
    match write_all(alloc, shelf, found.drafts.as_slice()) {
        Ok(()) => Ok(found),
        Err(stop) => Err(WhatIfStop::Unwritten(found, stop)),
    }
}

/// What comes of a question, over the files of its award.
fn follow<C: FreshCloser, S: Shelf>(
    alloc: Global,
    shelf: &mut S,
    question: &Question,
    nodes: u32,
) -> Result<WhatIf, WhatIfStop>
    requires limits { is_certificate (AwardForm question.now.awarded) ≡ true }
    requires member { question.now.member < length question.now.problem.base.members }
    requires base { question.now.other.base ≡ question.now.problem.base }
    ensures cause { AskingCause (S.tally shelf.old) (S.tally shelf.new) result }
    ensures told { ForSome (S.holds shelf.old) (λ files. (name : Sequence ℕ)
        → IsAskedIn files name question.now → IsRun files name nodes result) }
    ensures left { Leaves (S.holds shelf.old) (S.holds shelf.new) (whatif_written result) }
    ensures handed { (old : Entries) (name : Sequence ℕ)
        → IsQuestionHanded old (S.log shelf.old) name question.now
        → IsRunHanded old (S.log shelf.new) name nodes result }
{
    let claimed = read_claimed(alloc, shelf)?;
    match answer::<C>(alloc, question, &claimed, nodes) {
        Ok(found) => write_again(alloc, shelf, found),
        Err(stop) => Err(stop),
    }
}

/// Awards the month in the folder once more, with the other bids of the member of this name and with so many nodes at
/// most, and writes the roster.
pub fn whatif<C: FreshCloser, S: Shelf>(
    alloc: Global,
    shelf: &mut S,
    name: &[u8],
    nodes: u32,
) -> Result<WhatIf, WhatIfStop>
    ensures cause { AskingCause (S.tally shelf.old) (S.tally shelf.new) result }
    ensures told { ForSome (S.holds shelf.old) (λ files. IsRun files name.now nodes result) }
    ensures left { Leaves (S.holds shelf.old) (S.holds shelf.new) (whatif_written result) }
    ensures handed { IsRunHanded (S.log shelf.old) (S.log shelf.new) name.now nodes result }
{
    let texts = read_asked(alloc, shelf)?;
    match ask(alloc, &texts, name) {
        Ok(question) => follow::<C, S>(alloc, shelf, &question, nodes),
        Err(stop) => Err(stop),
    }
}
