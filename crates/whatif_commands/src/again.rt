//! The award once more.
ghost use Rattle.std.specs.Prelude.{◌≡◌, ◌<◌, ◌∷◌, [], IfOk, IfErr, OnOk, length};
ghost use Rattle.roster_model.specs.Awards.{IsBest};
ghost use Rattle.roster_model.specs.Rosters.{IsComplete, scores_of};
ghost use Rattle.what_if.specs.Reused.{AgreeBut};
ghost use Rattle.whatif_commands.specs.Asking.{again_draft, IsReadableRoster, FindsAgain, IsMiss};

use crate::asking_stop::{WhatIf, WhatIfStop};
use crate::question::Question;
use award_loop::Outcome;
use bid_score::scores_of;
use branch_log::{FreshCloser, Ledger};
use cert_checker::Noted;
use duty_calendar::{List, Memory};
use month_files::{Draft, File};
use roster_model::{Problem, Roster};
use roster_text::print_roster;
use std::alloc::Global;
use what_if::what_if;

/// How many rounds of lines show that a node is open.
const ROUNDS: u32 = 400;

/// The scores of a roster with the other bids, and the file to write.
#[derive(Drop)]
struct Said {
    scores: List<u32>,
    drafts: List<Draft>,
}

/// The file to write, which is that of the other roster.
fn again_drafts(alloc: Global, problem: &Problem, roster: &Roster) -> Result<List<Draft>, Memory>
    requires complete { IsComplete problem.now roster.now }
    ensures drafts { IfOk result (λ drafts. drafts ≡ again_draft problem.now roster.now ∷ []) }
    ensures readable { OnOk result (IsReadableRoster problem.now roster.now) }
{
    let bytes = print_roster(alloc, problem, roster)?;
    let mut drafts = List::new(alloc);
    let draft = Draft {
        file: File::OtherRoster,
        bytes,
    };
    if drafts.push(draft).is_err() {
        return Err(Memory::NoMemory);
    }
    Ok(drafts)
}

/// What is said of an award with the other bids.
fn say(alloc: Global, problem: &Problem, roster: &Roster) -> Result<Said, Memory>
    requires complete { IsComplete problem.now roster.now }
    ensures scores { IfOk result (λ s. s.scores ≡ scores_of problem.now roster.now) }
    ensures drafts { IfOk result (λ s. s.drafts ≡ again_draft problem.now roster.now ∷ []) }
    ensures readable { OnOk result (IsReadableRoster problem.now roster.now) }
{
    let scores = scores_of(alloc, problem, roster)?;
    let drafts = again_drafts(alloc, problem, roster)?;
    Ok(Said { scores, drafts })
}

/// A closer that has learned from the award, and knows the lines that were noted.
fn learned<C: FreshCloser>(
    alloc: Global,
    question: &Question,
    roster: &Roster,
    noted: &[Noted],
) -> Result<C, Memory>
    ensures rounds { IfOk result (λ made. C.rounds made ≡ 400) }
    ensures fits { IfOk result (λ made. C.fits made question.now.other) }
{
    let mut closer = C::new(alloc, &question.other, ROUNDS)?;
    closer.learn(alloc, &question.other, roster, &question.awarded)?;
    for one in noted {
        closer.offer(alloc, &question.other, one.member, &one.line)?;
    }
    Ok(closer)
}

/// The award with the other bids, with so many nodes at most; the proofs of more senior places are those of the award.
pub(crate) fn again<C: FreshCloser>(
    alloc: Global,
    question: &Question,
    roster: &Roster,
    noted: &[Noted],
    nodes: u32,
) -> Result<WhatIf, WhatIfStop>
    requires agree { AgreeBut question.now.problem question.now.other question.now.member }
    requires member { question.now.member < length question.now.problem.base.members }
    requires best { IsBest question.now.problem roster.now question.now.awarded.proofs }
    ensures found { IfOk result (FindsAgain question.now roster.now nodes) }
    ensures miss { IfErr result (IsMiss question.now nodes) }
{
    let mut closer = learned::<C>(alloc, question, roster, noted)?;
    let mut ledger = Ledger::new(alloc, nodes, ROUNDS)?;
    match what_if(
        alloc,
        &question.problem,
        &question.other,
        &question.awarded,
        roster,
        question.member,
        &mut closer,
        &mut ledger,
    )? {
        Outcome::Award(best, _) => {
            let said = say(alloc, &question.other, &best)?;
            Ok(WhatIf {
                scores: said.scores,
                ledger,
                drafts: said.drafts,
            })
        }
        Outcome::NoRoster(_) => unreachable!(),
        Outcome::Spent => Err(WhatIfStop::Budget(ledger)),
    }
}
