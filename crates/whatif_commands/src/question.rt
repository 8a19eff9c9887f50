//! What the texts ask.
ghost use Rattle.std.specs.Prelude.{◌≡◌, ◌<◌, ℕ, List as Sequence, true, Ok, IfOk, IfErr, length};
ghost use Rattle.cert_text.specs.Limits.{is_certificate};
ghost use Rattle.cert_text.specs.Reading.{certificate_in};
ghost use Rattle.month_files.specs.Months.{Names};
ghost use Rattle.month_files.specs.Reading.{AreShort, view_texts};
ghost use Rattle.roster_model.specs.declared.award.Certificate.TheVariants.{Award as AwardForm};
ghost use Rattle.whatif_commands.specs.Asking.{IsQuestion, IsUnasked, NamesMember, NamesTwo};
ghost use Rattle.whatif_commands.specs.AskingTexts.{view_asked, AreBrief};

use crate::asking_stop::{Unasked, WhatIfStop};
use crate::texts::AskedTexts;
use bid_language::read_bids;
use cert_text::read_certificate;
use duty_calendar::Copied;
use month_files::read_month;
use roster_model::{Awarded, Certificate, Problem};
use roster_text::member_named;
use std::alloc::Global;

/// What is asked: the month, the same month with the other bids, the number of the member who may bid otherwise, and
/// the award of the month.
#[derive(Drop)]
pub struct Question {
    pub problem: Problem,
    pub other: Problem,
    pub member: u32,
    pub awarded: Awarded,
}

/// The month with the other bids.
fn other_month(alloc: Global, texts: &AskedTexts, problem: &Problem) -> Result<Problem, WhatIfStop>
    requires names { Names (view_texts texts.now.inputs) problem.now }
    requires brief { AreBrief (view_asked texts.now) }
    ensures two { IfOk result (NamesTwo (view_asked texts.now) problem.now) }
    ensures unasked { IfErr result (λ why. (name : Sequence ℕ) → IsUnasked name (view_asked texts.now) why) }
{
    let bids = read_bids(alloc, &texts.bids, &problem.base)?;
    let base = problem.base.copy(alloc)?;
    Ok(Problem { base, bids })
}

/// The award of the certificate.
fn award_of(alloc: Global, texts: &AskedTexts) -> Result<Awarded, WhatIfStop>
    requires brief { AreBrief (view_asked texts.now) }
    ensures read { IfOk result (λ awarded. certificate_in (view_asked texts.now).certificate ≡ Ok (AwardForm awarded)) }
    ensures limits { IfOk result (λ awarded. is_certificate (AwardForm awarded) ≡ true) }
    ensures unasked { IfErr result (λ why. (name : Sequence ℕ) → NamesMember name (view_asked texts.now)
        → IsUnasked name (view_asked texts.now) why) }
{
    match read_certificate(alloc, &texts.certificate)? {
        Certificate::Award(awarded) => Ok(awarded),
        Certificate::NoRoster(_) => Err(WhatIfStop::No(Unasked::NoAward)),
    }
}

/// What the texts ask about the member of this name.
pub(crate) fn ask(alloc: Global, texts: &AskedTexts, name: &[u8]) -> Result<Question, WhatIfStop>
    requires short { AreShort (view_texts texts.now.inputs) }
    requires brief { AreBrief (view_asked texts.now) }
    ensures asked { IfOk result (IsQuestion name.now (view_asked texts.now)) }
    ensures member { IfOk result (λ q. q.member < length q.problem.base.members) }
    ensures limits { IfOk result (λ q. is_certificate (AwardForm q.awarded) ≡ true) }
    ensures unasked { IfErr result (IsUnasked name.now (view_asked texts.now)) }
{
    let problem = read_month(alloc, &texts.inputs)?;
    let other = other_month(alloc, texts, &problem)?;
    let Some(member) = member_named(&problem, name) else {
        return Err(WhatIfStop::No(Unasked::Member));
    };
    let awarded = award_of(alloc, texts)?;
    Ok(Question {
        problem,
        other,
        member: member as u32,
        awarded,
    })
}
