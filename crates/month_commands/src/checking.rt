//! The command `check`.
ghost use Rattle.std.specs.Prelude.{◌≡◌, ◌≤◌, ◌++◌, true, IfOk, IfErr, OnOk, length};
ghost use Rattle.std.specs.Option.{ForSome};
ghost use Rattle.cert_checker.specs.Awards.{AreAnswered, Excludes, IsFirstNo};
ghost use Rattle.cert_checker.specs.Given.{NameBids};
ghost use Rattle.cert_text.specs.Limits.{is_certificate};
ghost use Rattle.month_files.specs.FileNames.{limit_of};
ghost use Rattle.month_files.specs.declared.file.File.TheVariants.{Certificate as CertificateFile};
ghost use Rattle.month_files.specs.Reading.{HasCause, Finds, view_texts, AreShort};
ghost use Rattle.roster_model.specs.Awards.{IsGreatest};
ghost use Rattle.roster_model.specs.Denials.{IsAwarded};
ghost use Rattle.roster_model.specs.Rosters.{scores_of};
ghost use Rattle.roster_model.specs.declared.award.Certificate.TheVariants.{Award as AwardForm};
ghost use Rattle.shelf.specs.Logs.{Entries};
ghost use Rattle.month_commands.specs.Check.{IsCheck, NamesCertificate, given_in, view_given, claimed_in, view_claimed};
ghost use Rattle.month_commands.specs.CheckEnds.{CheckCause};
ghost use Rattle.month_commands.specs.Handed.{given_texts, claimed_texts, IsBrief, IsHanded, HandedIn};
ghost use Rattle.roster_text.specs.RosterText.{IsRoster};

use crate::check_stop::CheckStop;
use crate::verdict::Verdict;
use bid_score::scores_of;
use cert_checker::{No, judge, judge_none};
use cert_text::read_certificate;
use duty_calendar::List;
use month_files::{File, Texts, Unread, read_file, read_month, read_texts};
use roster_model::{Awarded, Certificate, Problem, Reasons, Roster};
use roster_text::{read_reasons, read_roster};
use shelf::Shelf;
use std::alloc::Global;

/// The texts that are read first: the inputs and the certificate.
#[tactic(auto, unfolding(crate::specs::Check::given_in))]
fn read_given<S: Shelf>(alloc: Global, shelf: &mut S) -> Result<(Texts, Vec<u8>), Unread>
    ensures cause { HasCause (S.tally shelf.old) (S.tally shelf.new) result }
    ensures told { ForSome (S.holds shelf.old) (λ files. Finds view_given result (given_in files)) }
    ensures short { IfOk result (λ x. AreShort (view_texts x.0)) }
    ensures limit { IfOk result (λ x. length x.1.items ≤ limit_of CertificateFile) }
    ensures kept { S.holds shelf.new ≡ S.holds shelf.old }
    ensures logged { IfOk result
        (λ x. S.log shelf.new ≡ S.log shelf.old ++ given_texts (view_given x)) }
{
    let texts = read_texts(alloc, shelf)?;
    let certificate = read_file(alloc, shelf, File::Certificate)?;
    Ok((texts, certificate))
}

/// The texts that are read behind the certificate of an award: the roster and the reasons.
#[tactic(auto, unfolding(crate::specs::Check::claimed_in))]
fn read_claimed<S: Shelf>(alloc: Global, shelf: &mut S) -> Result<(Vec<u8>, Vec<u8>), Unread>
    ensures cause { HasCause (S.tally shelf.old) (S.tally shelf.new) result }
    ensures told { ForSome (S.holds shelf.old)
        (λ files. Finds view_claimed result (claimed_in files)) }
    ensures brief { IfOk result (λ x. IsBrief (view_claimed x)) }
    ensures kept { S.holds shelf.new ≡ S.holds shelf.old }
    ensures logged { IfOk result
        (λ x. S.log shelf.new ≡ S.log shelf.old ++ claimed_texts (view_claimed x)) }
{
    let roster = read_file(alloc, shelf, File::Roster)?;
    let reasons = read_file(alloc, shelf, File::Reasons)?;
    Ok((roster, reasons))
}

/// The scores of an accepted award, or the judge's first failing test.
fn award_scores(
    alloc: Global,
    problem: &Problem,
    roster: &Roster,
    reasons: &Reasons,
    awarded: &Awarded,
) -> Result<List<u32>, No>
    requires roster { IsRoster problem.now roster.now }
    requires bids { NameBids problem.now reasons.now }
    requires limits { is_certificate (AwardForm awarded.now) ≡ true }
    ensures accepted { OnOk result (IsAwarded problem.now roster.now reasons.now awarded.now) }
    ensures greatest { OnOk result (IsGreatest problem.now roster.now) }
    ensures answered { OnOk result (AreAnswered problem.now roster.now reasons.now awarded.now) }
    ensures value { IfOk result (λ scores. scores ≡ scores_of problem.now roster.now) }
    ensures first { IfErr result (IsFirstNo problem.now roster.now reasons.now awarded.now) }
    ensures refused { Excludes result (IsAwarded problem.now roster.now reasons.now awarded.now) }
{
    judge(alloc, problem, roster, reasons, awarded)?;
    Ok(scores_of(alloc, problem, roster)?)
}

/// What comes of a certificate in the form of an award, over the roster and the reasons in the folder.
#[tactic(auto, using(crate::proofs::CheckLaws::roster_cause, crate::proofs::CheckLaws::reasons_cause, crate::proofs::CheckLaws::judge_cause))]
fn check_award<S: Shelf>(
    alloc: Global,
    shelf: &mut S,
    problem: &Problem,
    awarded: &Awarded,
) -> Result<Verdict, CheckStop>
    requires limits { is_certificate (AwardForm awarded.now) ≡ true }
    ensures cause { CheckCause (S.tally shelf.old) (S.tally shelf.new) result }
    ensures told { ForSome (S.holds shelf.old)
        (λ files. NamesCertificate files problem.now (AwardForm awarded.now) → IsCheck files result) }
    ensures kept { S.holds shelf.new ≡ S.holds shelf.old }
    ensures handed { (old : Entries) → HandedIn old (S.log shelf.old) problem.now (AwardForm awarded.now)
        → IsHanded old (S.log shelf.new) result }
{
    let (text, reasons_text) = read_claimed(alloc, shelf)?;
    let roster = read_roster(alloc, &text, problem)?;
    let reasons = read_reasons(alloc, &reasons_text, problem)?;
    let scores = award_scores(alloc, problem, &roster, &reasons, awarded)?;
    Ok(Verdict::Award(scores))
}

/// What the certificate in the folder shows, where it is accepted.
#[tactic(auto, using(crate::proofs::CheckLaws::cert_cause, crate::proofs::CheckLaws::roster_cause, crate::proofs::CheckLaws::judge_cause))]
pub fn check<S: Shelf>(alloc: Global, shelf: &mut S) -> Result<Verdict, CheckStop>
    ensures cause { CheckCause (S.tally shelf.old) (S.tally shelf.new) result }
    ensures told { ForSome (S.holds shelf.old) (λ files. IsCheck files result) }
    ensures kept { S.holds shelf.new ≡ S.holds shelf.old }
    ensures handed { IsHanded (S.log shelf.old) (S.log shelf.new) result }
{
    let (texts, certificate) = read_given(alloc, shelf)?;
    let problem = read_month(alloc, &texts)?;
    match read_certificate(alloc, &certificate)? {
        Certificate::Award(awarded) => check_award(alloc, shelf, &problem, &awarded),
        Certificate::NoRoster(proof) => {
            judge_none(alloc, &problem, &proof)?;
            Ok(Verdict::NoRoster)
        }
    }
}
