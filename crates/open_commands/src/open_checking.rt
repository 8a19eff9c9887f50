//! The command `opencheck`.
ghost use Rattle.std.specs.Prelude.{◌≡◌, ◌≤◌, ◌<◌, ◌++◌, true, nat_lt, Ok, Some, IfOk, IfErr, OnOk, All, length};
ghost use Rattle.std.specs.Option.{ForSome, is_some};
ghost use Rattle.cert_text.specs.Limits.{is_certificate};
ghost use Rattle.cert_text.specs.Reading.{certificate_in};
ghost use Rattle.month_files.specs.FileNames.{limit_of};
ghost use Rattle.month_files.specs.declared.file.File.TheVariants.{OpenNone, OpenCertificate};
ghost use Rattle.month_files.specs.Reading.{HasCause, Finds, AreShort, view_texts};
ghost use Rattle.roster_model.specs.Goals.{IsBidOf};
ghost use Rattle.roster_model.specs.declared.award.Certificate.TheVariants.{Award as AwardForm, NoRoster as NoneForm};
ghost use Rattle.roster_text.specs.RosterText.{IsRoster};
ghost use Rattle.open_time.specs.Vacant.{HasRoomFor, IsWithVacant};
ghost use Rattle.open_commands.specs.OpenChecking.{Lodged, none_in, lodged_in, SaysProofs, SaysAll, IsNoneText, IsNoneEnd, IsNoneUnread, IsAwardEnd, IsClosedEnd, IsOpenCheckEnd, IsOpenCheck, IsOpenCheckHanded};
ghost use Rattle.open_commands.specs.OpenCheckingEnds.{OpenCheckCause};
ghost use Rattle.open_commands.specs.OpenCheckingTexts.{view_none, none_texts, view_lodged, lodged_texts, AreBriefLodged};

use crate::open_check_stop::{OpenCheckStop, Unopened};
use bid_score::scores_of;
use cert_text::read_certificate;
use duty_calendar::List;
use month_files::{File, Texts, Unread, read_file, read_month, read_texts};
use open_time::{OpenFault, judge_open, with_vacant};
use roster_model::{Awarded, Certificate, Problem, Proof, Reasons, Roster};
use roster_text::{read_reasons, read_roster};
use shelf::Shelf;
use std::alloc::Global;

/// The texts that are read, in their order.
#[derive(Drop)]
pub struct LodgedTexts {
    pub inputs: Texts,
    pub none: Option<Vec<u8>>,
    pub certificate: Vec<u8>,
    pub reasons: Vec<u8>,
    pub roster: Vec<u8>,
}

/// The text of the proof that one vacant line less is not enough, which is read for a number above 0.
fn read_none<S: Shelf>(alloc: Global, shelf: &mut S, count: u32) -> Result<Option<Vec<u8>>, Unread>
    ensures cause { HasCause (S.tally shelf.old) (S.tally shelf.new) result }
    ensures told { ForSome (S.holds shelf.old) (λ files.
        Finds view_none result (none_in files count)) }
    ensures brief { IfOk result (λ none.
        ForSome (view_none none) (λ text. length text ≤ limit_of OpenNone)) }
    ensures kept { S.holds shelf.new ≡ S.holds shelf.old }
    ensures logged { IfOk result (λ none.
        S.log shelf.new ≡ S.log shelf.old ++ none_texts (view_none none)) }
    ensures due { IfOk result (λ none. is_some (view_none none) ≡ nat_lt 0 count) }
{
    if count == 0 {
        return Ok(None);
    }
    let text = read_file(alloc, shelf, File::OpenNone)?;
    Ok(Some(text))
}

/// Reads the texts.
#[tactic(auto, unfolding(crate::specs::OpenChecking::lodged_in))]
fn read_lodged<S: Shelf>(alloc: Global, shelf: &mut S, count: u32) -> Result<LodgedTexts, Unread>
    ensures cause { HasCause (S.tally shelf.old) (S.tally shelf.new) result }
    ensures told { ForSome (S.holds shelf.old) (λ files.
        Finds view_lodged result (lodged_in files count)) }
    ensures short { IfOk result (λ texts. AreShort (view_texts texts.inputs)) }
    ensures brief { IfOk result (λ texts. AreBriefLodged (view_lodged texts)) }
    ensures kept { S.holds shelf.new ≡ S.holds shelf.old }
    ensures logged { IfOk result (λ texts.
        S.log shelf.new ≡ S.log shelf.old ++ lodged_texts (view_lodged texts)) }
    ensures due { IfOk result (λ texts. is_some (view_none texts.none) ≡ nat_lt 0 count) }
{
    let inputs = read_texts(alloc, shelf)?;
    let none = read_none(alloc, shelf, count)?;
    let certificate = read_file(alloc, shelf, File::OpenCertificate)?;
    let reasons = read_file(alloc, shelf, File::OpenReasons)?;
    let roster = read_file(alloc, shelf, File::OpenRoster)?;
    Ok(LodgedTexts {
        inputs,
        none,
        certificate,
        reasons,
        roster,
    })
}

/// The month with so many vacant lines.
fn month_at(alloc: Global, problem: &Problem, count: u32) -> Result<Problem, OpenCheckStop>
    requires few { count ≤ 50 }
    ensures made { IfOk result (IsWithVacant problem.now count) }
    ensures room { OnOk result (HasRoomFor problem.now count) }
    ensures closed { IfErr result (IsClosedEnd problem.now count) }
{
    match with_vacant(alloc, problem, count) {
        Ok(made) => Ok(made),
        Err(OpenFault::NoMemory) => Err(OpenCheckStop::NoMemory),
        Err(OpenFault::Members(total)) => {
            Err(OpenCheckStop::No(Unopened::Open(OpenFault::Members(total))))
        }
        Err(OpenFault::NameTaken(member)) => {
            Err(OpenCheckStop::No(Unopened::Open(OpenFault::NameTaken(member))))
        }
    }
}

/// The proof of a certificate without a roster.
fn proof_in(alloc: Global, text: &[u8]) -> Result<Proof, OpenCheckStop>
    requires brief { length text.now ≤ limit_of OpenNone }
    ensures read { IfOk result (λ proof. certificate_in text.now ≡ Ok (NoneForm proof)) }
    ensures limits { IfOk result (λ proof. is_certificate (NoneForm proof) ≡ true) }
    ensures refused { IfErr result (IsNoneEnd text.now) }
{
    match read_certificate(alloc, text)? {
        Certificate::NoRoster(proof) => Ok(proof),
        Certificate::Award(_) => Err(OpenCheckStop::No(Unopened::Form)),
    }
}

/// The award of a certificate in that form.
fn award_in(alloc: Global, text: &[u8]) -> Result<Awarded, OpenCheckStop>
    requires brief { length text.now ≤ limit_of OpenCertificate }
    ensures read { IfOk result (λ awarded. certificate_in text.now ≡ Ok (AwardForm awarded)) }
    ensures limits { IfOk result (λ awarded. is_certificate (AwardForm awarded) ≡ true) }
    ensures refused { IfErr result (IsAwardEnd text.now) }
{
    match read_certificate(alloc, text)? {
        Certificate::Award(awarded) => Ok(awarded),
        Certificate::NoRoster(_) => Err(OpenCheckStop::No(Unopened::Form)),
    }
}

/// The proof that one vacant line less is not enough, where its text was read.
fn none_of(alloc: Global, none: &Option<Vec<u8>>) -> Result<Option<Proof>, OpenCheckStop>
    requires brief { ForSome (view_none none.now) (λ text. length text ≤ limit_of OpenNone) }
    ensures read { IfOk result (IsNoneText (view_none none.now)) }
    ensures limits { IfOk result (λ found. ForSome found (λ proof. is_certificate (NoneForm proof) ≡ true)) }
    ensures refused { IfErr result (IsNoneUnread (view_none none.now)) }
{
    match none {
        Some(text) => Ok(Some(proof_in(alloc, text)?)),
        None => Ok(None),
    }
}

/// What the judge says of what all texts say.
fn judge_said(
    alloc: Global,
    problem: &Problem,
    count: u32,
    made: &Problem,
    none: &Option<Proof>,
    awarded: &Awarded,
    reasons: &Reasons,
    roster: &Roster,
) -> Result<List<u32>, OpenCheckStop>
    requires few { count ≤ 50 }
    requires made { IsWithVacant problem.now count made.now }
    requires small { ForSome none.now (λ proof. is_certificate (NoneForm proof) ≡ true) }
    requires limits { is_certificate (AwardForm awarded.now) ≡ true }
    requires bids { All (λ d. IsBidOf made.now d.bid) reasons.now }
    requires roster { IsRoster made.now roster.now }
    ensures end { (lodged : Lodged) → SaysAll problem.now count lodged made.now none.now awarded.now reasons.now roster.now
        → IsOpenCheckEnd problem.now count lodged result }
{
    judge_open(
        alloc,
        problem,
        count,
        none.as_ref(),
        roster,
        reasons,
        awarded,
    )?;
    Ok(scores_of(alloc, made, roster)?)
}

/// What comes of the texts of reasons and roster, where those of the certificates say this.
fn judge_proofs(
    alloc: Global,
    problem: &Problem,
    count: u32,
    texts: &LodgedTexts,
    made: &Problem,
    none: &Option<Proof>,
    awarded: &Awarded,
) -> Result<List<u32>, OpenCheckStop>
    requires few { count ≤ 50 }
    requires brief { AreBriefLodged (view_lodged texts.now) }
    requires says { SaysProofs problem.now count (view_lodged texts.now) made.now none.now awarded.now }
    requires small { ForSome none.now (λ proof. is_certificate (NoneForm proof) ≡ true) }
    requires limits { is_certificate (AwardForm awarded.now) ≡ true }
    ensures end { IsOpenCheckEnd problem.now count (view_lodged texts.now) result }
{
    let reasons = read_reasons(alloc, &texts.reasons, made)?;
    let roster = read_roster(alloc, &texts.roster, made)?;
    judge_said(
        alloc, problem, count, made, none, awarded, &reasons, &roster,
    )
}

/// What comes of the texts, of the month with vacant lines.
fn judge_made(
    alloc: Global,
    problem: &Problem,
    count: u32,
    texts: &LodgedTexts,
    made: &Problem,
) -> Result<List<u32>, OpenCheckStop>
    requires few { count ≤ 50 }
    requires brief { AreBriefLodged (view_lodged texts.now) }
    requires made { IsWithVacant problem.now count made.now }
    requires room { HasRoomFor problem.now count }
    ensures end { IsOpenCheckEnd problem.now count (view_lodged texts.now) result }
{
    let none = none_of(alloc, &texts.none)?;
    let awarded = award_in(alloc, &texts.certificate)?;
    judge_proofs(alloc, problem, count, texts, made, &none, &awarded)
}

/// What comes of the texts; nothing is read or written.
fn judge_lodged(
    alloc: Global,
    problem: &Problem,
    count: u32,
    texts: &LodgedTexts,
) -> Result<List<u32>, OpenCheckStop>
    requires few { count ≤ 50 }
    requires brief { AreBriefLodged (view_lodged texts.now) }
    ensures end { IsOpenCheckEnd problem.now count (view_lodged texts.now) result }
{
    let made = month_at(alloc, problem, count)?;
    judge_made(alloc, problem, count, texts, &made)
}

/// What the texts of open time in the folder show for so many vacant lines, where it is accepted.
pub fn check_open<S: Shelf>(
    alloc: Global,
    shelf: &mut S,
    count: u32,
) -> Result<List<u32>, OpenCheckStop>
    requires few { count ≤ 50 }
    ensures cause { OpenCheckCause (S.tally shelf.old) (S.tally shelf.new) result }
    ensures told { ForSome (S.holds shelf.old) (λ files. IsOpenCheck files count result) }
    ensures kept { S.holds shelf.new ≡ S.holds shelf.old }
    ensures handed { IsOpenCheckHanded (S.log shelf.old) (S.log shelf.new) count result }
{
    let texts = read_lodged(alloc, shelf, count)?;
    let problem = read_month(alloc, &texts.inputs)?;
    judge_lodged(alloc, &problem, count, &texts)
}
