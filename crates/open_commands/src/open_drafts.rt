//! The files that `open` writes.
ghost use Rattle.std.specs.Prelude.{◌≡◌, ◌+◌, ◌≤◌, ◌++◌, ◌∷◌, [], IfOk, OnOk, All, length};
ghost use Rattle.std.specs.Option.{ForSome};
ghost use Rattle.month_award.specs.Months.{IsWritable};
ghost use Rattle.month_files.specs.FileNames.{limit_of};
ghost use Rattle.month_files.specs.declared.file.File.TheVariants.{OpenCertificate, OpenNone, OpenReasons};
ghost use Rattle.roster_model.specs.Denials.{IsAwarded, place_of};
ghost use Rattle.roster_model.specs.Goals.{IsBidOf};
ghost use Rattle.roster_model.specs.Rosters.{IsComplete};
ghost use Rattle.roster_model.specs.Splits.{all_splits, shown_splits};
ghost use Rattle.roster_model.specs.declared.award.Certificate.TheVariants.{Award as AwardForm, NoRoster as NoneForm};
ghost use Rattle.roster_text.specs.ReasonText.{reasons_text, most_reasons};
ghost use Rattle.open_commands.specs.Opening.{certificate_draft, reasons_draft, roster_draft, none_drafts, AreAwardDrafts, IsReadable, IsReadableRoster};

use crate::open_rows::add;
use cert_text::print_certificate;
use duty_calendar::{List, Memory};
use month_files::{Draft, File};
use roster_model::{Awarded, Certificate, Problem, Proof, Reasons, Roster};
use roster_text::{print_reasons, print_roster};
use std::alloc::Global;

/// A certificate in its file.
fn certificate_draft(alloc: Global, file: File, certificate: &Certificate) -> Result<Draft, Memory>
    requires writable { IsWritable certificate.now }
    requires limit { limit_of file ≡ 2147483648 }
    ensures draft { IfOk result (λ d. d ≡ certificate_draft file certificate.now) }
    ensures readable { OnOk result (IsReadable file certificate.now) }
{
    let bytes = print_certificate(alloc, certificate)?;
    Ok(Draft { file, bytes })
}

/// The file of the proof that one vacant line less is not enough, if there is one.
pub(crate) fn none_drafts(alloc: Global, none: Option<Proof>) -> Result<List<Draft>, Memory>
    requires writable { ForSome none (λ proof. IsWritable (NoneForm proof)) }
    ensures drafts { IfOk result (λ d. d ≡ none_drafts none) }
    ensures readable { OnOk result (ForSome none (λ proof. IsReadable OpenNone (NoneForm proof))) }
{
    let mut drafts = List::new(alloc);
    if let Some(proof) = none {
        let certificate = Certificate::NoRoster(proof);
        add(
            &mut drafts,
            certificate_draft(alloc, File::OpenNone, &certificate)?,
        )?;
    }
    Ok(drafts)
}

/// Adds the certificate's file to the files to write.
fn add_award(alloc: Global, drafts: &mut List<Draft>, awarded: Awarded) -> Result<(), Memory>
    requires writable { IsWritable (AwardForm awarded) }
    ensures drafts { OnOk result (drafts.new ≡ drafts.old ++ certificate_draft OpenCertificate (AwardForm awarded)
        ∷ []) }
    ensures readable { OnOk result (IsReadable OpenCertificate (AwardForm awarded)) }
{
    let certificate = Certificate::Award(awarded);
    let draft = certificate_draft(alloc, File::OpenCertificate, &certificate)?;
    add(drafts, draft)
}

/// Adds the file of the reasons.
fn add_reasons(
    alloc: Global,
    drafts: &mut List<Draft>,
    made: &Problem,
    reasons: &Reasons,
) -> Result<(), Memory>
    requires bids { All (λ d. IsBidOf made.now d.bid) reasons.now }
    requires places { All (λ d. place_of d.cause ≤ length made.now.base.members) reasons.now }
    requires few { length reasons.now ≤ most_reasons }
    ensures drafts { OnOk result (drafts.new ≡ drafts.old ++ reasons_draft made.now reasons.now
        ∷ []) }
    ensures fits { OnOk result (length (reasons_text made.now reasons.now) ≤ limit_of OpenReasons) }
{
    let bytes = print_reasons(alloc, made, reasons)?;
    let draft = Draft {
        file: File::OpenReasons,
        bytes,
    };
    add(drafts, draft)
}

/// Adds the roster's file.
fn add_roster(
    alloc: Global,
    drafts: &mut List<Draft>,
    made: &Problem,
    roster: &Roster,
) -> Result<(), Memory>
    requires complete { IsComplete made.now roster.now }
    ensures drafts { OnOk result (drafts.new ≡ drafts.old ++ roster_draft made.now roster.now
        ∷ []) }
    ensures readable { OnOk result (IsReadableRoster made.now roster.now) }
{
    let bytes = print_roster(alloc, made, roster)?;
    let draft = Draft {
        file: File::OpenRoster,
        bytes,
    };
    add(drafts, draft)
}

/// The files of an award of the month with vacant lines, and of the proof that one less is not enough.
pub(crate) fn award_drafts(
    alloc: Global,
    made: &Problem,
    none: Option<Proof>,
    roster: &Roster,
    reasons: &Reasons,
    awarded: Awarded,
) -> Result<List<Draft>, Memory>
    requires below { ForSome none (λ proof. IsWritable (NoneForm proof)) }
    requires accepted { IsAwarded made.now roster.now reasons.now awarded }
    requires splits { all_splits awarded.proofs + shown_splits awarded.shown ≤ 20000 }
    ensures drafts { IfOk result (AreAwardDrafts made.now none roster.now reasons.now awarded) }
{
    let mut drafts = none_drafts(alloc, none)?;
    add_award(alloc, &mut drafts, awarded)?;
    add_reasons(alloc, &mut drafts, made, reasons)?;
    add_roster(alloc, &mut drafts, made, roster)?;
    Ok(drafts)
}
