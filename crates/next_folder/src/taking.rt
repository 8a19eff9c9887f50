//! The files of the next month's members as they stand then.
ghost use Rattle.std.specs.Prelude.{◌≡◌, ◌≤◌, ◌<◌, ℕ, Bool, List as Sequence, IfOk, IfErr, OnOk, length, unwrap_or};
ghost use Rattle.std.specs.Option.{option_map};
ghost use Rattle.crew_files.specs.Texts.{crew_text};
ghost use Rattle.duty_calendar.specs.declared.member.Member.{Member as Person};
ghost use Rattle.month_files.specs.FileNames.{limit_of};
ghost use Rattle.next_folder.specs.Barred.{AreDue, Bars};
ghost use Rattle.next_folder.specs.declared.barrier.Barrier.TheVariants.{TooLong};
ghost use Rattle.next_folder.specs.Rolled.{AreTaken, coming_text, past_text};
ghost use Rattle.next_folder.specs.Texts.{Ours, view_theirs};
ghost use Rattle.roster_model.specs.declared.problem.Problem.{Problem as Month};

use crate::barrier::Barrier;
use crate::reading::NextTexts;
use crew_files::{MemberTexts, read_members};
use duty_calendar::{List, Member, Rules};
use month_files::File;
use std::alloc::Global;

/// A text that is there, or else a draft.
fn or_draft<'a>(there: &'a Option<Vec<u8>>, draft: &'a List<u8>) -> &'a [u8]
    ensures value { result.now ≡ unwrap_or (option_map (λ v. v.items) there.now) draft.now }
{
    match there {
        Some(text) => text,
        None => draft.as_slice(),
    }
}

/// Nothing, unless a text is longer than its file may be.
fn fits(text: &[u8], file: File) -> Result<(), Barrier>
    ensures short { OnOk result (length text.now ≤ limit_of file) }
    ensures long { IfErr result (λ why. (why ≡ TooLong file) × (limit_of file < length text.now)) }
{
    if file.limit() < text.len() as u64 {
        return Err(Barrier::TooLong(file));
    }
    Ok(())
}

/// The members of the next month as its files then say them: each is there already, or is written.
pub fn taken(
    alloc: Global,
    theirs: &NextTexts,
    texts: &MemberTexts,
    rules: &Rules,
) -> Result<List<Member>, Barrier>
    ensures taken { IfOk result (AreTaken (view_theirs theirs.now) rules.now.horizon texts.now.crew
        texts.now.history texts.now.fixed) }
    ensures cause { (ours : Ours) (force : Bool) (problem : Month)
        (roster : Sequence (Sequence ℕ)) (members : Sequence Person)
        → AreDue ours (view_theirs theirs.now) force problem roster rules.now members
        → texts.now.crew ≡ crew_text members → texts.now.history ≡ past_text rules.now members
        → texts.now.fixed ≡ coming_text rules.now members
        → IfErr result (Bars ours (view_theirs theirs.now) force) }
{
    let crew = or_draft(&theirs.crew, &texts.crew);
    let fixed = or_draft(&theirs.fixed, &texts.fixed);
    fits(crew, File::Crew)?;
    fits(texts.history.as_slice(), File::History)?;
    fits(fixed, File::Fixed)?;
    let horizon = &rules.horizon;
    let members = read_members(alloc, crew, texts.history.as_slice(), fixed, horizon)?;
    Ok(members)
}
