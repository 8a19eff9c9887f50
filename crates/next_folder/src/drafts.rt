//! The files of the next month.
ghost use Rattle.std.specs.Prelude.{◌≡◌, ◌++◌, IfOk, OnOk, Ok, List as Sequence};
ghost use Rattle.crew_files.specs.Texts.{crew_text};
ghost use Rattle.duty_calendar.specs.Checks.{IsRules};
ghost use Rattle.duty_calendar.specs.declared.member.Member.{Member as Person};
ghost use Rattle.next_folder.specs.Rolled.{coming_text, next_drafts, past_text, unless_there};
ghost use Rattle.next_folder.specs.Texts.{view_theirs};
ghost use Rattle.rules_file.specs.Rules.{rules_file, values};
ghost use Rattle.rules_file.specs.Spelling.{rules_text};

use crate::reading::NextTexts;
use crew_files::MemberTexts;
use duty_calendar::{List, Memory, Rules};
use month_files::{Draft, File};
use rules_file::put_rules;
use std::alloc::Global;

/// Adds a file that is to hold these bytes, unless it is there.
fn add_unless(
    drafts: &mut List<Draft>,
    there: bool,
    file: File,
    bytes: List<u8>,
) -> Result<(), Memory>
    ensures added { OnOk result (drafts.new ≡ drafts.old ++ unless_there there file bytes) }
{
    if there {
        return Ok(());
    }
    if drafts.push(Draft { file, bytes }).is_err() {
        return Err(Memory::NoMemory);
    }
    Ok(())
}

/// The text of rules.
fn text_of(alloc: Global, rules: &Rules) -> Result<List<u8>, Memory>
    requires valid { IsRules rules.now }
    ensures value { IfOk result (λ text. text ≡ rules_text (values rules.now)) }
    ensures again { OnOk result (rules_file (rules_text (values rules.now))
        ≡ Ok (values rules.now)) }
{
    let mut text = List::new(alloc);
    put_rules(&mut text, rules)?;
    Ok(text)
}

/// The files of the next month that are to be written, of which its members have these texts.
pub fn next_drafts(
    alloc: Global,
    theirs: &NextTexts,
    rules: &Rules,
    texts: MemberTexts,
) -> Result<List<Draft>, Memory>
    requires valid { IsRules rules.now }
    ensures again { OnOk result (rules_file (rules_text (values rules.now))
        ≡ Ok (values rules.now)) }
    ensures drafts { (members : Sequence Person) → texts.crew ≡ crew_text members
        → texts.history ≡ past_text rules.now members → texts.fixed ≡ coming_text rules.now members
        → IfOk result (λ drafts. drafts
        ≡ next_drafts (view_theirs theirs.now) rules.now members) }
{
    let MemberTexts {
        crew,
        history,
        fixed,
    } = texts;
    let text = text_of(alloc, rules)?;
    let mut drafts = List::new(alloc);
    add_unless(&mut drafts, theirs.rules.is_some(), File::Rules, text)?;
    add_unless(&mut drafts, theirs.crew.is_some(), File::Crew, crew)?;
    add_unless(&mut drafts, false, File::History, history)?;
    add_unless(&mut drafts, theirs.fixed.is_some(), File::Fixed, fixed)?;
    Ok(drafts)
}
