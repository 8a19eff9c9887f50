//! The files that say a month.
ghost use Rattle.std.specs.Prelude.{◌≡◌, [], ◌∷◌, ◌++◌, Ok, IfOk, OnOk};
ghost use Rattle.crew_files.specs.Files.{members_of};
ghost use Rattle.crew_files.specs.Texts.{crew_text, events_text};
ghost use Rattle.crew_files.specs.declared.part.Part.TheVariants.{History as Past, Fixed as Given};
ghost use Rattle.duty_calendar.specs.Checks.{IsBase, IsRules, ArePairings, AreMembers};
ghost use Rattle.pairing_files.specs.Files.{pairings_of};
ghost use Rattle.pairing_files.specs.Texts.{pairings_text, duties_text, legs_text};
ghost use Rattle.rules_file.specs.Rules.{rules_file, values};
ghost use Rattle.rules_file.specs.Spelling.{rules_text};
ghost use Rattle.month_files.specs.Drafts.{inputs_of, input_drafts, rules_drafts, pairings_drafts, members_drafts};
ghost use Rattle.month_files.specs.Months.{Names};
ghost use Rattle.month_files.specs.Reading.{AreShort};

use crate::file::File;
use crate::writing::Draft;
use bid_language::print_bids;
use crew_files::{MemberTexts, put_members};
use duty_calendar::{Base, List, Memory};
use pairing_files::{PairingTexts, put_pairings};
use roster_model::Problem;
use rules_file::put_rules;
use std::alloc::Global;

/// Adds a file that is to hold these bytes.
fn add(drafts: &mut List<Draft>, file: File, bytes: List<u8>) -> Result<(), Memory>
    ensures added { OnOk result (drafts.new
        ≡ drafts.old ++ record { file = file; bytes = bytes } ∷ []) }
{
    if drafts.push(Draft { file, bytes }).is_err() {
        return Err(Memory::NoMemory);
    }
    Ok(())
}

/// Adds the file of the rules.
fn add_rules(alloc: Global, drafts: &mut List<Draft>, base: &Base) -> Result<(), Memory>
    requires rules { IsRules base.now.rules }
    ensures added { OnOk result (drafts.new ≡ drafts.old ++ rules_drafts base.now) }
    ensures again { OnOk result (rules_file (rules_text (values base.now.rules))
        ≡ Ok (values base.now.rules)) }
{
    let mut text = List::new(alloc);
    put_rules(&mut text, &base.rules)?;
    add(drafts, File::Rules, text)
}

/// Adds the files of pairings, duties and legs.
fn add_pairings(alloc: Global, drafts: &mut List<Draft>, base: &Base) -> Result<(), Memory>
    requires pairings { ArePairings base.now.rules.horizon base.now.pairings }
    ensures added { OnOk result (drafts.new ≡ drafts.old ++ pairings_drafts base.now) }
    ensures again { OnOk result (pairings_of base.now.rules.horizon
        (pairings_text base.now.pairings)
        (duties_text base.now.rules.horizon base.now.pairings)
        (legs_text base.now.rules.horizon base.now.pairings) ≡ Ok base.now.pairings) }
{
    let PairingTexts {
        pairings,
        duties,
        legs,
    } = put_pairings(alloc, base.pairings.as_slice(), &base.rules.horizon)?;
    add(drafts, File::Pairings, pairings)?;
    add(drafts, File::Duties, duties)?;
    add(drafts, File::Legs, legs)
}

/// Adds the files of crew, history and fixed events.
fn add_members(alloc: Global, drafts: &mut List<Draft>, base: &Base) -> Result<(), Memory>
    requires members { AreMembers base.now.rules.horizon base.now.members }
    ensures added { OnOk result (drafts.new ≡ drafts.old ++ members_drafts base.now) }
    ensures again { OnOk result (members_of base.now.rules.horizon (crew_text base.now.members)
        (events_text base.now.rules.horizon Past base.now.members)
        (events_text base.now.rules.horizon Given base.now.members) ≡ Ok base.now.members) }
{
    let MemberTexts {
        crew,
        history,
        fixed,
    } = put_members(alloc, base.members.as_slice(), &base.rules.horizon)?;
    add(drafts, File::Crew, crew)?;
    add(drafts, File::History, history)?;
    add(drafts, File::Fixed, fixed)
}

/// The eight files of a month, in the order in which they are read.
pub fn month_drafts(alloc: Global, problem: &Problem) -> Result<List<Draft>, Memory>
    ensures drafts { IfOk result (λ drafts. drafts ≡ input_drafts (inputs_of problem.now)) }
    ensures again { OnOk result (Names (inputs_of problem.now) problem.now) }
{
    let mut drafts = List::new(alloc);
    add_rules(alloc, &mut drafts, &problem.base)?;
    add_pairings(alloc, &mut drafts, &problem.base)?;
    add_members(alloc, &mut drafts, &problem.base)?;
    let bids = print_bids(alloc, problem)?;
    add(&mut drafts, File::Bids, bids)?;
    Ok(drafts)
}
