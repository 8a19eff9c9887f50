//! The month that the inputs name.
ghost use Rattle.std.specs.Prelude.{◌≡◌, IfOk, Ok};
ghost use Rattle.bid_language.specs.Lines.{bids_in};
ghost use Rattle.duty_calendar.specs.Checks.{IsBase, IsRules, ArePairings, AreMembers};
ghost use Rattle.month_files.specs.Months.{GivesRules, GivesPairings, GivesMembers, GivesBase, Names};
ghost use Rattle.month_files.specs.Reading.{AreShort, view_texts};
ghost use Rattle.month_files.specs.Months.{Ends, rule_end, file_end, bid_end};
ghost use Rattle.month_files.specs.declared.fault.InputFault.TheVariants.{Pairings as InPairings, Members as InMembers, Bids as InBids};
ghost use Rattle.roster_model.specs.Valid.{IsValid};

use crate::fault::{BadInput, InputFault};
use crate::reading::Texts;
use bid_language::{BidCode, BidFault, read_bids};
use crew_files::read_members;
use duty_calendar::{Base, List, Member, Pairing, Rules};
use field_text::{FileCode, FileFault};
use pairing_files::read_pairings;
use roster_model::{Bid, Problem};
use rules_file::{RuleFault, read_rules};
use std::alloc::Global;

/// A fault of the rules, as an end.
fn rule_end(fault: RuleFault) -> BadInput
    ensures value { result ≡ rule_end fault }
{
    match fault {
        RuleFault::NoMemory => BadInput::NoMemory,
        RuleFault::NotToml => BadInput::Fault(InputFault::Rules(RuleFault::NotToml)),
        RuleFault::MissingKey(key) => BadInput::Fault(InputFault::Rules(RuleFault::MissingKey(
            key,
        ))),
        RuleFault::UnknownKey(key) => BadInput::Fault(InputFault::Rules(RuleFault::UnknownKey(
            key,
        ))),
        RuleFault::Range(key) => BadInput::Fault(InputFault::Rules(RuleFault::Range(key))),
    }
}

/// A fault of the files of pairings, duties and legs, as an end.
#[tactic(auto, using(crate::proofs::Ends::file_end_other))]
fn pairing_end(fault: FileFault) -> BadInput
    ensures value { result ≡ file_end (InPairings fault) fault.code }
{
    if fault.code == FileCode::NoMemory {
        return BadInput::NoMemory;
    }
    BadInput::Fault(InputFault::Pairings(fault))
}

/// A fault of the files of members, as an end.
#[tactic(auto, using(crate::proofs::Ends::file_end_other))]
fn member_end(fault: FileFault) -> BadInput
    ensures value { result ≡ file_end (InMembers fault) fault.code }
{
    if fault.code == FileCode::NoMemory {
        return BadInput::NoMemory;
    }
    BadInput::Fault(InputFault::Members(fault))
}

/// A fault of the bids, as an end.
#[tactic(auto, using(crate::proofs::Ends::bid_end_other))]
fn bid_end(fault: BidFault) -> BadInput
    ensures value { result ≡ bid_end (InBids fault) fault.code }
{
    if fault.code == BidCode::NoMemory {
        return BadInput::NoMemory;
    }
    BadInput::Fault(InputFault::Bids(fault))
}

/// The rules.
fn rules_of(alloc: Global, texts: &Texts) -> Result<Rules, BadInput>
    ensures rules { Ends (GivesRules (view_texts texts.now)) (view_texts texts.now) result }
    ensures valid { IfOk result IsRules }
{
    match read_rules(alloc, &texts.rules) {
        Ok(rules) => Ok(rules),
        Err(fault) => Err(rule_end(fault)),
    }
}

/// The pairings.
fn pairings_of(alloc: Global, texts: &Texts, rules: &Rules) -> Result<List<Pairing>, BadInput>
    requires short { AreShort (view_texts texts.now) }
    requires rules { GivesRules (view_texts texts.now) rules.now }
    ensures pairings { Ends (GivesPairings (view_texts texts.now) rules.now)
        (view_texts texts.now) result }
    ensures valid { IfOk result (ArePairings rules.now.horizon) }
{
    match read_pairings(
        alloc,
        &texts.pairings,
        &texts.duties,
        &texts.legs,
        &rules.horizon,
    ) {
        Ok(pairings) => Ok(pairings),
        Err(fault) => Err(pairing_end(fault)),
    }
}

/// The members.
fn members_of(
    alloc: Global,
    texts: &Texts,
    rules: &Rules,
    pairings: &List<Pairing>,
) -> Result<List<Member>, BadInput>
    requires short { AreShort (view_texts texts.now) }
    requires rules { GivesRules (view_texts texts.now) rules.now }
    requires pairings { GivesPairings (view_texts texts.now) rules.now pairings.now }
    ensures members { Ends (GivesMembers (view_texts texts.now) rules.now)
        (view_texts texts.now) result }
    ensures valid { IfOk result (AreMembers rules.now.horizon) }
{
    match read_members(
        alloc,
        &texts.crew,
        &texts.history,
        &texts.fixed,
        &rules.horizon,
    ) {
        Ok(members) => Ok(members),
        Err(fault) => Err(member_end(fault)),
    }
}

/// The rules, the pairings and the members.
fn base_of(alloc: Global, texts: &Texts) -> Result<Base, BadInput>
    requires short { AreShort (view_texts texts.now) }
    ensures base { Ends (GivesBase (view_texts texts.now)) (view_texts texts.now) result }
    ensures valid { IfOk result IsBase }
{
    let rules = rules_of(alloc, texts)?;
    let pairings = pairings_of(alloc, texts, &rules)?;
    let members = members_of(alloc, texts, &rules, &pairings)?;
    Ok(Base {
        rules,
        pairings,
        members,
    })
}

/// The bids of a base's members.
fn bids_of(alloc: Global, texts: &Texts, base: &Base) -> Result<List<List<Bid>>, BadInput>
    requires short { AreShort (view_texts texts.now) }
    requires base { GivesBase (view_texts texts.now) base.now }
    requires valid_base { IsBase base.now }
    ensures bids { Ends (λ bids. bids_in base.now (view_texts texts.now).bids ≡ Ok bids)
        (view_texts texts.now) result }
    ensures valid { IfOk result (IsValid base.now) }
{
    match read_bids(alloc, &texts.bids, base) {
        Ok(bids) => Ok(bids),
        Err(fault) => Err(bid_end(fault)),
    }
}

/// The problem that the texts name, or their first fault: in the rules, in the files of pairings,
/// in the files of members, in the bids.
pub fn read_month(alloc: Global, texts: &Texts) -> Result<Problem, BadInput>
    requires short { AreShort (view_texts texts.now) }
    ensures month { Ends (Names (view_texts texts.now)) (view_texts texts.now) result }
{
    let base = base_of(alloc, texts)?;
    let bids = bids_of(alloc, texts, &base)?;
    Ok(Problem { base, bids })
}
