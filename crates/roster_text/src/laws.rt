//! What the definitions of texts and faults say together.
ghost use Rattle.roster_text.specs.RosterFaults.{HasOneRoster, HasOneFault, HasNotBoth};
ghost use Rattle.roster_text.specs.ReasonFaults.{HasOneList, HasOneReasonFault, HasListOrFault};
ghost use Rattle.roster_text.specs.RosterText.{Text};

use roster_model::Problem;

/// A text is that of one roster at most, and has one fault at most, and not both.
pub fn roster_texts_are_told_apart(problem: &Problem)
    ensures one_roster { (text : Text) → HasOneRoster problem.now text }
    ensures one_fault { (text : Text) → HasOneFault problem.now text }
    ensures not_both { (text : Text) → HasNotBoth problem.now text }
{}

/// A text is that of one list of reasons at most, and has one fault at most, and not both.
pub fn reasons_texts_are_told_apart(problem: &Problem)
    ensures one_list { (text : Text) → HasOneList problem.now text }
    ensures one_fault { (text : Text) → HasOneReasonFault problem.now text }
    ensures not_both { (text : Text) → HasListOrFault problem.now text }
{}
