//! The terms and the lens of a class.
ghost use Rattle.std.specs.Prelude.{◌≡◌, ◌<◌, ℕ, List, length, IfNone, IfOk, IfSome};
ghost use Rattle.roster_model.specs.Lenses.{IsLens};
ghost use Rattle.roster_model.specs.Lawful.{bids_weight};
ghost use Rattle.roster_model.specs.declared.node.Decision.{Decision};
ghost use Rattle.lens_classes.specs.Classes.{IsClassLens, is_in};
ghost use Rattle.line_generator.specs.ClassLines.{IsClassLine, IsClassOf};

use crate::implied::loses_implied;
use crate::reach::bids_weight;
use crate::scarce::counts_scarce;
use crate::sets::trackable_bids;
use duty_calendar::{List, Memory};
use lens_classes::{Terms, class_terms};
use roster_model::{Goal, Lens, Problem, Window};
use std::alloc::Global;

/// The terms of a class, and the lens by which its lines keep them.
#[derive(Drop)]
pub(crate) struct Class {
    pub terms: Terms,
    pub lens: Lens,
}

/// The same windows.
fn same_windows(alloc: Global, windows: &[Window]) -> Result<List<Window>, Memory>
    ensures same { IfOk result (λ list. list ≡ windows.now) }
{
    let mut list = List::new(alloc);
    for window in windows {
        if list.push(*window).is_err() {
            return Err(Memory::NoMemory);
        }
    }
    Ok(list)
}

/// The lens of a class with so many days off.
pub(crate) fn class_lens(
    alloc: Global,
    problem: &Problem,
    member: u32,
    lens: &Lens,
    days_off: u32,
) -> Result<Lens, Memory>
    requires member { member < length problem.now.base.members }
    ensures class { IfOk result (IsClassLens problem.now member lens.now days_off) }
    ensures shape { IfOk result (λ narrow. IsLens problem.now member lens.now
        → IsLens problem.now member narrow) }
{
    let windows = same_windows(alloc, lens.windows.as_slice())?;
    Ok(Lens {
        grain: lens.grain,
        tracked: trackable_bids(problem, member, lens),
        free30: lens.free30,
        days: days_off > 0,
        whole: false,
        windows,
    })
}

/// The class that grants these bids, or nothing where it is none, where all its lines grant a bid more, so that they are in
/// another class, or where it asks for more than all bids weigh or for more pairings of a kind than there are.
pub(crate) fn class_of(
    alloc: Global,
    problem: &Problem,
    member: u32,
    goal: &Goal,
    lens: &Lens,
    granted: u64,
) -> Result<Option<Class>, Memory>
    requires member { member < length problem.now.base.members }
    ensures class { IfOk result (λ answer. IfSome answer
        (IsClassOf problem.now member goal.now lens.now (is_in granted))) }
    ensures none { IfOk result (λ answer. IfNone answer
        ((node : List Decision) (line : List ℕ)
        → IsClassLine problem.now member goal.now node lens.now (is_in granted) line → ⊥)) }
{
    let Some(terms) = class_terms(problem, member, goal, lens, granted) else {
        return Ok(None);
    };
    if loses_implied(problem, member, lens, granted, &terms) {
        return Ok(None);
    }
    let narrow = class_lens(alloc, problem, member, lens, terms.days_off)?;
    if counts_scarce(problem, member, &terms) {
        return Ok(None);
    }
    if terms.floor > u64::from(bids_weight(problem, member)) {
        return Ok(None);
    }
    Ok(Some(Class {
        terms,
        lens: narrow,
    }))
}
