//! Labels that wait for their turn.

ghost use Rattle.std.specs.Prelude.{◌≡◌, ◌+◌, ◌<◌, ◌≤◌, ◌+ℤ◌, ◌≤ℤ◌, ℕ, IfNone, IfOk, OnOk, Ok, length, true, false};
ghost use Rattle.label_setter.specs.Graphs.{FitsPlaces};
ghost use Rattle.chain_search.specs.Bounds.{IsBound};
ghost use Rattle.chain_search.specs.Leavings.{Leaving};
ghost use Rattle.chain_search.specs.Searches.{Enters, IsWithin, Puts, Spreads};

use duty_calendar::Memory;
use label_lattice::{Resource, Steps};
use label_setter::{Above, Arc, Graph, Rest};
use std::sync::ledger::Ledger;

/// A label that waits: the arc by which a chain came to its place and how many arcs come before that one, what the
/// chain gained and may come to, and its resource.
#[derive(Clone, Copy)]
pub struct Open<R> {
    pub arc: u32,
    pub before: usize,
    pub place: u32,
    pub gain: i64,
    pub most: i64,
    pub resource: R,
}

/// A label that goes on: the arcs of its chain, its place, gain and resource.
#[derive(Clone, Copy)]
pub struct Label<R> {
    pub before: usize,
    pub place: u32,
    pub gain: i64,
    pub resource: R,
}

/// Takes one of the steps that are left, if one is.
fn spend<L: Ledger>(left: &mut u64, steps: &mut Steps<L>) -> bool
    ensures spent { result ≡ true → left.old ≡ left.new + 1 }
    ensures counted { result ≡ true → steps.new ≡ steps.old + 1 }
    ensures out { result ≡ false → left.old ≡ 0 }
    ensures left { result ≡ false → left.new ≡ 0 }
    ensures uncounted { result ≡ false → steps.new ≡ steps.old }
{
    if *left == 0 {
        return false;
    }
    *left -= 1;
    steps.tick();
    true
}

/// What was gained after the arc.
fn gain_by<R: Resource>(label: &Label<R>, arc: &Arc<R::Step>, places: u32) -> i64
    requires fits { FitsPlaces places arc.now }
    requires from { arc.now.from ≡ label.now.place }
    requires few { places ≤ 2000 }
    requires within { IsWithin label.now.place label.now.gain }
    ensures sum { result ≡ label.now.gain +ℤ arc.now.gain }
    ensures within { IsWithin arc.now.to result }
{
    label.gain + arc.gain
}

/// What a chain may come to from a label, where that is above the bound.
fn most_above<R, B: Rest<R>>(above: &Above<B>, label: &Label<R>) -> Option<i64>
    ensures low { IfNone result ((label.now.gain +ℤ B.rest above.now.rest label.now.place
        label.now.resource) ≤ℤ above.now.over) }
{
    let rest = above.rest.rest(label.place, &label.resource);
    if i128::from(label.gain) + i128::from(rest) <= i128::from(above.over) {
        return None;
    }
    Some(label.gain.saturating_add(rest))
}

/// Nothing above the bound comes from the label: the bound rose while it waited.
pub fn is_outgrown<R: Resource, B: Rest<R>>(above: &Above<B>, next: &Open<R>) -> bool
    ensures low { result ≡ true → (next.now.gain +ℤ B.rest above.now.rest next.now.place
        next.now.resource) ≤ℤ above.now.over }
{
    let label = Label {
        before: next.before,
        place: next.place,
        gain: next.gain,
        resource: next.resource,
    };
    next.most <= above.over && most_above(above, &label).is_none()
}

/// The label after the arc, where it extends and a chain may come above the bound from there.
fn enter<R: Resource, B: Rest<R>>(
    above: &Above<B>,
    label: &Label<R>,
    number: u32,
    arc: &Arc<R::Step>,
    places: u32,
) -> Option<Open<R>>
    requires fits { FitsPlaces places arc.now }
    requires from { arc.now.from ≡ label.now.place }
    requires few { places ≤ 2000 }
    requires within { IsWithin label.now.place label.now.gain }
    ensures enters { Enters R.extend (B.rest above.now.rest) above.now.over label.now number arc.now
        result }
{
    let next = Label {
        before: label.before,
        place: arc.to,
        gain: gain_by(label, arc, places),
        resource: label.resource.extend(&arc.step)?,
    };
    let most = most_above(above, &next)?;
    Some(Open {
        arc: number,
        before: next.before,
        place: next.place,
        gain: next.gain,
        most,
        resource: next.resource,
    })
}

/// Lets the one wait that may come to less, and gives back the other.
fn put<R: Resource>(
    waiting: &mut Vec<Open<R>>,
    best: Option<Open<R>>,
    next: Open<R>,
) -> Result<Open<R>, Memory>
    ensures put { IfOk result (Puts waiting.old.items best next waiting.new.items) }
{
    let Some(best) = best else {
        return Ok(next);
    };
    if best.most < next.most {
        waiting.push(best)?;
        return Ok(next);
    }
    waiting.push(next)?;
    Ok(best)
}

/// Goes on from a label by each of the arcs that leave its place, as far as there are steps. What may come above the
/// bound waits, that which may come to most as the last.
pub fn spread<R: Resource, B: Rest<R>, L: Ledger>(
    graph: &Graph<R>,
    leaving: &[u32],
    above: &Above<B>,
    label: &Label<R>,
    waiting: &mut Vec<Open<R>>,
    left: &mut u64,
    steps: &mut Steps<L>,
) -> Result<bool, Memory>
    requires rest { IsBound R.extend R.done graph.now (B.rest above.now.rest) }
    requires leaving { Leaving graph.now.arcs label.now.place leaving.now }
    requires before { label.now.place + 1 < graph.now.places }
    requires within { IsWithin label.now.place label.now.gain }
    ensures spreads { result ≡ Ok true → Spreads R.extend R.done graph.now above.now.over label.now
        waiting.old.items waiting.new.items }
    ensures out { result ≡ Ok false → left.new ≡ 0 }
    ensures smaller { OnOk result (left.new + length waiting.new.items
        ≤ left.old + length waiting.old.items) }
    ensures steps { steps.new + left.new ≡ steps.old + left.old }
{
    let arcs = graph.arcs();
    let mut best = None;
    for &number in leaving {
        if !spend(left, steps) {
            return Ok(false);
        }
        let arc = &arcs[number as usize];
        let Some(next) = enter(above, label, number, arc, graph.places()) else {
            continue;
        };
        best = Some(put(waiting, best, next)?);
    }
    if let Some(last) = best {
        waiting.push(last)?;
    }
    Ok(true)
}
