//! Arcs that pass over the item of a place or take it.

ghost use Rattle.std.specs.Prelude.{◌≡◌, ◌+◌, ◌*◌, ◌-◌, ◌<◌, ◌≤◌, ◌^◌, ◌≤ℤ◌, ◌&&◌, ℕ, ℤ, All, Bool, true, false, length, pos, neg_ℤ, vec_capacity, IfNone, IfSome, IsErr, OnOk};
ghost use Rattle.label_lattice.specs.declared.masks.MaskStep.{MaskStep};
ghost use Rattle.label_lattice.specs.declared.spans.SpanStep.{SpanStep};
ghost use Rattle.label_setter.specs.Graphs.{FitsPlaces};
ghost use Rattle.take_graphs.specs.Takes.{AreTakeArcs, AreTakeArcsSo, leads_by, passes_by, takes_by};

use duty_calendar::Memory;
use label_lattice::{MaskStep, Resource, SpanStep};
use label_setter::Arc;

/// What may be taken at which place, and what comes of it.
pub(crate) trait Choices {
    /// What a label holds beside credit and bids.
    type Later: Resource;

    /// How many places there are.
    ghost places: { Self → ℕ };

    /// The item of the place may be taken.
    ghost may: { Self → ℕ → Bool };

    /// It must be taken.
    ghost must: { Self → ℕ → Bool };

    /// The item of the second place fits after that of the first.
    ghost near: { Self → ℕ → ℕ → Bool };

    /// What taking gains, and the step that it makes, by what is taken and the way from one place to another.
    ghost gain: { Self → ℕ → ℤ };

    ghost step: { Self → ℕ → ℕ → ℕ → SpanStep × (MaskStep × Self.Later.Step) };

    fn may(&self, place: u32) -> bool
        requires { place < places self.now }
        ensures { result ≡ may self.now place };

    fn must(&self, place: u32) -> bool
        requires { place < places self.now }
        ensures { result ≡ must self.now place };

    fn is_open(&self, from: u32, to: u32) -> bool
        requires forward { from < to }
        requires within { to < places self.now }
        ensures { result ≡ (may self.now to && near self.now from to) };

    fn gain(&self, place: u32) -> i64
        requires { place < places self.now }
        ensures gain { result ≡ gain self.now place }
        ensures low { neg_ℤ (pos (2 ^ 40)) ≤ℤ result }
        ensures high { result ≤ℤ pos (2 ^ 40) };

    fn step(
        &self,
        taken: u32,
        from: u32,
        to: u32,
    ) -> (SpanStep, (MaskStep, <Self::Later as Resource>::Step))
        requires taken { taken < places self.now }
        requires forward { from < to }
        requires within { to < places self.now }
        ensures { result ≡ step self.now taken from to };
}

/// The first place behind this one whose item may be taken, with none before it that must be.
fn next_place<M: Choices>(choices: &M, from: u32, places: u32) -> Option<u32>
    requires places { places ≡ M.places choices.now }
    requires few { places ≤ 2000 }
    requires within { from < places }
    ensures inside { IfSome result (λ to. (from < to) × (to < places)) }
    ensures leads { IfSome result (λ to. leads_by (M.may choices.now)
        (M.must choices.now) from to ≡ true) }
    ensures none { IfNone result ((j : ℕ) → j < places
        → leads_by (M.may choices.now) (M.must choices.now) from j ≡ false) }
{
    for to in from + 1..places {
        if choices.may(to) {
            return Some(to);
        }
        if choices.must(to) {
            return None;
        }
    }
    None
}

/// The first place whose item may be taken after that of this one, with none before it that must be.
fn next_open<M: Choices>(choices: &M, from: u32, places: u32) -> Option<u32>
    requires places { places ≡ M.places choices.now }
    requires few { places ≤ 2000 }
    requires within { from < places }
    ensures inside { IfSome result (λ to. (from < to) × (to < places)) }
    ensures leads { IfSome result (λ to. leads_by
        (λ k. M.may choices.now k && M.near choices.now from k)
        (M.must choices.now) from to ≡ true) }
    ensures none { IfNone result ((j : ℕ) → j < places
        → leads_by (λ k. M.may choices.now k && M.near choices.now from k)
        (M.must choices.now) from j ≡ false) }
{
    for to in from + 1..places {
        if choices.is_open(from, to) {
            return Some(to);
        }
        if choices.must(to) {
            return None;
        }
    }
    None
}

/// Adds the arc that passes over the place, where there is one.
fn pass_over<M: Choices>(
    arcs: &mut Vec<Arc<(SpanStep, (MaskStep, <M::Later as Resource>::Step))>>,
    taken: &mut Vec<u32>,
    choices: &M,
    from: u32,
    places: u32,
) -> Result<(), Memory>
    requires places { places ≡ M.places choices.now }
    requires few { places ≤ 2000 }
    requires within { from < places }
    requires inside { (j : ℕ) → M.may choices.now j ≡ true → j < M.places choices.now }
    requires fit { All (FitsPlaces places) arcs.old.items }
    requires arcs { AreTakeArcsSo (passes_by (M.may choices.now) (M.must choices.now))
        (takes_by (M.may choices.now) (M.must choices.now) (M.near choices.now))
        (M.gain choices.now) (M.step choices.now) (λ i. i < from)
        (λ i. i < from) arcs.old.items taken.old.items }
    ensures arcs { OnOk result (AreTakeArcsSo (passes_by (M.may choices.now) (M.must choices.now))
        (takes_by (M.may choices.now) (M.must choices.now) (M.near choices.now))
        (M.gain choices.now) (M.step choices.now) (λ i. i < from + 1)
        (λ i. i < from) arcs.new.items taken.new.items) }
    ensures fit { OnOk result (All (FitsPlaces places) arcs.new.items) }
    ensures more { OnOk result (length arcs.new.items ≤ length arcs.old.items + 1) }
    ensures arcs_kept { vec_capacity arcs.old ≤ vec_capacity arcs.new }
    ensures taken_kept { vec_capacity taken.old ≤ vec_capacity taken.new }
    ensures calm { length arcs.old.items < vec_capacity arcs.old
        → length arcs.old.items < vec_capacity taken.old → IsErr result → ⊥ }
{
    if choices.must(from) {
        return Ok(());
    }
    let Some(to) = next_place(choices, from, places) else {
        return Ok(());
    };
    let gain = choices.gain(0);
    let step = choices.step(0, from, to);
    arcs.push(Arc {
        from,
        to,
        gain,
        step,
    })?;
    taken.push(0)?;
    Ok(())
}

/// Adds the arc that takes the item of the place, where there is one.
fn take_item<M: Choices>(
    arcs: &mut Vec<Arc<(SpanStep, (MaskStep, <M::Later as Resource>::Step))>>,
    taken: &mut Vec<u32>,
    choices: &M,
    from: u32,
    places: u32,
) -> Result<(), Memory>
    requires places { places ≡ M.places choices.now }
    requires few { places ≤ 2000 }
    requires within { (0 < from) × (from < places) }
    requires inside { (j : ℕ) → M.may choices.now j ≡ true → j < M.places choices.now }
    requires fit { All (FitsPlaces places) arcs.old.items }
    requires arcs { AreTakeArcsSo (passes_by (M.may choices.now) (M.must choices.now))
        (takes_by (M.may choices.now) (M.must choices.now) (M.near choices.now))
        (M.gain choices.now) (M.step choices.now) (λ i. i < from + 1)
        (λ i. i < from) arcs.old.items taken.old.items }
    ensures arcs { OnOk result (AreTakeArcsSo (passes_by (M.may choices.now) (M.must choices.now))
        (takes_by (M.may choices.now) (M.must choices.now) (M.near choices.now))
        (M.gain choices.now) (M.step choices.now) (λ i. i < from + 1)
        (λ i. i < from + 1) arcs.new.items taken.new.items) }
    ensures fit { OnOk result (All (FitsPlaces places) arcs.new.items) }
    ensures more { OnOk result (length arcs.new.items ≤ length arcs.old.items + 1) }
    ensures arcs_kept { vec_capacity arcs.old ≤ vec_capacity arcs.new }
    ensures taken_kept { vec_capacity taken.old ≤ vec_capacity taken.new }
    ensures calm { length arcs.old.items < vec_capacity arcs.old
        → length arcs.old.items < vec_capacity taken.old → IsErr result → ⊥ }
{
    if !choices.may(from) {
        return Ok(());
    }
    let Some(to) = next_open(choices, from, places) else {
        return Ok(());
    };
    let gain = choices.gain(from);
    let step = choices.step(from, from, to);
    arcs.push(Arc {
        from,
        to,
        gain,
        step,
    })?;
    taken.push(from)?;
    Ok(())
}

/// Lists the arcs from all places but the last, and what each takes.
pub(crate) fn join_choices<M: Choices>(
    arcs: &mut Vec<Arc<(SpanStep, (MaskStep, <M::Later as Resource>::Step))>>,
    taken: &mut Vec<u32>,
    choices: &M,
    places: u32,
) -> Result<(), Memory>
    requires places { places ≡ M.places choices.now }
    requires two { (2 ≤ places) × (places ≤ 2000) }
    requires inside { (j : ℕ) → M.may choices.now j ≡ true → j < M.places choices.now }
    ensures arcs { OnOk result (AreTakeArcs (passes_by (M.may choices.now) (M.must choices.now))
        (takes_by (M.may choices.now) (M.must choices.now) (M.near choices.now))
        (M.gain choices.now) (M.step choices.now) arcs.new.items taken.new.items) }
    ensures fit { OnOk result (All (FitsPlaces places) arcs.new.items) }
    ensures few { OnOk result (length arcs.new.items + 3 ≤ 2 * places) }
    ensures arcs_kept { vec_capacity arcs.old ≤ vec_capacity arcs.new }
    ensures taken_kept { vec_capacity taken.old ≤ vec_capacity taken.new }
    ensures calm { 2 * places ≤ vec_capacity arcs.old → 2 * places ≤ vec_capacity taken.old
        → IsErr result → ⊥ }
{
    arcs.clear();
    taken.clear();
    pass_over(arcs, taken, choices, 0, places)?;
    for from in 1..places - 1 {
        pass_over(arcs, taken, choices, from, places)?;
        take_item(arcs, taken, choices, from, places)?;
    }
    Ok(())
}
