//! What chains may still gain, by the states of a coarse view.

ghost use Rattle.std.specs.Prelude.{◌≡◌, ◌+◌, ◌-◌, ◌*◌, ◌<◌, ◌≤◌, ◌^◌, ◌≤ℤ◌, ◌+ℤ◌, ◌⊎◌, ℕ, ℤ, IfOk, List, Some, get_or, if◌then◌else◌, length, neg_ℤ, pos, slice_get, true};
ghost use Rattle.label_setter.specs.declared.graph.Arc.{Arc as ArcOf};
ghost use Rattle.label_setter.specs.Graphs.{IsGraph};
ghost use Rattle.chain_search.specs.Bounds.{IsBound};
ghost use Rattle.chain_search.specs.Leavings.{AreWays, Leaving};
ghost use Rattle.chain_search.specs.Views.{follows};
ghost use Rattle.chain_search.specs.Rooms.{less_by};
ghost use Rattle.label_setter.specs.Meters.{IsBetween};
ghost use Rattle.chain_search.specs.Rows.{GoesBack, IsLowOrBack, PassesOn, RaisedBy, none_from};
ghost use Rattle.chain_search.specs.SeenChains.{IsSeenOrLow};
ghost use Rattle.chain_search.specs.Tables.{rested};

use crate::coarse::Coarse;
use crate::shifts::Shift;
use crate::ways::{Ways, sink_of};
use duty_calendar::Memory;
use label_lattice::Resource;
use label_setter::{Arc, Graph, Rest};
use std::alloc::Global;

/// What a chain may still gain that can't come to a done end. It lies further below zero than sums of gains come.
const IMPOSSIBLE: i64 = -1_152_921_504_606_846_976;

/// The most that chains may still gain from each place on, for each state that a coarse view may show there.
#[derive(Drop)]
pub struct CoarseRest<C> {
    coarse: C,
    sink: u32,
    /// The numbers of the sink by states, then those of the place before it, and so on.
    table: Vec<i64>,
}

/// The number at this place of the table; 0 past its end.
fn number_at(table: &[i64], index: usize) -> i64
    ensures at { result ≡ get_or table.now index (pos 0) }
{
    if index < table.len() { table[index] } else { 0 }
}

impl<R: Resource, C: Coarse<R>> Rest<R> for CoarseRest<C> {
    ghost use Rattle.chain_search.specs.Tables.{rested};

    ghost rest = { rested C.count C.shows };

    fn rest(&self, place: u32, resource: &R) -> i64 {
        let back = self.sink.saturating_sub(place) as usize;
        let state = self.coarse.shows(resource) as usize;
        number_at(&self.table, back * self.coarse.count() + state)
    }
}

/// The numbers of the sink: nothing more is gained where the state may be done.
fn sink_row<R: Resource, C: Coarse<R>>(alloc: Global, coarse: &C) -> Result<Vec<i64>, Memory>
    ensures long { IfOk result (λ row. length row.items ≡ C.count coarse.now) }
    ensures between { IfOk result (λ row. IsBetween 0 row.items) }
    ensures value { IfOk result (λ row. (state : ℕ) → state < C.count coarse.now
        → get_or row.items state (pos 0) ≡ (if C.ends coarse.now state then pos 0 else neg_ℤ
        (pos (2 ^ 60)))) }
    ensures ends { IfOk result (λ row. (state : ℕ) → state < C.count coarse.now
        → C.ends coarse.now state ≡ true → pos 0 ≤ℤ get_or row.items state (pos 0)) }
{
    let mut row = Vec::new(alloc);
    for state in 0..coarse.count() {
        row.push(if coarse.ends(state as u32) {
            0
        } else {
            IMPOSSIBLE
        })?;
    }
    Ok(row)
}

/// Makes all numbers of the row impossible.
fn clear(row: &mut [i64])
    ensures between { IsBetween 0 row.new }
    ensures value { (state : ℕ) → state < length row.new
        → get_or row.new state (pos 0) ≡ neg_ℤ (pos (2 ^ 60)) }
{
    for state in 0..row.len() {
        row[state] = IMPOSSIBLE;
    }
}

/// The number, or what an arc gains before the other, whichever is more.
fn higher<S>(old: &i64, after: &i64, arc: &Arc<S>) -> i64
    requires after_low { neg_ℤ (pos (2 ^ 60)) ≤ℤ after.now }
    requires after_high { after.now ≤ℤ pos (2000 * 2 ^ 40) }
    requires low { neg_ℤ (pos (2 ^ 40)) ≤ℤ arc.now.gain }
    requires high { arc.now.gain ≤ℤ pos (2 ^ 40) }
    ensures one { (result ≡ old.now) ⊎ (result ≡ after.now +ℤ arc.now.gain) }
    ensures risen { old.now ≤ℤ result }
    ensures over { (after.now +ℤ arc.now.gain) ≤ℤ result }
    ensures least { (most : ℤ) → old.now ≤ℤ most → (after.now +ℤ arc.now.gain) ≤ℤ most
        → result ≤ℤ most }
{
    let most = *after + arc.gain;
    if *old < most { most } else { *old }
}

/// Raises the numbers of a place by those that stand so many states below in another row.
fn raise_above<S>(here: &mut [i64], there: &[i64], down: usize, arc: &Arc<S>)
    requires long { length here.old ≤ length there.now + down }
    requires between { IsBetween 2000 there.now }
    requires low { neg_ℤ (pos (2 ^ 40)) ≤ℤ arc.now.gain }
    requires high { arc.now.gain ≤ℤ pos (2 ^ 40) }
    ensures raised { RaisedBy (less_by down) there.now arc.now.gain here.old here.new }
{
    for state in down..here.len() {
        let most = higher(&here[state], &there[state - down], arc);
        here[state] = most;
    }
}

/// Raises the numbers of the first so many states of a place by the first one of another row.
fn raise_below<S>(here: &mut [i64], there: &[i64], below: usize, arc: &Arc<S>)
    requires some { 0 < length here.old → 0 < length there.now }
    requires between { IsBetween 2000 there.now }
    requires low { neg_ℤ (pos (2 ^ 40)) ≤ℤ arc.now.gain }
    requires high { arc.now.gain ≤ℤ pos (2 ^ 40) }
    ensures raised { RaisedBy (none_from below) there.now arc.now.gain here.old here.new }
{
    for state in 0..below.min(here.len()) {
        let most = higher(&here[state], &there[0], arc);
        here[state] = most;
    }
}

/// Raises the numbers of a place by those that stand so many states below in another row, or by the first one.
fn raise_all<S>(here: &mut [i64], there: &[i64], down: usize, arc: &Arc<S>)
    requires long { length here.old ≤ length there.now + down }
    requires some { 0 < length here.old → 0 < length there.now }
    requires between { IsBetween 2000 there.now }
    requires low { neg_ℤ (pos (2 ^ 40)) ≤ℤ arc.now.gain }
    requires high { arc.now.gain ≤ℤ pos (2 ^ 40) }
    ensures raised { RaisedBy (λ state. Some (state - down)) there.now arc.now.gain here.old
        here.new }
{
    raise_below(here, there, down, arc);
    raise_above(here, there, down, arc);
}

/// Raises the numbers of a place state by state.
fn raise_each<R: Resource, C: Coarse<R>>(
    here: &mut [i64],
    there: &[i64],
    arc: &Arc<R::Step>,
    by: &C::Move,
)
    requires few { length here.old ≤ 2 ^ 32 }
    requires stays { (state next : ℕ) → state < length here.old → C.moves by.now state ≡ Some next
        → next < length there.now }
    requires between { IsBetween 2000 there.now }
    requires low { neg_ℤ (pos (2 ^ 40)) ≤ℤ arc.now.gain }
    requires high { arc.now.gain ≤ℤ pos (2 ^ 40) }
    ensures raised { RaisedBy (C.moves by.now) there.now arc.now.gain here.old here.new }
{
    for state in 0..here.len() {
        let Some(next) = C::moves(by, state as u32) else {
            continue;
        };
        let most = higher(&here[state], &there[next as usize], arc);
        here[state] = most;
    }
}

/// Raises the numbers of a place to what an arc gains before those of the place where it leads.
fn raise<R: Resource, C: Coarse<R>>(here: &mut [i64], there: &[i64], arc: &Arc<R::Step>, coarse: &C)
    requires wide { length here.old ≡ C.count coarse.now }
    requires few { length here.old ≤ 2 ^ 32 }
    requires stays { (state next : ℕ) → state < length here.old
        → C.moves (C.move_of coarse.now arc.now.step) state ≡ Some next → next < length there.now }
    requires between { IsBetween 2000 there.now }
    requires low { neg_ℤ (pos (2 ^ 40)) ≤ℤ arc.now.gain }
    requires high { arc.now.gain ≤ℤ pos (2 ^ 40) }
    ensures raised { RaisedBy (C.moves (C.move_of coarse.now arc.now.step)) there.now arc.now.gain
        here.old here.new }
{
    let by = coarse.move_of(&arc.step);
    match coarse.shift(&by) {
        Shift::Less(down) => raise_above(here, there, down as usize, arc),
        Shift::Floor(down) => raise_all(here, there, down as usize, arc),
        Shift::Own => raise_each::<R, C>(here, there, arc, &by),
    }
}

/// The row of the table that stands so far back from the sink.
fn row_of(table: &[i64], back: usize, count: usize) -> &[i64]
    requires within { (back + 1) * count ≤ length table.now }
    ensures long { length result.now ≡ count }
    ensures at { (state : ℕ) → state < count → get_or result.now state (pos 0) ≡ get_or table.now
        (back * count + state) (pos 0) }
{
    let first = back * count;
    &table[first..first + count]
}

/// The arc leads to the next place, gains nothing there and leaves all states as they are.
fn passes_on<R: Resource, C: Coarse<R>>(arc: &Arc<R::Step>, place: u32, coarse: &C) -> bool
    requires few { place < 2000 }
    ensures passes { result ≡ true → PassesOn (λ step. C.moves (C.move_of coarse.now step))
        (C.count coarse.now) place arc.now }
{
    if arc.to != place + 1 || arc.gain != 0 {
        return false;
    }
    let by = coarse.move_of(&arc.step);
    coarse.shift(&by).stays()
}

/// How many of the arcs that leave a place, the first one or none, need not be counted in where the numbers of the next
/// place stay.
fn passing<R: Resource, C: Coarse<R>>(
    graph: &Graph<R>,
    place: u32,
    leaving: &[u32],
    coarse: &C,
) -> usize
    requires inside { place < graph.now.places }
    requires leaving { Leaving graph.now.arcs place leaving.now }
    ensures within { result ≤ length leaving.now }
    ensures passing { (k number : ℕ) (arc : ArcOf R.Step) → k < result
        → slice_get leaving.now k ≡ Some number → slice_get graph.now.arcs number ≡ Some arc
        → PassesOn (λ step. C.moves (C.move_of coarse.now step)) (C.count coarse.now) place arc }
{
    if leaving.is_empty() {
        return 0;
    }
    let arcs = graph.arcs();
    let arc = &arcs[leaving[0] as usize];
    usize::from(passes_on::<R, C>(arc, place, coarse))
}

/// Makes all numbers of the row impossible, but where arcs pass on those that it holds.
fn begin_row(row: &mut [i64], passed: usize)
    ensures between { passed ≡ 0 → IsBetween 0 row.new }
    ensures value { passed ≡ 0 → (state : ℕ) → state < length row.new
        → get_or row.new state (pos 0) ≡ neg_ℤ (pos (2 ^ 60)) }
    ensures kept { 0 < passed → row.new ≡ row.old }
{
    if passed == 0 {
        clear(row);
    }
}

/// The numbers of a place, by the rows of the later ones. The row held those of the next place.
fn place_row<R: Resource, C: Coarse<R>>(
    row: &mut [i64],
    graph: &Graph<R>,
    place: u32,
    leaving: &[u32],
    coarse: &C,
    table: &[i64],
)
    requires inside { place + 1 < graph.now.places }
    requires leaving { Leaving graph.now.arcs place leaving.now }
    requires follows { follows (C.fits_step coarse.now) (C.fits_end coarse.now) graph.now ≡ true }
    requires wide { length row.old ≡ C.count coarse.now }
    requires last { (state : ℕ) → state < C.count coarse.now
        → get_or row.old state (pos 0) ≡ get_or table.now
        ((graph.now.places - 2 - place) * C.count coarse.now + state) (pos 0) }
    requires long { length table.now ≡ (graph.now.places - 1 - place) * C.count coarse.now }
    requires between { IsBetween (graph.now.places - 1 - place) table.now }
    ensures between { IsBetween (graph.now.places - place) row.new }
    ensures from { (state : ℕ) → state < C.count coarse.now
        → IsLowOrBack (λ step. C.moves (C.move_of coarse.now step)) (C.count coarse.now)
        (graph.now.places - 1) graph.now.arcs place table.now state (get_or row.new state (pos 0)) }
    ensures covers { (number : ℕ) (arc : ArcOf R.Step) → slice_get graph.now.arcs number ≡ Some arc
        → arc.from ≡ place → GoesBack (λ step. C.moves (C.move_of coarse.now step))
        (C.count coarse.now) (graph.now.places - 1) table.now row.new arc }
{
    let sink = sink_of(graph);
    let arcs = graph.arcs();
    let passed = passing(graph, place, leaving, coarse);
    begin_row(row, passed);
    for k in passed..leaving.len() {
        let number = leaving[k];
        let arc = &arcs[number as usize];
        let there = row_of(table, (sink - arc.to) as usize, coarse.count());
        raise::<R, C>(row, there, arc, coarse);
    }
}

/// What chains may still gain in the graph, by the states of a view that follows it.
pub fn coarse_rest<R: Resource, C: Coarse<R> + Drop>(
    alloc: Global,
    graph: &Graph<R>,
    ways: &Ways,
    coarse: C,
) -> Result<CoarseRest<C>, Memory>
    requires ways { AreWays graph.now.arcs graph.now.places ways.now }
    requires follows { follows (C.fits_step coarse) (C.fits_end coarse) graph.now ≡ true }
    ensures rest { IfOk result (λ rest. IsBound R.extend R.done graph.now
        (rested C.count C.shows rest)) }
    ensures attained { IfOk result (λ rest. (place : ℕ) (a : R) → place < graph.now.places
        → IsSeenOrLow (λ step. C.moves (C.move_of coarse step)) (C.ends coarse) graph.now.arcs
        (graph.now.places - 1) place (C.shows coarse a) (rested C.count C.shows rest place a)) }
{
    let sink = sink_of(graph);
    let mut row = sink_row(alloc, &coarse)?;
    let size = (graph.places() as usize).saturating_mul(row.len());
    let mut table = Vec::with_capacity(alloc, size)?;
    table.extend_from_slice(&row)?;
    for back in 1..sink + 1 {
        let place = sink - back;
        place_row(&mut row, graph, place, ways.from(place), &coarse, &table);
        table.extend_from_slice(&row)?;
    }
    Ok(CoarseRest {
        coarse,
        sink,
        table,
    })
}
