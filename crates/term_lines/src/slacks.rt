//! Which labels of a graph that passes and takes need not be followed beside others, by caps that no chain meets.

ghost use Rattle.std.specs.Prelude.{◌≡◌, ◌<◌, ◌≤◌, ℕ, All, IfOk, get_or, length};
ghost use Rattle.chain_search.specs.Leavings.{AreWays, Leaving};
ghost use Rattle.chain_search.specs.Orders.{IsOrder};
ghost use Rattle.take_graphs.specs.TakeLabels.{take_done, take_extend};
ghost use Rattle.term_lines.specs.Slacks.{AreBefore, IsBefore, IsBeforeArc, Keeps, counters_spare, daily_spares, free_before, slack_spares, spares, span_spares, sum_spares};

use chain_search::{Order, Ways};
use duty_calendar::Memory;
use label_lattice::{Daily, Lattice, Nights, Pair, Pause, Resource, Span, Usage, UsageStep};
use label_setter::Graph;
use std::alloc::Global;
use take_graphs::TakeLabel;

/// What a label holds beside credit and bids.
pub(crate) type Later<const N: usize> = Pair<Pause, Pair<Daily, Pair<Nights, Usage<N>>>>;

/// Steps add up to so much `up`.
const MOST_UP: u32 = 2_147_483_648;

/// How low sums have to be at a place so that no chain on from there meets a cap: below these.
#[derive(Clone, Copy)]
pub(crate) struct Slack<const N: usize> {
    down: u32,
    days: u32,
    counters: [u32; N],
}

/// How low sums have to be at each place, and from which credit on more of it does not count.
#[derive(Drop)]
pub(crate) struct Slacks<const N: usize> {
    /// That of the sink, then that of the place before it, and so on.
    rows: Vec<Slack<N>>,
    sink: u32,
    low: u32,
}

/// The sum is no greater than the other, or below the limit.
fn sum_spares(limit: u32, first: u32, second: u32) -> bool
    ensures spares { result ≡ sum_spares limit first second }
{
    first <= second || first < limit
}

/// `down` by its limit; `up` is no less, or no less than what the end asks for, where steps add up to that.
fn span_spares(limit: u32, low: u32, first: &Span, second: &Span) -> bool
    ensures spares { result ≡ span_spares limit low first.now second.now }
{
    sum_spares(limit, first.down, second.down)
        && (second.up <= first.up || (low <= first.up && low <= MOST_UP))
}

/// The count is below the limit, or the days are no more.
fn daily_spares(limit: u32, first: &Daily, second: &Daily) -> bool
    ensures spares { result ≡ daily_spares limit first.now second.now }
{
    first.count < limit || first.below(second)
}

/// Each counter is no greater than its fellow, or below its limit.
fn counters_spare<const N: usize>(limits: &[u32; N], first: &[u32; N], second: &[u32; N]) -> bool
    ensures spares { result ≡ counters_spare (length first.now) limits.now first.now second.now }
{
    for k in 0..N {
        if !sum_spares(limits[k], first[k], second[k]) {
            return false;
        }
    }
    true
}

impl<const N: usize> Slack<N> {
    /// Whether the second label need not be followed beside the first where these are the limits.
    fn spares(&self, low: u32, first: &TakeLabel<N>, second: &TakeLabel<N>) -> bool
        ensures spares { result ≡ slack_spares low self.now first.now second.now }
    {
        let (one, two) = (&first.second, &second.second);
        one.first.below(&two.first)
            && span_spares(self.down, low, &first.first, &second.first)
            && one.second.first.below(&two.second.first)
            && daily_spares(
                self.days,
                &one.second.second.first,
                &two.second.second.first,
            )
            && one
                .second
                .second
                .second
                .first
                .below(&two.second.second.second.first)
            && counters_spare(
                &self.counters,
                &one.second.second.second.second.counters,
                &two.second.second.second.second.counters,
            )
    }
}

impl<const N: usize> Order<TakeLabel<N>> for Slacks<N> {
    ghost use Rattle.term_lines.specs.Slacks.{spares};

    ghost spares = { spares };

    fn spares(&self, place: u32, first: &TakeLabel<N>, second: &TakeLabel<N>) -> bool {
        let back = self.sink.saturating_sub(place);
        match self.rows.get(back as usize) {
            Some(slack) => slack.spares(self.low, first, second),
            None => first.below(second),
        }
    }
}

/// Below this a sum meets no cap by what is added, and is below the limit then.
fn free_before(limit: u32, cap: u32, add: u32) -> u32
    ensures free { result ≡ free_before limit cap add }
{
    limit.min(cap.saturating_add(1)).saturating_sub(add)
}

/// Counters as low as these that are free before a step.
fn counters_before<const N: usize>(
    here: &[u32; N],
    next: &[u32; N],
    step: &UsageStep<N>,
) -> [u32; N]
    ensures within { (k : ℕ) → get_or result k 0 ≤ get_or here.now k 0 }
    ensures before { AreBefore result next.now step.now.caps step.now.amounts }
{
    let mut least = *here;
    for k in 0..N {
        least[k] = least[k].min(free_before(next[k], step.caps[k], step.amounts[k]));
    }
    least
}

/// As low as these, and free before a step to the next.
fn slack_before<const N: usize>(
    here: &Slack<N>,
    next: &Slack<N>,
    step: &<TakeLabel<N> as Resource>::Step,
) -> Slack<N>
    ensures before { IsBefore result next.now step.now }
    ensures kept { Keeps here.now result }
{
    let (span, daily, usage) = (&step.0, &step.1.1.1.0, &step.1.1.1.1.1);
    Slack {
        down: here.down.min(free_before(next.down, span.cap, span.down)),
        days: here.days.min(free_before(next.days, daily.cap, daily.add)),
        counters: counters_before(&here.counters, &next.counters, usage),
    }
}

/// Nothing is added after the sink.
fn all_free<const N: usize>() -> Slack<N> {
    Slack {
        down: u32::MAX,
        days: u32::MAX,
        counters: [u32::MAX; N],
    }
}

/// How low sums have to be for all arcs that leave a place, by how low they have to be where these lead.
fn slack_at<const N: usize>(
    graph: &Graph<TakeLabel<N>>,
    leaving: &[u32],
    rows: &[Slack<N>],
    sink: u32,
) -> Slack<N>
    requires inside { All (λ number. number < length graph.now.arcs) leaving.now }
    ensures before { All (IsBeforeArc graph.now.arcs rows.now sink result) leaving.now }
{
    let arcs = graph.arcs();
    let mut here = all_free::<N>();
    for &number in leaving {
        let arc = &arcs[number as usize];
        if let Some(next) = rows.get(sink.saturating_sub(arc.to) as usize) {
            here = slack_before(&here, next, &arc.step);
        }
    }
    here
}

/// The arcs that leave a place, by their numbers.
fn leaving<'a, R: Resource>(_graph: &Graph<R>, ways: &'a Ways, place: u32) -> &'a [u32]
    requires ways { AreWays _graph.now.arcs _graph.now.places ways.now }
    requires within { place < _graph.now.places }
    ensures leaving { Leaving _graph.now.arcs place result.now }
    ensures inside { All (λ number. number < length _graph.now.arcs) result.now }
{
    ways.from(place)
}

/// The order of the labels of a graph by how low sums have to be at each place.
pub(crate) fn slacks_of<const N: usize>(
    alloc: Global,
    graph: &Graph<TakeLabel<N>>,
    ways: &Ways,
) -> Result<Slacks<N>, Memory>
    requires ways { AreWays graph.now.arcs graph.now.places ways.now }
    requires narrow { N ≤ 16 }
    ensures order { IfOk result
        (λ slacks. IsOrder take_extend take_done graph.now (spares slacks)) }
{
    let _arcs = graph.arcs();
    let sink = graph.places() - 1;
    let mut rows = Vec::new(alloc);
    rows.push(all_free::<N>())?;
    for back in 1..sink + 1 {
        let numbers = leaving(graph, ways, sink - back);
        let slack = slack_at(graph, numbers, rows.as_slice(), sink);
        rows.push(slack)?;
    }
    let low = graph.end().0.low;
    Ok(Slacks { rows, sink, low })
}

/// The order of the labels of a graph.
pub(crate) fn order_of<const N: usize>(
    alloc: Global,
    graph: &Graph<TakeLabel<N>>,
) -> Result<Slacks<N>, Memory>
    requires narrow { N ≤ 16 }
    ensures order { IfOk result
        (λ slacks. IsOrder take_extend take_done graph.now (spares slacks)) }
{
    let ways = Ways::new(alloc, graph)?;
    slacks_of::<N>(alloc, graph, &ways)
}
