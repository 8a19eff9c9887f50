//! What passing and taking make of a label, by the places of a chart.
ghost use Rattle.std.specs.Prelude.{◌≡◌, ◌==◌, ◌<◌, ◌&&◌, length, nat_lt};
ghost use Rattle.std.specs.Int.{bit_at};
ghost use Rattle.duty_calendar.specs.Minutes.{is_touching};
ghost use Rattle.take_graphs.specs.TakeCharts.{chart_busy_with, chart_daily, chart_day, chart_nights, chart_open, chart_pause, chart_take};
ghost use Rattle.line_lens.specs.Charts.{chart_gain, chart_may, chart_must, chart_near};

use crate::take_lines::{PauseLabel, TakeLabel};
use crate::takes::Choices;
use duty_calendar::Interval;
use label_lattice::{DailyStep, NightStep, PauseStep, Resource, SpanStep, UsageStep};
use line_items::is_set;
use line_lens::Chart;

/// What taking makes of free blocks, on the way to a place.
fn pause_between<const N: usize>(chart: &Chart<N>, taken: u32, to: u32) -> PauseStep
    requires first { taken < length chart.now.places.items }
    requires second { to < length chart.now.places.items }
    ensures pause { result ≡ chart_pause chart.now taken to }
{
    if !chart.free30 {
        return PauseStep {
            least: 0,
            renew: 0,
            busy: 0,
            free: 0,
        };
    }
    let (item, next) = (chart.at(taken), chart.at(to));
    PauseStep {
        least: item.least,
        renew: item.own,
        busy: item.ends,
        free: next.free,
    }
}

/// The day on which the item of a place begins.
fn day_at<const N: usize>(chart: &Chart<N>, place: u32) -> u32
    requires within { place < length chart.now.places.items }
    ensures day { result ≡ chart_day chart.now place }
{
    chart.at(place).begins / 1440
}

/// Whether it is a day of the month that no fixed event makes busy.
fn is_open_on<const N: usize>(chart: &Chart<N>, day: u32) -> bool
    ensures is_open { result ≡ chart_open chart.now day }
{
    let month = u64::from(chart.month);
    365 <= day && (u64::from(day) < 365 + month && !is_fixed_on(chart, day.saturating_sub(365)))
}

/// Whether the bit of a fixed busy day is set.
fn is_fixed_on<const N: usize>(chart: &Chart<N>, bit: u32) -> bool
    ensures fixed { result ≡ (nat_lt bit 32 && bit_at chart.now.fixed bit == 1) }
{
    bit < 32 && is_set(u64::from(chart.fixed), bit)
}

/// Whether the item of the first place makes the day busy on which that of the second begins.
fn is_busy_with<const N: usize>(chart: &Chart<N>, first: u32, second: u32) -> bool
    requires first { first < length chart.now.places.items }
    requires second { second < length chart.now.places.items }
    ensures busy { result ≡ chart_busy_with chart.now first second }
{
    let place = chart.at(first);
    let span = Interval {
        start: place.begins,
        stop: place.ends,
    };
    let day = day_at(chart, second);
    is_on(span, day) && is_open_on(chart, day)
}

/// What taking makes of the busy days, on the way from a place to another.
fn daily_between<const N: usize>(chart: &Chart<N>, taken: u32, from: u32, to: u32) -> DailyStep
    requires first { taken < length chart.now.places.items }
    requires second { from < length chart.now.places.items }
    requires third { to < length chart.now.places.items }
    ensures daily { result ≡ chart_daily chart.now taken from to }
{
    if !chart.days {
        return DailyStep {
            add: 0,
            again: false,
            keeps: false,
            sets: false,
            cap: 0,
        };
    }
    let (source, touched) = (chart.at(0).touched, chart.at(taken).touched);
    DailyStep {
        add: (touched & !chart.fixed & !source).count_ones(),
        again: is_busy_with(chart, taken, taken),
        keeps: day_at(chart, from) == day_at(chart, to),
        sets: is_busy_with(chart, taken, to),
        cap: chart.most_busy,
    }
}

/// What taking makes of a row of nights, on the way to a place.
fn nights_between<const N: usize>(chart: &Chart<N>, taken: u32, to: u32) -> NightStep
    requires first { taken < length chart.now.places.items }
    requires second { to < length chart.now.places.items }
    ensures nights { result ≡ chart_nights chart.now taken to }
{
    if !chart.free30 {
        return NightStep {
            lead: 0,
            reset: None,
            until: 0,
            free: 0,
            cap: 0,
        };
    }
    let (item, next) = (chart.at(taken), chart.at(to));
    NightStep {
        lead: item.nights.lead,
        reset: item.nights.reset,
        until: item.ends,
        free: next.begins.saturating_sub(1800),
        cap: 3,
    }
}

/// Whether the span has a minute of the day.
fn is_on(span: Interval, day: u32) -> bool
    ensures on { result ≡ is_touching span day }
{
    let (start, stop) = (u64::from(span.start), u64::from(span.stop));
    let first = 1440 * u64::from(day);
    start < 1440 * (u64::from(day) + 1) && first < stop
}

impl<const N: usize> Choices for Chart<N> {
    type Later = PauseLabel<N>;

    ghost places = { λ chart. length chart.places.items };

    ghost may = { chart_may };

    ghost must = { chart_must };

    ghost near = { chart_near };

    ghost gain = { λ chart place. chart_gain chart 0 place };

    ghost step = { chart_take };

    fn may(&self, place: u32) -> bool {
        self.is_open && (self.is_sink(place) || self.at(place).may)
    }

    fn must(&self, place: u32) -> bool {
        self.at(place).must
    }

    fn is_open(&self, from: u32, to: u32) -> bool {
        self.is_next(from, to)
    }

    fn gain(&self, place: u32) -> i64 {
        self.at(place).gain
    }

    fn step(&self, taken: u32, from: u32, to: u32) -> <TakeLabel<N> as Resource>::Step {
        let place = self.at(taken);
        let credit = SpanStep {
            down: place.down,
            up: place.up,
            cap: self.high,
        };
        let windows = UsageStep {
            amounts: place.amounts,
            caps: self.caps,
        };
        (
            credit,
            (
                place.bids,
                (
                    pause_between(self, taken, to),
                    (
                        daily_between(self, taken, from, to),
                        (nights_between(self, taken, to), windows),
                    ),
                ),
            ),
        )
    }
}
