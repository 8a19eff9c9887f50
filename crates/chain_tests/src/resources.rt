ghost use Rattle.std.specs.Prelude.{◌≡◌, ◌<◌};

use label_lattice::{
    Daily, DailyStep, Latest, LatestStep, Lattice, Least, LeastStep, Mask, MaskEnd, MaskStep, Pair,
    Pause, PauseStep, Resource, Span, SpanEnd, SpanStep, Steps, Usage, UsageStep,
};
use std::marker::Brand;
use std::sync::ledger::{Blank, Ledger};

/// Whether it comes to that by two steps, by the resource's own rule alone.
fn comes_to<R: Resource + PartialEq>(start: R, first: R::Step, second: R::Step, due: R) -> bool {
    match after_two(start, first, second) {
        Some(found) => found == due,
        None => false,
    }
}

/// Whether one of two steps can't be taken.
fn stops<R: Resource>(start: R, first: R::Step, second: R::Step) -> bool {
    after_two(start, first, second).is_none()
}

fn after_two<R: Resource>(start: R, first: R::Step, second: R::Step) -> Option<R> {
    start.extend(&first)?.extend(&second)
}

fn meets<R: Resource>(resource: R, end: R::End) -> bool {
    resource.done(&end)
}

fn is_below<L: Lattice>(first: L, second: L) -> bool {
    first.below(&second)
}

/// Whether that is the greatest lower bound of the two.
fn is_meet<L: Lattice + PartialEq>(first: L, second: L, due: L) -> bool {
    first.meet(&second) == due
}

#[test]
fn least_adds_up_to_its_cap(rt: HostRuntime) {
    let start = Least { value: 0 };
    let step = LeastStep { add: 2, cap: 4 };
    assert!(rt; comes_to(start, step, step, Least { value: 4 }));
    assert!(rt; stops(start, step, LeastStep { add: 2, cap: 3 }));
    assert!(rt; is_below(start, Least { value: 4 }));
    assert!(rt; is_meet(Least { value: 4 }, start, start));
    assert!(rt; meets(start, ()));
}

#[test]
fn latest_renews(rt: HostRuntime) {
    let start = Latest { value: 5 };
    let keeps = LatestStep {
        renew: None,
        least: 5,
    };
    let renews = LatestStep {
        renew: Some(9),
        least: 9,
    };
    assert!(rt; comes_to(start, keeps, renews, Latest { value: 9 }));
    assert!(rt;
        stops(
            start,
            keeps,
            LatestStep {
                renew: Some(3),
                least: 6
            }
        )
    );
    assert!(rt; !is_below(start, Latest { value: 9 }));
    assert!(rt; is_meet(Latest { value: 9 }, start, Latest { value: 9 }));
    assert!(rt; meets(start, ()));
}

#[test]
fn span_stops_at_its_greatest_sum(rt: HostRuntime) {
    let start = Span {
        down: 1,
        up: 2_147_483_647,
    };
    let step = SpanStep {
        down: 1,
        up: 1,
        cap: 3,
    };
    let highest = Span {
        down: 3,
        up: 2_147_483_648,
    };
    assert!(rt; comes_to(start, step, step, highest));
    let lower = SpanStep {
        down: 2,
        up: 0,
        cap: 3,
    };
    assert!(rt; stops(start, step, lower));
    assert!(rt; meets(start, SpanEnd { low: 2_147_483_647 }));
    assert!(rt; !meets(start, SpanEnd { low: 2_147_483_648 }));
    assert!(rt; !is_below(Span { down: 1, up: 1 }, Span { down: 2, up: 2 }));
    assert!(rt;
        is_meet(
            Span { down: 1, up: 1 },
            Span { down: 2, up: 2 },
            Span { down: 1, up: 2 }
        )
    );
}

#[test]
fn mask_clears_before_it_sets(rt: HostRuntime) {
    let start = Mask { bits: 6 };
    let step = MaskStep { clear: 3, set: 1 };
    assert!(rt; comes_to(start, step, step, Mask { bits: 5 }));
    let mut weights = [0; 64];
    weights[0] = 7;
    weights[63] = 2;
    assert!(rt; meets(start, MaskEnd { weights, floor: 9 }));
    assert!(rt; !meets(Mask { bits: 1 }, MaskEnd { weights, floor: 3 }));
    assert!(rt; is_below(Mask { bits: 2 }, start));
    assert!(rt; is_meet(Mask { bits: 3 }, start, Mask { bits: 2 }));
}

#[test]
fn usage_holds_each_counter_to_its_cap(rt: HostRuntime) {
    let start = Usage {
        counters: [0, 4_294_967_295],
    };
    let step = UsageStep {
        amounts: [1, 0],
        caps: [2, 4_294_967_295],
    };
    assert!(rt;
        comes_to(
            start,
            step,
            step,
            Usage {
                counters: [2, 4_294_967_295]
            }
        )
    );
    let passes = UsageStep {
        amounts: [0, 1],
        caps: [2, 4_294_967_295],
    };
    assert!(rt; stops(start, step, passes));
    assert!(rt; is_below(Usage { counters: [1, 2] }, Usage { counters: [1, 3] }));
    assert!(rt;
        is_meet(
            Usage { counters: [1, 3] },
            Usage { counters: [2, 2] },
            Usage { counters: [1, 2] }
        )
    );
    assert!(rt; meets(start, ()));
}

#[test]
fn usage_compares_every_counter(rt: HostRuntime) {
    let start = Usage { counters: [9; 7] };
    let last = Usage {
        counters: [9, 9, 9, 9, 9, 9, 10],
    };
    let fourth = Usage {
        counters: [9, 9, 9, 10, 9, 9, 9],
    };
    assert!(rt; is_below(start, start));
    assert!(rt; is_below(start, last));
    assert!(rt; !is_below(last, start));
    assert!(rt; !is_below(fourth, start));
}

#[test]
fn pair_asks_both_parts(rt: HostRuntime) {
    let start = Pair {
        first: Least { value: 0 },
        second: Mask { bits: 1 },
    };
    let step = (LeastStep { add: 1, cap: 2 }, MaskStep { clear: 1, set: 2 });
    let both = Pair {
        first: Least { value: 2 },
        second: Mask { bits: 2 },
    };
    assert!(rt; comes_to(start, step, step, both));
    let weights = [1; 64];
    assert!(rt; meets(both, ((), MaskEnd { weights, floor: 63 })));
    assert!(rt; !meets(both, ((), MaskEnd { weights, floor: 64 })));
    assert!(rt; !is_below(both, start));
    assert!(rt;
        is_meet(
            both,
            start,
            Pair {
                first: Least { value: 0 },
                second: Mask { bits: 0 }
            }
        )
    );
}

fn rank_of<L: Lattice>(value: L) -> u64 {
    value.rank()
}

#[test]
fn pause_waits_for_the_end_of_work(rt: HostRuntime) {
    let start = Pause { latest: 0, busy: 0 };
    let works = PauseStep {
        least: 0,
        renew: 10,
        busy: 30,
        free: 20,
    };
    let rests = PauseStep {
        least: 10,
        renew: 0,
        busy: 0,
        free: 30,
    };
    assert!(rt;
        comes_to(
            start,
            works,
            rests,
            Pause {
                latest: 30,
                busy: 0
            }
        )
    );
    assert!(rt; stops(start, rests, works));
    assert!(rt; is_below(Pause { latest: 2, busy: 3 }, Pause { latest: 1, busy: 4 }));
    assert!(rt;
        is_meet(
            Pause { latest: 2, busy: 5 },
            Pause { latest: 1, busy: 4 },
            Pause { latest: 2, busy: 4 }
        )
    );
    assert!(rt; meets(start, ()));
}

#[test]
fn daily_counts_a_day_once(rt: HostRuntime) {
    let start = Daily {
        count: 0,
        today: false,
    };
    let first = DailyStep {
        add: 2,
        again: false,
        keeps: false,
        sets: true,
        cap: 3,
    };
    let second = DailyStep {
        add: 2,
        again: true,
        keeps: false,
        sets: false,
        cap: 3,
    };
    let three = Daily {
        count: 3,
        today: false,
    };
    assert!(rt; comes_to(start, first, second, three));
    assert!(rt; stops(start, first, first));
    let busy = Daily {
        count: 2,
        today: true,
    };
    assert!(rt; is_below(busy, three));
    assert!(rt; is_meet(three, busy, busy));
    assert!(rt; meets(start, ()));
}

#[test]
fn pair_ranks_its_first_part_first(rt: HostRuntime) {
    let low = Pair {
        first: Least { value: 1 },
        second: Latest { value: 0 },
    };
    let high = Pair {
        first: Least { value: 2 },
        second: Latest { value: 9 },
    };
    assert!(rt; rank_of(low) < rank_of(high));
}

fn count_two<L: Ledger>(blank: Blank)
    requires name { blank.name ≡ L.name }
    requires parts { blank.parts ≡ L.parts }
    requires some { 0 < blank.parts }
{
    let mut steps: Steps<L> = Steps::new(blank);
    steps.tick();
    steps.tick();
}

#[test]
fn steps_take_no_bytes(rt: HostRuntime) {
    count_two::<Brand>(Blank::new(1));
    assert!(rt; size_of::<Steps<Brand>>() == 0);
}
