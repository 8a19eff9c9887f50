//! Months with vacant lines, and who may fly what.

use crate::june::{alone, empty_line, flown_line, flying, member, month, one, pairing, rules, two};
use duty_calendar::List;
use line_legality::complete;
use open_time::{OpenFault, eligible, settled, with_vacant};
use roster_model::{Bid, Problem, Roster, Wish};
use std::alloc::Global;
use std::process::Abort;

/// The month of one member of this name, and of one pairing.
fn named(rt: &impl Abort, alloc: Global, name: &[u8]) -> Problem {
    let rules = rules(rt, 10);
    let pairings = one(rt, alloc, pairing(rt, alloc));
    let who = member(rt, alloc, name);
    month(rt, alloc, rules, who, pairings, List::new(alloc))
}

#[test]
fn vacant_lines_stand_behind_the_members(rt: HostRuntime) {
    let alloc = rt.alloc();
    let problem = flying(&rt, alloc);
    let made = with_vacant(alloc, &problem, 2).expect(&rt, "two vacant lines");
    let members = made.base.members.as_slice();
    assert!(rt; members.len() == 3);
    assert!(rt; members[0].name.bytes() == b"M1".as_slice());
    assert!(rt; members[1].name.bytes() == b"vacant-1".as_slice());
    assert!(rt; members[2].name.bytes() == b"vacant-2".as_slice());
    assert!(rt; members[2].high == 12_000);
    assert!(rt; made.bids.len() == 3);
}

#[test]
fn names_and_numbers_may_be_taken(rt: HostRuntime) {
    let alloc = rt.alloc();
    let problem = named(&rt, alloc, b"vacant-2");
    assert!(rt; with_vacant(alloc, &problem, 1).is_ok());
    assert!(rt; with_vacant(alloc, &problem, 2).err() == Some(OpenFault::NameTaken(0)));
    assert!(rt; with_vacant(alloc, &problem, 200).err() == Some(OpenFault::Members(201)));
}

#[test]
fn who_is_idle_may_fly(rt: HostRuntime) {
    let alloc = rt.alloc();
    let problem = flying(&rt, alloc);
    let made = with_vacant(alloc, &problem, 1).expect(&rt, "a vacant line");
    let roster = two(&rt, alloc, empty_line(&rt, alloc), flown_line(&rt, alloc));
    assert!(rt; made.base.members.len() == 2);
    assert!(rt; made.base.pairings.len() == 1);
    assert!(rt; eligible(alloc, &made, &roster, 0, 0) == Ok(true));
    assert!(rt; eligible(alloc, &made, &roster, 1, 0) == Ok(false));
}

/// The month of one member who bids for all its days off, and of one pairing.
fn resting(rt: &impl Abort, alloc: Global) -> Problem {
    let bid = Bid {
        weight: 10,
        wish: Wish::DaysOff(30),
    };
    let rules = rules(rt, 10);
    let pairings = one(rt, alloc, pairing(rt, alloc));
    alone(rt, alloc, rules, pairings, one(rt, alloc, bid))
}

/// What is left where the vacant line has the pairing and the member nothing.
fn left_of(rt: &impl Abort, alloc: Global, problem: &Problem) -> Roster {
    let made = with_vacant(alloc, problem, 1).expect(rt, "a vacant line");
    let roster = two(rt, alloc, empty_line(rt, alloc), flown_line(rt, alloc));
    assert!(rt; made.base.members.len() == 2);
    assert!(rt; made.base.pairings.len() == 1);
    assert!(rt; complete(alloc, &made, &roster).is_ok());
    settled(alloc, &made, 1, roster).expect(rt, "memory")
}

#[test]
fn who_can_take_a_pairing_has_it_then(rt: HostRuntime) {
    let alloc = rt.alloc();
    let problem = flying(&rt, alloc);
    assert!(rt;
        left_of(&rt, alloc, &problem)
            == two(&rt, alloc, flown_line(&rt, alloc), empty_line(&rt, alloc))
    );
}

#[test]
fn a_score_keeps_a_pairing_where_it_is(rt: HostRuntime) {
    let alloc = rt.alloc();
    let problem = resting(&rt, alloc);
    assert!(rt;
        left_of(&rt, alloc, &problem)
            == two(&rt, alloc, empty_line(&rt, alloc), flown_line(&rt, alloc))
    );
}
