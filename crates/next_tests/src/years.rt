//! A year of flying.

use crate::folders::NO_EVENTS;
use std::alloc::Global;
use std::process::Abort;

/// Appends flights of A of five hours on these days of a month.
fn put_flights(
    rt: &impl Abort,
    alloc: Global,
    text: &mut String,
    month: &str,
    first: u32,
    last: u32,
) {
    for day in first..=last {
        let day = format!(in alloc; "{month}-{day:02}").expect(rt, "memory");
        let times = format!(in alloc; "{day}T08:00Z,{day}T14:00Z,{day}T14:30Z").expect(
            rt, "memory",
        );
        let row = format!(in alloc; "A,flight,{times},{day}T08:30Z/{day}T13:30Z,0:00\n").expect(
            rt, "memory",
        );
        text.push_str(&row).expect(rt, "memory");
    }
}

/// A history in which A flies 985 hours from July 5 of last year on.
pub(crate) fn nearly_thousand_hours(rt: &impl Abort, alloc: Global) -> String {
    let mut text = String::from_str(alloc, NO_EVENTS).expect(rt, "memory");
    for (month, first, last) in [
        ("2025-07", 5, 31),
        ("2025-08", 1, 31),
        ("2025-09", 1, 30),
        ("2025-10", 1, 31),
        ("2025-11", 1, 30),
        ("2025-12", 1, 31),
        ("2026-01", 1, 17),
    ] {
        put_flights(rt, alloc, &mut text, month, first, last);
    }
    text
}
