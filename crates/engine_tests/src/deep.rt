//! The largest crowd, and a proof of very many splits.

use crate::runs::{checked, put, shelf_of};
use std::alloc::Global;
use std::process::Abort;

/// What a row says its number, counted from 1, in: itself, the one 200 or 400 behind it, the digits of its day of 30, or
/// the place and the round of 200.
#[derive(Clone, Copy)]
enum Digits {
    Own,
    Second,
    Third,
    Tens,
    Ones,
    Place,
    Round,
}

/// What these digits say of the row of this number.
fn digits_of(digits: Digits, n: u32) -> u32 {
    let before = n.saturating_sub(1);
    let day = before % 30 + 1;
    match digits {
        Digits::Own => n,
        Digits::Second => n.saturating_add(200),
        Digits::Third => n.saturating_add(400),
        Digits::Tens => day / 10,
        Digits::Ones => day % 10,
        Digits::Place => before % 200 + 1,
        Digits::Round => before / 200 + 1,
    }
}

/// A file of rows: its name, its head, the pieces of each row with the digits behind them, how a row ends, and how many there are.
type Made = (
    &'static str,
    &'static str,
    &'static [(&'static str, Digits)],
    &'static str,
    u32,
);

/// A trip of a day for each of 600 pairings, and three of them for each of 200 members.
const CROWD: [Made; 5] = [
    (
        "pairings.csv",
        "pairing,need,credit\n",
        &[("P", Digits::Own)],
        ",1,5:00\n",
        600,
    ),
    (
        "duties.csv",
        "pairing,no,report,parked,release,layover\n",
        &[
            ("P", Digits::Own),
            (",1,2026-06-", Digits::Tens),
            ("", Digits::Ones),
            ("T08:00Z,2026-06-", Digits::Tens),
            ("", Digits::Ones),
            ("T14:00Z,2026-06-", Digits::Tens),
            ("", Digits::Ones),
        ],
        "T14:30Z,\n",
        600,
    ),
    (
        "legs.csv",
        "pairing,no,from,to,out,in\n",
        &[
            ("P", Digits::Own),
            (",1,DUB,LHR,2026-06-", Digits::Tens),
            ("", Digits::Ones),
            ("T09:00Z,2026-06-", Digits::Tens),
            ("", Digits::Ones),
        ],
        "T13:00Z\n",
        600,
    ),
    (
        "crew.csv",
        "member,low,high\n",
        &[("M", Digits::Own)],
        ",0:00,90:00\n",
        200,
    ),
    (
        "roster.csv",
        "member,pairings,credit,score\n",
        &[
            ("M", Digits::Own),
            (",P", Digits::Own),
            (" P", Digits::Second),
            (" P", Digits::Third),
        ],
        ",15:00,0\n",
        200,
    ),
];

/// The first proof of a certificate for them: 20,000 splits of distinct pairs, and no leaf.
const SPLITS: Made = (
    "certificate.txt",
    "pbs-certificate 1\naward 200 0\nproof 20000\n",
    &[("split ", Digits::Place), (" ", Digits::Round)],
    "\n",
    20_000,
);

/// Appends the row of this number.
fn put_row_of(
    rt: &impl Abort,
    alloc: Global,
    text: &mut String,
    (_, _, pieces, end, _): &Made,
    n: u32,
) {
    for (piece, digits) in *pieces {
        let number = digits_of(*digits, n);
        text.push_str(&format!(in alloc; "{piece}{number}").expect(rt, "memory"))
            .expect(rt, "memory");
    }
    text.push_str(end).expect(rt, "memory");
}

/// The text of a file of rows.
fn text_of(rt: &impl Abort, alloc: Global, made: &Made) -> String {
    let (_, head, _, _, count) = made;
    let mut text = String::from_str(alloc, head).expect(rt, "memory");
    for n in 1..=*count {
        put_row_of(rt, alloc, &mut text, made, n);
    }
    text
}

#[test]
fn deep_splits_are_judged(rt: HostRuntime) {
    let alloc = rt.alloc();
    let mut shelf = shelf_of(&rt, alloc, "smallest");
    for made in &CROWD {
        let text = text_of(&rt, alloc, made);
        put(&rt, alloc, &mut shelf, made.0, text.as_bytes());
    }
    let mut certificate = text_of(&rt, alloc, &SPLITS);
    for _proof in 1..200_u32 {
        certificate.push_str("proof 0\n").expect(&rt, "memory");
    }
    certificate.push_str("end\n").expect(&rt, "memory");
    put(&rt, alloc, &mut shelf, "bids.txt", b"");
    put(
        &rt,
        alloc,
        &mut shelf,
        "certificate.txt",
        certificate.as_bytes(),
    );
    assert!(rt; checked(&rt, alloc, &mut shelf).as_str() == "no 5 1\n");
}
