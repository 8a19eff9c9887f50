//! Cases as text: months, what stands in their files instead, words, and what comes of them.
//!
//! A case is a few lines, and an empty line ends it. Its first line names months, each of which is put over those before it, or is `files=none`; there
//! `without=FILE` leaves a file out, and `shelf=N` and `sink=N` let the call and the put of that number fail. Then, in order,
//! `FILE <- TEXT` puts a file, `WORDS => STATUS TEXT` runs these words and says what is printed, and `FILE == TEXT`, `FILE there`
//! and `FILE gone` say what the folder holds. What is printed ends with a line feed that is not written here; `...` in it
//! stands for anything, and `@before` for what was printed before. A text is written as in a table of rows, or named by `@NAME`.

use crate::runs::{content_of, numbers_of, put, run_over, shelf_of};
use june_months::sides;
use shelf::MemoryShelf;
use std::alloc::Global;
use std::process::Abort;

/// Plays each case of a text.
pub(crate) fn play(rt: &impl Abort, alloc: Global, cases: &str) {
    for case in cases.split("\n\n") {
        let (head, steps) = case.split_once('\n').expect(rt, "a case has steps");
        play_case(rt, alloc, head, steps);
    }
}

fn play_case(rt: &impl Abort, alloc: Global, head: &str, steps: &str) {
    let mut shelf = shelf_of(rt, alloc, head);
    let mut before = String::new(alloc);
    for step in steps.lines() {
        if step.contains(" => ") {
            before = ran(rt, alloc, &mut shelf, head, step, &before);
        } else {
            play_step(rt, alloc, &mut shelf, step);
        }
    }
}

/// Puts a file, or says what the folder holds.
fn play_step(rt: &impl Abort, alloc: Global, shelf: &mut MemoryShelf, step: &str) {
    if let Some((name, text)) = step.split_once(" <- ") {
        put(rt, alloc, shelf, name, &content_of(rt, alloc, text));
        return;
    }
    if let Some((name, text)) = step.split_once(" == ") {
        assert_holds(rt, shelf, name, &content_of(rt, alloc, text));
        return;
    }
    let (name, is_there) = step.split_once(' ').expect(rt, "a file has a name");
    assert!(rt;
        shelf.file(name).is_some() == (is_there == "there"),
        "{step}"
    );
}

/// Says what a file of the folder holds.
pub(crate) fn assert_holds(rt: &impl Abort, shelf: &MemoryShelf, name: &str, bytes: &[u8]) {
    let held = shelf.file(name).expect(rt, "the file is there");
    assert!(rt; held == bytes, "{name}");
}

/// Runs words, says what comes of them, and gives what was printed.
fn ran(
    rt: &impl Abort,
    alloc: Global,
    shelf: &mut MemoryShelf,
    head: &str,
    step: &str,
    before: &str,
) -> String {
    let (words, due) = sides(step).expect(rt, "a row has two sides");
    let (status, text) = due.split_once(' ').expect(rt, "a status");
    let outcome = run_over(
        rt,
        alloc,
        words,
        shelf,
        numbers_of(rt, alloc, head, "sink="),
    );
    let found = format!(in alloc; "{:?}", outcome.status).expect(rt, "memory");
    assert!(rt;
        found.as_str() == status,
        "{head}: {step}: {}",
        outcome.text
    );
    if text == "@before" {
        assert_printed(rt, &outcome.text, before);
    } else {
        assert_told(rt, alloc, &outcome.text, text);
    }
    outcome.text
}

/// Says what was printed, as a case has it.
fn assert_told(rt: &impl Abort, alloc: Global, found: &str, text: &str) {
    let mut bytes = content_of(rt, alloc, text);
    if !bytes.is_empty() {
        let _ = bytes.push(b'\n');
    }
    let due = String::from_utf8(bytes).expect(rt, "a text");
    match due.split_once("...") {
        Some((begins, ends)) => {
            assert!(rt; found.starts_with(begins), "{found}");
            assert!(rt; found.ends_with(ends), "{found}");
        }
        None => assert_printed(rt, found, &due),
    }
}

/// Says what was printed.
fn assert_printed(rt: &impl Abort, found: &str, due: &str) {
    assert!(rt; found == due, "{found}");
}
