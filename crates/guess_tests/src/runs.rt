//! Runs over files in memory.

use crate::months::File;
use duty_calendar::List;
use node_guesses::MixGuide;
use pbs_engine::{Status, run};
use shelf::{MemoryShelf, MemorySink};
use std::alloc::Global;
use std::process::Abort;
use weight_certificates::Rounds;

/// What a run printed, and how it ended.
#[derive(Drop)]
pub(crate) struct Outcome {
    pub(crate) status: Status,
    pub(crate) text: String,
}

/// Puts a file into a shelf, in place of one of its name.
pub(crate) fn place(
    rt: &impl Abort,
    alloc: Global,
    shelf: &mut MemoryShelf,
    name: &str,
    bytes: &[u8],
) {
    assert!(rt; !name.is_empty() && name.len() <= 32);
    shelf.place(alloc, name, bytes).expect(rt, "memory");
}

/// Puts files into a shelf, each in place of one of its name.
pub(crate) fn place_all(rt: &impl Abort, alloc: Global, shelf: &mut MemoryShelf, files: &[File]) {
    for (name, text) in files {
        place(rt, alloc, shelf, name, text.as_bytes());
    }
}

/// Words as a run takes them.
fn words_of(rt: &impl Abort, alloc: Global, words: &[&str]) -> Vec<String> {
    let mut list = Vec::new(alloc);
    for word in words {
        let word = String::from_str(alloc, word).expect(rt, "memory");
        list.push(word).expect(rt, "memory");
    }
    list
}

/// Runs these words over a shelf, by the guide of the program.
pub(crate) fn run_over(
    rt: &impl Abort,
    alloc: Global,
    words: &[&str],
    shelf: &mut MemoryShelf,
) -> Outcome {
    let words = words_of(rt, alloc, words);
    let mut out = MemorySink::new(alloc, List::new(alloc));
    let status = run::<Rounds<MixGuide>, _, _>(alloc, &words, shelf, &mut out);
    let bytes = out.bytes().to_vec(alloc).expect(rt, "memory");
    Outcome {
        status,
        text: String::from_utf8(bytes).expect(rt, "a text"),
    }
}

/// Says that a run was done and printed this.
pub(crate) fn assert_prints(rt: &impl Abort, outcome: &Outcome, text: &str) {
    assert!(rt; outcome.text.as_str() == text, "{}", outcome.text);
    assert!(rt; outcome.status == Status::Done, "{text}");
}
