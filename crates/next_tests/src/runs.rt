//! Runs over files in memory.

use duty_calendar::List;
use pbs_engine::{Status, run};
use plain_guide::PlainGuide;
use shelf::{MemoryShelf, MemorySink};
use std::alloc::Global;
use std::process::Abort;
use weight_certificates::Rounds;

/// Puts a file into a shelf, in place of one of its name.
pub(crate) fn place(
    rt: &impl Abort,
    alloc: Global,
    shelf: &mut MemoryShelf,
    name: &str,
    text: &str,
) {
    assert!(rt; !name.is_empty() && name.len() <= 32);
    shelf
        .place(alloc, name, text.as_bytes())
        .expect(rt, "memory");
}

/// What a shelf holds of this name, as text.
pub(crate) fn text_of(rt: &impl Abort, alloc: Global, shelf: &MemoryShelf, name: &str) -> String {
    let bytes = shelf.file(name).expect(rt, "the file is there");
    let bytes = bytes.to_vec(alloc).expect(rt, "memory");
    String::from_utf8(bytes).expect(rt, "a text")
}

/// Runs a word over a shelf, and gives what is printed.
pub(crate) fn printed(
    rt: &impl Abort,
    alloc: Global,
    shelf: &mut MemoryShelf,
    word: &str,
) -> String {
    let mut words = Vec::new(alloc);
    let word = String::from_str(alloc, word).expect(rt, "memory");
    words.push(word).expect(rt, "memory");
    let mut out = MemorySink::new(alloc, List::new(alloc));
    let status = run::<Rounds<PlainGuide>, _, _>(alloc, &words, shelf, &mut out);
    let bytes = out.bytes().to_vec(alloc).expect(rt, "memory");
    let text = String::from_utf8(bytes).expect(rt, "a text");
    assert!(rt; status == Status::Done, "{text}");
    text
}
