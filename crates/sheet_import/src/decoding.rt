//! The bytes of a sheet as text.

use duty_calendar::{List, Memory};
use field_text::put_bytes;
use file_places::Prose;
use std::alloc::Global;

/// Which of the two bytes of a letter in UTF-16 comes first.
#[derive(Clone, Copy)]
enum Order {
    Low,
    High,
}

/// The letter that two bytes are, where it is one that files of a month may have.
fn letter_of(pair: &[u8; 2], order: Order) -> Option<u8> {
    let [first, second] = *pair;
    let (low, high) = match order {
        Order::Low => (first, second),
        Order::High => (second, first),
    };
    if high == 0 && low.is_ascii() {
        return Some(low);
    }
    None
}

/// The text of bytes in UTF-16; nothing where a letter is one that no file of a month has.
fn narrowed(alloc: Global, bytes: &[u8], order: Order) -> Result<Option<List<u8>>, Memory> {
    let (pairs, odd) = bytes.as_chunks::<2>();
    if !odd.is_empty() {
        return Ok(None);
    }
    let mut text = List::new(alloc);
    for pair in pairs {
        let Some(letter) = letter_of(pair, order) else {
            return Ok(None);
        };
        put_bytes(&mut text, &[letter])?;
    }
    Ok(Some(text))
}

/// The same bytes.
fn copied(alloc: Global, bytes: &[u8]) -> Result<Option<List<u8>>, Memory> {
    let mut text = List::new(alloc);
    put_bytes(&mut text, bytes)?;
    Ok(Some(text))
}

/// The text of a sheet without its byte order mark, behind one of UTF-16 from its letters; nothing where one of them is a letter
/// that no file of a month has. What is changed is said.
pub fn text_of(alloc: Global, prose: &mut Prose, bytes: &[u8]) -> Result<Option<List<u8>>, Memory> {
    if let Some(rest) = bytes.strip_prefix(b"\xFF\xFE") {
        prose.say(b"letters of UTF-16 are now of UTF-8\n")?;
        return narrowed(alloc, rest, Order::Low);
    }
    if let Some(rest) = bytes.strip_prefix(b"\xFE\xFF") {
        prose.say(b"letters of UTF-16 are now of UTF-8\n")?;
        return narrowed(alloc, rest, Order::High);
    }
    if let Some(rest) = bytes.strip_prefix(b"\xEF\xBB\xBF") {
        prose.say(b"the byte order mark is left out\n")?;
        return copied(alloc, rest);
    }
    copied(alloc, bytes)
}
