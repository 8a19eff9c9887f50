//! Texts that are put together of others.

use std::alloc::Global;

/// One text and another behind it.
pub(crate) fn joined(alloc: Global, head: &[u8], tail: &[u8]) -> Vec<u8> {
    let mut text = Vec::new(alloc);
    let _ = text.extend_from_slice(head);
    let _ = text.extend_from_slice(tail);
    text
}

/// The last decimal digit of a number.
pub(crate) fn digit(number: u32) -> u8 {
    b'0' + (number % 10) as u8
}

/// A head and so many rows, each of a name, which is a letter and the row's three digits from 000
/// on, and of the other fields.
pub(crate) fn numbered(
    alloc: Global,
    head: &[u8],
    letter: u8,
    others: &[u8],
    count: u32,
) -> Vec<u8> {
    let mut text = Vec::new(alloc);
    let _ = text.extend_from_slice(head);
    for i in 0..count {
        let name = [letter, digit(i / 100), digit(i / 10), digit(i)];
        let _ = text.extend_from_slice(&name);
        let _ = text.extend_from_slice(others);
    }
    text
}
