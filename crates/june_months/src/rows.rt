//! Rows of a table: what is tried, an arrow, and what is to come of it.

use std::alloc::Global;

/// The two sides of a row, if it has an arrow.
pub fn sides(row: &str) -> Option<(&str, &str)> {
    row.split_once(" => ")
}

/// What stands in the block of this name, if there is one, of blocks with an empty line between them.
pub fn block_of<'a>(blocks: &'a str, name: &str) -> Option<&'a str> {
    for block in blocks.split("\n\n") {
        if let Some((head, rest)) = block.split_once('\n') {
            if head == name {
                return Some(rest);
            }
        }
    }
    None
}

/// The bytes that a side says: `\n`, `\r` and `\t` are as in Rust, and two digits of base 16 behind a `\` are a byte.
pub fn bytes_of(alloc: Global, side: &str) -> Vec<u8> {
    let mut bytes = Vec::new(alloc);
    let mut state = PLAIN;
    for byte in side.as_bytes() {
        let (next, made) = step(state, *byte);
        state = next;
        if let Some(byte) = made {
            let _ = bytes.push(byte);
        }
    }
    bytes
}

/// The next byte is what it is; or it stands behind a `\`; or behind a first digit, which is added.
const PLAIN: u8 = 0;

const ESCAPED: u8 = 1;

const DIGIT: u8 = 2;

/// The state behind a byte, and what the byte ends, if it ends something.
fn step(state: u8, byte: u8) -> (u8, Option<u8>) {
    if state >= DIGIT {
        let high = state.wrapping_sub(DIGIT).wrapping_mul(16);
        return (PLAIN, Some(high.wrapping_add(digit_of(byte))));
    }
    if state == ESCAPED {
        return escaped(byte);
    }
    if byte == b'\\' {
        return (ESCAPED, None);
    }
    (PLAIN, Some(byte))
}

/// The same behind a `\`.
fn escaped(byte: u8) -> (u8, Option<u8>) {
    match byte {
        b'n' => (PLAIN, Some(b'\n')),
        b'r' => (PLAIN, Some(b'\r')),
        b't' => (PLAIN, Some(b'\t')),
        _ => (DIGIT.wrapping_add(digit_of(byte)), None),
    }
}

/// What a digit of base 16 counts.
fn digit_of(byte: u8) -> u8 {
    if byte >= b'A' {
        byte.wrapping_sub(b'A').wrapping_add(10)
    } else {
        byte.wrapping_sub(b'0')
    }
}
