//! The lines of `bids.txt` and of `rules.toml`.

use file_places::{line_at, line_start};

/// The bytes of a line before its comment, without blanks around them.
fn said(line: &[u8]) -> &[u8] {
    let end = line.iter().position(|byte| *byte == b'#');
    line.get(..end.unwrap_or(line.len()))
        .unwrap_or(line)
        .trim_ascii()
}

/// Where the first word of what a line says ends.
fn word_length(text: &[u8]) -> usize {
    let end = text.iter().position(|byte| matches!(*byte, b' ' | b'\t'));
    end.unwrap_or(text.len())
}

/// Whether a line begins the bids of a member.
fn begins_member(line: &[u8]) -> bool {
    let text = said(line);
    text.get(..word_length(text)) == Some(b"member".as_slice())
}

/// Whether a line begins the bids of the member of this name.
fn begins_with(line: &[u8], name: &[u8]) -> bool {
    let text = said(line);
    let rest = text.get(word_length(text)..).unwrap_or(&[]);
    begins_member(line) && rest.trim_ascii() == name
}

/// The number of the line behind the last.
fn line_limit(text: &[u8]) -> u64 {
    let ends = text.iter().filter(|byte| **byte == b'\n').count() as u64;
    ends.saturating_add(2)
}

/// Makes a comment of a line.
pub fn silence(text: &mut Vec<u8>, number: u64) {
    let start = line_start(text, number);
    if let Some(byte) = text.get_mut(start) {
        if *byte != b'\n' {
            *byte = b'#';
        }
    }
}

/// Makes comments of a line of bids and of all behind it, up to the line of the next member.
fn silence_bids(text: &mut Vec<u8>, number: u64) {
    silence(text, number);
    for next in number.saturating_add(1)..line_limit(text) {
        if begins_member(line_at(text, next)) {
            return;
        }
        silence(text, next);
    }
}

/// Makes a comment of a line of bids; where it is a member's line or `all` is asked for, of the bids behind it too.
pub fn silence_bid(text: &mut Vec<u8>, number: u64, all: bool) {
    if all || begins_member(line_at(text, number)) {
        silence_bids(text, number);
    } else {
        silence(text, number);
    }
}

/// Where the line that begins at a place ends.
fn line_stop(text: &[u8], start: usize) -> usize {
    let rest = text.get(start..).unwrap_or(&[]);
    let length = rest.iter().position(|byte| *byte == b'\n');
    start.saturating_add(length.unwrap_or(rest.len()))
}

/// The line of a bid of a member, by number from 0; line 0 where there is none.
pub fn bid_line(text: &[u8], name: &[u8], bid: u32) -> u64 {
    let mut start: usize = 0;
    let mut within = false;
    let mut left = bid;
    for number in 1..line_limit(text) {
        let stop = line_stop(text, start);
        let line = text.get(start..stop).unwrap_or(&[]);
        start = stop.saturating_add(1);
        if begins_member(line) {
            within = begins_with(line, name);
        } else if within && !said(line).is_empty() {
            if left == 0 {
                return number;
            }
            left = left.saturating_sub(1);
        }
    }
    0
}
