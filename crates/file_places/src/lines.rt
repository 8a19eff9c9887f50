//! The lines of a text.

/// Where the line that holds a byte of this place ends: at its line feed, or at the end of the text.
pub fn line_end(text: &[u8], from: usize) -> usize {
    let rest = text.get(from..).unwrap_or(&[]);
    let count = rest.iter().position(|byte| *byte == b'\n');
    from.saturating_add(count.unwrap_or(rest.len()))
}

/// Where the line of this number begins, from 1; behind the text where there is no such line.
pub fn line_start(text: &[u8], number: u64) -> usize {
    let mut start: usize = 0;
    for _ in 1..number {
        if start >= text.len() {
            return text.len();
        }
        start = line_end(text, start).saturating_add(1);
    }
    start
}

/// The line of this number, from 1, without its end; empty where there is no such line.
pub fn line_at(text: &[u8], number: u64) -> &[u8] {
    let start = line_start(text, number);
    text.get(start..line_end(text, start)).unwrap_or(&[])
}

/// How many line feeds stand before a place of a text.
pub fn line_count(text: &[u8], place: usize) -> u64 {
    let before = text.get(..place).unwrap_or(text);
    before.iter().filter(|byte| **byte == b'\n').count() as u64
}
