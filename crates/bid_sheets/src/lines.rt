//! Lines of a text of bids, and their words.

/// A line without its end, and the text behind it.
#[derive(Clone, Copy)]
pub struct Split<'a> {
    pub line: &'a [u8],
    pub rest: &'a [u8],
}

/// The first line of a text, and the rest.
pub fn split_line(text: &[u8]) -> Split<'_> {
    let end = text.iter().position(|byte| *byte == b'\n');
    match end {
        Some(end) => Split {
            line: text.get(..end).unwrap_or(text),
            rest: text.get(end.saturating_add(1)..).unwrap_or(&[]),
        },
        None => Split {
            line: text,
            rest: &[],
        },
    }
}

/// A line without the blanks before its first word.
fn unindented(line: &[u8]) -> &[u8] {
    let start = line.iter().position(|byte| !matches!(*byte, b' ' | b'\t'));
    line.get(start.unwrap_or(line.len())..).unwrap_or(&[])
}

/// The first word of a line; nothing where there is none.
pub fn first_word(line: &[u8]) -> &[u8] {
    let words = unindented(line);
    let end = words
        .iter()
        .position(|byte| matches!(*byte, b' ' | b'\t' | b'\r' | b'#'));
    words.get(..end.unwrap_or(words.len())).unwrap_or(&[])
}

/// What stands behind the first word of a line.
pub fn behind_word(line: &[u8]) -> &[u8] {
    unindented(line)
        .get(first_word(line).len()..)
        .unwrap_or(&[])
}

/// The name in a line that names a member; nothing where it is another line.
pub fn named_in(line: &[u8]) -> Option<&[u8]> {
    if first_word(line) == b"member".as_slice() {
        return Some(first_word(behind_word(line)));
    }
    None
}
