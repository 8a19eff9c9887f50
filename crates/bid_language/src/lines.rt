//! The lines of a text.
ghost use Rattle.std.specs.Prelude.{◌≡◌, ◌≤◌, ◌<◌, ◌∷◌, length};
ghost use Rattle.bid_language.specs.Lines.{lines_of, before_comment, without_return};

use field_text::place_of;

/// The line without a carriage return at its end.
fn without_return(line: &[u8]) -> &[u8]
    ensures value { result.now ≡ without_return line.now }
    ensures short { length result.now ≤ length line.now }
{
    if let Some((last, front)) = line.split_last() {
        if *last == b'\r' {
            return front;
        }
    }
    line
}

/// The first line of a text, without its end, and the text after it.
pub fn next_line(text: &[u8]) -> (&[u8], &[u8])
    requires some { 0 < length text.now }
    ensures lines { lines_of text.now ≡ result.0.now ∷ lines_of result.1.now }
    ensures shorter { length result.1.now < length text.now }
    ensures short { length result.0.now ≤ length text.now }
{
    let end = place_of(b'\n', text);
    if end == text.len() {
        return (text, &[]);
    }
    (without_return(&text[..end]), &text[end + 1..])
}

/// A line without its comment.
pub fn before_comment(line: &[u8]) -> &[u8]
    ensures value { result.now ≡ before_comment line.now }
    ensures short { length result.now ≤ length line.now }
{
    &line[..place_of(b'#', line)]
}
