//! A line that `pbs` prints, as a sentence.
ghost use Rattle.std.specs.Prelude.{◌≡◌};

use crate::folder::read_held;
use duty_calendar::Memory;
use file_places::Prose;
use plain_answers::tell;
use printed_lines::{Answer, answer_of, words_of};
use shelf::Shelf;
use std::alloc::Global;

/// Whether a line is one that `pbs` prints.
#[derive(Clone, Copy, Debug, PartialEq, Eq)]
pub enum Told {
    Known,
    Unknown,
}

/// Appends that a line is none that `pbs` prints.
fn put_unknown(prose: &mut Prose, line: &[u8]) -> Result<Told, Memory> {
    prose.say(b"pbs prints no line of this form: ")?;
    prose.text(line)?;
    prose.say(b"\n")?;
    Ok(Told::Unknown)
}

/// Appends what an answer about the month in the folder says. No file is written.
pub fn tell_answer<S: Shelf>(
    alloc: Global,
    shelf: &mut S,
    prose: &mut Prose,
    answer: &Answer<'_>,
) -> Result<(), Memory>
    ensures kept { S.holds shelf.new ≡ S.holds shelf.old }
{
    let held = read_held(alloc, shelf, answer)?;
    tell(alloc, prose, &held, answer)
}

/// Appends what a line that `pbs` prints of the month in the folder says: a sentence, and below it the text that it points
/// to, with a mark. Of a line without words nothing is said. No file is written.
pub fn explain<S: Shelf>(
    alloc: Global,
    shelf: &mut S,
    prose: &mut Prose,
    line: &[u8],
) -> Result<Told, Memory>
    ensures kept { S.holds shelf.new ≡ S.holds shelf.old }
{
    let words = words_of(alloc, line)?;
    if words.is_empty() {
        return Ok(Told::Known);
    }
    let Some(answer) = answer_of(alloc, &words)? else {
        return put_unknown(prose, line);
    };
    tell_answer(alloc, shelf, prose, &answer)?;
    Ok(Told::Known)
}
