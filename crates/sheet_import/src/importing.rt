//! From a sheet to a file of a month.
ghost use Rattle.std.specs.Prelude.{◌≤◌, IfOk, IfSome, length};
ghost use Rattle.field_text.specs.Sizes.{longest};

use crate::decoding::text_of;
use crate::fields::{head_text, put_rows};
use crate::heads::{Head, head_of};
use crate::rows::{has_capitals, have_padding, quoted_place, rows_of, separator_of};
use csv::ByteRecord;
use duty_calendar::{List, Memory};
use field_text::{FileName, put_bytes};
use file_places::Prose;
use std::alloc::Global;

/// The most bytes of a file that is made.
const LONGEST: usize = 67_108_864;

/// A file of a month, and its text.
#[derive(Drop)]
pub struct Imported {
    pub file: FileName,
    pub bytes: List<u8>,
}

/// Says what is changed in all rows alike.
fn say_alike(
    prose: &mut Prose,
    text: &[u8],
    separator: u8,
    rows: &[ByteRecord],
) -> Result<(), Memory> {
    match separator {
        b';' => prose.say(b"commas stand between fields now, and no semicolons\n")?,
        b'\t' => prose.say(b"commas stand between fields now, and no tabs\n")?,
        _ => {}
    }
    if text.contains(&b'\r') {
        prose.say(b"a line feed alone ends each line now\n")?;
    }
    if text.contains(&b'"') {
        prose.say(b"quotes around fields are left out\n")?;
    }
    if have_padding(rows) {
        prose.say(b"blanks around fields are left out\n")?;
    }
    Ok(())
}

/// The first bytes of a head.
fn shown(head: &[u8]) -> &[u8] {
    head.get(..200).unwrap_or(head)
}

/// The file of a head; where there is none, why is said.
fn file_of(prose: &mut Prose, head: &[u8], sheet: &[u8]) -> Result<Option<FileName>, Memory> {
    match head_of(head, sheet) {
        Head::Of(file) => return Ok(Some(file)),
        Head::Unsure => prose.say(
            b"history.csv and fixed.csv have this head: let the sheet's name begin with history or fixed\n",
        )?,
        Head::Unknown => {
            prose.say(b"no file of a month has the head ")?;
            prose.text(shown(head))?;
            prose.say(b"\n")?;
        }
    }
    Ok(None)
}

/// The text of a file, where it is not too long.
fn fitting(prose: &mut Prose, file: FileName, bytes: List<u8>) -> Result<Option<Imported>, Memory>
    ensures short { IfOk result (λ o. IfSome o (λ made. length made.bytes ≤ longest)) }
{
    if bytes.len() > LONGEST {
        prose.say(b"the sheet is too long\n")?;
        return Ok(None);
    }
    Ok(Some(Imported { file, bytes }))
}

/// Says that a field of the row at a place would be two, or none.
fn say_quoted(prose: &mut Prose, place: usize) -> Result<(), Memory> {
    prose.say(b"row ")?;
    prose.number((place as u64).saturating_add(1))?;
    prose.say(
        b": a field has a comma, a quote or a line end within, which no file of a month has\n",
    )
}

/// The file of the rows of a sheet.
fn made_of(
    alloc: Global,
    prose: &mut Prose,
    sheet: &[u8],
    rows: &[ByteRecord],
) -> Result<Option<Imported>, Memory>
    ensures short { IfOk result (λ o. IfSome o (λ made. length made.bytes ≤ longest)) }
{
    let Some((head, rest)) = rows.split_first() else {
        prose.say(b"the sheet is empty\n")?;
        return Ok(None);
    };
    let mut bytes = head_text(alloc, head)?;
    let Some(file) = file_of(prose, bytes.as_slice(), sheet)? else {
        return Ok(None);
    };
    if has_capitals(head) {
        prose.say(b"the head is in small letters now\n")?;
    }
    put_bytes(&mut bytes, b"\n")?;
    put_rows(alloc, &mut bytes, prose, head, rest)?;
    fitting(prose, file, bytes)
}

/// The file of a month that a sheet of this name is by its head, or by its name where two files have its head. Each change is said
/// in a line, and so is why there is none. What the fields mean is not looked at.
pub fn import_sheet(
    alloc: Global,
    prose: &mut Prose,
    sheet: &[u8],
    bytes: &[u8],
) -> Result<Option<Imported>, Memory>
    ensures short { IfOk result (λ o. IfSome o (λ made. length made.bytes ≤ longest)) }
{
    let Some(text) = text_of(alloc, prose, bytes)? else {
        prose.say(b"the sheet has a letter that no file of a month has\n")?;
        return Ok(None);
    };
    let text = text.as_slice();
    let separator = separator_of(text);
    let rows = rows_of(alloc, text, separator)?;
    if let Some(place) = quoted_place(&rows) {
        say_quoted(prose, place)?;
        return Ok(None);
    }
    say_alike(prose, text, separator, &rows)?;
    made_of(alloc, prose, sheet, &rows)
}
