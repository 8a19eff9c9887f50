//! A line of a file, and a mark below it.
ghost use Rattle.std.specs.Prelude.{◌≡◌, ◌++◌, OnOk, map, drop, min, length};
ghost use Rattle.std.specs.List.{flat_map};
ghost use Rattle.file_places.specs.Marks.{shown_byte, pad_byte, caret_byte, carets, marked};

use duty_calendar::{List, Memory};
use field_text::put_bytes;

/// What is shown for a byte.
fn shown_byte(byte: u8) -> u8
    ensures value { result ≡ shown_byte byte }
{
    if (byte < 32 && byte != b'\t') || byte == 127 {
        b'?'
    } else {
        byte
    }
}

/// Appends what stands below a byte in front of the mark.
fn put_pad(out: &mut List<u8>, byte: u8) -> Result<(), Memory>
    ensures whole { OnOk result (out.new ≡ out.old ++ pad_byte byte) }
{
    if byte == b'\t' {
        return put_bytes(out, b"\t");
    }
    if 128 <= byte && byte < 192 {
        return Ok(());
    }
    put_bytes(out, b" ")
}

/// Appends what stands below a further byte of what is marked.
fn put_caret(out: &mut List<u8>, byte: u8) -> Result<(), Memory>
    ensures whole { OnOk result (out.new ≡ out.old ++ caret_byte byte) }
{
    if 128 <= byte && byte < 192 {
        return Ok(());
    }
    put_bytes(out, b"^")
}

/// Appends text as it is shown.
pub fn put_shown(out: &mut List<u8>, text: &[u8]) -> Result<(), Memory>
    ensures whole { OnOk result (out.new ≡ out.old ++ map shown_byte text.now) }
{
    for byte in text {
        put_bytes(out, &[shown_byte(*byte)])?;
    }
    Ok(())
}

/// Appends what stands in front of the mark.
fn put_pads(out: &mut List<u8>, before: &[u8]) -> Result<(), Memory>
    ensures whole { OnOk result (out.new ≡ out.old ++ flat_map pad_byte before.now) }
{
    for byte in before {
        put_pad(out, *byte)?;
    }
    Ok(())
}

/// Appends the mark below further bytes.
fn put_more(out: &mut List<u8>, rest: &[u8]) -> Result<(), Memory>
    ensures whole { OnOk result (out.new ≡ out.old ++ flat_map caret_byte rest.now) }
{
    for byte in rest {
        put_caret(out, *byte)?;
    }
    Ok(())
}

/// Appends the mark below a word.
fn put_carets(out: &mut List<u8>, word: &[u8]) -> Result<(), Memory>
    ensures whole { OnOk result (out.new ≡ out.old ++ carets word.now) }
{
    put_bytes(out, b"^")?;
    let (_, rest) = word.split_at(word.len().min(1));
    put_more(out, rest)
}

/// Appends a line of three parts, and below it a mark under the second of them. The mark begins under the part's first byte,
/// whatever stands before it: a tab is a tab in both lines, and a letter of several bytes is one character.
#[tactic(auto, unfolding(crate::specs::Marks::marked))]
pub fn put_mark(out: &mut List<u8>, before: &[u8], word: &[u8], after: &[u8]) -> Result<(), Memory>
    ensures whole { OnOk result (out.new ≡ out.old ++ marked before.now word.now after.now) }
{
    put_bytes(out, b"    ")?;
    put_shown(out, before)?;
    put_shown(out, word)?;
    put_shown(out, after)?;
    put_bytes(out, b"\n    ")?;
    put_pads(out, before)?;
    put_carets(out, word)?;
    put_bytes(out, b"\n")
}
