//! Texts in a page.
ghost use Rattle.std.specs.Prelude.{◌≡◌, ◌++◌, OnOk, false};
ghost use Rattle.std.specs.List.{list_any};
ghost use Rattle.page_parts.specs.Escaping.{escaped_byte, escaped, is_bound, Reads};

use duty_calendar::{List, Memory};
use field_text::put_bytes;

/// Appends what stands in a page for a byte of a text.
fn put_escaped_byte(out: &mut List<u8>, byte: u8) -> Result<(), Memory>
    ensures whole { OnOk result (out.new ≡ out.old ++ escaped_byte byte) }
{
    match byte {
        b'&' => put_bytes(out, b"&amp;"),
        b'<' => put_bytes(out, b"&lt;"),
        b'>' => put_bytes(out, b"&gt;"),
        b'"' => put_bytes(out, b"&quot;"),
        b'\'' => put_bytes(out, b"&#39;"),
        _ => put_bytes(out, &[byte]),
    }
}

/// Appends what stands in a page for a text, in an element or in an attribute between quotes.
#[tactic(auto, unfolding(crate::specs::Escaping::escaped))]
pub fn put_escaped(out: &mut List<u8>, text: &[u8]) -> Result<(), Memory>
    ensures whole { OnOk result (out.new ≡ out.old ++ escaped text.now) }
    ensures inert { list_any is_bound (escaped text.now) ≡ false }
    ensures again { Reads (escaped text.now) text.now }
{
    for byte in text {
        put_escaped_byte(out, *byte)?;
    }
    Ok(())
}
