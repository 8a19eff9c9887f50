//! The words of the kinds of events.
ghost use Rattle.std.specs.Prelude.{◌≡◌};
ghost use Rattle.field_text.specs.Fields.{kind_field};
ghost use Rattle.field_text.specs.Spelling.{kind_text};

use crate::field_fault::FieldFault;
use duty_calendar::Kind;

/// The word of a kind of event.
pub fn kind_word(kind: Kind) -> &'static [u8]
    ensures value { result.now ≡ kind_text kind }
{
    match kind {
        Kind::Flight => b"flight",
        Kind::Ground => b"ground",
        Kind::Leave => b"leave",
    }
}

/// The kind of event of a word.
pub fn read_kind(text: &str) -> Result<Kind, FieldFault>
    ensures value { result ≡ kind_field text.now }
{
    let bytes = text.as_bytes();
    if bytes.is_empty() {
        return Err(FieldFault::Empty);
    }
    if bytes == kind_word(Kind::Flight) {
        return Ok(Kind::Flight);
    }
    if bytes == kind_word(Kind::Ground) {
        return Ok(Kind::Ground);
    }
    if bytes == kind_word(Kind::Leave) {
        return Ok(Kind::Leave);
    }
    Err(FieldFault::Shape(1))
}
