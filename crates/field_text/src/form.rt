//! Bytes in a row, each of its class.
ghost use Rattle.std.specs.Prelude.{◌≡◌, ◌≤◌, ◌+◌, ◌<◌, ◌^◌, length, IfNone};
ghost use Rattle.field_text.specs.Form.{row, fault_from, IsRow};

/// A class of bytes in a field.
#[derive(Clone, Copy, Debug, PartialEq, Eq)]
pub enum Class {
    Digit,
    NonZero,
    Capital,
    NameByte,
    Byte(u8),
}

impl Class {
    ghost use Rattle.field_text.specs.Form.{is_in};

    /// Whether the byte is of the class.
    pub fn contains(self, b: u8) -> bool
        ensures value { result ≡ is_in self b }
    {
        match self {
            Class::Digit => b.is_ascii_digit(),
            Class::NonZero => matches!(b, b'1'..=b'9'),
            Class::Capital => matches!(b, b'A'..=b'Z'),
            Class::NameByte => matches!(b, b'A'..=b'Z' | b'a'..=b'z' | b'0'..=b'9' | b'-' | b'_'),
            Class::Byte(a) => b == a,
        }
    }
}

/// The first column at which the text, which begins at `column`, is not these bytes in a row.
pub fn row_fault(classes: &[Class], text: &[u8], column: u32) -> Option<u32>
    requires short { column + length text.now < 2 ^ 32 }
    ensures value { result ≡ fault_from column (row classes.now) text.now }
    ensures row { IfNone result (IsRow classes.now text.now) }
    ensures whole { IfNone result (length text.now ≡ length classes.now) }
{
    for (i, class) in classes.iter().enumerate() {
        if i == text.len() || !class.contains(text[i]) {
            return Some(column + i as u32);
        }
    }
    if text.len() == classes.len() {
        None
    } else {
        Some(column + classes.len() as u32)
    }
}
