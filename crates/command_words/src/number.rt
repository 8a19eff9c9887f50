//! The numbers among the words.
ghost use Rattle.std.specs.Prelude.{◌≡◌, ◌≤◌, Err};
ghost use Rattle.field_text.specs.Fields.{number_field};
ghost use Rattle.field_text.specs.declared.field_fault.FieldFault.TheVariants.{Range};
ghost use Rattle.command_words.specs.Numbers.{number_in, long_in};

use field_text::{FieldFault, read_number};

/// The number of at most 64 bits in a word that is spelt so, but has more than 32.
fn parse_long(word: &str) -> Option<u64>
    requires spelt { number_field word.now ≡ Err Range }
    ensures value { result ≡ long_in word.now }
{
    match word.parse::<u64>() {
        Ok(value) => Some(value),
        Err(_) => None,
    }
}

/// A number of at most 64 bits, in its one spelling.
pub fn read_long(word: &str) -> Option<u64>
    ensures value { result ≡ long_in word.now }
{
    if word.len() > 20 {
        return None;
    }
    match read_number(word) {
        Ok(value) => Some(u64::from(value)),
        Err(FieldFault::Range) => parse_long(word),
        Err(_) => None,
    }
}

/// A number between two limits, of which none has more than five digits.
pub(crate) fn number_within(word: &str, least: u32, most: u32) -> Option<u32>
    requires small { most ≤ 20000 }
    ensures value { result ≡ number_in least most word.now }
{
    if word.len() > 5 {
        return None;
    }
    let Ok(value) = read_number(word) else {
        return None;
    };
    if value < least || value > most {
        return None;
    }
    Some(value)
}
