//! Whether the items of a proof can use its lenses, by the digits of both numbers, of which there
//! may be any number.
ghost use Rattle.std.specs.Prelude.{◌≡◌, ◌&&◌, ◌++◌, ◌+◌, ◌-◌, ◌<◌, true, length, replicate, slice_index};
ghost use Rattle.cert_text.specs.Fields.{is_number, size};
ghost use Rattle.cert_text.specs.Forms.{is_enough};

use crate::numbers::is_number;

/// The value of the digit at a place of a number that so many zeros precede.
fn digit_at(word: &[u8], zeros: usize, place: usize) -> u64
    requires within { place < zeros + length word.now }
    ensures value { result ≡ slice_index (replicate zeros 48 ++ word.now) place - 48 }
    ensures byte { result < 256 }
{
    if place < zeros {
        return 0;
    }
    u64::from(word[place - zeros].saturating_sub(b'0'))
}

/// Whether so many items can use so many lenses. From digit to digit goes how many lenses the items
/// can use more than there are, with 200 added and from 0 to 201: no digits that follow lead back
/// from either end.
fn covers(items: &[u8], lenses: &[u8]) -> bool
    requires items { is_number items.now ≡ true }
    requires lenses { is_number lenses.now ≡ true }
    ensures value { result ≡ is_enough (size lenses.now) 0 (size items.now) }
{
    let count = items.len().max(lenses.len());
    let mut spare = 200;
    for place in 0..count {
        let used = 200 * digit_at(items, count - items.len(), place);
        let taken = digit_at(lenses, count - lenses.len(), place);
        spare = (10 * spare + used).saturating_sub(1800 + taken).min(201);
    }
    spare >= 200
}

/// Whether two words spell numbers, and so many items can use so many lenses.
pub fn can_use(items: &[u8], lenses: &[u8]) -> bool
    ensures value { result ≡ (is_number items.now && (is_number lenses.now
        && is_enough (size lenses.now) 0 (size items.now))) }
{
    if !is_number(items) {
        return false;
    }
    is_number(lenses) && covers(items, lenses)
}
