//! The words of a reason's line.
ghost use Rattle.std.specs.Prelude.{◌≡◌, ◌==◌};
ghost use Rattle.std.specs.List.{list_all, list_any};
ghost use Rattle.std.specs.Option.{option_map};
ghost use Rattle.std.specs.Char.{is_ascii_digit};
ghost use Rattle.duty_calendar.specs.Forms.{is_name};
ghost use Rattle.roster_text.specs.ReasonFaults.{is_numeral};
ghost use Rattle.roster_text.specs.ReasonWords.{cut, name_in, numeral_in, is_place, place_in, is_cause, cause_in, is_ended, words_in, words_seen};

use duty_calendar::Name;
use field_text::place_of;

/// The words of a line, and what stands behind the colon.
#[derive(Clone, Copy)]
pub struct Words<'a> {
    pub member: &'a [u8],
    pub number: &'a [u8],
    pub cause: &'a [u8],
    pub rest: &'a [u8],
}

/// What stands before the first such byte, and behind it.
fn cut(byte: u8, bytes: &[u8]) -> Option<(&[u8], &[u8])>
    ensures value { option_map (λ x. (x.0.now, x.1.now)) result ≡ cut byte bytes.now }
{
    let (front, rest) = bytes.split_at(place_of(byte, bytes));
    match rest.split_first() {
        None => None,
        Some((_byte, behind)) => Some((front, behind)),
    }
}

/// Whether the word has the form of a name.
fn is_name(word: &[u8]) -> bool
    ensures value { result ≡ is_name word.now }
{
    Name::new(word).is_some()
}

fn are_digits(word: &[u8]) -> bool
    ensures value { result ≡ list_all is_ascii_digit word.now }
{
    word.iter().all(|b| b.is_ascii_digit())
}

/// Whether the word has the form of a number, of any size.
fn is_numeral(word: &[u8]) -> bool
    ensures value { result ≡ is_numeral word.now }
{
    match word {
        [] => false,
        [b'0', _, ..] => false,
        [_, ..] => are_digits(word),
    }
}

/// A name, and what stands behind the space after it.
#[tactic(auto, unfolding(crate::specs::ReasonWords::name_in))]
fn name_in(bytes: &[u8]) -> Option<(&[u8], &[u8])>
    ensures value { option_map (λ x. (x.0.now, x.1.now)) result ≡ name_in bytes.now }
{
    let (word, rest) = cut(b' ', bytes)?;
    if is_name(word) {
        Some((word, rest))
    } else {
        None
    }
}

/// A number, and what stands behind the space after it.
#[tactic(auto, unfolding(crate::specs::ReasonWords::numeral_in))]
fn numeral_in(bytes: &[u8]) -> Option<(&[u8], &[u8])>
    ensures value { option_map (λ x. (x.0.now, x.1.now)) result ≡ numeral_in bytes.now }
{
    let (word, rest) = cut(b' ', bytes)?;
    if is_numeral(word) {
        Some((word, rest))
    } else {
        None
    }
}

/// Whether a place and a name may stand together: the place is not 0.
fn is_place(place: &[u8], name: &[u8]) -> bool
    ensures value { result ≡ is_place (place.now, name.now) }
{
    place != b"0".as_slice() && is_name(name)
}

/// The place and the name of a cause that names both.
#[tactic(auto, unfolding(crate::specs::ReasonWords::place_in))]
pub fn place_in(cause: &[u8]) -> Option<(&[u8], &[u8])>
    ensures value { option_map (λ x. (x.0.now, x.1.now)) result ≡ place_in cause.now }
{
    let rest = cause.strip_prefix(b"place ")?;
    let (place, name) = numeral_in(rest)?;
    if is_place(place, name) {
        Some((place, name))
    } else {
        None
    }
}

/// Whether a cause is spelt so in some month.
#[tactic(auto, unfolding(crate::specs::ReasonWords::is_cause))]
fn is_cause(cause: &[u8]) -> bool
    ensures value { result ≡ is_cause cause.now }
{
    cause == b"tie".as_slice() || cause == b"place 0".as_slice() || place_in(cause).is_some()
}

/// A cause, and what stands behind the colon after it.
#[tactic(auto, unfolding(crate::specs::ReasonWords::cause_in))]
fn cause_in(bytes: &[u8]) -> Option<(&[u8], &[u8])>
    ensures value { option_map (λ x. (x.0.now, x.1.now)) result ≡ cause_in bytes.now }
{
    let (cause, rest) = cut(b':', bytes)?;
    if is_cause(cause) {
        Some((cause, rest))
    } else {
        None
    }
}

fn has_line_end(bytes: &[u8]) -> bool
    ensures value { result ≡ list_any (λ b. b == 10) bytes.now }
{
    bytes.iter().any(|b| *b == b'\n')
}

/// Whether a space stands here, and a line feed somewhere behind it.
fn is_ended(bytes: &[u8]) -> bool
    ensures value { result ≡ is_ended bytes.now }
{
    match bytes.split_first() {
        None => false,
        Some((first, rest)) => *first == b' ' && has_line_end(rest),
    }
}

/// The words of a line, where it has the form of a reason's.
#[tactic(auto, unfolding(crate::specs::ReasonWords::words_in))]
pub fn words_in(bytes: &[u8]) -> Option<Words<'_>>
    ensures value { option_map words_seen result ≡ words_in bytes.now }
{
    let (member, rest) = name_in(bytes)?;
    let (number, rest) = numeral_in(rest)?;
    let (cause, rest) = cause_in(rest)?;
    if !is_ended(rest) {
        return None;
    }
    Some(Words {
        member,
        number,
        cause,
        rest,
    })
}
