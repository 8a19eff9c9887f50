//! A difference in words.

use crate::difference::{Change, Difference, Standing};
use std::fmt;

/// Writes words behind what stands there, with commas between them, or nothing where there are none.
fn put_list<W: fmt::Write>(
    f: &mut fmt::Formatter<W>,
    front: &str,
    words: &[String],
) -> fmt::Result {
    for (place, word) in words.iter().enumerate() {
        if place == 0 {
            f.write_str(front)?;
        } else {
            f.write_str(", ")?;
        }
        f.write_str(word.as_str())?;
    }
    Ok(())
}

/// Writes a number that is otherwise.
fn put_change<W: fmt::Write>(
    f: &mut fmt::Formatter<W>,
    front: &str,
    change: Change,
) -> fmt::Result {
    if change.is_none() {
        return Ok(());
    }
    let Change { before, now } = change;
    write!(f, "{front}{now}, before {before}")
}

/// Writes a credit that is otherwise.
fn put_credit<W: fmt::Write>(f: &mut fmt::Formatter<W>, change: Change) -> fmt::Result {
    if change.is_none() {
        return Ok(());
    }
    let hours = change.now / 60;
    let minutes = change.now % 60;
    let hours_before = change.before / 60;
    let minutes_before = change.before % 60;
    write!(
        f,
        "; credit {hours}:{minutes:02}, before {hours_before}:{minutes_before:02}"
    )
}

/// Where the pilot stands.
fn standing_words(standing: Standing) -> &'static str {
    match standing {
        Standing::Both => "",
        Standing::Joined => ", not among the pilots before",
        Standing::Left => ", not among the pilots now",
    }
}

/// The pilot, and behind semicolons what is otherwise. There is no line feed.
impl fmt::Display for Difference {
    fn fmt<W: fmt::Write>(&self, f: &mut fmt::Formatter<W>) -> fmt::Result {
        f.write_str(self.name.as_str())?;
        f.write_str(standing_words(self.standing))?;
        put_list(f, "; trips gained: ", self.gained.as_slice())?;
        put_list(f, "; trips lost: ", self.lost.as_slice())?;
        put_credit(f, self.credit)?;
        put_change(f, "; score ", self.score)?;
        put_change(f, "; days off ", self.days_off)?;
        put_list(f, "; bids won: ", self.won.as_slice())?;
        put_list(f, "; bids lost: ", self.denied.as_slice())
    }
}
