//! Faults of the rules, in words.

use duty_calendar::Memory;
use file_places::{Place, Prose, line_at, line_place};
use printed_lines::RuleFlaw;

/// A rule, and what its value may be.
#[derive(Clone, Copy)]
struct Rule {
    key: &'static [u8],
    value: &'static [u8],
}

/// The rules.
static RULES: [Rule; 6] = [
    Rule {
        key: b"base",
        value: b"three capital letters between double quotes, such as \"DUB\"",
    },
    Rule {
        key: b"seat",
        value: b"1 to 8 capital letters or digits between double quotes, such as \"FO\"",
    },
    Rule {
        key: b"year",
        value: b"a number from 2000 to 2099",
    },
    Rule {
        key: b"month",
        value: b"a number from 1 to 12",
    },
    Rule {
        key: b"offset",
        value: b"minutes east of UTC, from -840 to 840",
    },
    Rule {
        key: b"days_off",
        value: b"a number from 0 to 31",
    },
];

/// What the value of a rule may be.
fn range_of(key: &[u8]) -> &'static [u8] {
    for rule in RULES.iter() {
        if rule.key == key {
            return rule.value;
        }
    }
    b"a value of its kind"
}

/// Appends what is wrong with the rules, with the key that it is about.
pub fn put_rule_flaw(prose: &mut Prose, flaw: RuleFlaw, key: &[u8]) -> Result<(), Memory> {
    match flaw {
        RuleFlaw::NotToml => prose.say(
            b"the file is not TOML: each rule stands once and on a line of its own, as key = value, and texts stand between plain double quotes",
        ),
        RuleFlaw::MissingKey => {
            prose.say(b"the rule ")?;
            prose.text(key)?;
            prose.say(b" is missing: ")?;
            prose.say(range_of(key))
        }
        RuleFlaw::UnknownKey => {
            prose.say(b"there is no rule ")?;
            prose.text(key)?;
            prose.say(
                b"; the rules are base, seat, year, month, offset and days_off, in small letters",
            )
        }
        RuleFlaw::Range => {
            prose.say(b"the value of ")?;
            prose.text(key)?;
            prose.say(b" must be ")?;
            prose.say(range_of(key))
        }
    }
}

/// The first place of a byte.
fn place_of(text: &[u8], byte: u8) -> Option<usize> {
    text.iter().position(|at| *at == byte)
}

/// A text without the blanks around it.
fn trimmed(text: &[u8]) -> &[u8] {
    text.trim_ascii()
}

/// What stands before the sign of equality of a line.
fn key_of(line: &[u8]) -> &[u8] {
    match place_of(line, b'=') {
        Some(at) => trimmed(line.get(..at).unwrap_or(&[])),
        None => b"",
    }
}

/// Whether a byte may stand in a number.
fn is_sign(byte: u8) -> bool {
    matches!(byte, b'+' | b'-' | b'0'..=b'9')
}

/// Whether a value is a text between plain quotes, or a number.
fn is_value(value: &[u8]) -> bool {
    match value.strip_prefix(b"\"") {
        Some(rest) => place_of(rest, b'"') == Some(rest.len().saturating_sub(1)),
        None => !value.is_empty() && value.iter().all(|byte| is_sign(*byte)),
    }
}

/// What stands behind the sign of equality of a line, without a comment.
fn value_of(line: &[u8]) -> &[u8] {
    let Some(at) = place_of(line, b'=') else {
        return b"";
    };
    let value = line.get(at.saturating_add(1)..).unwrap_or(&[]);
    let end = place_of(value, b'#').unwrap_or(value.len());
    trimmed(value.get(..end).unwrap_or(value))
}

/// Whether a line says nothing, or a rule in its plain form.
fn is_plain(line: &[u8]) -> bool {
    let trim = trimmed(line);
    trim.is_empty()
        || trim.starts_with(b"#")
        || (!key_of(line).is_empty() && is_value(value_of(line)))
}

/// How often a key stands in the lines before one.
fn stood(text: &[u8], number: u64, key: &[u8]) -> bool {
    for before in 1..number {
        if !key.is_empty() && key_of(line_at(text, before)) == key {
            return true;
        }
    }
    false
}

/// The column of what is behind the sign of equality of a line, from 1.
fn value_column(line: &[u8]) -> u64 {
    let Some(at) = place_of(line, b'=') else {
        return 1;
    };
    let rest = line.get(at.saturating_add(1)..).unwrap_or(&[]);
    let blanks = rest.iter().position(|byte| *byte != b' ').unwrap_or(0);
    at.saturating_add(blanks).saturating_add(2) as u64
}

/// The place of a flaw in a line.
fn place_in(text: &[u8], number: u64, flaw: RuleFlaw) -> Place<'_> {
    match flaw {
        RuleFlaw::Range => line_place(text, number, value_column(line_at(text, number))),
        RuleFlaw::UnknownKey => line_place(text, number, 1),
        RuleFlaw::NotToml | RuleFlaw::MissingKey => line_place(text, number, 0),
    }
}

/// Whether a flaw is in a line.
fn is_in(text: &[u8], number: u64, flaw: RuleFlaw, key: &[u8]) -> bool {
    let line = line_at(text, number);
    match flaw {
        RuleFlaw::NotToml => !is_plain(line) || stood(text, number, key_of(line)),
        RuleFlaw::UnknownKey | RuleFlaw::Range => key_of(line) == key,
        RuleFlaw::MissingKey => false,
    }
}

/// Where in the text of the rules a flaw stands: the first line that looks as if it were in it, where there is one.
pub fn rule_mark<'a>(text: &'a [u8], flaw: RuleFlaw, key: &[u8]) -> Option<Place<'a>> {
    for number in 1..64 {
        if is_in(text, number, flaw, key) {
            return Some(place_in(text, number, flaw));
        }
    }
    None
}
