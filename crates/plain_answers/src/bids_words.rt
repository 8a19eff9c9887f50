//! Which word of a bid is due behind others.

/// The last word of a line, and what stands before it.
#[derive(Clone, Copy)]
struct Last<'a> {
    front: &'a [u8],
    word: &'a [u8],
}

/// Whether a byte parts words.
fn is_blank(byte: u8) -> bool {
    matches!(byte, b' ' | b'\t')
}

/// A text without the blanks at its end.
fn trimmed(text: &[u8]) -> &[u8] {
    let last = text.iter().rposition(|byte| !is_blank(*byte));
    match last {
        Some(at) => text.get(..at.saturating_add(1)).unwrap_or(text),
        None => b"",
    }
}

/// The last word of a text.
fn last_of(text: &[u8]) -> Last<'_> {
    let text = trimmed(text);
    let start = match text.iter().rposition(|byte| is_blank(*byte)) {
        Some(at) => at.saturating_add(1),
        None => 0,
    };
    Last {
        front: text.get(..start).unwrap_or(&[]),
        word: text.get(start..).unwrap_or(&[]),
    }
}

/// A word of a bid, and what is due behind it.
#[derive(Clone, Copy)]
struct Due {
    word: &'static [u8],
    due: &'static [u8],
}

/// What is due behind the words of a bid.
static DUES: [Due; 23] = [
    Due {
        word: b"",
        due: b"a line member with the name of a pilot stands above the bids",
    },
    Due {
        word: b"member",
        due: b"the name of a pilot, of at most 16 letters, digits, dashes and underscores",
    },
    Due {
        word: b"fly",
        due: b"the name of a pairing, of at most 16 letters, digits, dashes and underscores",
    },
    Due {
        word: b"pairing",
        due: b"the name of a pairing, of at most 16 letters, digits, dashes and underscores",
    },
    Due {
        word: b"avoid",
        due: b"a test: not, layover, departs, arrives, report, release, days, weekday or pairing",
    },
    Due {
        word: b"and",
        due: b"a test: not, layover, departs, arrives, report, release, days, weekday or pairing",
    },
    Due {
        word: b"not",
        due: b"a test: not, layover, departs, arrives, report, release, days, weekday or pairing",
    },
    Due {
        word: b"report",
        due: b"before or after",
    },
    Due {
        word: b"release",
        due: b"before or after",
    },
    Due {
        word: b"layover",
        due: b"three capital letters of a station",
    },
    Due {
        word: b"departs",
        due: b"three capital letters of a station",
    },
    Due {
        word: b"arrives",
        due: b"three capital letters of a station",
    },
    Due {
        word: b"weekday",
        due: b"MON, TUE, WED, THU, FRI, SAT or SUN",
    },
    Due {
        word: b"credit",
        due: b"below or above",
    },
    Due {
        word: b"off",
        due: b"a day of the month, such as 2026-06-10",
    },
    Due {
        word: b"to",
        due: b"a day of the month, such as 2026-06-10",
    },
    Due {
        word: b"prefer",
        due: b"a number",
    },
    Due {
        word: b"days",
        due: b"a number",
    },
    Due {
        word: b"daysoff",
        due: b"a number",
    },
    Due {
        word: b"before",
        due: b"a clock, such as 08:00",
    },
    Due {
        word: b"after",
        due: b"a clock, such as 08:00",
    },
    Due {
        word: b"below",
        due: b"credit, such as 75:00",
    },
    Due {
        word: b"above",
        due: b"credit, such as 75:00",
    },
];

/// What is due behind a word of a bid.
fn behind(word: &[u8]) -> Option<&'static [u8]> {
    for row in DUES.iter() {
        if row.word == word {
            return Some(row.due);
        }
    }
    None
}

/// What is due behind a word that is a name, a number, a day or a credit.
fn behind_other(last: Last<'_>) -> &'static [u8] {
    if trimmed(last.front).is_empty() {
        return b"behind a weight comes fly, avoid, prefer, off, credit or daysoff";
    }
    let before = last_of(last.front).word;
    if before == b"off".as_slice() {
        return b"to and a second day, or the end of the line";
    }
    if before == b"prefer".as_slice() {
        return b"a test: not, layover, departs, arrives, report, release, days, weekday or pairing";
    }
    b"the end of the line, or and and a further test"
}

/// What is due behind these words of a line.
pub fn due_at(before: &[u8]) -> &'static [u8] {
    let last = last_of(before);
    match behind(last.word) {
        Some(due) => due,
        None => behind_other(last),
    }
}
