//! Faults of rosters, reasons, certificates and trades, in words.

use duty_calendar::Memory;
use file_places::{Place, Prose, line_at, line_place};
use printed_lines::{TextFault, TextFile};

/// What is wrong with a certificate.
fn certificate_words(code: u64) -> &'static [u8] {
    match code {
        1 => {
            b"line 1 is not pbs-certificate with a version that is read; line ends of another system and a byte order mark spoil it too"
        }
        2 =>
            b"the line begins with a word that may not stand there, or the certificate is of another form than is due here",
        3 => b"the numbers of the line are too few, too many, misspelt or out of their order",
        4 => b"the text ends before the line feed of the line end: the file was cut",
        5 => b"something stands behind the line end",
        6 => b"a number is larger than a certificate may have",
        _ => b"the certificate does not read from here on",
    }
}

/// What is wrong with a roster.
fn roster_words(code: u64) -> &'static [u8] {
    match code {
        1 => b"the first line must be member,pairings,credit,score and a plain line feed",
        2 => b"the row must have four fields and a plain line feed",
        3 => b"another pilot is due: the rows stand in the order of crew.csv",
        4 =>
            b"these are not pairings of the month, each once, in the order of pairings.csv, with one blank between two",
        5 => b"the credit or the score is not that of the line, or is misspelt",
        6 => b"a pilot has no row, or something follows the last pilot's row",
        _ => b"the roster does not read from here on",
    }
}

/// What is wrong with reasons.
fn reasons_words(code: u64) -> &'static [u8] {
    match code {
        1 =>
            b"the line must be a pilot, a number, tie or place with its number and name, a colon, and the bid",
        2 => b"there is no such pilot",
        3 => b"the pilot has no bid of this number",
        4 => b"there is no such place, or another pilot stands at it",
        5 => b"what stands behind the colon is not this bid of bids.txt",
        _ => b"the reasons do not read from here on",
    }
}

/// What is wrong with trades.
fn trades_words(code: u64) -> &'static [u8] {
    match code {
        1 =>
            b"the line must be swap A P B Q or move A P B, with one blank between two words and a plain line feed",
        2 => b"there is no such pilot",
        3 => b"there is no such pairing",
        4 => b"at most 10,000 trades may stand there",
        _ => b"the trades do not read from here on",
    }
}

/// What is wrong with a text.
fn flaw_words(fault: TextFault) -> &'static [u8] {
    match fault.file {
        TextFile::Certificate => certificate_words(fault.code),
        TextFile::Roster => roster_words(fault.code),
        TextFile::Reasons => reasons_words(fault.code),
        TextFile::Trades => trades_words(fault.code),
    }
}

/// Appends what is wrong with a text.
pub fn put_text_flaw(prose: &mut Prose, fault: TextFault) -> Result<(), Memory> {
    prose.say(flaw_words(fault))
}

/// The column behind so many commas of a line, from 1.
fn behind(line: &[u8], byte: u8, count: u64) -> u64 {
    let mut left = count;
    for (at, each) in line.iter().enumerate() {
        if left == 0 {
            return (at as u64).saturating_add(1);
        }
        if *each == byte {
            left = left.saturating_sub(1);
        }
    }
    1
}

/// The column at which a fault of a roster is marked, or 0 for the whole line.
fn roster_column(line: &[u8], code: u64) -> u64 {
    match code {
        3 => 1,
        4 => behind(line, b',', 1),
        5 => behind(line, b',', 2),
        _ => 0,
    }
}

/// The column at which a fault of reasons is marked, or 0 for the whole line.
fn reasons_column(line: &[u8], code: u64) -> u64 {
    match code {
        2 => 1,
        3 => behind(line, b' ', 1),
        4 => behind(line, b' ', 2),
        5 => behind(line, b':', 1).saturating_add(1),
        _ => 0,
    }
}

/// Where in its text a fault stands.
pub fn text_mark(text: &[u8], fault: TextFault) -> Place<'_> {
    let line = line_at(text, fault.line);
    let column = match fault.file {
        TextFile::Roster => roster_column(line, fault.code),
        TextFile::Reasons => reasons_column(line, fault.code),
        TextFile::Certificate | TextFile::Trades => 0,
    };
    line_place(text, fault.line, column)
}
