//! The words of a line.

use duty_calendar::Memory;
use std::alloc::Global;

/// The words of a line, between its blanks.
#[derive(Drop)]
pub struct Words<'a> {
    list: Vec<&'a [u8]>,
}

/// The bytes of a line from a place to another.
fn part(line: &[u8], from: usize, to: usize) -> &[u8] {
    line.get(from..to).unwrap_or(&[])
}

/// The words of a line. Several blanks count as one.
pub fn words_of<'a>(alloc: Global, line: &'a [u8]) -> Result<Words<'a>, Memory> {
    let mut list = Vec::new(alloc);
    let mut start: usize = 0;
    for (at, byte) in line.iter().enumerate() {
        if matches!(*byte, b' ' | b'\t' | b'\r' | b'\n') {
            if start < at {
                list.push(part(line, start, at))?;
            }
            start = at.saturating_add(1);
        }
    }
    if start < line.len() {
        list.push(part(line, start, line.len()))?;
    }
    Ok(Words { list })
}

/// The number that digits write; a larger one than a number can be is the largest.
fn digits(word: &[u8]) -> Option<i64> {
    if word.is_empty() {
        return None;
    }
    let mut value: i64 = 0;
    for byte in word {
        if !byte.is_ascii_digit() {
            return None;
        }
        let digit = i64::from(byte.saturating_sub(b'0'));
        value = value.saturating_mul(10).saturating_add(digit);
    }
    Some(value)
}

/// The number that a word writes, below 0 behind a `-`.
fn number(word: &[u8]) -> Option<i64> {
    match word.strip_prefix(b"-") {
        Some(rest) => Some(0_i64.saturating_sub(digits(rest)?)),
        None => digits(word),
    }
}

impl<'a> Words<'a> {
    /// How many words there are.
    pub fn len(&self) -> usize {
        self.list.len()
    }

    /// Whether there is no word.
    pub fn is_empty(&self) -> bool {
        self.list.is_empty()
    }

    /// The word of this place, from 0; empty where there is none.
    pub fn word(&self, place: usize) -> &'a [u8] {
        match self.list.get(place) {
            Some(word) => *word,
            None => b"",
        }
    }

    /// Whether the word of this place is this one.
    pub fn is(&self, place: usize, word: &[u8]) -> bool {
        self.word(place) == word
    }

    /// The number of this place, where one stands there that is not below 0.
    pub fn count(&self, place: usize) -> Option<u64> {
        match digits(self.word(place)) {
            Some(value) => u64::try_from(value).ok(),
            None => None,
        }
    }

    /// The numbers from this place on, where all words from there on are numbers.
    pub fn numbers(&self, alloc: Global, from: usize) -> Result<Option<Vec<i64>>, Memory> {
        let mut list = Vec::new(alloc);
        for word in self.list.iter().skip(from) {
            match number(*word) {
                Some(value) => list.push(value)?,
                None => return Ok(None),
            }
        }
        Ok(Some(list))
    }
}
