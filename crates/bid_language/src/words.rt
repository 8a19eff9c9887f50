//! The tokens of a line, taken one by one.
ghost use Rattle.std.specs.Prelude.{◌≡◌, ◌≤◌, ◌<◌, true, length, Ok};
ghost use Rattle.std.specs.Option.{option_map};
ghost use Rattle.std.specs.Str.{IsAscii};
ghost use Rattle.field_text.specs.Sizes.{longest};
ghost use Rattle.bid_language.specs.Words.{next, optional, finished, rest_of, are_within, Reads, ReadsAs};
ghost use Rattle.bid_language.specs.declared.fault.Stop.TheVariants.{Fault};

use crate::fault::{BidCode, LineFault, Stop, Word};
use field_text::Token;
use std::marker::Model;

/// A token of a line, with its column.
#[derive(Clone, Copy)]
pub struct Spot<'a> {
    pub column: u32,
    pub text: &'a [u8],
    pub ghost ascii: { IsAscii text.now },
    pub ghost short: { length text.now ≤ longest },
}

impl Spot<'_> {
    /// A fault at this token.
    pub fn wrong(&self, code: BidCode) -> Stop
        ensures value { result ≡ Fault (record { column = self.now.column; code = code }) }
    {
        Stop::Fault(LineFault {
            column: self.column,
            code,
        })
    }
}

/// The tokens of a line that are still to be read.
#[derive(Drop)]
pub struct Words<'a> {
    line: &'a [u8],
    tokens: &'a [Token],
}

impl<'a> Model for Words<'a> {
    ghost use Rattle.std.specs.Prelude.{◌≡◌, ◌≤◌, true, length};
    ghost use Rattle.field_text.specs.Sizes.{longest};
    ghost use Rattle.std.specs.Str.{IsAscii};
    ghost use Rattle.bid_language.specs.Words.{Rest, rest_of, are_within};

    ghost Value = { Rest };

    ghost view = { λ w. rest_of w.line.now w.tokens.now };

    ghost invariant = { λ w. IsAscii w.line.now × (length w.line.now ≤ longest)
        × (are_within w.line.now w.tokens.now ≡ true) };
}

impl<'a> Words<'a> {
    /// The tokens of a line.
    pub fn new(line: &'a [u8], tokens: &'a [Token]) -> Words<'a>
        requires ascii { IsAscii line.now }
        requires short { length line.now ≤ longest }
        requires within { are_within line.now tokens.now ≡ true }
        ensures value { result ≡ rest_of line.now tokens.now }
    {
        Words { line, tokens }
    }

    /// The next token, or the fault that one is missing.
    pub fn next(&mut self, word: Word) -> Result<Spot<'a>, Stop>
        ensures reads { ReadsAs (λ s. record { column = s.column; text = s.text.now }) result
            (next word) self.old self.new }
    {
        let Some((token, rest)) = self.tokens.split_first() else {
            return Err(Stop::Fault(LineFault {
                column: self.line.len() as u32 + 1,
                code: BidCode::Expected(word),
            }));
        };
        let spot = Spot {
            column: token.start + 1,
            text: &self.line[token.start as usize..token.end as usize],
        };
        self.tokens = rest;
        Ok(spot)
    }

    /// The next token, if there is one.
    pub fn optional(&mut self) -> Option<Spot<'a>>
        ensures reads { optional self.old
            ≡ Ok (
              option_map (λ s. record { column = s.column; text = s.text.now }) result,
              self.new,
            ) }
    {
        let Some((token, rest)) = self.tokens.split_first() else {
            return None;
        };
        let spot = Spot {
            column: token.start + 1,
            text: &self.line[token.start as usize..token.end as usize],
        };
        self.tokens = rest;
        Some(spot)
    }

    /// Nothing more stands on the line.
    pub fn finish(&mut self) -> Result<(), Stop>
        ensures reads { Reads result finished self.old self.new }
    {
        if let Some((token, _)) = self.tokens.split_first() {
            return Err(Stop::Fault(LineFault {
                column: token.start + 1,
                code: BidCode::Expected(Word::EndOfLine),
            }));
        }
        Ok(())
    }
}
