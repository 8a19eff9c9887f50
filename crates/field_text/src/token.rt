//! The tokens of a line.
ghost use Rattle.std.specs.Prelude.{◌≡◌, ℕ, ◌+◌, ◌∷◌, [], List as Sequence, ◌≤◌, ◌++◌, length, OnOk, IfOk, IfErr, IsTrue, None};
ghost use Rattle.std.specs.List.{list_all};
ghost use Rattle.std.specs.Str.{IsAscii};
ghost use Rattle.field_text.specs.Codes.{token_code};
ghost use Rattle.field_text.specs.Gives.{Gives};
ghost use Rattle.field_text.specs.Sizes.{longest};
ghost use Rattle.field_text.specs.Tokens.{is_blank, is_graphic, closed, read_tokens, tokens_from, lie_within, told, AreRuns, StandsAt, ◌andthen◌};
ghost use Rattle.field_text.specs.declared.token.TokenFault.TheVariants.{NoMemory};

use duty_calendar::List;
use std::alloc::Global;
use thiserror::Error;

/// Where a token stands in its line: from its first byte, counted from 0, to behind its last.
#[derive(Clone, Copy, Debug, PartialEq, Eq)]
pub struct Token {
    pub start: u32,
    pub end: u32,
}

/// Why a line has no tokens.
#[derive(Clone, Copy, Debug, PartialEq, Eq, Error)]
pub enum TokenFault {
    /// No memory was left. Code 0.
    #[error("out of memory")]
    NoMemory,
    /// The column, from 1, of the first byte that may stand neither in a token nor between two.
    /// Code 1.
    #[error("no token and no blank at byte {0}")]
    Byte(u32),
}

impl TokenFault {
    /// The number by which the fault is printed.
    pub fn code(&self) -> u32
        ensures value { result ≡ token_code self.now }
    {
        match self {
            TokenFault::NoMemory => 0,
            TokenFault::Byte(_) => 1,
        }
    }
}

fn is_blank(b: u8) -> bool
    ensures value { result ≡ is_blank b }
{
    b == b' ' || b == b'\t'
}

fn is_graphic(b: u8) -> bool
    ensures value { result ≡ is_graphic b }
{
    33 <= b && b <= 126
}

/// Adds the token that ends at a place, if one is open there.
fn close(found: &mut List<Token>, run: Option<u32>, end: u32) -> Result<(), TokenFault>
    ensures ok { OnOk result (found.new ≡ found.old ++ closed run end) }
    ensures fault { IfErr result (λ e. e ≡ NoMemory) }
{
    if let Some(start) = run {
        if found.push(Token { start, end }).is_err() {
            return Err(TokenFault::NoMemory);
        }
    }
    Ok(())
}

/// The tokens of a line, in order: its longest runs of graphic bytes, with spaces and tabs between.
pub fn tokens(alloc: Global, line: &[u8]) -> Result<List<Token>, TokenFault>
    requires short { length line.now ≤ longest }
    ensures value { Gives told (λ found. found) result (read_tokens line.now) }
    ensures runs { IfOk result (AreRuns line.now) }
    ensures fault { IfErr result (StandsAt line.now) }
    ensures within { IfOk result (λ found. IsTrue (lie_within (length line.now) found)) }
    ensures ascii { OnOk result (IsAscii line.now) }
{
    let mut found = List::new(alloc);
    let mut run: Option<u32> = None;
    for (i, b) in line.iter().enumerate() {
        if is_graphic(*b) {
            run = Some(run.unwrap_or(i as u32));
        } else if is_blank(*b) {
            close(&mut found, run, i as u32)?;
            run = None;
        } else {
            return Err(TokenFault::Byte(i as u32 + 1));
        }
    }
    close(&mut found, run, line.len() as u32)?;
    Ok(found)
}
