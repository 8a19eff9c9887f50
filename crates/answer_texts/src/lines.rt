//! Lines of text.
ghost use Rattle.std.specs.Prelude.{◌≡◌, [], ◌∷◌, ◌++◌, codes, decimal, length, IfOk, OnOk};
ghost use Rattle.month_files.specs.FileNames.{name_of};
ghost use Rattle.answer_texts.specs.Lines.{line, line_of, numbers};

use branch_log::Ledger;
use duty_calendar::{List, Memory};
use field_text::put_bytes;
use itoa::Buffer;
use month_files::File;
use std::alloc::Global;

/// Appends a number.
pub fn put_count(out: &mut List<u8>, number: u64) -> Result<(), Memory>
    ensures whole { OnOk result (out.new ≡ out.old ++ decimal number) }
{
    let mut buffer = Buffer::new();
    put_bytes(out, buffer.format(number).as_bytes())
}

/// Appends each number behind a space.
pub fn put_numbers(out: &mut List<u8>, list: &[u64]) -> Result<(), Memory>
    ensures whole { OnOk result (out.new ≡ out.old ++ numbers list.now) }
{
    for number in list {
        put_bytes(out, b" ")?;
        put_count(out, *number)?;
    }
    Ok(())
}

/// Appends each score behind a space.
fn put_scores(out: &mut List<u8>, scores: &[u32]) -> Result<(), Memory>
    ensures whole { OnOk result (out.new ≡ out.old ++ numbers scores.now) }
{
    for score in scores {
        put_bytes(out, b" ")?;
        put_count(out, u64::from(*score))?;
    }
    Ok(())
}

/// Appends the line of scores.
pub fn put_vector(out: &mut List<u8>, scores: &[u32]) -> Result<(), Memory>
    ensures whole { OnOk result (out.new ≡ out.old ++ line_of (codes "vector") scores.now) }
{
    put_bytes(out, b"vector")?;
    put_scores(out, scores)?;
    put_bytes(out, b"\n")
}

/// One line.
pub fn line_text(alloc: Global, text: &[u8]) -> Result<List<u8>, Memory>
    ensures value { IfOk result (λ t. t ≡ line text.now) }
{
    let mut out = List::new(alloc);
    put_bytes(&mut out, text)?;
    put_bytes(&mut out, b"\n")?;
    Ok(out)
}

/// A line of a word and numbers.
pub fn numbered(alloc: Global, word: &[u8], list: &[u64]) -> Result<List<u8>, Memory>
    ensures value { IfOk result (λ t. t ≡ line_of word.now list.now) }
{
    let mut out = List::new(alloc);
    put_bytes(&mut out, word)?;
    put_numbers(&mut out, list)?;
    put_bytes(&mut out, b"\n")?;
    Ok(out)
}

/// The line of a budget that is spent, with this ledger.
pub fn budget_line(alloc: Global, ledger: &Ledger) -> Result<List<u8>, Memory>
    ensures value { IfOk result (λ t. t ≡ line_of (codes "budget") (length ledger.now.entries ∷ [])) }
{
    numbered(alloc, b"budget", &[u64::from(ledger.len())])
}

/// A line of words and a name behind them.
pub fn titled(alloc: Global, words: &[u8], name: &[u8]) -> Result<List<u8>, Memory>
    ensures value { IfOk result (λ t. t ≡ line (words.now ++ name.now)) }
{
    let mut out = List::new(alloc);
    put_bytes(&mut out, words)?;
    put_bytes(&mut out, name)?;
    put_bytes(&mut out, b"\n")?;
    Ok(out)
}

/// A line of a word and a file's name.
pub fn named(alloc: Global, word: &[u8], file: File) -> Result<List<u8>, Memory>
    ensures value { IfOk result (λ t. t ≡ line (word.now ++ name_of file)) }
{
    titled(alloc, word, file.name().as_bytes())
}
