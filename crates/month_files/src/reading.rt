//! Reading the files of a month from a shelf.
ghost use Rattle.std.specs.Prelude.{◌≡◌, ◌≤◌, ◌++◌, IfOk, length};
ghost use Rattle.month_files.specs.FileNames.{limit_of};
ghost use Rattle.std.specs.Option.{ForSome};
ghost use Rattle.month_files.specs.Handing.{with_text, input_texts};
ghost use Rattle.month_files.specs.Reading.{HasCause, Finds, text_in, texts_in, view_texts, AreShort};
ghost use Rattle.month_files.specs.Sights.{seen_in, seen_texts, view_seen};
ghost use Rattle.month_files.specs.declared.file.File.TheVariants.{Roster as RosterFile};

use crate::file::File;
use crate::unread::Unread;
use shelf::{Shelf, ShelfFault};
use std::alloc::Global;

/// The bytes of the eight inputs.
#[derive(Drop)]
pub struct Texts {
    pub rules: Vec<u8>,
    pub pairings: Vec<u8>,
    pub duties: Vec<u8>,
    pub legs: Vec<u8>,
    pub crew: Vec<u8>,
    pub history: Vec<u8>,
    pub fixed: Vec<u8>,
    pub bids: Vec<u8>,
}

/// The bytes of one file.
pub fn read_file<S: Shelf>(alloc: Global, shelf: &mut S, file: File) -> Result<Vec<u8>, Unread>
    ensures cause { HasCause (S.tally shelf.old) (S.tally shelf.new) result }
    ensures limit { IfOk result (λ v. length v.items ≤ limit_of file) }
    ensures told { ForSome (S.holds shelf.old) (λ files.
        Finds (λ v. v.items) result (text_in files file)) }
    ensures kept { S.holds shelf.new ≡ S.holds shelf.old }
    ensures logged { S.log shelf.new ≡ with_text (S.log shelf.old) file result }
{
    match shelf.read(alloc, file.name(), file.limit()) {
        Ok(bytes) => Ok(bytes),
        Err(ShelfFault::Missing) => Err(Unread::Missing(file)),
        Err(ShelfFault::TooLong) => Err(Unread::TooLong(file)),
        Err(ShelfFault::ReadFailed) => Err(Unread::ReadFault(file)),
        Err(ShelfFault::WriteFailed) => unreachable!(),
        Err(ShelfFault::NoMemory) => Err(Unread::NoMemory),
    }
}

/// The bytes of the eight inputs, read in their order.
#[tactic(auto, unfolding(crate::specs::Reading::texts_in))]
pub fn read_texts<S: Shelf>(alloc: Global, shelf: &mut S) -> Result<Texts, Unread>
    ensures cause { HasCause (S.tally shelf.old) (S.tally shelf.new) result }
    ensures told { ForSome (S.holds shelf.old) (λ files. Finds view_texts result (texts_in files)) }
    ensures short { IfOk result (λ t. AreShort (view_texts t)) }
    ensures kept { S.holds shelf.new ≡ S.holds shelf.old }
    ensures logged { IfOk result (λ t.
        S.log shelf.new ≡ S.log shelf.old ++ input_texts (view_texts t)) }
{
    let rules = read_file(alloc, shelf, File::Rules)?;
    let pairings = read_file(alloc, shelf, File::Pairings)?;
    let duties = read_file(alloc, shelf, File::Duties)?;
    let legs = read_file(alloc, shelf, File::Legs)?;
    let crew = read_file(alloc, shelf, File::Crew)?;
    let history = read_file(alloc, shelf, File::History)?;
    let fixed = read_file(alloc, shelf, File::Fixed)?;
    let bids = read_file(alloc, shelf, File::Bids)?;
    Ok(Texts {
        rules,
        pairings,
        duties,
        legs,
        crew,
        history,
        fixed,
        bids,
    })
}

/// The bytes of the eight inputs and of the roster, read in this order.
#[tactic(auto, unfolding(crate::specs::Sights::seen_in))]
pub fn read_seen<S: Shelf>(alloc: Global, shelf: &mut S) -> Result<(Texts, Vec<u8>), Unread>
    ensures cause { HasCause (S.tally shelf.old) (S.tally shelf.new) result }
    ensures told { ForSome (S.holds shelf.old) (λ files. Finds view_seen result (seen_in files)) }
    ensures short { IfOk result (λ x. AreShort (view_texts x.0)) }
    ensures limit { IfOk result (λ x. length x.1.items ≤ limit_of RosterFile) }
    ensures kept { S.holds shelf.new ≡ S.holds shelf.old }
    ensures logged { IfOk result
        (λ x. S.log shelf.new ≡ S.log shelf.old ++ seen_texts (view_seen x)) }
{
    let texts = read_texts(alloc, shelf)?;
    let roster = read_file(alloc, shelf, File::Roster)?;
    Ok((texts, roster))
}
