//! What is read of the two folders.
ghost use Rattle.std.specs.Prelude.{◌≡◌, ◌≤◌, ◌++◌, IfOk, IfSome, length};
ghost use Rattle.std.specs.Option.{ForSome, option_map};
ghost use Rattle.month_files.specs.FileNames.{limit_of};
ghost use Rattle.month_files.specs.Reading.{AreShort, Finds, HasCause, view_texts};
ghost use Rattle.next_folder.specs.Counts.{NextCause};
ghost use Rattle.next_folder.specs.Texts.{AreBrief, ours_in, ours_texts, text_there, theirs_in, theirs_texts, there_in, view_ours, view_theirs};

use month_files::{File, Texts, Unread, read_file, read_texts};
use shelf::Shelf;
use std::alloc::Global;

/// The inputs of this month, and its roster.
#[derive(Drop)]
pub struct MonthTexts {
    pub inputs: Texts,
    pub roster: Vec<u8>,
}

/// What is there of the next month.
#[derive(Drop)]
pub struct NextTexts {
    pub rules: Option<Vec<u8>>,
    pub crew: Option<Vec<u8>>,
    pub history: Option<Vec<u8>>,
    pub fixed: Option<Vec<u8>>,
}

/// Reads the texts of this month.
#[tactic(auto, unfolding(crate::specs::Texts::ours_in))]
pub fn read_month_texts<S: Shelf>(alloc: Global, shelf: &mut S) -> Result<MonthTexts, Unread>
    ensures cause { HasCause (S.tally shelf.old) (S.tally shelf.new) result }
    ensures told { ForSome (S.holds shelf.old) (λ files. Finds view_ours result (ours_in files)) }
    ensures short { IfOk result (λ texts. AreShort (view_texts texts.inputs)) }
    ensures kept { S.holds shelf.new ≡ S.holds shelf.old }
    ensures logged { IfOk result (λ texts.
        S.log shelf.new ≡ S.log shelf.old ++ ours_texts (view_ours texts)) }
{
    let inputs = read_texts(alloc, shelf)?;
    let roster = read_file(alloc, shelf, File::Roster)?;
    Ok(MonthTexts { inputs, roster })
}

/// The bytes of a file, if it is there.
#[tactic(auto, using(crate::proofs::Found::there_ok, crate::proofs::Found::there_missing, crate::proofs::Found::there_long))]
fn read_if_there<S: Shelf>(
    alloc: Global,
    shelf: &mut S,
    which: File,
) -> Result<Option<Vec<u8>>, Unread>
    ensures cause { NextCause (S.tally shelf.old) (S.tally shelf.new) result }
    ensures told { ForSome (S.holds shelf.old) (λ files.
        Finds (option_map (λ v. v.items)) result (there_in files which)) }
    ensures limit { IfOk result (λ found. IfSome found (λ v. length v.items ≤ limit_of which)) }
    ensures kept { S.holds shelf.new ≡ S.holds shelf.old }
    ensures logged { IfOk result (λ found. S.log shelf.new
        ≡ S.log shelf.old ++ text_there which (option_map (λ v. v.items) found)) }
{
    match read_file(alloc, shelf, which) {
        Ok(text) => Ok(Some(text)),
        Err(Unread::Missing(_)) => Ok(None),
        Err(Unread::TooLong(file)) => Err(Unread::TooLong(file)),
        Err(Unread::ReadFault(file)) => Err(Unread::ReadFault(file)),
        Err(Unread::NoMemory) => Err(Unread::NoMemory),
    }
}

/// Reads what is there of the next month.
#[tactic(auto, unfolding(crate::specs::Texts::theirs_in))]
pub fn read_next_texts<S: Shelf>(alloc: Global, shelf: &mut S) -> Result<NextTexts, Unread>
    ensures cause { NextCause (S.tally shelf.old) (S.tally shelf.new) result }
    ensures told { ForSome (S.holds shelf.old) (λ files.
        Finds view_theirs result (theirs_in files)) }
    ensures brief { IfOk result AreBrief }
    ensures kept { S.holds shelf.new ≡ S.holds shelf.old }
    ensures logged { IfOk result (λ texts.
        S.log shelf.new ≡ S.log shelf.old ++ theirs_texts (view_theirs texts)) }
{
    let rules = read_if_there(alloc, shelf, File::Rules)?;
    let crew = read_if_there(alloc, shelf, File::Crew)?;
    let history = read_if_there(alloc, shelf, File::History)?;
    let fixed = read_if_there(alloc, shelf, File::Fixed)?;
    Ok(NextTexts {
        rules,
        crew,
        history,
        fixed,
    })
}
