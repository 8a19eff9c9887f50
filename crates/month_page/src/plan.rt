//! What is planned before anybody bids.
ghost use Rattle.std.specs.Prelude.{◌≡◌, IfOk};
ghost use Rattle.month_files.specs.Reading.{AreShort, view_texts};

use month_files::{File, Texts, Unread, read_file};
use shelf::Shelf;
use std::alloc::Global;

/// Reads what is planned. There are no bids in it.
pub fn plan_texts<S: Shelf>(alloc: Global, shelf: &mut S) -> Result<Texts, Unread>
    ensures short { IfOk result (λ t. AreShort (view_texts t)) }
    ensures kept { S.holds shelf.new ≡ S.holds shelf.old }
{
    let rules = read_file(alloc, shelf, File::Rules)?;
    let pairings = read_file(alloc, shelf, File::Pairings)?;
    let duties = read_file(alloc, shelf, File::Duties)?;
    let legs = read_file(alloc, shelf, File::Legs)?;
    let crew = read_file(alloc, shelf, File::Crew)?;
    let history = read_file(alloc, shelf, File::History)?;
    let fixed = read_file(alloc, shelf, File::Fixed)?;
    Ok(Texts {
        rules,
        pairings,
        duties,
        legs,
        crew,
        history,
        fixed,
        bids: Vec::new(alloc),
    })
}
