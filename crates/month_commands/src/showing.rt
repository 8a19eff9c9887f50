//! The command `show`.
ghost use Rattle.std.specs.Prelude.{◌≡◌};
ghost use Rattle.std.specs.Option.{ForSome};
ghost use Rattle.month_commands.specs.Show.{IsShow, IsShowHanded};
ghost use Rattle.month_commands.specs.ShowEnds.{ShowCause};

use crate::show_stop::{ShowStop, Unshown};
use duty_calendar::List;
use month_files::{read_month, read_seen};
use roster_text::{member_named, print_month, read_roster};
use shelf::Shelf;
use std::alloc::Global;

/// The month of the member with this name, as the roster in the folder has it.
pub fn show<S: Shelf>(alloc: Global, shelf: &mut S, name: &[u8]) -> Result<List<u8>, ShowStop>
    ensures cause { ShowCause (S.tally shelf.old) (S.tally shelf.new) result }
    ensures told { ForSome (S.holds shelf.old) (λ files. IsShow files name.now result) }
    ensures kept { S.holds shelf.new ≡ S.holds shelf.old }
    ensures handed { IsShowHanded (S.log shelf.old) (S.log shelf.new) name.now result }
{
    let (texts, text) = read_seen(alloc, shelf)?;
    let problem = read_month(alloc, &texts)?;
    let roster = read_roster(alloc, &text, &problem)?;
    let Some(member) = member_named(&problem, name) else {
        return Err(ShowStop::No(Unshown::Member));
    };
    Ok(print_month(alloc, &problem, &roster, member as u32)?)
}
