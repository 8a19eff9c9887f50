//! The members of three files.
ghost use Rattle.std.specs.Prelude.{◌≡◌, ◌≤◌, length, [], Ok, IfOk, IfErr, OnOk};
ghost use Rattle.duty_calendar.specs.Checks.{AreMembers};
ghost use Rattle.field_text.specs.Sizes.{longest};
ghost use Rattle.field_text.specs.Rows.{Fails, told};
ghost use Rattle.field_text.specs.Gives.{Gives};
ghost use Rattle.field_text.specs.declared.file_fault.FileCode.TheVariants.{NoMemory};
ghost use Rattle.crew_files.specs.Files.{members_of, Reaches};

use crate::crew::Crew;
use crate::crew_rows::read_crew;
use crate::event_rows::read_events;
use crate::part::Part;
use duty_calendar::{Horizon, List, Member};
use field_text::{FileCode, FileFault, FileName, at_row};
use std::alloc::Global;

/// Adds the members of three files, in the order of the files.
fn read_all(
    alloc: Global,
    crew: &[u8],
    history: &[u8],
    fixed: &[u8],
    horizon: &Horizon,
    members: &mut Crew,
) -> Result<(), FileFault>
    requires crew_short { length crew.now ≤ longest }
    requires history_short { length history.now ≤ longest }
    requires fixed_short { length fixed.now ≤ longest }
    requires none { members.old ≡ [] }
    ensures ok { OnOk result (members_of horizon.now crew.now history.now fixed.now
        ≡ Ok members.new) }
    ensures fault { IfErr result (λ e. Fails e.code e
        (members_of horizon.now crew.now history.now fixed.now)) }
    ensures no_row { IfErr result (λ e. e.code ≡ NoMemory → e.row ≡ 0) }
    ensures reached { IfErr result (λ e. Reaches horizon.now crew.now history.now e.file) }
{
    read_crew(alloc, crew, members)?;
    read_events(alloc, history, members, Part::History, horizon)?;
    read_events(alloc, fixed, members, Part::Fixed, horizon)?;
    if members.len() == 0 {
        return Err(at_row(FileName::Crew, 1, FileCode::Empty));
    }
    Ok(())
}

/// The members of `crew.csv` in its order, with the events of `history.csv` and `fixed.csv`, or the
/// first fault. Rows count from 1, the header's. Where memory runs out the fault has row 0 and
/// names the file that was read then.
pub fn read_members(
    alloc: Global,
    crew: &[u8],
    history: &[u8],
    fixed: &[u8],
    horizon: &Horizon,
) -> Result<List<Member>, FileFault>
    requires crew_short { length crew.now ≤ longest }
    requires history_short { length history.now ≤ longest }
    requires fixed_short { length fixed.now ≤ longest }
    ensures value { Gives told (λ list. list) result
        (members_of horizon.now crew.now history.now fixed.now) }
    ensures valid { IfOk result (AreMembers horizon.now) }
    ensures no_row { IfErr result (λ e. e.code ≡ NoMemory → e.row ≡ 0) }
    ensures reached { IfErr result (λ e. Reaches horizon.now crew.now history.now e.file) }
{
    let mut members = Crew::new(alloc);
    read_all(alloc, crew, history, fixed, horizon, &mut members)?;
    Ok(members.into_list())
}
