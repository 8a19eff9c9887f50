//! The three files of pairings.
ghost use Rattle.std.specs.Prelude.{◌≡◌, ◌≤◌, length, IfOk, IfErr, OnOk};
ghost use Rattle.duty_calendar.specs.Checks.{ArePairings};
ghost use Rattle.field_text.specs.Sizes.{longest};
ghost use Rattle.field_text.specs.Gives.{Gives};
ghost use Rattle.field_text.specs.Rows.{told};
ghost use Rattle.field_text.specs.declared.file_fault.FileCode.TheVariants.{NoMemory};
ghost use Rattle.pairing_files.specs.Drafts.{no_draft, draft_of, IsNamed};
ghost use Rattle.pairing_files.specs.Files.{draft_from, pairings_of, Reaches};
ghost use Rattle.pairing_files.specs.Steps.{Adds};

use crate::files::{read_duty_file, read_leg_file, read_pairing_file};
use crate::parts::part_fault;
use crate::tables::Tables;
use duty_calendar::{Horizon, List, Pairing};
use field_text::FileFault;
use std::alloc::Global;

/// The rows of the three files, one file after another.
fn read_files(
    alloc: Global,
    tables: &mut Tables,
    pairings: &[u8],
    duties: &[u8],
    legs: &[u8],
    horizon: &Horizon,
) -> Result<(), FileFault>
    requires short_pairings { length pairings.now ≤ longest }
    requires short_duties { length duties.now ≤ longest }
    requires short_legs { length legs.now ≤ longest }
    requires named { IsNamed tables.old }
    ensures draft { Adds tables.old tables.new result
        (draft_from horizon.now pairings.now duties.now legs.now) }
    ensures no_row { IfErr result (λ e. e.code ≡ NoMemory → e.row ≡ 0) }
    ensures reached { IfErr result (λ e.
        Reaches horizon.now (draft_of tables.old) pairings.now duties.now e.file) }
{
    if let Err(fault) = read_pairing_file(alloc, tables, pairings) {
        return Err(fault);
    }
    if let Err(fault) = read_duty_file(alloc, tables, duties, horizon) {
        return Err(fault);
    }
    read_leg_file(alloc, tables, legs, horizon)
}

/// The pairings of the three files in the order of the first, or the first fault. Rows count from
/// 1, the header's. Where memory runs out the fault has row 0 and names the file that was read.
pub fn read_pairings(
    alloc: Global,
    pairings: &[u8],
    duties: &[u8],
    legs: &[u8],
    horizon: &Horizon,
) -> Result<List<Pairing>, FileFault>
    requires short_pairings { length pairings.now ≤ longest }
    requires short_duties { length duties.now ≤ longest }
    requires short_legs { length legs.now ≤ longest }
    ensures value { Gives told (λ list. list) result
        (pairings_of horizon.now pairings.now duties.now legs.now) }
    ensures valid { IfOk result (ArePairings horizon.now) }
    ensures no_row { IfErr result (λ e. e.code ≡ NoMemory → e.row ≡ 0) }
    ensures reached { IfErr result (λ e. e.code ≡ NoMemory
        → Reaches horizon.now no_draft pairings.now duties.now e.file) }
{
    let mut tables = Tables::new(alloc);
    if let Err(fault) = read_files(alloc, &mut tables, pairings, duties, legs, horizon) {
        return Err(fault);
    }
    if let Some(fault) = part_fault(&tables) {
        return Err(fault);
    }
    Ok(tables.list)
}
