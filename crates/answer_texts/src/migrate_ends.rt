//! How a run of `migrate` ends, and what it prints.
ghost use Rattle.std.specs.Prelude.{◌≡◌, IfOk};
ghost use Rattle.answer_texts.specs.MigrateTexts.{migrate_status, migrate_text, unmigrated_text};

use crate::lines::numbered;
use crate::month_ends::{unread_status, unread_text};
use crate::status::Status;
use crate::write_ends::{unwritten_text, write_status};
use desk_commands::{MigrateStop, Migrated, Unmigrated};
use duty_calendar::{List, Memory};
use std::alloc::Global;

/// How a run of `migrate` ends.
pub fn migrate_status(end: &Result<Migrated, MigrateStop>) -> Status
    ensures value { result ≡ migrate_status end.now }
{
    match end {
        Ok(_) => Status::Done,
        Err(MigrateStop::Unread(why)) => unread_status(*why),
        Err(MigrateStop::No(_)) => Status::No,
        Err(MigrateStop::Unwritten(_, stop)) => write_status(stop.why),
        Err(MigrateStop::NoMemory) => Status::NoMemory,
    }
}

/// The line of a no.
fn unmigrated_line(alloc: Global, why: Unmigrated) -> Result<List<u8>, Memory>
    ensures value { IfOk result (λ t. t ≡ unmigrated_text why) }
{
    match why {
        Unmigrated::Certificate(fault) => numbered(
            alloc,
            b"no certificate",
            &[u64::from(fault.line), u64::from(fault.code.code())],
        ),
        Unmigrated::TooLong => numbered(alloc, b"no certificate", &[0, 6]),
    }
}

/// The text of a run of `migrate`.
pub fn migrate_text(alloc: Global, end: &Result<Migrated, MigrateStop>) -> Result<List<u8>, Memory>
    ensures value { IfOk result (λ t. t ≡ migrate_text end.now) }
{
    match end {
        Ok(migrated) => numbered(alloc, b"migrated", &[u64::from(migrated.version)]),
        Err(MigrateStop::Unread(why)) => unread_text(alloc, *why),
        Err(MigrateStop::No(why)) => unmigrated_line(alloc, *why),
        Err(MigrateStop::Unwritten(_, stop)) => unwritten_text(alloc, *stop),
        Err(MigrateStop::NoMemory) => Ok(List::new(alloc)),
    }
}
