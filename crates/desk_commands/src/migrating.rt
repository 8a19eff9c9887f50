//! The command `migrate`.
ghost use Rattle.std.specs.Prelude.{◌≡◌, ◌≤◌, ◌∷◌, [], length, IfOk};
ghost use Rattle.std.specs.Option.{ForSome};
ghost use Rattle.field_text.specs.Sizes.{longest};
ghost use Rattle.month_files.specs.Handing.{FromReads};
ghost use Rattle.month_files.specs.Writes.{Leaves};
ghost use Rattle.month_files.specs.declared.file.File.TheVariants.{Certificate as CertificateFile};
ghost use Rattle.shelf.specs.Files.{Files};
ghost use Rattle.shelf.specs.Logs.{Entries};
ghost use Rattle.desk_commands.specs.Migrate.{IsRespelling, IsMigrated, IsMigration, IsMigrationHanded, migrating_order};
ghost use Rattle.desk_commands.specs.MigrateEnds.{MigrateCause, migrate_written};

use crate::migrate_stop::{MigrateStop, Migrated, Unmigrated};
use cert_text::{print_certificate, read_certificate, version_of};
use duty_calendar::{List, Memory};
use month_files::{Draft, File, read_file, write_all};
use shelf::Shelf;
use std::alloc::Global;

/// The file to write, which holds these bytes.
fn certificate_drafts(alloc: Global, bytes: List<u8>) -> Result<List<Draft>, Memory>
    ensures drafts { IfOk result
        (λ d. d ≡ record { file = CertificateFile; bytes = bytes } ∷ []) }
{
    let mut drafts = List::new(alloc);
    let draft = Draft {
        file: File::Certificate,
        bytes,
    };
    if drafts.push(draft).is_err() {
        return Err(Memory::NoMemory);
    }
    Ok(drafts)
}

/// What comes of the text of a certificate: its text in version 2, or 3 where a lens looks at whole lines.
fn respell(alloc: Global, text: &[u8]) -> Result<Migrated, MigrateStop>
    requires short { length text.now ≤ longest }
    ensures respelt { IsRespelling text.now result }
{
    let certificate = read_certificate(alloc, text)?;
    let Some(version) = version_of(text) else {
        unreachable!();
    };
    let bytes = print_certificate(alloc, &certificate)?;
    if bytes.len() as u64 > File::Certificate.limit() {
        return Err(MigrateStop::No(Unmigrated::TooLong));
    }
    let drafts = certificate_drafts(alloc, bytes)?;
    Ok(Migrated { version, drafts })
}

/// Writes the file.
fn write_migrated<S: Shelf>(
    alloc: Global,
    shelf: &mut S,
    migrated: Migrated,
) -> Result<Migrated, MigrateStop>
    ensures cause { MigrateCause (S.tally shelf.old) (S.tally shelf.new) result }
    ensures told { (files : Files) → IsMigrated files migrated → IsMigration files result }
    ensures left { Leaves (S.holds shelf.old) (S.holds shelf.new) (migrate_written result) }
    ensures handed { (old : Entries) → FromReads migrating_order old (S.log shelf.old) (λ files. IsMigrated files migrated)
        → IsMigrationHanded old (S.log shelf.new) result }
{
    match write_all(alloc, shelf, migrated.drafts.as_slice()) {
        Ok(()) => Ok(migrated),
        Err(stop) => Err(MigrateStop::Unwritten(migrated, stop)),
    }
}

/// Writes the certificate in the folder in version 2, or 3 where a lens looks at whole lines.
pub fn migrate<S: Shelf>(alloc: Global, shelf: &mut S) -> Result<Migrated, MigrateStop>
    ensures cause { MigrateCause (S.tally shelf.old) (S.tally shelf.new) result }
    ensures told { ForSome (S.holds shelf.old) (λ files. IsMigration files result) }
    ensures left { Leaves (S.holds shelf.old) (S.holds shelf.new) (migrate_written result) }
    ensures handed { IsMigrationHanded (S.log shelf.old) (S.log shelf.new) result }
{
    let text = read_file(alloc, shelf, File::Certificate)?;
    let migrated = respell(alloc, &text)?;
    write_migrated(alloc, shelf, migrated)
}
