//! The command `migrate` over files in memory.

use crate::june::place;
use cert_text::{CertCode, CertFault};
use desk_commands::{MigrateStop, Migrated, Unmigrated, migrate};
use duty_calendar::List;
use month_files::{File, Unread};
use shelf::MemoryShelf;
use std::alloc::Global;
use std::process::Abort;

/// A certificate of two members in version 1.
const ONE: &str =
    "pbs-certificate 1\naward 2 1\nproof 1\nnoline 1 60 0000000000000000 0 0\nproof 1\nweights 2 -1\nlens 60 0000000000000001 0 0\nlens 60 0000000000000001 0 0\nshown 1 2\nproof 1\nweights 2 -1\nlens 60 0000000000000001 0 0\nlens 60 0000000000000001 0 0\nline\nline 1\nend\n";

/// The same certificate in version 2.
const TWO: &str =
    "pbs-certificate 2\naward 2 1\nproof 1 1\nlens 60 0000000000000000 0 0\nnoline 1 1\nproof 1 1\nlens 60 0000000000000001 0 0\nweights 1 1:-1\nby 1 1\nshown 1 2\nproof 1 1\nlens 60 0000000000000001 0 0\nweights 1 1:-1\nby 1 1\nline\nline 1\nend\n";

/// A certificate with a lens that looks at whole lines.
const THREE: &str =
    "pbs-certificate 3\nnone\nproof 2 2\nlens 60 0000000000000000 0 0\nwhole 60 0000000000000001 0 0\nnoline 1 1\nnoline 2 2\nend\n";

/// A shelf with a certificate and a roster.
fn shelf_with(rt: &impl Abort, alloc: Global, certificate: &str) -> MemoryShelf {
    let mut shelf = MemoryShelf::new(alloc, List::new(alloc));
    place(
        rt,
        alloc,
        &mut shelf,
        "certificate.txt",
        certificate.as_bytes(),
    );
    place(rt, alloc, &mut shelf, "roster.csv", b"as it was");
    shelf
}

/// Says what the folder's certificate and roster are.
fn assert_files(rt: &impl Abort, shelf: &MemoryShelf, certificate: &str, roster: &str) {
    assert!(rt; shelf.file("certificate.txt") == Some(certificate.as_bytes()));
    assert!(rt; shelf.file("roster.csv") == Some(roster.as_bytes()));
}

/// Says which version a certificate had, and what its text in the folder is afterwards.
fn assert_migrated(rt: &impl Abort, alloc: Global, text: &str, version: u32, written: &str) {
    let mut shelf = shelf_with(rt, alloc, text);
    let migrated = migrate(alloc, &mut shelf).ok().expect(rt, "a certificate");
    assert!(rt; migrated.version == version);
    assert_files(rt, &shelf, written, "as it was");
}

#[test]
fn certificates_are_migrated(rt: HostRuntime) {
    assert_migrated(&rt, rt.alloc(), ONE, 1, TWO);
    assert_migrated(&rt, rt.alloc(), TWO, 2, TWO);
    assert_migrated(&rt, rt.alloc(), THREE, 3, THREE);
}

/// What the command says against migrating.
fn no_of(rt: &impl Abort, end: Result<Migrated, MigrateStop>) -> Unmigrated {
    match end {
        Err(MigrateStop::No(why)) => why,
        _ => panic!(rt; "a no"),
    }
}

/// Says why nothing is migrated, and that the file stays as it was.
fn assert_no(rt: &impl Abort, alloc: Global, text: &str, line: u32, code: CertCode) {
    let mut shelf = shelf_with(rt, alloc, text);
    let end = migrate(alloc, &mut shelf);
    assert!(rt; no_of(rt, end) == Unmigrated::Certificate(CertFault { line, code }));
    assert!(rt; shelf.file("certificate.txt") == Some(text.as_bytes()));
}

#[test]
fn other_texts_stay_as_they_are(rt: HostRuntime) {
    let alloc = rt.alloc();
    assert_no(&rt, alloc, "", 1, CertCode::Short);
    assert_no(&rt, alloc, "pbs-certificate 4\n", 1, CertCode::Version);
    assert_no(
        &rt,
        alloc,
        "pbs-certificate 2\nnone\nproof 1 1\nwhole 60 0000000000000001 0 0\nnoline 1 1\nend\n",
        4,
        CertCode::Word,
    );
    assert_no(
        &rt,
        alloc,
        "pbs-certificate 3\nnone\nproof 0 0\nend\n",
        3,
        CertCode::Number,
    );
    assert_no(
        &rt,
        alloc,
        "pbs-certificate 2\nnone\nproof 1\n",
        3,
        CertCode::Number,
    );
}

/// Which file was not read.
fn unread_of(rt: &impl Abort, end: Result<Migrated, MigrateStop>) -> Unread {
    match end {
        Err(MigrateStop::Unread(why)) => why,
        _ => panic!(rt; "a file that is not read"),
    }
}

#[test]
fn the_certificate_may_be_missing(rt: HostRuntime) {
    let mut shelf = MemoryShelf::new(rt.alloc(), List::new(rt.alloc()));
    let end = migrate(rt.alloc(), &mut shelf);
    assert!(rt; unread_of(&rt, end) == Unread::Missing(File::Certificate));
}
