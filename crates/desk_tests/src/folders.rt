//! A folder as a shelf, and what stands beside the files that it writes.

use shelf::{FolderShelf, Shelf, ShelfFault};
use std::os::unix::fs::symlink;
use std::test::Fail;

// All tests run in one folder, which is empty at first: each has names of its own.
#[test]
fn keeps_what_was_written(rt: HostRuntime) -> Result<(), Fail> {
    let alloc = rt.alloc();
    let mut shelf = FolderShelf::new(&rt, String::from_str(alloc, ".")?);
    assert!(rt; shelf.read(alloc, "a", 9).err() == Some(ShelfFault::Missing));
    shelf.write(alloc, "a", b"before")?;
    shelf.write(alloc, "a", b"0123456789")?;
    assert!(rt; shelf.read(alloc, "a.new", 9).err() == Some(ShelfFault::Missing));
    assert!(rt; shelf.read(alloc, "a", 10)?.as_slice() == b"0123456789".as_slice());
    assert!(rt; shelf.read(alloc, "a", 9).err() == Some(ShelfFault::TooLong));
    assert!(rt; shelf.read(alloc, "..", 9).err() == Some(ShelfFault::ReadFailed));
    assert!(rt; shelf.write(alloc, "..", b"1").err() == Some(ShelfFault::WriteFailed));
    Ok(())
}

#[test]
fn leaves_what_lies_beside(rt: HostRuntime) -> Result<(), Fail> {
    let alloc = rt.alloc();
    let mut shelf = FolderShelf::new(&rt, String::new(alloc));
    shelf.write(alloc, "b.new", b"mine")?;
    symlink(&rt, "nowhere", "b.new1")?;
    shelf.write(alloc, "b", b"1")?;
    shelf.write(alloc, "b", b"2")?;
    assert!(rt; shelf.read(alloc, "b", 9)?.as_slice() == b"2".as_slice());
    assert!(rt; shelf.read(alloc, "b.new", 9)?.as_slice() == b"mine".as_slice());
    assert!(rt; shelf.read(alloc, "nowhere", 9).err() == Some(ShelfFault::Missing));
    assert!(rt; shelf.read(alloc, "b.new2", 9).err() == Some(ShelfFault::Missing));
    Ok(())
}

#[test]
fn writes_in_the_place_of_a_link(rt: HostRuntime) -> Result<(), Fail> {
    let alloc = rt.alloc();
    let mut shelf = FolderShelf::new(&rt, String::new(alloc));
    shelf.write(alloc, "d", b"kept")?;
    symlink(&rt, "d", "c")?;
    assert!(rt; shelf.read(alloc, "c", 9)?.as_slice() == b"kept".as_slice());
    shelf.write(alloc, "c", b"1")?;
    assert!(rt; shelf.read(alloc, "c", 9)?.as_slice() == b"1".as_slice());
    assert!(rt; shelf.read(alloc, "d", 9)?.as_slice() == b"kept".as_slice());
    Ok(())
}

#[test]
fn reads_no_device(rt: HostRuntime) -> Result<(), Fail> {
    let alloc = rt.alloc();
    let mut shelf = FolderShelf::new(&rt, String::new(alloc));
    symlink(&rt, "/dev/zero", "e")?;
    assert!(rt; shelf.read(alloc, "e", 9).err() == Some(ShelfFault::ReadFailed));
    shelf.write(alloc, "e", b"1")?;
    assert!(rt; shelf.read(alloc, "e", 9)?.as_slice() == b"1".as_slice());
    Ok(())
}
