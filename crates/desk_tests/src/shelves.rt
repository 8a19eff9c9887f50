//! Files and text in memory, and calls that fail by their number.

use duty_calendar::List;
use shelf::{MemoryShelf, MemorySink, OutSink, Shelf, ShelfFault, Sink, SinkFault};
use std::alloc::Global;
use std::process::Abort;
use std::test::Fail;

// A file of ten bytes. The calls with these numbers fail.
fn shelf_of(rt: &impl Abort, alloc: Global, failing: &[u64]) -> Result<MemoryShelf, Fail> {
    let mut numbers = List::new(alloc);
    for number in failing {
        assert!(rt; numbers.push(*number).is_ok());
    }
    let mut shelf = MemoryShelf::new(alloc, numbers);
    shelf.place(alloc, "a", b"0123456789")?;
    Ok(shelf)
}

fn read(alloc: Global, shelf: &mut MemoryShelf, limit: u64) -> Result<Vec<u8>, ShelfFault> {
    shelf.read(alloc, "a", limit)
}

#[test]
fn reads_and_writes(rt: HostRuntime) -> Result<(), Fail> {
    let alloc = rt.alloc();
    let mut shelf = shelf_of(&rt, alloc, &[])?;
    assert!(rt; read(alloc, &mut shelf, 10)?.as_slice() == b"0123456789".as_slice());
    assert!(rt; read(alloc, &mut shelf, 9).err() == Some(ShelfFault::TooLong));
    assert!(rt; shelf.read(alloc, "b", 9).err() == Some(ShelfFault::Missing));
    assert!(rt; shelf.file("b").is_none());
    shelf.write(alloc, "b", b"1")?;
    assert!(rt; shelf.file("b") == Some(b"1".as_slice()));
    Ok(())
}

#[test]
fn the_third_call_fails(rt: HostRuntime) -> Result<(), Fail> {
    let alloc = rt.alloc();
    let mut shelf = shelf_of(&rt, alloc, &[3, 4])?;
    shelf.write(alloc, "b", b"1")?;
    read(alloc, &mut shelf, 10)?;
    assert!(rt; read(alloc, &mut shelf, 10).err() == Some(ShelfFault::ReadFailed));
    assert!(rt; shelf.write(alloc, "b", b"2").err() == Some(ShelfFault::WriteFailed));
    shelf.write(alloc, "b", b"3")?;
    Ok(())
}

#[test]
fn the_second_put_fails(rt: HostRuntime) -> Result<(), Fail> {
    let alloc = rt.alloc();
    let mut failing = List::new(alloc);
    assert!(rt; failing.push(2).is_ok());
    let mut sink = MemorySink::new(alloc, failing);
    sink.put(b"yes\n")?;
    assert!(rt; sink.put(b"no\n") == Err(SinkFault::PutFailed));
    sink.put(b"vector 10\n")?;
    assert!(rt; sink.bytes() == b"yes\nvector 10\n".as_slice());
    Ok(())
}

#[test]
fn writes_whole_pieces(rt: HostRuntime) -> Result<(), Fail> {
    let mut out = Vec::new(rt.alloc());
    let mut sink = OutSink::new(&mut out);
    sink.put(b"yes\n")?;
    sink.put(b"vector 10\n")?;
    assert!(rt; out.as_slice() == b"yes\nvector 10\n".as_slice());
    Ok(())
}
