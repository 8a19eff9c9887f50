//! A sink in memory.
ghost use Rattle.std.specs.Prelude.{◌≡◌, ◌++◌, ◌↔◌, Some, [], OnOk, OnErr, IsErrOf, Contains};
ghost use Rattle.shelf.specs.Puts.{PutCause, PutWants};

use crate::fault::SinkFault;
use crate::sink::Sink;
use duty_calendar::List;
use std::alloc::Global;

/// Keeps all bytes. The puts whose numbers are in a list fail; they are counted from 1.
#[derive(Drop)]
pub struct MemorySink {
    bytes: Vec<u8>,
    faults: u64,
    wants: u64,
    failing: List<u64>,
    calls: u64,
}

impl MemorySink {
    ghost use Rattle.shelf.specs.MemorySink.{bytes_of, faults_of, wants_of, failing_of, calls_of};

    /// No bytes are there, and no put has failed.
    pub fn new(alloc: Global, failing: List<u64>) -> MemorySink
        ensures bytes { bytes_of result ≡ [] }
        ensures faults { faults_of result ≡ 0 }
        ensures wants { wants_of result ≡ 0 }
        ensures failing { failing_of result ≡ failing }
        ensures calls { calls_of result ≡ 0 }
    {
        MemorySink {
            bytes: Vec::new(alloc),
            faults: 0,
            wants: 0,
            failing,
            calls: 0,
        }
    }

    /// The bytes so far.
    pub fn bytes(&self) -> &[u8]
        ensures all { result.now ≡ bytes_of self.now }
    {
        &self.bytes
    }
}

impl Sink for MemorySink {
    ghost use Rattle.shelf.specs.MemorySink.{bytes_of, faults_of, wants_of, failing_of, calls_of, next_call};
    ghost use Rattle.shelf.specs.declared.fault.SinkFault.TheVariants.{PutFailed};

    ghost bytes = { λ s. Some (bytes_of s) };

    ghost faults = { faults_of };

    ghost wants = { wants_of };

    fn put(&mut self, piece: &[u8]) -> Result<(), SinkFault>
        ensures cause { PutCause (faults_of self.old) (faults_of self.new) result }
        ensures wanted { PutWants (wants_of self.old) (wants_of self.new) result }
        ensures added { OnOk result (bytes_of self.new ≡ bytes_of self.old ++ piece.now) }
        ensures unadded { OnErr result (bytes_of self.new ≡ bytes_of self.old) }

        // A put fails where its number is in the list, so none does where the list is empty.
        ensures fails { IsErrOf result PutFailed
            ↔ Contains (failing_of self.old) (next_call self.old) }
        ensures calls { calls_of self.new ≡ next_call self.old }
        ensures failing { failing_of self.new ≡ failing_of self.old }
    {
        self.calls = self.calls.saturating_add(1);
        if self.failing.as_slice().contains(&self.calls) {
            self.faults = self.faults.saturating_add(1);
            return Err(SinkFault::PutFailed);
        }
        if self.bytes.extend_from_slice(piece).is_err() {
            self.wants = self.wants.saturating_add(1);
            return Err(SinkFault::NoMemory);
        }
        Ok(())
    }
}
