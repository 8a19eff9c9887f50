//! A sink over any writer.
ghost use Rattle.std.specs.Prelude.{◌≡◌, None, OnOk, OnErr};
ghost use Rattle.std.specs.Io.KnownBytes.{Appends};
ghost use Rattle.shelf.specs.Puts.{PutCause, PutWants};
ghost use Rattle.shelf.specs.Streams.{TakesFront};

use crate::fault::SinkFault;
use crate::sink::Sink;
use crate::streams::write_rest;
use std::io::Write;

/// Hands each piece to a writer. It tells nothing of what was written.
#[derive(Drop)]
pub struct OutSink<W> {
    inner: W,
    faults: u64,
}

impl<W: Write> OutSink<W> {
    ghost use Rattle.shelf.specs.OutSink.{faults_of, writer_of};

    /// No put has failed.
    pub fn new(inner: W) -> Self
        ensures faults { faults_of result ≡ 0 }
        ensures writer { writer_of result ≡ inner }
    {
        OutSink { inner, faults: 0 }
    }
}

impl<W: Write> Sink for OutSink<W> {
    ghost use Rattle.shelf.specs.OutSink.{faults_of, writer_of};

    ghost bytes = { λ _. None };

    ghost faults = { faults_of };

    ghost wants = { λ _. 0 };

    fn put(&mut self, piece: &[u8]) -> Result<(), SinkFault>
        ensures cause { PutCause (faults_of self.old) (faults_of self.new) result }
        ensures wanted { PutWants 0 0 result }
        ensures whole { OnOk result (Appends (W.contents (writer_of self.old))
            (W.contents (writer_of self.new)) piece.now) }
        ensures front { OnErr result (TakesFront piece.now (W.contents (writer_of self.old))
            (W.contents (writer_of self.new))) }
    {
        match write_rest(&mut self.inner, piece) {
            Ok(()) => Ok(()),
            Err(_) => {
                self.faults = self.faults.saturating_add(1);
                Err(SinkFault::PutFailed)
            }
        }
    }
}
