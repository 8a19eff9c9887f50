//! Where the program's text goes.
ghost use Rattle.std.specs.Prelude.{ℕ, List, Option};
ghost use Rattle.shelf.specs.Puts.{PutCause, PutWants, Puts};

use crate::fault::SinkFault;

/// Takes text piece by piece.
pub trait Sink {
    /// The bytes so far, where the sink tells them.
    ghost bytes: { Self → Option (List ℕ) };

    /// How often a put has failed, up to the greatest `u64`.
    ghost faults: { Self → ℕ };

    /// How often a put has found no memory, up to the greatest `u64`.
    ghost wants: { Self → ℕ };

    /// Adds a piece. After an `Err` a front of it was added.
    fn put(&mut self, piece: &[u8]) -> Result<(), SinkFault>
        ensures cause { PutCause (faults self.old) (faults self.new) result }
        ensures wanted { PutWants (wants self.old) (wants self.new) result }
        ensures told { Puts (bytes self.old) (bytes self.new) piece.now result };
}
