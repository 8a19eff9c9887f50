//! Files by name, as the program sees them.
ghost use Rattle.std.specs.Prelude.{◌≡◌, ◌≤◌, ℕ, List, Option, IfOk, OnOk, vec_len};
ghost use Rattle.std.specs.Option.{ForSome};
ghost use Rattle.shelf.specs.declared.tally.Tally.{Tally};
ghost use Rattle.shelf.specs.Names.{IsName};
ghost use Rattle.shelf.specs.Causes.{ReadCause, WriteCause};
ghost use Rattle.shelf.specs.Files.{Files, IsRead, SameButAt, with_file};
ghost use Rattle.shelf.specs.Logs.{Entries, with_read};

use crate::fault::ShelfFault;
use std::alloc::Global;

/// Files by name. A name has 1 to 32 bytes.
pub trait Shelf {
    /// The files, where the shelf tells them.
    ghost holds: { Self → Option Files };

    /// What has gone wrong so far.
    ghost tally: { Self → Tally };

    /// What reads have handed in so far: the name and the bytes of each read that answered Ok, in
    /// order.
    ghost log: { Self → Entries };

    /// The bytes of a file, if they are at most `limit`.
    fn read(&mut self, alloc: Global, name: &str, limit: u64) -> Result<Vec<u8>, ShelfFault>
        requires name { IsName name.now }
        ensures cause { ReadCause name.now (tally self.old) (tally self.new) result }
        ensures limit { IfOk result (λ bytes. vec_len bytes ≤ limit) }
        ensures told { ForSome (holds self.old) (λ files. IsRead files name.now limit result) }
        ensures kept { holds self.new ≡ holds self.old }
        ensures logged { log self.new ≡ with_read (log self.old) name.now result };

    /// Gives a file these bytes. After an `Err` that file may hold anything.
    fn write(&mut self, alloc: Global, name: &str, bytes: &[u8]) -> Result<(), ShelfFault>
        requires name { IsName name.now }
        ensures cause { WriteCause name.now (tally self.old) (tally self.new) result }
        ensures written { OnOk result
            (holds self.new ≡ with_file (holds self.old) name.now bytes.now) }
        ensures others { SameButAt name.now (holds self.old) (holds self.new) }
        ensures unlogged { log self.new ≡ log self.old };
}
