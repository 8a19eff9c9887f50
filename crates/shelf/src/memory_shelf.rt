//! A shelf in memory.
ghost use Rattle.std.specs.Prelude.{◌≡◌, ◌≤◌, ◌↔◌, [], Some, Ok, Err, IfOk, OnOk, OnErr, IsTrue, IsErrOf, Contains, vec_len};
ghost use Rattle.std.specs.Option.{ForSome, option_map};
ghost use Rattle.std.specs.FinMap as map;
ghost use Rattle.shelf.specs.Names.{IsName};
ghost use Rattle.shelf.specs.Causes.{ReadCause, WriteCause};
ghost use Rattle.shelf.specs.Files.{file, IsRead, SameButAt};
ghost use Rattle.shelf.specs.Logs.{with_read};
ghost use Rattle.shelf.specs.Tallies.{no_faults};

use crate::fault::ShelfFault;
use crate::log::Log;
use crate::tally::Tally;
use crate::traits::Shelf;
use duty_calendar::{List, Memory};
use std::alloc::Global;
use std::collections::BTreeMap;

/// Files by name. The reads and writes whose numbers are in a list fail; they are counted
/// together, from 1.
#[derive(Drop)]
pub struct MemoryShelf {
    files: BTreeMap<String, Vec<u8>>,
    tally: Tally,
    log: Log,
    failing: List<u64>,
    calls: u64,
}

#[tactic(auto, using(crate::proofs::Stored::file_files_in, crate::proofs::Stored::files_in_insert))]
impl MemoryShelf {
    ghost use Rattle.shelf.specs.MemoryShelf.{files_of, tally_of, log_of, failing_of, calls_of, next_call};

    /// No file is there, and nothing has gone wrong.
    pub fn new(alloc: Global, failing: List<u64>) -> MemoryShelf
        ensures files { files_of result ≡ map.empty }
        ensures tally { tally_of result ≡ no_faults }
        ensures log { log_of result ≡ [] }
        ensures failing { failing_of result ≡ failing }
        ensures calls { calls_of result ≡ 0 }
    {
        MemoryShelf {
            files: BTreeMap::new(alloc),
            tally: Tally::new(),
            log: Log::new(),
            failing,
            calls: 0,
        }
    }

    /// Gives a file these bytes, with no read and no write.
    pub fn place(&mut self, alloc: Global, name: &str, bytes: &[u8]) -> Result<(), Memory>
        requires name { IsName name.now }
        ensures ok { OnOk result
            (files_of self.new ≡ map.insert (files_of self.old) name.now bytes.now) }
        ensures err { OnErr result (files_of self.new ≡ files_of self.old) }
        ensures tally { tally_of self.new ≡ tally_of self.old }
        ensures log { log_of self.new ≡ log_of self.old }
        ensures failing { failing_of self.new ≡ failing_of self.old }
        ensures calls { calls_of self.new ≡ calls_of self.old }
    {
        let name = String::from_str(alloc, name)?;
        self.files.insert(name, bytes.to_vec(alloc)?)?;
        Ok(())
    }

    /// The bytes of a file, if it is there.
    pub fn file(&self, name: &str) -> Option<&[u8]>
        ensures found { option_map (λ bytes. bytes.now) result ≡ file (files_of self.now) name.now }
    {
        match self.files.get(name) {
            Some(bytes) => Some(bytes.as_slice()),
            None => None,
        }
    }

    // Counts a call, and says whether it is one of those that fail.
    fn fails_now(&mut self) -> bool
        ensures fails { IsTrue result ↔ Contains (failing_of self.old) (next_call self.old) }
        ensures counted { self.new ≡ record self.old { calls = next_call self.old } }
    {
        self.calls = self.calls.saturating_add(1);
        self.failing.as_slice().contains(&self.calls)
    }
}

#[tactic(auto, using(crate::proofs::Stored::file_files_in, crate::proofs::Others::same_but_at))]
impl Shelf for MemoryShelf {
    ghost use Rattle.shelf.specs.MemoryShelf.{files_of, tally_of, log_of, failing_of, calls_of, next_call};
    ghost use Rattle.shelf.specs.declared.fault.ShelfFault.TheVariants.{ReadFailed, WriteFailed};

    ghost holds = { λ s. Some (files_of s) };

    ghost tally = { tally_of };

    ghost log = { log_of };

    fn read(&mut self, alloc: Global, name: &str, limit: u64) -> Result<Vec<u8>, ShelfFault>
        requires name { IsName name.now }
        ensures cause { ReadCause name.now (tally_of self.old) (tally_of self.new) result }
        ensures limit { IfOk result (λ bytes. vec_len bytes ≤ limit) }
        ensures told { IsRead (files_of self.old) name.now limit result }
        ensures kept { files_of self.new ≡ files_of self.old }
        ensures logged { log_of self.new ≡ with_read (log_of self.old) name.now result }

        // A call fails where its number is in the list, so none does where the list is empty.
        ensures fails { IsErrOf result ReadFailed
            ↔ Contains (failing_of self.old) (next_call self.old) }
        ensures calls { calls_of self.new ≡ next_call self.old }
        ensures failing { failing_of self.new ≡ failing_of self.old }
    {
        if self.fails_now() {
            self.tally.read_failed(name);
            return Err(ShelfFault::ReadFailed);
        }
        match self.file(name) {
            None => {
                self.tally.missed(name);
                Err(ShelfFault::Missing)
            }
            Some(bytes) if bytes.len() as u64 > limit => {
                self.tally.found_long(name);
                Err(ShelfFault::TooLong)
            }
            Some(bytes) => {
                let Ok(bytes) = bytes.to_vec(alloc) else {
                    self.tally.wanted(name);
                    return Err(ShelfFault::NoMemory);
                };
                self.log.note(name.as_bytes(), &bytes);
                Ok(bytes)
            }
        }
    }

    fn write(&mut self, alloc: Global, name: &str, bytes: &[u8]) -> Result<(), ShelfFault>
        requires name { IsName name.now }
        ensures cause { WriteCause name.now (tally_of self.old) (tally_of self.new) result }
        ensures written { OnOk result
            (files_of self.new ≡ map.insert (files_of self.old) name.now bytes.now) }
        ensures others { SameButAt name.now (Some (files_of self.old)) (Some (files_of self.new)) }
        ensures unlogged { log_of self.new ≡ log_of self.old }
        ensures unwritten { OnErr result (files_of self.new ≡ files_of self.old) }

        // A call fails where its number is in the list, so none does where the list is empty.
        ensures fails { IsErrOf result WriteFailed
            ↔ Contains (failing_of self.old) (next_call self.old) }
        ensures calls { calls_of self.new ≡ next_call self.old }
        ensures failing { failing_of self.new ≡ failing_of self.old }
    {
        if self.fails_now() {
            self.tally.write_failed(name);
            return Err(ShelfFault::WriteFailed);
        }
        match self.place(alloc, name, bytes) {
            Ok(()) => Ok(()),
            Err(_) => {
                self.tally.wanted(name);
                Err(ShelfFault::NoMemory)
            }
        }
    }
}
