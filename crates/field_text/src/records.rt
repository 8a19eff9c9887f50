//! The records of a text, one after another.
ghost use Rattle.std.specs.Prelude.{◌≡◌, [], ◌∷◌, ◌+◌, ◌≤◌, length, IfOk, IfErr};

use csv::{ByteRecord, Reader, ReaderBuilder};
use duty_calendar::Memory;
use std::alloc::Global;
use std::marker::Model;

/// The records of a text of comma-separated fields that are still to be read. A record may have any
/// number of fields, and the fields are as they stand.
#[derive(Drop)]
pub struct Records<'a> {
    reader: Reader<&'a [u8]>,
    ended: bool,
}

impl<'a> Model for Records<'a> {
    ghost use Rattle.std.specs.Prelude.{◌≡◌, ℕ, List, [], false, if◌then◌else◌};
    ghost use Rattle.field_text.specs.Records.{unread, IsPlain};

    ghost Value = { List (List (List ℕ)) };

    ghost view = { λ a. if a.ended then [] else unread a.reader };

    ghost invariant = { λ a. a.ended ≡ false → IsPlain a.reader };
}

/// What an error of the reader means: over bytes in memory, want of memory.
fn memory(_error: csv::Error) -> Memory {
    Memory::NoMemory
}

impl<'a> Records<'a> {
    ghost use Rattle.field_text.specs.Sizes.{longest};
    ghost use Rattle.field_text.specs.Records.{AreWithin, IfRow, Takes, records_of};

    /// The records of a text, the header among them. A byte order mark at its head is passed over.
    pub fn new(alloc: Global, text: &'a [u8]) -> Records<'a>
        requires short { length text.now ≤ longest }
        ensures value { result ≡ records_of text.now }
        ensures bound { length result ≤ length text.now + 1 }
    {
        let reader = ReaderBuilder::new()
            .has_headers(false)
            .flexible(true)
            .from_reader(alloc, text);
        Records {
            reader,
            ended: false,
        }
    }

    /// The next record, if there is one. After an error no record is left.
    pub fn read(&mut self, alloc: Global) -> Result<Option<ByteRecord>, Memory>
        ensures next { IfOk result (Takes self.old self.new) }
        ensures short { IfOk result (IfRow (AreWithin longest)) }
        ensures ended { IfErr result (λ _. self.new ≡ []) }
    {
        if self.ended {
            return Ok(None);
        }
        let mut row = ByteRecord::new(alloc);
        match self.reader.read_byte_record(&mut row) {
            Ok(found) => {
                if found {
                    return Ok(Some(row));
                }
                self.ended = true;
                Ok(None)
            }
            Err(e) => {
                self.ended = true;
                Err(memory(e))
            }
        }
    }
}
