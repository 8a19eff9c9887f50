//! What has gone wrong at a shelf so far.
ghost use Rattle.std.specs.Prelude.{◌≡◌};
ghost use Rattle.shelf.specs.Names.{IsName};
ghost use Rattle.shelf.specs.Tallies.{no_faults, ReadFails, WriteFails, Misses, FindsLong, Wants};

use arrayvec::ArrayVec;

/// Counts that never fall and stand still at the greatest `u64`, and the name handed to the
/// latest call that raised one.
#[derive(Drop)]
pub struct Tally {
    /// Reads that failed.
    pub faults: u64,
    /// Writes that failed.
    pub fails: u64,
    /// Reads of a file that is not there.
    pub misses: u64,
    /// Reads of a file with more bytes than the read may give.
    pub longs: u64,
    /// Reads and writes that found no memory.
    pub wants: u64,
    /// Empty before the first count rose.
    pub last: ArrayVec<u8, 32>,
}

impl Tally {
    /// Nothing has gone wrong.
    pub fn new() -> Self
        ensures none { result ≡ no_faults }
    {
        Tally {
            faults: 0,
            fails: 0,
            misses: 0,
            longs: 0,
            wants: 0,
            last: ArrayVec::new(),
        }
    }

    /// Counts a read of the named file that failed.
    pub fn read_failed(&mut self, name: &str)
        requires name { IsName name.now }
        ensures counted { ReadFails name.now self.old self.new }
    {
        self.faults = self.faults.saturating_add(1);
        self.last = kept(name);
    }

    /// Counts a write of the named file that failed.
    pub fn write_failed(&mut self, name: &str)
        requires name { IsName name.now }
        ensures counted { WriteFails name.now self.old self.new }
    {
        self.fails = self.fails.saturating_add(1);
        self.last = kept(name);
    }

    /// Counts a read of a file that is not there.
    pub fn missed(&mut self, name: &str)
        requires name { IsName name.now }
        ensures counted { Misses name.now self.old self.new }
    {
        self.misses = self.misses.saturating_add(1);
        self.last = kept(name);
    }

    /// Counts a read of a file that is too long for it.
    pub fn found_long(&mut self, name: &str)
        requires name { IsName name.now }
        ensures counted { FindsLong name.now self.old self.new }
    {
        self.longs = self.longs.saturating_add(1);
        self.last = kept(name);
    }

    /// Counts a read or a write of the named file that found no memory.
    pub fn wanted(&mut self, name: &str)
        requires name { IsName name.now }
        ensures counted { Wants name.now self.old self.new }
    {
        self.wants = self.wants.saturating_add(1);
        self.last = kept(name);
    }
}

// The name's bytes.
fn kept(name: &str) -> ArrayVec<u8, 32>
    requires name { IsName name.now }
    ensures bytes { result.items ≡ name.now }
{
    let mut last = ArrayVec::new();
    let _ = last.try_extend_from_slice(name.as_bytes());
    last
}
