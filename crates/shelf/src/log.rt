//! What reads have handed in. Only clauses and proofs see it: it takes no memory, and a note does
//! nothing at run time.
ghost use Rattle.std.specs.Prelude.{◌≡◌, ℕ, List, [], ◌∷◌, ◌++◌};
ghost use Rattle.std.specs.Borrow.{ftrue};

use std::marker::{Model, PhantomData};

/// Names and bytes, in the order in which they were noted.
#[derive(Drop)]
pub struct Log {
    marker: PhantomData<u8>,
    pub ghost entries: { List (List ℕ × List ℕ) },
}

impl Model for Log {
    ghost also_owns = { λ _. ftrue };
}

impl Log {
    /// Nothing is noted.
    pub fn new() -> Log
        ensures { result.entries ≡ [] }
    {
        Log {
            marker: PhantomData,
        }
    }

    /// Notes a name and bytes.
    pub fn note(&mut self, _name: &[u8], _bytes: &[u8])
        ensures { self.new.entries ≡ self.old.entries ++ (_name.now, _bytes.now) ∷ [] }
    {}
}
