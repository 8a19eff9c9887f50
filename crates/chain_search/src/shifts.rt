//! How moves shift states.

ghost use Rattle.std.specs.Prelude.{◌≡◌, ℕ, Option, Some, true};
ghost use Rattle.chain_search.specs.Shifts.{IsShifted};

/// What a move does to all states at once, where that can be said.
#[derive(Clone, Copy, Debug, Drop, PartialEq, Eq)]
pub enum Shift {
    /// A state goes so many down, where it stands that high; lower ones go nowhere.
    Less(u32),
    /// A state goes so many down, and lower ones to 0.
    Floor(u32),
    /// Each state goes on in its own way.
    Own,
}

impl Shift {
    /// All states stay as they are.
    pub(crate) fn stays(&self) -> bool
        ensures stays { result ≡ true → (state : ℕ) (moved : Option ℕ)
            → IsShifted self.now state moved → moved ≡ Some state }
    {
        match self {
            Shift::Less(by) | Shift::Floor(by) => *by == 0,
            Shift::Own => false,
        }
    }
}
