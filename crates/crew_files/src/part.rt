//! The two parts of what a member does besides flying pairings.

/// What a member did before the month, or what is fixed in it.
#[derive(Clone, Copy, Debug, PartialEq, Eq)]
pub enum Part {
    History,
    Fixed,
}
