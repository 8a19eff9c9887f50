//! Numbers of things in lists.

/// A place in a list, or how many there are, as a number; the greatest one where it is more.
pub fn counted(place: usize) -> u32 {
    u32::try_from(place).unwrap_or(u32::MAX)
}
