//! How a month looks.

/// How a month looks.
#[derive(Clone, Copy)]
pub enum Verdict {
    /// There is nothing to say.
    Clean,
    /// Something looks wrong.
    Odd,
    /// Something is wrong in the files.
    Faulty,
    /// Files are missing, too long, or were not read.
    Unread,
}
