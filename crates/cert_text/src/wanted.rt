//! Which lenses a proof may have, and the words that their lines may begin with.

/// Whether a proof may have lenses that look at whole lines, and whether it must have one: in
/// version 3 the last proof must that may still come, where no other has one.
#[derive(Clone, Copy)]
pub struct Wanted {
    pub may: bool,
    pub must: bool,
}

/// Whether the line of a lens may begin with `lens`, and with `whole`.
#[derive(Clone, Copy)]
pub struct May {
    pub lens: bool,
    pub whole: bool,
}
