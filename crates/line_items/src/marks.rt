//! What an item makes of nights in a row.

/// What an item makes of nights in a row.
#[derive(Clone, Copy)]
pub struct NightMarks {
    /// When its last flight is released. For no item, when the last flight before the month was.
    pub until: u32,
    /// How many nights it adds to a row that it follows soon; 4, which no row takes, where it has a fourth night itself.
    pub lead: u32,
    /// The row that it leaves behind, where that is another.
    pub reset: Option<u32>,
    /// The same two where it follows no row: 0 or 4, and the row.
    pub alone: u32,
    pub row: u32,
}
