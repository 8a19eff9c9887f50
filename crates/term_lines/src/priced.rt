//! Lines with their weight.

use roster_model::Line;

/// A line and what its pairings weigh together.
#[derive(Debug, Drop, PartialEq, Eq)]
pub struct PricedLine {
    pub weight: i64,
    pub line: Line,
}
