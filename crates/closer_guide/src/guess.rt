//! What may close a node, or solve it.

use duty_calendar::List;
use roster_model::{Lens, Line, Roster};

/// Weights under which the lines of the members, each by its lens, may weigh less than the needs: for each member a bound that its
/// lines may not come above, and a line that may be legal, meet the goal and obey the node, if one is known.
#[derive(Drop)]
pub struct Bounded {
    pub weights: Vec<i64>,
    pub bounds: Vec<i64>,
    pub lines: Vec<Option<Line>>,
    pub lenses: List<Lens>,
}

/// A line with its share, of 65,536.
#[derive(Drop)]
pub struct Part {
    pub line: Line,
    pub share: i64,
}

/// Lines of each member with their shares, and a pair to branch on.
#[derive(Drop)]
pub struct Mixed {
    pub parts: Vec<Vec<Part>>,
    pub pair: Option<(u32, u32)>,
}

/// A guess at what there is to say of a node. None of it is tested.
#[derive(Drop)]
pub enum Guess {
    /// These weights close it.
    Bounded(Bounded),
    /// The member has no line by the lens.
    NoLine(u32, Lens),
    /// This roster is whole there.
    Whole(Roster),
    /// Lines in these shares come near to the needs.
    Mixed(Mixed),
    /// Nothing was found.
    Nothing,
}

/// A floor to try next, and a guess at the empty node of its goal; none where the node is asked for once it is come to.
#[derive(Drop)]
pub struct FloorGuess {
    pub floor: u32,
    pub guess: Option<Guess>,
}
