//! Lines that a judgement finds.

use roster_model::Line;

/// A line of the member that was found to be the heaviest one for the weights of an item, by the member's lens there. No
/// contract says so, nor anything else of it: it may break a rule at which the lens does not look.
#[derive(Drop)]
pub struct Noted {
    pub member: u32,
    pub line: Line,
}
