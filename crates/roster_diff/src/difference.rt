//! What is otherwise of a pilot.

/// A number as it was before, and as it is now.
#[derive(Clone, Copy, Debug, PartialEq, Eq)]
pub struct Change {
    pub before: u32,
    pub now: u32,
}

impl Change {
    /// Whether the number is as before.
    pub fn is_none(self) -> bool {
        self.before == self.now
    }
}

/// In which of the two months a pilot stands.
#[derive(Clone, Copy, Debug, PartialEq, Eq)]
pub enum Standing {
    Both,
    /// In that of now alone: before there was no trip, no credit, no score and no day off.
    Joined,
    /// In that of before alone: now there is none of these.
    Left,
}

/// What is otherwise of a pilot. Trips stand in the order of the pilot's line, bids in that of the pilot's bids and as they are
/// printed; credit is in minutes.
#[derive(Drop)]
pub struct Difference {
    /// The pilot's place in seniority, from 1, in the month of now; of one who has left in that of before.
    pub place: u32,
    pub name: String,
    pub standing: Standing,
    /// Trips that the pilot has now and did not have before.
    pub gained: Vec<String>,
    /// Trips that the pilot had before and does not have now.
    pub lost: Vec<String>,
    pub credit: Change,
    pub score: Change,
    pub days_off: Change,
    /// Bids of both months that are granted now and were not before.
    pub won: Vec<String>,
    /// Bids of both months that were granted before and are not now.
    pub denied: Vec<String>,
}

impl Difference {
    /// Whether nothing is otherwise.
    pub fn is_none(&self) -> bool {
        self.standing == Standing::Both
            && self.gained.is_empty()
            && self.lost.is_empty()
            && self.credit.is_none()
            && self.score.is_none()
            && self.days_off.is_none()
            && self.won.is_empty()
            && self.denied.is_empty()
    }
}
