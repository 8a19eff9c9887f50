//! Which levels of a place are left to be looked at.

/// Which levels of a place are left: that of the best roster known, the greatest whose root is open, and the least whose
/// root is closed. Level 0 is the score that was there, and the goal of level i + 1 asks for more than level i.
#[derive(Clone, Copy)]
pub(crate) struct LevelRange {
    pub low: usize,
    pub open: usize,
    pub high: usize,
}

/// Which level is tested next: the top; one that kept lines mix for; the one just above these; or one halfway to the top.
#[derive(Clone, Copy, PartialEq, Eq)]
pub(crate) enum Turn {
    Top,
    Mixed,
    Above,
    Half,
}

impl Turn {
    /// What is next looked at as the last turn: a level above what kept lines mixed for is one that they mix for where its
    /// root is open, since it has lines of its own then.
    pub(crate) fn after(self, is_open: bool) -> Turn {
        match self {
            Turn::Above if is_open => Turn::Mixed,
            turn => turn,
        }
    }
}

impl LevelRange {
    /// Whether no root is left to be tested.
    pub(crate) fn is_done(self) -> bool {
        self.base().saturating_add(1) >= self.high
    }

    /// The greatest level that is known to be no question.
    pub(crate) fn base(self) -> usize {
        self.open.max(self.low)
    }

    /// Halfway between what is known to be open and closed.
    pub(crate) fn half(self) -> usize {
        self.base().saturating_add(self.high) / 2
    }
}

/// The floor of a level: more than the level below.
pub(crate) fn floor_of(levels: &[u32], level: usize) -> u32 {
    match levels.get(level.saturating_sub(1)) {
        Some(below) => below.saturating_add(1),
        None => 0,
    }
}

/// The level of a score.
pub(crate) fn level_of(levels: &[u32], score: u32) -> usize {
    match levels.iter().position(|level| *level >= score) {
        Some(level) => level,
        None => levels.len(),
    }
}
