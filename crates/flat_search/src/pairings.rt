//! Sets of pairings.

/// How many pairings a word holds.
const WORD: usize = 64;

/// A set of pairings, by their numbers below 640.
#[derive(Clone, Copy, PartialEq, Eq)]
pub struct PairingSet {
    words: [u64; 10],
}

impl PairingSet {
    /// The set without pairings.
    pub fn new() -> PairingSet {
        PairingSet { words: [0; 10] }
    }

    /// The set of some pairings.
    pub fn of(pairings: &[u32]) -> PairingSet {
        let mut set = PairingSet::new();
        for pairing in pairings {
            set.insert(*pairing as usize);
        }
        set
    }

    /// The set of the first pairings, so many.
    pub fn below(count: usize) -> PairingSet {
        let mut set = PairingSet::new();
        for pairing in 0..count {
            set.insert(pairing);
        }
        set
    }

    /// Adds a pairing.
    pub fn insert(&mut self, pairing: usize) {
        if let Some(word) = self.words.get_mut(pairing / WORD) {
            *word |= 1u64 << (pairing % WORD);
        }
    }

    /// Whether the pairing is one of the set.
    pub fn contains(&self, pairing: usize) -> bool {
        match self.words.get(pairing / WORD) {
            Some(word) => (*word >> (pairing % WORD)) & 1 == 1,
            None => false,
        }
    }

    /// Whether each pairing of the set is one of the other.
    pub fn is_within(&self, other: &PairingSet) -> bool {
        self.words
            .iter()
            .zip(other.words.iter())
            .all(|(own, its)| *own & !*its == 0)
    }

    /// Whether the sets share a pairing.
    pub fn meets(&self, other: &PairingSet) -> bool {
        self.words
            .iter()
            .zip(other.words.iter())
            .any(|(own, its)| *own & *its != 0)
    }

    /// The pairings of either set.
    pub fn joined(&self, other: &PairingSet) -> PairingSet {
        let mut set = *self;
        for (word, its) in set.words.iter_mut().zip(other.words.iter()) {
            *word |= *its;
        }
        set
    }

    /// The pairings that the other set has not.
    pub fn without(&self, other: &PairingSet) -> PairingSet {
        let mut set = *self;
        for (word, its) in set.words.iter_mut().zip(other.words.iter()) {
            *word &= !*its;
        }
        set
    }

    /// How many pairings one of the sets has and the other has not.
    pub fn distance(&self, other: &PairingSet) -> i64 {
        let mut count: i64 = 0;
        for (own, its) in self.words.iter().zip(other.words.iter()) {
            let differing = *own ^ *its;
            if differing != 0 {
                count = count.wrapping_add(i64::from(differing.count_ones()));
            }
        }
        count
    }
}
