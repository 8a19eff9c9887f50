//! Numbers that look like chance, the same in each run.

/// The numbers, of which the state is the last.
#[derive(Clone, Copy)]
pub struct Chance {
    state: u64,
}

impl Chance {
    /// The numbers from the start.
    pub fn new() -> Chance {
        Chance { state: 1 }
    }

    /// The next number below a bound; 0 where the bound is 0.
    pub fn below(&mut self, bound: usize) -> usize {
        self.state = self
            .state
            .wrapping_mul(6_364_136_223_846_793_005)
            .wrapping_add(1_442_695_040_888_963_407);
        let number = (self.state >> 33) as usize;
        match number.checked_rem(bound) {
            Some(rest) => rest,
            None => 0,
        }
    }
}
