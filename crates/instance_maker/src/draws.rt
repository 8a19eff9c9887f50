//! Numbers that follow from a number, as if they were drawn.
ghost use Rattle.std.specs.Prelude.{◌≡◌, ◌≤◌, ◌<◌, ◌/◌, ◌^◌};
ghost use Rattle.instance_maker.specs.Draws.{after, below};

/// What the draws so far left: a linear congruence of 64 bits, of which a draw takes the upper 31.
#[derive(Drop)]
pub struct Draws {
    pub state: u64,
}

impl Draws {
    /// The next number, of 31 bits.
    #[tactic(auto, unfolding(crate::specs::Draws::after))]
    fn next(&mut self) -> u32
        ensures state { self.new.state ≡ after self.old.state }
        ensures value { result ≡ after self.old.state / 2 ^ 33 }
    {
        self.state = self
            .state
            .wrapping_mul(6_364_136_223_846_793_005)
            .wrapping_add(1_442_695_040_888_963_407);
        (self.state >> 33) as u32
    }

    /// A number below `limit`.
    #[tactic(auto, unfolding(crate::specs::Draws::below))]
    pub fn below(&mut self, limit: u32) -> u32
        requires some { 1 ≤ limit }
        ensures drawn { below limit self.old.state ≡ (result, self.new.state) }
        ensures within { result < limit }
    {
        self.next() % limit
    }
}
