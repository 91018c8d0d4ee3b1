//! Numbers that look random and are the same in every run, for the benchmark and for trials.
#![tactic(auto)]

ghost use Rattle.std.specs.Prelude.{◌≡◌, ◌+◌, ◌*◌, ◌/◌, ◌%◌, ◌^◌};

/// Numbers that follow one another by a fixed rule: a linear congruence of 64 bits, of which the upper 31 are given.
#[derive(Clone, Copy, PartialEq, Eq, Debug)]
pub struct Numbers {
    pub state: u64,
}

impl Numbers {
    /// The numbers that follow a first state.
    pub fn new(state: u64) -> Numbers
        ensures { result.state ≡ state }
    {
        Numbers { state }
    }

    /// The next number, below 2 to the power 31.
    pub fn next(&mut self) -> u32
        ensures value { result ≡ self.new.state / 2 ^ 33 }
        ensures state { self.new.state ≡ (self.old.state * 6364136223846793005 + 1442695040888963407) % 2 ^ 64 }
    {
        self.state = self
            .state
            .wrapping_mul(6_364_136_223_846_793_005)
            .wrapping_add(1_442_695_040_888_963_407);
        (self.state >> 33) as u32
    }
}
