//! Pseudo-random numbers from a seed.
ghost use Rattle.std.specs.Prelude.{◌<◌};

/// A pseudo-random number generator (Knuth's MMIX linear congruential generator).
#[derive(Drop)]
pub struct RandomNumbers {
    state: u64,
}

impl RandomNumbers {
    /// Returns a generator with the given seed.
    pub fn new(seed: u64) -> RandomNumbers {
        RandomNumbers { state: seed }
    }

    fn next(&mut self) -> u64 {
        self.state = self
            .state
            .wrapping_mul(6_364_136_223_846_793_005)
            .wrapping_add(1_442_695_040_888_963_407);
        self.state >> 33
    }

    /// Returns a pseudo-random number below `n`.
    pub fn below(&mut self, n: u8) -> u8
        requires { 0 < n }
        ensures { result < n }
    {
        (self.next() % u64::from(n)) as u8
    }
}
