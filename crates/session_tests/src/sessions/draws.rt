// Drawn numbers, which are the same at each run.
ghost use Rattle.std.specs.Prelude.{◌<◌};

/// A sequence of drawn numbers, and how many of a hundred drawn values are long.
#[derive(Clone, Copy)]
pub struct Draws {
    last: u64,
    long: usize,
}

impl Draws {
    /// The sequence of a seed.
    pub fn of(seed: u64, long: usize) -> Draws {
        Draws { last: seed, long }
    }

    /// The next number, below the bound.
    pub fn below(&mut self, bound: usize) -> usize
        requires some { 0 < bound }
        ensures below { result < bound }
    {
        let multiplied = self.last.wrapping_mul(6_364_136_223_846_793_005);
        self.last = multiplied.wrapping_add(1_442_695_040_888_963_407);
        (self.last / 8_589_934_592) as usize % bound
    }

    /// Whether the next value is long.
    pub fn is_long(&mut self) -> bool {
        self.is_in(self.long)
    }

    /// Whether one of so many in a hundred cases is drawn.
    pub fn is_in(&mut self, percent: usize) -> bool {
        self.below(100) < percent
    }
}
