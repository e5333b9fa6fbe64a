// Numbers that are drawn by a rule, the same in each run.
ghost use Rattle.std.specs.Prelude.{◌≡◌};
ghost use Rattle.checksum.specs.Draws.{drawn_after};

// A linear congruential generator: its upper bits are the better ones.
#[derive(Clone, Copy, Debug, PartialEq, Eq)]
pub struct Draws {
    // the last number drawn, or what the draws begin with
    pub last: u64,
}

impl Draws {
    // Draws the next number.
    pub fn draw(&mut self) -> u64
        ensures drawn { result ≡ drawn_after self.old.last }
        ensures kept { self.new.last ≡ result }
    {
        self.last = self
            .last
            .wrapping_mul(6_364_136_223_846_793_005)
            .wrapping_add(1_442_695_040_888_963_407);
        self.last
    }
}
