ghost use Rattle.std.specs.Prelude.{◌<◌};

/// A linear congruential generator, with the numbers of Knuth's MMIX.
#[derive(Drop)]
pub(crate) struct Random {
    state: u64,
}

impl Random {
    pub(crate) fn new(seed: u64) -> Random {
        Random { state: seed }
    }

    /// A number below a bound.
    pub(crate) fn below(&mut self, bound: u32) -> u32
        requires { 0 < bound }
        ensures { result < bound }
    {
        self.state = self
            .state
            .wrapping_mul(6_364_136_223_846_793_005)
            .wrapping_add(1_442_695_040_888_963_407);
        ((self.state >> 33) % u64::from(bound)) as u32
    }

    pub(crate) fn byte(&mut self) -> u8 {
        self.below(256) as u8
    }

    /// One of some bytes.
    pub(crate) fn one_of(&mut self, bytes: [u8; 8]) -> u8 {
        bytes[self.below(8) as usize]
    }

    /// A size as it should be, or, seldom, any other, the erased one, or a small one.
    pub(crate) fn size(&mut self, usual: u32) -> u32 {
        match self.below(768) {
            0 => self.below(u32::MAX),
            1 => u32::MAX,
            2 => self.below(300),
            _ => usual,
        }
    }
}
