//! Numbers from a fixed generator: a linear congruential one modulo `2^64`, with Knuth's constants.

ghost use Rattle.std.specs.Prelude.{◌<◌};

use host_types::Opt;

/// The generator, by the number that it gave last.
#[derive(Drop)]
pub struct Draws {
    last: u64,
}

impl Draws {
    /// The generator that begins after a number.
    pub fn new(seed: u64) -> Self {
        Draws { last: seed }
    }

    /// A number below a limit, from the upper half of the generator's next number.
    pub fn below(&mut self, limit: u32) -> u32
        requires { 0 < limit }
        ensures { result < limit }
    {
        self.last = self
            .last
            .wrapping_mul(6_364_136_223_846_793_005)
            .wrapping_add(1_442_695_040_888_963_407);
        (self.last / 4_294_967_296) as u32 % limit
    }

    /// An option and a value, mostly so that the scanner runs.
    pub fn option(&mut self) -> (Opt, u32) {
        let value = self.below(5);
        match self.below(8) {
            0 => (Opt::PagesToScan, value),
            1 => (Opt::Run, value),
            2 => (Opt::UseZeroPages, value),
            3 => (Opt::MaxPageSharing, value),
            _ => (Opt::Run, 1),
        }
    }
}
