//! Numbers from a fixed generator: `1103515245 * x + 12345` modulo `2^31`, from 1 on.

ghost use Rattle.std.specs.Prelude.{◌+◌, ◌<◌, ◌≤◌};
ghost use Rattle.frame_arena.specs.Pages.{IsAccessSize};

/// The generator, by the number that it gave last.
#[derive(Drop)]
pub(crate) struct Draws {
    last: u64,
}

impl Draws {
    pub(crate) fn new() -> Self {
        Draws { last: 1 }
    }

    /// A number below a limit, from the upper half of the generator's next number.
    pub(crate) fn below(&mut self, limit: u32) -> u32
        requires { 0 < limit }
        ensures { result < limit }
    {
        self.last = self.last.wrapping_mul(1_103_515_245).wrapping_add(12_345) % 2_147_483_648;
        (self.last / 65_536) as u32 % limit
    }

    /// How many bytes a number has.
    pub(crate) fn size(&mut self) -> u32
        ensures size { IsAccessSize result }
        ensures within { result ≤ 8 }
    {
        match self.below(4) {
            0 => 1,
            1 => 2,
            2 => 4,
            _ => 8,
        }
    }

    /// Where so many bytes of a page begin.
    pub(crate) fn offset(&mut self, size: u32) -> u32
        requires { size ≤ 64 }
        ensures { result + size ≤ 4096 }
    {
        self.below(4097 - size)
    }
}
