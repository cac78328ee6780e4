use crate::boxed::Boxed;
use crate::view::View;
use page_table::Memory;
use std::snapshot::Snapshot;

/// The memory while a seat holds it. It must be given back.
pub struct Held {
    pub(crate) memory: Box<Memory>,
    /// The token of the seat that took it, which contracts alone see.
    pub(crate) by: Snapshot<atomic_table::Seat<Option<Boxed>, View>>,
}

impl Held {
    ghost use Rattle.std.specs.Prelude.{◌≡◌};
    ghost use Rattle.std.specs.Borrow.{sem};
    ghost use Rattle.turn.specs.Held.{memory_of, LendsMemory};

    /// The memory.
    pub fn memory(&self) -> &Memory
        ensures { result.now ≡ memory_of self.now }
    {
        &self.memory
    }

    /// The memory, to be changed.
    pub fn memory_mut(&mut self) -> &mut Memory
        ensures* writes_back { sem 𝓛 (LendsMemory self.entry result) }
        ensures value { result.now ≡ memory_of self.old }
    {
        &mut self.memory
    }
}
