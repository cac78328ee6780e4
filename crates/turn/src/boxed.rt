use page_table::Memory;
use std::marker::Model;

/// The memory on the heap, so that a turn moves a pointer and not the memory. Contracts see the
/// memory.
#[derive(Drop)]
pub(crate) struct Boxed {
    pub(crate) memory: Box<Memory>,
}

impl Model for Boxed {
    ghost use Rattle.page_table.specs.State.{MemoryState};

    ghost Value = { MemoryState };

    ghost view = { λ boxed. boxed.memory.value };
}
