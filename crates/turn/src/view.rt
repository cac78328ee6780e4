use page_table::Memory;
use std::marker::Model;

/// What a seat knows of the one memory. It stands in contracts alone: no value of it is made.
#[derive(Drop)]
pub struct View {
    /// The seat's own tenants are `first` to `end`, without `end`.
    first: u32,
    end: u32,
    /// Whether the seat holds the memory.
    holds: bool,
    /// A memory that has the parts which the seat knows: all of them while it holds the memory, and
    /// else those of its own tenants.
    seen: Memory,
    /// The turns that the seat made, in order: the memory as it was taken, and as it was given.
    turns: Vec<(Memory, Memory)>,
}

impl Model for View {
    ghost use Rattle.turn.specs.Views.{SeatView};

    ghost Value = { SeatView };

    ghost view = { λ v. record { first = v.first; end = v.end; holds = v.holds; seen = v.seen; turns = v.turns.items } };
}
