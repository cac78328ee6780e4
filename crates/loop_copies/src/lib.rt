//! Copies of loops: a text's blocks in an order in which only loops lead back, and as many copies of each loop as the
//! verifier needs, which knows forward jumps alone. Such a text is a proposal: no contract says what it does, and
//! `lowering` checks it. Promised is only where the instructions of a text begin, and to which slots they lead.
#![tactic(auto)]

mod blocks;
mod deciding_registers;
mod emit;
mod flows;
mod order;
mod parts;
mod row;
mod shorter;
mod slots;
mod stop;
mod values;
mod walk;

pub use emit::Emitted;
pub use parts::Parts;
pub use shorter::Shorter;
pub use slots::{begins, falls_through, jump_from, slot_after};
pub use stop::Stop;
pub use values::Keeping;
