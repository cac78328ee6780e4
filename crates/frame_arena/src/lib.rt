//! The frames that pages lie in: a list of pages of 4096 bytes, all made at once, in one block of raw
//! memory that is freed once. No call but `FrameArena::new` takes memory or can fail.
#![tactic(auto)]

mod arena;
mod block;
mod bytes;
mod counted;
mod lanes;
mod memory;
mod number;
mod sixteen;

pub use arena::FrameArena;
pub use counted::Counted;
