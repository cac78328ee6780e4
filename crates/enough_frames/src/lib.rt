//! Enough frames: in a host that has two frames for each page of its maps, and two more, no call is refused for lack of frames.
#![tactic(auto)]

mod laws;

pub use laws::calls_have_frames;
