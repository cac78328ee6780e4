//! The turn: one memory that many threads take, change and give back, each with a seat of its own.
//! A seat knows its tenant's part of the memory, and what it knows outlives the turns of all others.
#![tactic(auto)]

mod bell;
mod boxed;
mod held;
mod rule;
mod seat;
mod turn;
mod view;

pub use held::Held;
pub use seat::{HostSeat, Kind, OfHost, OfScanner, OfTenant, ScanSeat, Seat, SeatOf};
pub use turn::Turn;
pub use view::View;
