//! Calls on one memory that many threads share: each takes the turn, makes one call of the memory, and
//! gives the turn back.
#![tactic(auto)]

mod gate;
mod host;
mod maps;
mod plans;
mod programs;
mod replies;
mod run;
mod scan;
mod service;
mod shared;
mod steps;
mod threads;

pub use gate::{Gate, Open, Passed};
pub use plans::{Plan, ScanPlan, TenantPlan};
pub use service::serve;
pub use shared::Shared;
