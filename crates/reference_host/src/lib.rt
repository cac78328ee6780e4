//! The definitions of a host (docs/HOST.md) as a slow program, for tests: tenants' maps are lists of bytes,
//! runs are those of the standard's machine, programs are verified by the plain verifier, and pages share
//! frames as the plain definitions say. It has no frames and no memory that pages are merged in. A host is
//! compared with it.
#![tactic(auto)]

mod entries;
mod host;
mod maps;
mod pages;
mod programs;
mod runs;
mod tenant;

pub use host::PlainHost;
