//! Tests of the crates of the host, in a crate above them all: so each of those is proved once. What is
//! printed and read has rows in `golden_host`; these are what no row can show.
#![tactic(auto)]

#[cfg(test)]
mod input;
#[cfg(test)]
mod output;
