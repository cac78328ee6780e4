//! Tests of the standard's machine, in a crate above it: so it is proved once. What accepted programs
//! return, on it and on the host, has rows in `golden_results` and `golden_maps`.
#![tactic(auto)]

#[cfg(test)]
mod machine;
#[cfg(test)]
mod text;
