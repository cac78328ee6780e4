//! The pages that wait for another page of the same bytes, in order of insertion, and the search for
//! the earliest one of given bytes. No call but `UnstableTree::reserve` takes memory or can fail.
#![tactic(auto)]

mod tree;

pub use tree::{UnstableTree, Waiter};
