//! The groups of pages that share frames, as chains of one content each, at the nodes of a balanced tree. A
//! content is found by one way down the tree. No call but `StableTree::reserve` takes memory or can fail.
#![tactic(auto)]

mod dups;
mod spot;
mod store;
mod tree;

pub use spot::Spot;
pub use tree::StableTree;
