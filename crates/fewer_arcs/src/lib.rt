//! Reduced lists of predecessors: a predecessor of a block is dropped if it is also a predecessor of another of the block's predecessors.
#![tactic(auto)]

pub mod laws;
mod reduced_preds;

pub use reduced_preds::ReducedPreds;
