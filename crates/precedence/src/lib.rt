//! The identifiers of a model's blocks, and the predecessors of each block.
#![tactic(auto)]

mod cones;
mod lanes;
pub mod laws;
mod lists;
mod numbering;
mod places;

pub use lists::id_range::IdRange;
pub use lists::lazy_preds::{LazyPreds, preds};
pub use lists::made_lists::MadeLists;
pub use lists::pred_lists::PredLists;
pub use lists::predecessors::Preds;
pub use numbering::Numbering;
pub use numbering::listed_blocks::ListedBlocks;
pub use numbering::number_by_place::number_blocks;
pub use numbering::number_rows::number;
pub use numbering::same::Same;
