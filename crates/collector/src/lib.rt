//! Collects the rows of a model: valued rows and end marks, which arrive in any order, become one list for each file. Duplicates
//! and items that do not belong are rejected.
#![tactic(auto)]

mod add_fault;
mod by_place;
mod collector;
mod file_items;
pub mod laws;
mod missing;
mod ordering;

pub use add_fault::AddFault;
pub use collector::Collector;
pub use missing::Missing;
pub use ordering::in_order;
pub use rows::Rows;
