//! Rows with their worths, as valuers return them, and the lists that hold the rows of a file and of all files.
#![tactic(auto)]

mod item;
mod item_key;
mod item_ref;
mod items;
mod keeps;
mod long_lists;
mod packed;
mod row_lists;
mod row_worths;
mod worths;

pub use item::{Item, Rows, Valued};
pub use item_key::ItemKey;
pub use item_ref::{ItemRef, LISTS, POSITIONS};
pub use items::Items;
pub use keeps::Keeps;
pub use packed::items::PackedItems;
pub use row_lists::RowLists;
pub use row_worths::RowWorths;
pub use worths::{MAX_WORTHS, Worths};
