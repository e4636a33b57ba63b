//! Items as a valuer packs them: entries, and one list of their worths.

pub mod entry;
pub mod items;
pub mod worths;
