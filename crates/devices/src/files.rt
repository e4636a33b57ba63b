//! Opens and creates files by their paths, and does nothing else with files.

pub mod asked;
pub mod file_access;
pub mod file_slot;
pub mod opener;
pub mod system_files;
pub mod system_slots;
