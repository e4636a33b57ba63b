//! Feeds, which give bytes, and a reader that reads a feed to its end.

pub mod fed_fault;
pub mod feed;
pub mod file_feed;
pub mod filling;
pub mod mem_feed;
pub mod read_feed;
pub mod single_read;
pub mod slice_feed;
pub mod slurp;
