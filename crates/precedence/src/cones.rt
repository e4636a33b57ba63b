//! The rows of cones, the numbers of blocks in them, and the tables of cone rows by zone.

pub mod block_cones;
pub mod bounds;
pub mod cone_rows;
pub mod cone_table;
pub mod counting;
pub mod row_making;
pub mod widths;
pub mod zone_tables;
