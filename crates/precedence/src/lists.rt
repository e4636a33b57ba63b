//! Lists of predecessors, stored or computed lazily, and the ranges of identifiers that represent them.

pub mod arc_counts;
pub mod id_range;
pub mod ids_as_ranges;
pub mod lazy_preds;
pub mod made_lists;
pub mod outside;
pub mod pred_lists;
pub mod predecessors;
pub mod row_ranges;
pub mod same_cone;
