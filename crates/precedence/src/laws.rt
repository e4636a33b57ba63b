//! Theorems about identifiers and predecessors for every plan and all blocks. Each contract is a theorem; a call does nothing.

ghost use Rattle.std.specs.Prelude.{◌≡◌, true, ℕ, ◌<◌, ◌≤◌, List, [], All, Contains, filter, length, slice_index_or};
ghost use Rattle.std.specs.List.{range_with_len};
ghost use Rattle.std.specs.List.Sorted.{IsStrictlyIncreasing};
ghost use Rattle.plan_parts.specs.Plan.{PlanParts};
ghost use Rattle.plan_parts.specs.PlanInvariant.{IsCone};
ghost use Rattle.plan_parts.specs.declared.block.Block.{Block};
ghost use Rattle.plan_parts.specs.declared.cone.Cone.{Cone};
ghost use Rattle.plan_parts.specs.declared.cone.Slope.{Slope};
ghost use Rattle.plan_parts.specs.declared.grid.Grid.{Grid};
ghost use Rattle.precedence.specs.Closed.{AreClosed};
ghost use Rattle.precedence.specs.Cone.{is_above, preds};
ghost use Rattle.precedence.specs.ConeLaws.{even_cone, has_pred, is_above_by, preds_by, IsEven};
ghost use Rattle.precedence.specs.Identifier.{comes_before};
ghost use Rattle.precedence.specs.Numbering.{IsNumbering, NumberingView};
ghost use Rattle.precedence.specs.Zones.{HasZones};

/// Guarantees that the identifiers 0, 1, 2, .. are ordered by z, then y, then x: a block with a smaller identifier comes before a block
/// with a larger one.
pub fn identifiers_rise()
    ensures { (listed : List Block) (n : NumberingView) (i k : ℕ) (d : Block) → IsNumbering listed n
        → i < k → k < length listed
        → comes_before (slice_index_or n.blocks i d) (slice_index_or n.blocks k d) ≡ true }
{}

/// Guarantees that a cone with one slope on all sides is the cone of that slope.
pub fn one_slope()
    ensures { (grid : Grid) (slope : Slope) (k : ℕ) (low high : Block) → 1 ≤ slope.q
        → is_above grid (even_cone slope k) low high ≡ is_above_by grid slope k low high }
{}

/// Guarantees that each side of a cone depends only on the slope of that side: x grows to the east, y grows to the north.
#[tactic(auto, using(crate::proofs::LawFacts::east_alone, crate::proofs::LawFacts::west_alone, crate::proofs::LawFacts::north_alone, crate::proofs::LawFacts::south_alone))]
pub fn each_side_has_its_slope()
    ensures east { (grid : Grid) (cone : Cone) (low high : Block) (west : Slope) → low.x < high.x
        → is_above grid (record cone { west = west }) low high ≡ is_above grid cone low high }
    ensures west { (grid : Grid) (cone : Cone) (low high : Block) (east : Slope) → high.x < low.x
        → is_above grid (record cone { east = east }) low high ≡ is_above grid cone low high }
    ensures north { (grid : Grid) (cone : Cone) (low high : Block) (south : Slope) → low.y < high.y
        → is_above grid (record cone { south = south }) low high ≡ is_above grid cone low high }
    ensures south { (grid : Grid) (cone : Cone) (low high : Block) (north : Slope) → high.y < low.y
        → is_above grid (record cone { north = north }) low high ≡ is_above grid cone low high }
{}

/// Guarantees that the predecessor lists equal the lists by the one-slope test, if the cone of each zone has one slope on all sides.
pub fn even_zones()
    ensures { (plan : PlanParts) (blocks : List Block) → All IsCone plan.cones
        → All IsEven plan.cones
        → preds plan blocks ≡ preds_by plan blocks }
{}

/// Guarantees that every predecessor is a block of the model on a higher bench. So no block waits for itself, even through other blocks.
pub fn preds_are_higher()
    ensures { (plan : PlanParts) (blocks : List Block) (i k : ℕ) (d : Block) → i < length blocks
        → Contains (slice_index_or (preds plan blocks) i []) k
        → (k < length blocks) × ((slice_index_or blocks i d).z < (slice_index_or blocks k d).z) }
{}

/// Guarantees that every predecessor has a larger identifier than its block.
pub fn preds_come_later()
    ensures { (plan : PlanParts) (listed : List Block) (n : NumberingView) (b c : ℕ)
        → IsNumbering listed n → Contains (slice_index_or (preds plan n.blocks) b []) c → b < c }
{}

/// Guarantees that each list of predecessors is strictly ascending, so it contains no block twice.
pub fn preds_rise()
    ensures { (plan : PlanParts) (blocks : List Block) (i : ℕ) → i < length blocks
        → IsStrictlyIncreasing (slice_index_or (preds plan blocks) i []) }
{}

/// Guarantees that the predecessors of a block are the identifiers of all listed blocks in its cone, whatever the order of the list.
pub fn preds_are_of_the_list()
    ensures { (plan : PlanParts) (listed : List Block) (n : NumberingView) (i : ℕ) (d : Block)
        → IsNumbering listed n → i < length listed
        → slice_index_or (preds plan n.blocks) i []
        ≡ filter (has_pred plan listed (slice_index_or n.blocks i d))
        (range_with_len 0 (length listed)) }
{}

/// Guarantees that the lists of predecessors are closed, if all zones have the same cone: a predecessor of a block is also a predecessor
/// of each of the block's predecessors from which a path leads to it.
pub fn one_cone_is_closed()
    ensures { (plan : PlanParts) (blocks : List Block) (cone : Cone) → IsCone cone → All (λ own. own ≡ cone) plan.cones
        → HasZones plan blocks → AreClosed (preds plan blocks) }
{}
