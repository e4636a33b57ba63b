//! Theorems about reduced lists, for all lists. Each contract is a theorem; a call does nothing.

ghost use Rattle.std.specs.Prelude.{◌≡◌, ◌↔◌, ℕ, ◌*◌, ◌<◌, Bool, List, [], All, Contains, length, slice_index_or, ℤ, pos, ◌*ℤ◌, ◌≤ℤ◌};
ghost use Rattle.precedence.specs.Closed.{AreClosed, ComeLater};
ghost use Rattle.precedence.specs.Cone.{preds};
ghost use Rattle.precedence.specs.Zones.{HasZones};
ghost use Rattle.precedence.specs.Numbering.{IsNumbering, NumberingView};
ghost use Rattle.plan_parts.specs.Plan.{PlanParts};
ghost use Rattle.plan_parts.specs.PlanInvariant.{IsCone};
ghost use Rattle.plan_parts.specs.declared.block.Block.{Block};
ghost use Rattle.plan_parts.specs.declared.cone.Cone.{Cone};
ghost use Rattle.fewer_arcs.specs.Reduced.{reduced, reduced_list};
ghost use Rattle.fewer_arcs.specs.ReducedList.{IsReduced, Rise, IsCoveringSet};
ghost use Rattle.fewer_arcs.specs.Mined.{IsMinedInOrder, IsPit, IsSchedule};
ghost use Rattle.fewer_arcs.specs.Optima.{AreBestShares, Fall, IsBestSchedule, IsSharedOut, IsUltimatePit, ShareModel, Shares, pit_value, schedule_value, shares_value};
ghost use Rattle.fewer_arcs.specs.Implied.{AreAmong, HavePaths, AreImplied};

use precedence::laws::{preds_come_later, preds_rise};

/// Guarantees that reduced lists are equivalent to the lists: every transitive relation that holds along each retained arc holds along
/// each arc, because the retained arcs have a path for each arc.
pub fn reduced_lists_imply_all_arcs()
    ensures same { (lists : List (List ℕ)) → ComeLater lists → AreImplied lists (reduced lists) }
    ensures paths { (lists : List (List ℕ)) → ComeLater lists → HavePaths lists (reduced lists) }
{}

/// Guarantees that reduced lists have the same pits.
pub fn pits_are_the_same()
    ensures { (lists : List (List ℕ)) (pit : ℕ → Bool) → ComeLater lists
        → (IsPit (reduced lists) pit ↔ IsPit lists pit) }
{}

/// Guarantees that shares of blocks that are mined by the end of each period, as in CPIT and PCPSP, respect the reduced lists exactly if
/// they respect the lists.
pub fn mined_in_the_same_order()
    ensures { (lists : List (List ℕ)) (mined : ℕ → ℕ → ℕ) → ComeLater lists
        → (IsMinedInOrder (reduced lists) mined ↔ IsMinedInOrder lists mined) }
{}

/// Guarantees that reduced lists have the same schedules of undivided blocks.
pub fn schedules_are_the_same()
    ensures { (lists : List (List ℕ)) (period_of : ℕ → ℕ) → ComeLater lists
        → (IsSchedule (reduced lists) period_of ↔ IsSchedule lists period_of) }
{}

/// Guarantees that reduced lists have the same optima of UPIT, CPIT and PCPSP, for any values, weights of periods and limits.
pub fn optima_are_the_same()
    ensures upit { (lists : List (List ℕ)) (n : ℕ) (value : ℕ → ℤ) (pit : ℕ → Bool) → ComeLater lists
        → (IsUltimatePit (reduced lists) n value pit ↔ IsUltimatePit lists n value pit) }
    ensures cpit { (lists : List (List ℕ)) (is_within : (ℕ → ℕ) → Bool) (n : ℕ) (weight : ℕ → ℕ) (value : ℕ → ℤ) (period_of : ℕ → ℕ)
        → ComeLater lists
        → (IsBestSchedule (reduced lists) is_within n weight value period_of ↔ IsBestSchedule lists is_within n weight value period_of) }
    ensures pcpsp { (lists : List (List ℕ)) (are_within : Shares → Bool) (model : ShareModel) (shares : Shares) → ComeLater lists
        → (AreBestShares (reduced lists) are_within model shares ↔ AreBestShares lists are_within model shares) }
{}

/// Guarantees that no schedule has a larger value than the ultimate pit mined in the first period. The weights of periods must never
/// rise, as with discounting, and must be 0 after the last period. Without discounting, each period's weight is 1. No destination may
/// have a larger value for a block than the block's value in the pit.
pub fn no_schedule_is_worth_more()
    ensures whole { (lists : List (List ℕ)) (n periods : ℕ) (weight : ℕ → ℕ) (value : ℕ → ℤ) (pit : ℕ → Bool) (period_of : ℕ → ℕ)
        → Fall periods weight → IsUltimatePit lists n value pit → IsSchedule lists period_of
        → (schedule_value n weight value period_of) ≤ℤ (pos (weight 0) *ℤ pit_value n value pit) }
    ensures shares { (lists : List (List ℕ)) (model : ShareModel) (value : ℕ → ℤ) (pit : ℕ → Bool) (shares : Shares)
        → Fall model.periods model.weight → IsUltimatePit lists model.blocks value pit
        → IsSharedOut lists model.unit model.destinations shares
        → ((b d : ℕ) → d < model.destinations → (model.value b d) ≤ℤ (value b))
        → (shares_value model shares) ≤ℤ (pos (model.weight 0 * model.unit) *ℤ pit_value model.blocks value pit) }
{}

/// Guarantees that the reduced list of a strictly ascending list is a part of it in its order. Each dropped block is a predecessor of
/// another block of the list, and no retained block is.
pub fn lists_are_reduced()
    ensures { (lists : List (List ℕ)) (b : ℕ) → Rise lists → b < length lists
        → IsReduced lists (slice_index_or lists b []) (slice_index_or (reduced lists) b []) }
{}

/// Guarantees that the reduced list is the only such part of a list.
pub fn reduced_lists_are_unique()
    ensures { (lists : List (List ℕ)) (list one other : List ℕ)
        → IsReduced lists list one → IsReduced lists list other → one ≡ other }
{}

/// Guarantees that a covering set of a list contains the reduced list. In a covering set, each block of the list is a member or a
/// predecessor of a member. Dropping a block only if it is a predecessor of a block retained before it leaves such a set.
pub fn covering_sets_contain_reduced_lists()
    ensures { (lists : List (List ℕ)) (list some : List ℕ) → IsCoveringSet lists list some
        → (c : ℕ) → Contains (reduced_list lists list) c → Contains some c }
{}

/// Guarantees that no retained arc can be dropped, if the lists are closed: every other choice of arcs with a path for each arc of the
/// lists contains it.
pub fn every_retained_arc_is_needed()
    ensures { (lists other : List (List ℕ)) → AreClosed lists
        → AreAmong other lists → HavePaths lists other → AreAmong (reduced lists) other }
{}

/// Guarantees that the predecessor lists of a model are closed, if all zones have the same cone. So none of their retained arcs can be
/// dropped.
pub fn one_cone_is_closed()
    ensures { (plan : PlanParts) (blocks : List Block) (cone : Cone) → IsCone cone → All (λ own. own ≡ cone) plan.cones
        → HasZones plan blocks → AreClosed (preds plan blocks) }
{
    precedence::laws::one_cone_is_closed();
}

/// Guarantees that the predecessor lists of a model meet these conditions: each predecessor has a larger identifier than its block, and
/// each list is strictly ascending.
pub fn preds_come_later_and_rise()
    ensures later { (plan : PlanParts) (listed : List Block) (n : NumberingView)
        → IsNumbering listed n → ComeLater (preds plan n.blocks) }
    ensures rise { (plan : PlanParts) (blocks : List Block) → Rise (preds plan blocks) }
{
    preds_come_later();
    preds_rise();
}
