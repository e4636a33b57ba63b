//! Theorems about all lists of items. Each function does nothing; its contract states a theorem.

ghost use Rattle.std.specs.Prelude.{◌≡◌, ℕ, ◌<◌, ◌++◌, ◌∷◌, List, Contains, IsPermutation, Some, None};
ghost use Rattle.collector.specs.Complete.{IsComplete};
ghost use Rattle.collector.specs.Fault.{fault};
ghost use Rattle.collector.specs.Found.{row_at, end_at};
ghost use Rattle.collector.specs.Lists.{IsFull, IsMissing};
ghost use Rattle.rows.specs.declared.item.Item.{Item};
ghost use Rattle.rows.specs.declared.item.Item.TheVariants.{Row, End};
ghost use Rattle.rows.specs.declared.item.Valued.{Valued};

/// If a list of items is complete, none of its items is rejected, in any order of adding.
pub fn complete_is_not_refused()
    ensures { (files : ℕ) (items order held rest : List Item) (item : Item) → IsComplete files items
        → IsPermutation items order → order ≡ held ++ item ∷ rest → fault files held item ≡ None }
{}

/// In a complete list of items nothing is missing, in any order.
pub fn complete_lacks_nothing()
    ensures full { (files : ℕ) (items order : List Item) (file : ℕ) → IsComplete files items
        → IsPermutation items order → file < files → IsFull order file }
    ensures nothing { (files : ℕ) (items order : List Item) (file place : ℕ)
        → IsComplete files items
        → IsPermutation items order → ¬ (IsMissing files order file place) }
{}

/// A complete list of items is complete in any order.
pub fn complete_in_any_order()
    ensures { (files : ℕ) (items order : List Item) → IsComplete files items
        → IsPermutation items order → IsComplete files order }
{}

/// A row that is found for a file and a place is one of the items, and so is an end mark that is found for a file.
pub fn found_is_held()
    ensures row { (items : List Item) (file place : ℕ) (v : Valued)
        → row_at file place items ≡ Some v
        → (v.file ≡ file) × (v.place ≡ place) × Contains items (Row v) }
    ensures end { (items : List Item) (file count : ℕ) → end_at file items ≡ Some count
        → Contains items (End file count) }
{}
