//! Theorems about the definitions that contracts name. Each function does nothing; its contract states a theorem.

ghost use Rattle.std.specs.Prelude.{◌≡◌, ◌↔◌, ◌⊎◌, ◌≤◌, ℕ, ℤ, List, ◌∷◌, Ok, Err, Some, false};
ghost use Rattle.std.specs.List.{list_any};
ghost use Rattle.std.specs.List.Sorted.{IsPermutation};
ghost use Rattle.plan_parts.specs.Plan.{PlanParts};
ghost use Rattle.plan_parts.specs.PlanInvariant.{IsPlan, RiseStrictly};
ghost use Rattle.pit_units.specs.EncodedNumbers.{EncodesBelow, EncodesInteger, EncodesNumber};
ghost use Rattle.pit_model.specs.AddedParts.{AddsPart};
ghost use Rattle.pit_model.specs.FailedParts.{PartFails};
ghost use Rattle.pit_model.specs.PlanKeys.{IsKey, key_of};
ghost use Rattle.pit_model.specs.PlanRecords.{key_record};
ghost use Rattle.pit_model.specs.Planned.{planned};
ghost use Rattle.pit_model.specs.EncodedCells.{EncodesOrigin, EncodesSize, IsNameOf};
ghost use Rattle.pit_model.specs.EncodedPlan.{EncodePlan, IsFirstFault, IsFirstSpoiled, IsLacking};
ghost use Rattle.records.specs.Records.{records_of};
ghost use Rattle.pit_model.specs.Stated.{Stated, is_same_place, nothing_stated, with_limit};
ghost use Rattle.pit_model.specs.StatedCells.{below_in, integer_in, name_in, number_in, origin_in, size_in};
ghost use Rattle.plan_parts.specs.declared.limit.Limit.{Limit};
ghost use Rattle.pit_model.specs.declared.plan_fault.PlanFault.{PlanFault};
ghost use Rattle.pit_model.specs.declared.plan_fault.PlanFaultKind.{PlanFaultKind};
ghost use Rattle.pit_model.specs.declared.plan_key.PlanKey.{PlanKey};

pub use plan_parts::laws::{floors_go_down, worths_are_in_range};

/// A text states a plan if and only if its records encode the plan: each record adds the part that its cells encode to the earlier
/// ones, and no required part is missing.
pub fn plans_are_encoded()
    ensures { (text : List ℕ) (p : PlanParts)
        → (planned text ≡ Ok p) ↔ EncodePlan (records_of text) p }
{}

/// A text has a fault in exactly two cases. Either the fault's record is the first that adds nothing to the earlier records, and
/// its kind is the kind of the first requirement that the record violates. Or each record adds something, and a required part is
/// missing. In the first case no records after the invalid record make a plan with the records up to it (`spoiled`).
pub fn faults_are_first()
    ensures first { (text : List ℕ) (fault : PlanFault)
        → (planned text ≡ Err fault)
        ↔ (IsFirstFault 1 nothing_stated (records_of text) fault
        ⊎ IsLacking (records_of text) fault) }
    ensures spoiled { (text : List ℕ) (fault : PlanFault) → planned text ≡ Err fault
        → IsFirstSpoiled (records_of text) fault.row ⊎ IsLacking (records_of text) fault }
{}

/// A record with a key states something if and only if its cells encode the part that the key names, and the part may be added. It
/// adds this part, and changes no other part.
pub fn records_add_what_they_encode()
    ensures { (k : PlanKey) (s next : Stated) (cells : List (List ℕ))
        → (key_record (Some k) s cells ≡ Ok next) ↔ AddsPart k s cells next }
{}

/// A record with a key has a fault if and only if it violates a requirement; the kind is the first violated requirement's. The
/// requirements are, in order: its width, its cells from left to right, that what it adds is new, its order, and that there are
/// fewer parts than the maximum (`kinds`). Such a record adds no part (`nothing`).
pub fn invalid_records_add_nothing()
    ensures kinds { (k : PlanKey) (s : Stated) (cells : List (List ℕ)) (kind : PlanFaultKind)
        → (key_record (Some k) s cells ≡ Err kind) ↔ PartFails k s cells kind }
    ensures nothing { (k : PlanKey) (s next : Stated) (cells : List (List ℕ)) (kind : PlanFaultKind)
        → PartFails k s cells kind → ¬ (AddsPart k s cells next) }
{}

/// A cell is a key if and only if it is the key's word, in upper or lower case.
pub fn keys_are_words()
    ensures { (cell : List ℕ) (k : PlanKey) → (key_of cell ≡ Some k) ↔ IsKey cell k }
{}

/// Inserting a limit in order keeps all others (`kept`). If limits rise by resource and then period, and none has the new limit's
/// resource and period, they still rise after it is inserted (`placed`).
#[tactic(auto, using(crate::proofs::Limits::with_limit_keeps, crate::proofs::Limits::rises))]
pub fn limits_are_kept()
    ensures kept { (l : Limit) (ms : List Limit) → IsPermutation (l ∷ ms) (with_limit l ms) }
    ensures placed { (l : Limit) (ms : List Limit) → RiseStrictly ms
        → list_any (λ m. is_same_place l m) ms ≡ false → RiseStrictly (with_limit l ms) }
{}

/// A plan that records encode is in range like every plan.
pub fn encoded_is_plan()
    ensures { (rows : List (List (List ℕ))) (p : PlanParts) → EncodePlan rows p → IsPlan p }
{}

/// Reading a cell returns exactly what the cell encodes: a number with at most `decimals` decimals in a range, an integer in a
/// range or below a limit, an origin or a size in metres, or a NAME.
pub fn cells_are_encoded()
    ensures numbers { (decimals : ℕ) (low high : ℤ) (cell : List ℕ) (m : ℤ) → decimals ≤ 6
        → (number_in decimals low high cell ≡ Ok m) ↔ EncodesNumber decimals low high cell m }
    ensures whole { (low high : ℕ) (cell : List ℕ) (n : ℕ)
        → (integer_in low high cell ≡ Ok n) ↔ EncodesInteger low high cell n }
    ensures below { (limit : ℕ) (cell : List ℕ) (n : ℕ)
        → (below_in limit cell ≡ Ok n) ↔ EncodesBelow limit cell n }
    ensures origins { (cell : List ℕ) (mm : ℤ) → (origin_in cell ≡ Ok mm) ↔ EncodesOrigin cell mm }
    ensures sizes { (cell : List ℕ) (mm : ℕ) → (size_in cell ≡ Ok mm) ↔ EncodesSize cell mm }
    ensures names { (cell name : List ℕ) → (name_in cell ≡ Ok name) ↔ IsNameOf cell name }
{}
