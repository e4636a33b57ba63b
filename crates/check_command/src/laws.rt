//! Theorems about a check of the files that a compile wrote. Each function does nothing; its contract states a theorem.

ghost use Rattle.std.specs.Prelude.{◌≡◌, ℕ, List, Ok};
ghost use Rattle.check_command.specs.Counts.{ReportsCounts, counted};
ghost use Rattle.check_command.specs.WrittenTexts.{ReportsCountsOf, own_counts, texts_of};
ghost use Rattle.mine_instance.specs.Instance.{Instance};
ghost use Rattle.mine_instance.specs.WellFormed.{IsWellFormed};
ghost use Rattle.mine_instance.specs.Valid.{IsValid};

/// A check of an instance's files reports the instance's numbers of blocks, arcs, coefficients and limits, and the number of
/// coefficients of its CPIT. The instance must be valid, which `compile` guarantees for its result. It must have a NAME, and
/// numbers in the range of decimals, which a theorem of mine_instance guarantees for the instance of a plan.
pub fn written_texts_are_counted()
    ensures counted { (i : Instance) → IsValid i → IsWellFormed i
        → counted (texts_of i) ≡ Ok (own_counts i) }
    ensures reported { (i : Instance) (old new : List ℕ) → IsValid i → IsWellFormed i
        → ReportsCounts (texts_of i) old new → ReportsCountsOf i old new }
{
    minelib_text::laws::written_is_read();
    minelib_text::laws::written_cpit_is_read();
    mine_instance::laws::a_valid_instance_has_a_cpit();
    mine_instance::laws::a_well_formed_instance_has_a_well_formed_cpit();
}
