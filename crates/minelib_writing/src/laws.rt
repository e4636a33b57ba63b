//! Theorems about the files. Each contract is a theorem; a call does nothing.

ghost use Rattle.std.specs.Prelude.{◌≡◌, ◌++◌, [], ◌∷◌, ℤ, List, codes};
ghost use Rattle.std.specs.List.{AllZip};
ghost use Rattle.mine_instance.specs.Instance.{Instance};
ghost use Rattle.minelib_lines.specs.Lines.{text_of};
ghost use Rattle.minelib_writing.specs.TextLaws.{best_lines, IsBest};
ghost use Rattle.minelib_writing.specs.Written.{text_upit, upit_header};

/// Guarantees that a UPIT file has, after its keys, one of each block's values, which none of them exceeds.
#[tactic(auto, using(crate::proofs::BestFacts::upit_is))]
pub fn a_upit_has_the_best_values()
    ensures { (i : Instance) (best : List ℤ) → AllZip IsBest i.values best
        → text_upit i ≡ text_of (upit_header i)
        ++ ((codes "OBJECTIVE_FUNCTION:" ++ 10 ∷ []) ++ best_lines 0 best) }
{}
