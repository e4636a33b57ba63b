//! Theorems about the definitions that contracts use. Each function does nothing; its contract states a theorem.

ghost use Rattle.std.specs.Prelude.{◌≡◌, ◌↔◌, IsTrue, false, ℕ, ℤ, ◌<◌, ◌≤ℤ◌, List, All, Contains};
ghost use Rattle.plan_parts.specs.formulas.Bands.{recovery_at};
ghost use Rattle.plan_parts.specs.formulas.BandsInvariant.{AreBands};
ghost use Rattle.plan_parts.specs.formulas.Formula.{IsFormulaInRange};
ghost use Rattle.plan_parts.specs.Name.{is_name_byte};
ghost use Rattle.plan_parts.specs.PartLaws.{name_bytes, place_of, Earns, IsBandOf, KeepsBound};
ghost use Rattle.plan_parts.specs.PlanInvariant.{is_turned, stands_before};
ghost use Rattle.plan_parts.specs.formulas.Worth.{floor, worth};
ghost use Rattle.plan_parts.specs.formulas.WorthRange.{IsFloor, IsWorth};
ghost use Rattle.plan_parts.specs.declared.formulas.band.Band.{Band};
ghost use Rattle.plan_parts.specs.declared.block.Block.{Block};
ghost use Rattle.plan_parts.specs.declared.formulas.formula.Formula.{Formula as AFormula};
ghost use Rattle.plan_parts.specs.declared.limit.Bound.{Bound};
ghost use Rattle.plan_parts.specs.declared.limit.Limit.{Limit};
ghost use Rattle.plan_parts.specs.declared.ranges.TheConstants.{MAX_PERIODS};

use crate::formulas::formula::Formula;

/// The floor of a division is the only integer `q` with `q * n <= a < q * n + n`.
#[tactic(auto, using(crate::proofs::WorthFacts::floor_is, crate::proofs::WorthFacts::floor_alone))]
pub fn floors_go_down()
    ensures floor { (a : ℤ) (n : ℕ) → 0 < n → IsFloor (floor a n) a n }
    ensures alone { (q a : ℤ) (n : ℕ) → 0 < n → IsFloor q a n → q ≡ floor a n }
{}

/// At a grade, a leach has the recovery of the grade's band, and 0 if all bands begin above the grade.
#[tactic(auto, using(crate::proofs::BandFacts::recovers_nothing))]
pub fn a_leach_recovers_by_the_band_of_the_grade()
    ensures band { (bands : List Band) (grade : ℕ) (b : Band) → AreBands bands → IsBandOf bands grade b
        → recovery_at bands grade ≡ b.recovery }
    ensures below { (bands : List Band) (grade : ℕ) → All (λ b. grade < b.start) bands → recovery_at bands grade ≡ 0 }
{}

/// The worth of a block is the largest integer number of cents by which the price of its recovered metal exceeds its cost.
#[tactic(auto, using(crate::proofs::WorthFacts::worth_earned, crate::proofs::WorthFacts::worth_largest))]
pub fn a_worth_is_the_most_that_is_earned()
    ensures earned { (f : AFormula) (b : Block) → Earns f b (worth f b) }
    ensures most { (f : AFormula) (b : Block) (cents : ℤ) → Earns f b cents → cents ≤ℤ worth f b }
{}

/// If a formula is in range, the worth of each block by it is within 10^17 cents of zero.
#[tactic(auto, using(crate::proofs::WorthFacts::worth_bound))]
pub fn worths_are_in_range()
    ensures { (f : AFormula) (b : Block) → IsFormulaInRange f → IsWorth (worth f b) }
{}

/// A byte is a byte of NAMEs if and only if it is one of these 65. So a NAME is one cell and one field, and has no slash.
#[tactic(auto, using(crate::proofs::Names::among, crate::proofs::Names::from_among))]
pub fn names_have_few_bytes()
    ensures { (b : ℕ) → IsTrue (is_name_byte b) ↔ Contains name_bytes b }
{}

/// The lower end of a bound is not above its upper end if and only if some number of tonnes is within the bound.
#[tactic(auto, using(crate::proofs::LimitFacts::kept_by, crate::proofs::LimitFacts::straight))]
pub fn straight_bounds_can_be_kept()
    ensures { (b : Bound) → (is_turned b ≡ false) ↔ ((tonnes : ℤ) × KeepsBound b tonnes) }
{}

/// Limits are in the order of a table that lists all periods of the first resource, then all of the second, and so on.
#[tactic(auto, using(crate::proofs::LimitFacts::by_place))]
pub fn limits_stand_by_place()
    ensures { (l m : Limit) → l.period < MAX_PERIODS → m.period < MAX_PERIODS
        → IsTrue (stands_before l m) ↔ (place_of l < place_of m) }
{}

/// `==` of formulas returns whether they are the same.
#[tactic(auto, using(crate::specs::inner::Equality::bands_decided))]
pub fn equal_formulas_are_the_same()
    ensures { (f g : AFormula) → IsTrue (⟦<Formula as PartialEq>⟧.eq f g) ↔ (f ≡ g) }
{}
