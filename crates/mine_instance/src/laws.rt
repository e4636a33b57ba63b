//! Theorems about all instances. Each function does nothing; its contract states a theorem.

ghost use Rattle.std.specs.Prelude.{◌≡◌, true, List, All};
ghost use Rattle.std.specs.List.{AllZip};
ghost use Rattle.plan_parts.specs.Name.{is_name};
ghost use Rattle.plan_parts.specs.Plan.{PlanParts};
ghost use Rattle.plan_parts.specs.PlanFormulas.{formulas_of_plan};
ghost use Rattle.rows.specs.Valued.{worths_by};
ghost use Rattle.plan_parts.specs.PlanInvariant.{IsCone, IsPlan};
ghost use Rattle.plan_parts.specs.declared.block.Block.{Block};
ghost use Rattle.precedence.specs.ConeLaws.{IsEven};
ghost use Rattle.mine_instance.specs.cpit.CpitInvariant.{IsCpit};
ghost use Rattle.mine_instance.specs.Instance.{Instance};
ghost use Rattle.mine_instance.specs.WellFormed.{IsWellFormed, IsWellFormedCpit};
ghost use Rattle.mine_instance.specs.cpit.OfCpit.{cpit};
ghost use Rattle.mine_instance.specs.Hundreds.{IsWorthCents};
ghost use Rattle.mine_instance.specs.OfModel.{instance, values_of};
ghost use Rattle.mine_instance.specs.OneSlope.{instance_by};
ghost use Rattle.mine_instance.specs.Valid.{IsValid};

/// If the cone of each zone has one slope on all sides, the instance is the one by the test for one slope. So is each text of it,
/// since a text depends on the instance alone.
pub fn even_zones()
    ensures { (plan : PlanParts) (listed : List Block) → All IsCone plan.cones
        → All IsEven plan.cones
        → instance plan listed ≡ instance_by plan listed }
{
    precedence::laws::even_zones();
}

/// A value of a block times 100 cents is the block's worth: values are in millionths of 100 cents.
#[tactic(auto, using(crate::proofs::HundredsFacts::values_are_worth))]
pub fn values_are_hundreds_of_cents()
    ensures { (plan : PlanParts) (b : Block)
        → AllZip IsWorthCents (worths_by (formulas_of_plan plan) b) (values_of plan b) }
{}

/// The CPIT of a valid instance has its lengths, ranges and orders.
#[tactic(auto, using(crate::proofs::CpitFacts::cpit_is_one))]
pub fn a_valid_instance_has_a_cpit()
    ensures { (i : Instance) → IsValid i → IsCpit (cpit i) }
{}

/// The instance of a plan has a NAME, and its numbers are in the range of decimals, if the plan has a NAME and is in range. So
/// readers return an instance that was built from a plan unchanged, once it is written.
pub fn an_instance_of_a_plan_is_well_formed()
    ensures { (plan : PlanParts) (listed : List Block) → is_name plan.name ≡ true → IsPlan plan
        → IsWellFormed (instance plan listed) }
{}

/// If an instance has a NAME and its numbers are in the range of decimals, so does its CPIT.
#[tactic(auto, using(crate::proofs::WellFormedLaws::cpit_well_formed))]
pub fn a_well_formed_instance_has_a_well_formed_cpit()
    ensures { (i : Instance) → IsWellFormed i → IsWellFormedCpit (cpit i) }
{}
