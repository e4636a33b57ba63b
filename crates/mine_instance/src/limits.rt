//! The limits of an instance.

use crate::rising::Ordered;
use plan_parts::limit::Limit;
use plan_parts::listed::Listed;

/// Limits, in rising order of resource and period.
pub type Limits = Listed<Limit>;

impl Ordered for Limit {
    ghost use Rattle.plan_parts.specs.PlanInvariant.{stands_before};

    ghost before = { stands_before };

    fn is_before(&self, other: &Limit) -> bool {
        self.stands_before(other)
    }

    #[tactic(auto, using(crate::proofs::OrderLaws::stands_before_is_transitive))]
    fn is_transitive() {}
}
