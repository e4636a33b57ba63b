//! The tonnes that a block adds to a resource if it goes to a destination.

ghost use Rattle.std.specs.Prelude.{◌≡◌};
ghost use Rattle.mine_instance.specs.Order.{coef_before};

use crate::rising::Ordered;
use pit_units::Dec;
use plan_parts::listed::Listed;

/// The tonnes of a block that a resource handles if the block goes to a destination.
#[derive(Clone, Copy, Debug, PartialEq, Eq)]
pub struct Coef {
    /// The identifier of the block.
    pub b: u32,
    /// The number of the destination, from 0 in the order of the plan.
    pub d: u8,
    /// The number of the resource, from 0 in the order of the plan.
    pub r: u8,
    /// The tonnes. In a file that was read, any decimal, including negative ones.
    pub v: Dec,
}

/// Stored coefficients, in rising order of block, destination and resource.
pub type Coefs = Listed<Coef>;

impl Coef {
    /// Returns whether the coefficient precedes another one: by block, then destination, then resource.
    pub fn comes_before(&self, other: &Coef) -> bool
        ensures { result ≡ coef_before self.now other.now }
    {
        self.b < other.b
            || (self.b == other.b && (self.d < other.d || (self.d == other.d && self.r < other.r)))
    }
}

impl Ordered for Coef {
    ghost use Rattle.mine_instance.specs.Order.{coef_before};

    ghost before = { coef_before };

    fn is_before(&self, other: &Coef) -> bool {
        self.comes_before(other)
    }

    #[tactic(auto, using(crate::proofs::OrderLaws::coef_before_is_transitive))]
    fn is_transitive() {}
}
