//! The limits that a plan sets on its resources.

ghost use Rattle.std.specs.Prelude.{◌≡◌};
ghost use Rattle.plan_parts.specs.PlanInvariant.{is_turned, stands_before};

use pit_units::Dec;

/// The bound of a limit on the tonnes that a resource handles in a period. In a plan each number of tonnes is 0 to 10^12, in a MineLib file any
/// decimal.
#[derive(Clone, Copy, Debug, PartialEq, Eq)]
pub enum Bound {
    /// At most this number of tonnes.
    AtMost(Dec),
    /// At least this number of tonnes.
    AtLeast(Dec),
    /// From the first number of tonnes to the second, which is not smaller.
    Between(Dec, Dec),
}

impl Bound {
    /// Returns whether the lower end of an interval is above its upper end.
    pub fn is_turned(&self) -> bool
        ensures { result ≡ is_turned self.now }
    {
        match self {
            Bound::Between(low, high) => low.millionths() > high.millionths(),
            Bound::AtMost(_) => false,
            Bound::AtLeast(_) => false,
        }
    }
}

/// A limit on a resource in a period.
#[derive(Clone, Copy, Debug, PartialEq, Eq)]
pub struct Limit {
    /// The number of the resource, from 0 in the order of the plan.
    pub resource: u8,
    /// The number of the period, from 0.
    pub period: u8,
    /// The tonnes that the resource may or must handle in the period.
    pub bound: Bound,
}

impl Limit {
    /// Returns whether the limit precedes another: by resource, then by period.
    pub fn stands_before(&self, other: &Limit) -> bool
        ensures { result ≡ stands_before self.now other.now }
    {
        self.resource < other.resource
            || (self.resource == other.resource && self.period < other.period)
    }
}
