//! Lists that rise strictly.

ghost use Rattle.std.specs.Prelude.{◌≡◌, ◌↔◌, Bool, IsTrue, AllPairs};

/// Items with an order.
pub trait Ordered {
    ghost before: { Self → Self → Bool };

    fn is_before(&self, other: &Self) -> bool
        ensures { result ≡ before self.now other.now };

    /// Does nothing. Its contract states that the order is transitive.
    fn is_transitive()
        ensures { (x y z : Self) → IsTrue (before x y) → IsTrue (before y z) → IsTrue (before x z) };
}

/// Returns whether each item precedes all later items.
pub fn rises<T: Ordered>(items: &[T]) -> bool
    ensures { IsTrue result ↔ AllPairs (λ item later. IsTrue (T.before item later)) items.now }
{
    T::is_transitive();
    items.is_sorted_by(|item, next| item.is_before(next))
}

impl Ordered for u32 {
    ghost use Rattle.std.specs.Prelude.{nat_lt};

    ghost before = { nat_lt };

    fn is_before(&self, other: &u32) -> bool {
        *self < *other
    }

    #[tactic(auto, using(crate::proofs::OrderLaws::less_is_transitive))]
    fn is_transitive() {}
}
