//! Lists of coefficients, stored or computed lazily.

ghost use Rattle.std.specs.Prelude.{◌≡◌, ◌+◌, ◌<◌, ◌≤◌, List, length, take, drop};
ghost use Rattle.mine_instance.specs.coefs.Groups.{coefs_in, pairs_of};

use crate::coefs::coef::Coef;
use crate::coefs::group::{CoefGroup, Pairs};
use plan_parts::listed::Listed;

/// A list of coefficients. `Coefs` stores them, and `LazyCoefs` computes them lazily.
pub trait CoefList {
    ghost use Rattle.mine_instance.specs.declared.coefs.coef.Coef.{Coef};

    ghost list: { Self → List Coef };

    /// Returns the number of coefficients.
    fn len(&self) -> usize
        ensures { result ≡ length (list self.now) };

    /// Returns a group of coefficients from the place `from` on: one or more of one block with the same tonnes. There must be a
    /// coefficient at `from`.
    fn group(&self, from: usize) -> CoefGroup<'_>
        requires { from < length (list self.now) }
        ensures some { 0 < length (pairs_of result.pairs) }
        ensures within { from + length (pairs_of result.pairs) ≤ length (list self.now) }
        ensures value { coefs_in result
            ≡ take (length (pairs_of result.pairs)) (drop from (list self.now)) };
}

impl CoefList for Listed<Coef> {
    ghost list = { λ listed. listed };

    fn len(&self) -> usize {
        self.as_slice().len()
    }

    fn group(&self, from: usize) -> CoefGroup<'_> {
        let Coef { b, d, r, v } = self.as_slice()[from];
        let pairs = Pairs::One([(d, r)]);
        CoefGroup { b, v, pairs }
    }
}
