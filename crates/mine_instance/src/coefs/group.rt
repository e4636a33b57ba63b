//! Coefficients with the same block and tonnes.

ghost use Rattle.std.specs.Prelude.{◌≡◌, length};
ghost use Rattle.mine_instance.specs.coefs.Groups.{pairs_of};

use pit_units::Dec;

/// A destination and a resource that covers it, by their numbers.
pub type Covering = (u8, u8);

/// Consecutive coefficients of the same block with the same tonnes.
#[derive(Clone, Copy, Debug)]
pub struct CoefGroup<'a> {
    /// The identifier of the block.
    pub b: u32,
    /// The tonnes.
    pub v: Dec,
    /// The destination and the resource of each coefficient.
    pub pairs: Pairs<'a>,
}

/// The destinations and resources of a group's coefficients.
#[derive(Clone, Copy, Debug)]
pub enum Pairs<'a> {
    /// Consecutive covered pairs.
    Covered(&'a [Covering]),
    /// A single pair.
    One([Covering; 1]),
}

impl<'a> Pairs<'a> {
    /// Returns all pairs, in order.
    #[inline(always)]
    pub fn as_slice(&self) -> &[Covering]
        ensures { result.now ≡ pairs_of self.now }
    {
        match self {
            Pairs::Covered(pairs) => pairs,
            Pairs::One(pair) => pair.as_slice(),
        }
    }

    /// Returns the number of pairs.
    #[inline(always)]
    pub fn len(&self) -> usize
        ensures { result ≡ length (pairs_of self.now) }
    {
        self.as_slice().len()
    }
}
