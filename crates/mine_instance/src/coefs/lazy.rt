//! Coefficients that are computed lazily.

ghost use Rattle.std.specs.Prelude.{◌≡◌, ◌*◌, ◌≤◌, ◌++◌, pos, IfOk, OnOk, length};
ghost use Rattle.mine_instance.specs.coefs.CoveredPairs.{coefs_of};
ghost use Rattle.mine_instance.specs.inner.LazyCoefFields.{heavy_of, heavy_one};
ghost use Rattle.plan_parts.specs.declared.ranges.TheConstants.{MAX_BLOCKS, MAX_DESTINATIONS, MAX_RESOURCES};

use crate::coefs::group::{CoefGroup, Covering, Pairs};
use crate::coefs::list::CoefList;
use pit_units::Dec;
use plan_parts::block::Block;
use std::alloc::{AllocError, Global};
use std::marker::Model;

/// A block that has tonnage.
#[derive(Clone, Copy, Debug)]
struct HeavyBlock {
    // The identifier.
    b: u32,
    // 32 bits hold the kilograms of a block, which are at most 10^9.
    kg: u32,
}

impl HeavyBlock {
    #[inline(always)]
    fn tonnes(&self) -> Dec
        ensures { result ≡ pos (self.now.kg * 1000) }
    {
        Dec::new(i128::from(self.kg) * 1000).unwrap()
    }
}

/// The coefficients of blocks: one for each block that has tonnage and each covered pair of a destination and a resource. Stores 8
/// bytes for each such block instead of the coefficients. Contracts see the list of coefficients.
#[derive(Debug, Drop)]
pub struct LazyCoefs {
    heavy: Vec<HeavyBlock>,
    pairs: Vec<Covering>,
}

impl Model for LazyCoefs {
    ghost use Rattle.std.specs.Prelude.{List};
    ghost use Rattle.mine_instance.specs.declared.coefs.coef.Coef.{Coef as ACoef};
    ghost use Rattle.mine_instance.specs.inner.LazyCoefFields.{lazy_coefs_of, KeepsFew};

    ghost Value = { List ACoef };

    ghost view = { lazy_coefs_of };

    ghost invariant = { KeepsFew };
}

impl LazyCoefs {
    /// Makes the coefficients of these blocks, in order of identifier, at these pairs. Fails only if memory is refused.
    pub fn new(
        alloc: Global,
        pairs: Vec<Covering>,
        blocks: &[Block],
    ) -> Result<LazyCoefs, AllocError>
        requires blocks { length blocks.now ≤ MAX_BLOCKS }
        requires pairs { length pairs.items ≤ MAX_DESTINATIONS * MAX_RESOURCES }
        ensures { IfOk result (λ lazy. lazy ≡ coefs_of pairs.items blocks.now) }
    {
        if pairs.is_empty() {
            let heavy = Vec::new(alloc);
            return Ok(LazyCoefs { heavy, pairs });
        }
        let heavy = heavy_of(alloc, blocks)?;
        Ok(LazyCoefs { heavy, pairs })
    }
}

impl CoefList for LazyCoefs {
    ghost list = { λ lazy. lazy };

    #[tactic(auto, using(crate::proofs::LazyFacts::counts))]
    fn len(&self) -> usize {
        self.heavy.len() * self.pairs.len()
    }

    fn group(&self, from: usize) -> CoefGroup<'_> {
        let width = self.pairs.len();
        let block = &self.heavy[from / width];
        let (_, pairs) = self.pairs.as_slice().split_at(from % width);
        CoefGroup {
            b: block.b,
            v: block.tonnes(),
            pairs: Pairs::Covered(pairs),
        }
    }
}

fn heavy_of(alloc: Global, blocks: &[Block]) -> Result<Vec<HeavyBlock>, AllocError>
    requires { length blocks.now ≤ MAX_BLOCKS }
    ensures { IfOk result (λ heavy. heavy.items ≡ heavy_of blocks.now) }
{
    let count = blocks.iter().filter(|block| block.kg != 0).count();
    let mut heavy = Vec::with_capacity(alloc, count)?;
    for (id, block) in blocks.iter().enumerate() {
        push_if_heavy(&mut heavy, id as u32, block)?;
    }
    Ok(heavy)
}

fn push_if_heavy(heavy: &mut Vec<HeavyBlock>, b: u32, block: &Block) -> Result<(), AllocError>
    ensures { OnOk result (heavy.new.items ≡ heavy.old.items ++ heavy_one (b, block.now)) }
{
    if block.kg != 0 {
        let kg = block.kg as u32;
        heavy.push(HeavyBlock { b, kg })?;
    }
    Ok(())
}
