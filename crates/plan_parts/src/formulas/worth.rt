//! The worth of a block in cents.

ghost use Rattle.std.specs.Prelude.{◌≡◌, ◌≤◌, ◌*◌, ◌^◌};
ghost use Rattle.plan_parts.specs.formulas.Worth.{mill, leach, dump, floor};
ghost use Rattle.plan_parts.specs.formulas.WorthRange.{IsWorth};
ghost use Rattle.plan_parts.specs.declared.ranges.TheConstants.{MAX_COST, MAX_PRICE, MAX_RECOVERY};

use crate::block::Block;
use crate::formulas::band::Bands;

/// Returns the worth in cents of a block at a mill, rounded down, also below zero. The mill recovers `recovery` per mille of the metal, which
/// sells for `price` cents per kilogram, and a tonne of the block costs `cost` cents.
pub fn mill_worth(block: Block, recovery: u16, price: u64, cost: u64) -> i128
    requires recovery { recovery ≤ MAX_RECOVERY }
    requires price { price ≤ MAX_PRICE }
    requires cost { cost ≤ MAX_COST }
    ensures value { result ≡ mill block recovery price cost }
    ensures in_range { IsWorth result }
{
    let earned = metal_value(block, recovery, price);
    let spent = processing_cost(block, cost);
    in_cents(earned as i128 - spent as i128)
}

/// Returns the worth of a block on a heap leach: the worth at a mill with the recovery of the last band that begins at or below the block's
/// grade, or with recovery 0 if the first band begins above it.
pub fn leach_worth(block: Block, bands: &Bands, price: u64, cost: u64) -> i128
    requires price { price ≤ MAX_PRICE }
    requires cost { cost ≤ MAX_COST }
    ensures value { result ≡ leach block bands.now price cost }
    ensures in_range { IsWorth result }
{
    mill_worth(block, bands.recovery(block.grade), price, cost)
}

/// Returns the worth in cents of a block on a dump that costs `cost` cents per tonne, rounded down. It is never above zero.
pub fn dump_worth(block: Block, cost: u64) -> i128
    requires { cost ≤ MAX_COST }
    ensures value { result ≡ dump block cost }
    ensures in_range { IsWorth result }
{
    let spent = (block.kg * cost) as i64;
    i128::from((-spent).div_euclid(1000))
}

// Converts 10^-15 cents to cents, rounded down. If the number divided by 2^15 fits into 64 bits, divides in 64 bits.
#[tactic(auto, using(crate::proofs::WorthFacts::floor_twice))]
fn in_cents(parts: i128) -> i128
    ensures { result ≡ floor parts (10 ^ 15) }
{
    let coarse = parts >> 15;
    match i64::try_from(coarse) {
        Ok(few) => i128::from(few.div_euclid(30_517_578_125)),
        Err(_) => coarse.div_euclid(30_517_578_125),
    }
}

// Returns the price of a block's recovered metal, in 10^-15 cents.
#[tactic(auto, using(crate::proofs::WorthFacts::metal_bound))]
fn metal_value(block: Block, recovery: u16, price: u64) -> u128
    requires recovery { recovery ≤ MAX_RECOVERY }
    requires price { price ≤ MAX_PRICE }
    ensures value { result ≡ block.kg * block.grade * recovery * price }
    ensures in_range { result ≤ 10 ^ 32 }
{
    block.kg as u128 * block.grade as u128 * recovery as u128 * price as u128
}

// Returns the cost of processing a block, in 10^-15 cents.
fn processing_cost(block: Block, cost: u64) -> u128
    requires { cost ≤ MAX_COST }
    ensures value { result ≡ block.kg * cost * 10 ^ 12 }
    ensures in_range { result ≤ 10 ^ 28 }
{
    block.kg as u128 * cost as u128 * 1_000_000_000_000
}
