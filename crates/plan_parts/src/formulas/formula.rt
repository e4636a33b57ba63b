//! How a destination values a block.

ghost use Rattle.std.specs.Prelude.{◌≡◌, IfOk, OnErr};
ghost use Rattle.plan_parts.specs.formulas.Formula.{IsFormulaInRange};
ghost use Rattle.plan_parts.specs.formulas.FormulaCopy.{HasBands};
ghost use Rattle.plan_parts.specs.formulas.Worth.{worth};
ghost use Rattle.plan_parts.specs.formulas.WorthRange.{IsWorth};

use crate::block::Block;
use crate::formulas::band::Bands;
use crate::formulas::worth::{dump_worth, leach_worth, mill_worth};
use crate::name::Name;
use std::alloc::{AllocError, Global};

/// How a destination values a block. The numbers of a plan's formulas are in range; functions that use a formula
/// require this.
///
/// `==` returns whether two formulas are of the same kind and have the same numbers.
#[derive(Debug, Drop, PartialEq, Eq)]
pub enum Formula {
    /// A mill. It recovers `recovery` per mille of the metal, 0 to 1000. The metal sells for `price` cents per kilogram, 0 to 10^8. A tonne of
    /// the block costs `cost` cents, 0 to 10^7.
    Mill {
        recovery: u16,
        price: u64,
        cost: u64,
    },
    /// A heap leach: like a mill, with the recovery of the band that holds the block's grade.
    Leach {
        bands: Bands,
        price: u64,
        cost: u64,
    },
    /// Waste: the block costs `cost` cents per tonne, 0 to 10^7.
    Dump {
        cost: u64,
    },
}

impl Formula {
    /// Copies the formula. Only a leach allocates memory; fails only if memory is refused.
    pub fn copy(&self, alloc: Global) -> Result<Formula, AllocError>
        ensures value { IfOk result (λ f. f ≡ self.now) }
        ensures memory { OnErr result (HasBands self.now) }
    {
        Ok(match self {
            Formula::Mill {
                recovery,
                price,
                cost,
            } => Formula::Mill {
                recovery: *recovery,
                price: *price,
                cost: *cost,
            },
            Formula::Leach { bands, price, cost } => Formula::Leach {
                bands: bands.copy(alloc)?,
                price: *price,
                cost: *cost,
            },
            Formula::Dump { cost } => Formula::Dump { cost: *cost },
        })
    }

    /// Returns the worth of a block by this formula, in cents.
    pub fn worth(&self, block: Block) -> i128
        requires { IsFormulaInRange self.now }
        ensures value { result ≡ worth self.now block }
        ensures in_range { IsWorth result }
    {
        match self {
            Formula::Mill {
                recovery,
                price,
                cost,
            } => mill_worth(block, *recovery, *price, *cost),
            Formula::Leach { bands, price, cost } => leach_worth(block, bands, *price, *cost),
            Formula::Dump { cost } => dump_worth(block, *cost),
        }
    }
}

/// A destination of the plan: its NAME and its formula.
#[derive(Debug, Drop)]
pub struct NamedFormula {
    pub name: Name,
    pub formula: Formula,
}
