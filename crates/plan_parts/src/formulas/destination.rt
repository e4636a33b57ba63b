//! A destination: a formula, and a stored closure that values blocks by the formula.

ghost use Rattle.std.specs.Prelude.{◌≡◌, ℤ};
ghost use Rattle.plan_parts.specs.formulas.Formula.{IsFormulaInRange};
ghost use Rattle.plan_parts.specs.inner.InRangeOnce.{IsFormulaInRange-prop};
ghost use Rattle.plan_parts.specs.formulas.Worth.{worth};
ghost use Rattle.plan_parts.specs.formulas.WorthRange.{IsWorth};
ghost use Rattle.plan_parts.specs.declared.block.Block.{Block as ABlock};

use crate::block::Block;
use crate::formulas::formula::Formula;

/// A closure on the heap that values blocks. It can move to another thread and be called by several threads at once.
pub type Valuer = Box<dyn Fn(Block) -> i128 + Send + Sync>;

/// A destination: its formula, and a closure that can be called for every block and returns the formula's worth. It also stores the
/// proof of this fact.
#[derive(Drop)]
pub struct Destination {
    formula: Formula,
    valuer: Valuer,
    ghost formula_in_range: { IsFormulaInRange formula } by { IsFormulaInRange-prop formula },
    ghost callable: { Valuer.IsAlwaysCallable valuer },
    ghost answers: { (b : ABlock) (r : ℤ) → Valuer.post valuer b r → r ≡ worth formula b },
}

impl Destination {
    ghost use Rattle.plan_parts.specs.Destinations.{formula_of};
    ghost use Rattle.plan_parts.specs.OfPlan.{valuer_of};

    /// Makes a destination with this formula and this closure, which must accept every block and return the formula's
    /// worth. Allocates no memory.
    pub fn new(formula: Formula, valuer: Valuer) -> Destination
        requires formula_in_range { IsFormulaInRange formula }
        requires callable { Valuer.IsAlwaysCallable valuer }
        requires answers { (b : ABlock) (r : ℤ) → Valuer.post valuer b r → r ≡ worth formula b }
        ensures { formula_of result ≡ formula }
    {
        Destination { formula, valuer }
    }

    /// Returns the worth of a block here in cents, by calling the closure.
    #[tactic(auto, using(crate::proofs::WorthFacts::worth_bound))]
    pub fn value(&self, block: Block) -> i128
        ensures asked { Valuer.post (valuer_of self.now) block result }
        ensures value { result ≡ worth (formula_of self.now) block }
        ensures in_range { IsWorth result }
    {
        ask(&self.valuer, block)
    }

    /// Returns the formula.
    pub fn formula(&self) -> &Formula
        ensures value { result.now ≡ formula_of self.now }
        ensures formula_in_range { IsFormulaInRange result.now }
    {
        &self.formula
    }
}

// Returns the result of the closure, for any closure.
fn ask(valuer: &Valuer, block: Block) -> i128
    requires { Valuer.pre valuer.now block }
    ensures { Valuer.post valuer.now block result }
{
    valuer(block)
}
