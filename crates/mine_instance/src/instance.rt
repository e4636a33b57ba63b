//! The instance of a model.

ghost use Rattle.std.specs.Prelude.{◌≡◌, length, sum_by};

use crate::blocks::Blocks;
use crate::coefs::coef::Coefs;
use crate::coefs::list::CoefList;
use crate::limits::Limits;
use crate::values::Values;
use crate::values::list::ValueList;
use pit_units::Dec;
use plan_parts::name::Name;
use precedence::{PredLists, Preds};
use std::marker::Model;

/// An instance of the production scheduling problem of MineLib (Espinoza, Goycoolea, Moreno and Newman 2013). Blocks, predecessors
/// and values are in order of identifier. `P` has the predecessors: `Preds` stores their lists, and `LazyPreds` computes them
/// lazily. `C` has the coefficients: `Coefs` stores them, and `LazyCoefs` computes them lazily. `V` has the values: `Values`
/// stores them, and `LazyValues` computes them lazily. Contracts see the lists in both cases.
#[derive(Debug, Drop)]
pub struct Instance<P: PredLists = Preds, C: CoefList = Coefs, V: ValueList = Values> {
    /// The NAME of the instance.
    pub name: Name,
    /// The discount rate, 0 to 1 in a valid instance.
    pub rate: Dec,
    /// The number of periods.
    pub periods: u8,
    /// The number of destinations.
    pub destinations: u8,
    /// The number of resources.
    pub resources: u8,
    /// The blocks, in order of identifier.
    pub blocks: Blocks,
    /// The predecessors of each block.
    pub preds: P,
    /// The value of each block at each destination, in units of 100 cents.
    pub values: V,
    /// The tonnes that each block adds to a resource at each destination.
    pub coefs: C,
    /// The limits, in rising order of resource and period.
    pub limits: Limits,
}

impl<P: PredLists, C: CoefList, V: ValueList> Model for Instance<P, C, V> {
    ghost use Rattle.mine_instance.specs.Instance.{Instance as AnInstance};

    ghost Value = { AnInstance };

    ghost view = { λ i. record {
      name = i.name;
      rate = i.rate;
      periods = i.periods;
      destinations = i.destinations;
      resources = i.resources;
      blocks = i.blocks;
      preds = P.lists i.preds;
      values = V.list i.values;
      coefs = C.list i.coefs;
      limits = i.limits;
    } };
}

impl<P: PredLists, C: CoefList, V: ValueList> Instance<P, C, V> {
    /// Returns the number of blocks.
    pub fn blocks_len(&self) -> usize
        ensures { result ≡ length self.now.blocks }
    {
        self.blocks.as_slice().len()
    }

    /// Returns the number of limits.
    pub fn limits_len(&self) -> usize
        ensures { result ≡ length self.now.limits }
    {
        self.limits.as_slice().len()
    }

    /// Returns the number of coefficients.
    pub fn coefs_len(&self) -> usize
        ensures { result ≡ length self.now.coefs }
    {
        self.coefs.len()
    }
}

impl<C: CoefList, V: ValueList> Instance<Preds, C, V> {
    /// Returns the number of arcs: pairs of a block and one of its predecessors.
    pub fn arcs(&self) -> usize
        ensures { result ≡ sum_by length self.now.preds }
    {
        self.preds.arcs()
    }
}
