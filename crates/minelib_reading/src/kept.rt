//! The items of a block file, a precedence file and a model file, stored.

ghost use Rattle.std.specs.Prelude.{◌≡◌, []};

use crate::model::items::is_coef_after;
use crate::taking::{TakeBlocks, TakeItems, TakePreds};
use mine_instance::coefs::coef::Coef;
use mine_instance::values::Values;
use pit_units::Dec;
use plan_parts::block::Block;
use precedence::Preds;
use std::alloc::{AllocError, Global};

impl TakeBlocks for Vec<Block> {
    ghost blocks = { λ all. all.items };

    fn count(&self) -> usize {
        self.len()
    }

    fn take(&mut self, block: Block) -> Result<(), AllocError> {
        self.push(block)?;
        Ok(())
    }
}

impl TakePreds for Preds {
    ghost lists = { λ preds. preds };

    fn count(&self) -> usize {
        self.len()
    }

    fn arcs(&self) -> usize {
        self.arcs()
    }

    fn take(&mut self, list: &Vec<u32>) -> Result<(), AllocError> {
        self.push(list.as_slice())
    }
}

/// The values and coefficients of a model file.
#[derive(Drop)]
pub struct StoredItems {
    pub values: Values,
    pub coefs: Vec<Coef>,
}

impl StoredItems {
    /// Makes a list without values and coefficients.
    pub fn new(alloc: Global) -> StoredItems
        ensures values { result.values ≡ [] }
        ensures coefs { result.coefs.items ≡ [] }
    {
        StoredItems {
            values: Values::new(Vec::new(alloc), 0, 0),
            coefs: Vec::new(alloc),
        }
    }
}

impl TakeItems for StoredItems {
    ghost values = { λ items. items.values };

    ghost coefs = { λ items. items.coefs.items };

    fn values_len(&self) -> usize {
        self.values.len()
    }

    fn coefs_len(&self) -> usize {
        self.coefs.len()
    }

    fn is_after(&self, coef: &Coef) -> bool {
        is_coef_after(self.coefs.as_slice(), coef)
    }

    fn take_values(&mut self, row: &Vec<Dec>) -> Result<(), AllocError> {
        self.values.push(row.as_slice())
    }

    fn take_coef(&mut self, coef: Coef) -> Result<(), AllocError> {
        self.coefs.push(coef)?;
        Ok(())
    }
}
