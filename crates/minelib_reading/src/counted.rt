//! The items of a block file, a precedence file and a model file, counted. Contracts see all items.

ghost use Rattle.std.specs.Prelude.{◌≡◌, ◌*◌, ◌<◌, ◌≤◌, [], length, sum_by};
ghost use Rattle.minelib_reading.specs.ModelDraft.{last_of};
ghost use Rattle.minelib_reading.specs.inner.CountedItems.{last_d, last_r, lists_in, most_up_to};
ghost use Rattle.plan_parts.specs.declared.ranges.TheConstants.{MAX_BLOCKS};

use crate::taking::{TakeBlocks, TakeItems, TakePreds};
use mine_instance::coefs::coef::Coef;
use pit_units::Dec;
use plan_parts::block::Block;
use plan_parts::listed::past::Past;
use std::alloc::AllocError;

/// Blocks of which only the number is stored.
#[derive(Drop)]
pub struct CountedBlocks {
    count: usize,
    past: Past<Block>,

    ghost count_is: { count ≡ length past },
    ghost few: { count ≤ MAX_BLOCKS },
}

impl TakeBlocks for CountedBlocks {
    ghost blocks = { λ counted. counted.past };

    fn count(&self) -> usize {
        self.count
    }

    fn take(&mut self, block: Block) -> Result<(), AllocError> {
        self.count += 1;
        self.past = self.past.with(&block);
        Ok(())
    }
}

impl CountedBlocks {
    /// Makes a counter without blocks.
    pub fn new() -> CountedBlocks
        ensures { result.past ≡ [] }
    {
        CountedBlocks {
            count: 0,
            past: Past::new(),
        }
    }
}

/// Lists of predecessors of which only the number and the number of their identifiers are stored.
#[derive(Drop)]
pub struct CountedPreds {
    blocks: usize,
    arcs: usize,
    past: Past<Vec<u32>>,

    ghost blocks_are: { blocks ≡ length past },
    ghost arcs_are: { arcs ≡ sum_by length (lists_in past) },
    ghost few: { blocks ≤ MAX_BLOCKS },
    ghost low: { arcs ≤ blocks * MAX_BLOCKS },
}

impl TakePreds for CountedPreds {
    ghost lists = { λ counted. lists_in counted.past };

    #[tactic(auto, using(crate::proofs::counts::CountedFacts::rows_counted))]
    fn count(&self) -> usize {
        self.blocks
    }

    fn arcs(&self) -> usize {
        self.arcs
    }

    #[tactic(auto, using(crate::proofs::counts::CountedFacts::one_row_more, crate::proofs::counts::CountedFacts::rows_counted))]
    fn take(&mut self, list: &Vec<u32>) -> Result<(), AllocError> {
        self.blocks += 1;
        self.arcs += list.len();
        self.past = self.past.with(list);
        Ok(())
    }
}

impl CountedPreds {
    /// Makes a counter without lists.
    pub fn new() -> CountedPreds
        ensures { result.past ≡ [] }
    {
        CountedPreds {
            blocks: 0,
            arcs: 0,
            past: Past::new(),
        }
    }
}

/// Values and coefficients of which only the numbers and the last coefficient are stored.
#[derive(Drop)]
pub struct CountedItems {
    blocks: usize,
    coefs: u64,
    last: Option<Coef>,
    past_rows: Past<Vec<Dec>>,
    past_coefs: Past<Coef>,

    ghost blocks_are: { blocks ≡ length past_rows },
    ghost few: { blocks ≤ MAX_BLOCKS },
    ghost coefs_are: { coefs ≡ length past_coefs },
    ghost last_is: { last ≡ last_of past_coefs },
    ghost destination: { last_d last < 256 },
    ghost resource: { last_r last < 256 },
    ghost low: { coefs ≤ most_up_to last },
}

impl TakeItems for CountedItems {
    ghost values = { λ items. lists_in items.past_rows };

    ghost coefs = { λ items. items.past_coefs };

    #[tactic(auto, using(crate::proofs::counts::CountedFacts::rows_counted))]
    fn values_len(&self) -> usize {
        self.blocks
    }

    fn coefs_len(&self) -> usize {
        self.coefs as usize
    }

    fn is_after(&self, coef: &Coef) -> bool {
        match &self.last {
            Some(last) => last.comes_before(coef),
            None => true,
        }
    }

    #[tactic(auto, using(crate::proofs::counts::CountedFacts::one_row_more, crate::proofs::counts::CountedFacts::rows_counted))]
    fn take_values(&mut self, row: &Vec<Dec>) -> Result<(), AllocError> {
        self.blocks += 1;
        self.past_rows = self.past_rows.with(row);
        Ok(())
    }

    #[tactic(auto, using(crate::proofs::counts::CountedFacts::next_place, crate::proofs::counts::CountedFacts::last_added))]
    fn take_coef(&mut self, coef: Coef) -> Result<(), AllocError> {
        self.coefs += 1;
        self.past_coefs = self.past_coefs.with(&coef);
        self.last = Some(coef);
        Ok(())
    }
}

impl CountedItems {
    /// Makes a counter without values and coefficients.
    pub fn new() -> CountedItems
        ensures values { result.past_rows ≡ [] }
        ensures coefs { result.past_coefs ≡ [] }
    {
        CountedItems {
            blocks: 0,
            coefs: 0,
            last: None,
            past_rows: Past::new(),
            past_coefs: Past::new(),
        }
    }
}
