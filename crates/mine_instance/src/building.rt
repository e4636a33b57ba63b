//! Builds a model's instance from its valued blocks.

ghost use Rattle.std.specs.Prelude.{◌≡◌, ◌*◌, ◌≤◌, ◌==◌, ◌++◌, ◌∷◌, [], List, length, map, All, IfOk, OnOk, if◌then◌else◌};
ghost use Rattle.std.specs.List.{list_any};
ghost use Rattle.plan_parts.specs.PlanFormulas.{formulas_of_plan};
ghost use Rattle.plan_parts.specs.declared.block.Block.{Block};
ghost use Rattle.plan_parts.specs.formulas.WorthRange.{IsWorth};
ghost use Rattle.precedence.specs.Cone.{preds as cone_lists};
ghost use Rattle.precedence.specs.Identifier.{blocks_of_rows};
ghost use Rattle.precedence.specs.Numbering.{IsNumbering, NumberingView};
ghost use Rattle.rows.specs.Valued.{worths_by};
ghost use Rattle.mine_instance.specs.WellFormed.{IsWellFormed};
ghost use Rattle.mine_instance.specs.OfModel.{in_hundreds, instance, values_of};
ghost use Rattle.mine_instance.specs.coefs.CoveredPairs.{block_coefs, coefs_of, covering, covered};
ghost use Rattle.mine_instance.specs.Valid.{IsValid};
ghost use Rattle.plan_parts.specs.declared.ranges.TheConstants.{MAX_BLOCKS, MAX_DESTINATIONS, MAX_RESOURCES};

use crate::blocks::Blocks;
use crate::coefs::coef::{Coef, Coefs};
use crate::coefs::group::Covering;
use crate::coefs::lazy::LazyCoefs;
use crate::coefs::list::CoefList;
use crate::instance::Instance;
use crate::limits::Limits;
use crate::values::Values;
use crate::values::in_hundreds::in_hundreds;
use crate::values::list::ValueList;
use pit_units::Dec;
use plan_parts::block::Block;
use plan_parts::laws::worths_are_in_range;
use plan_parts::plan::Plan;
use plan_parts::resource::Resource;
use precedence::{Numbering, PredLists, Preds};
use rows::Valued;
use std::alloc::{AllocError, Global};

/// Builds the instance of a model from its rows, the numbering of their blocks, and their predecessors. The plan's formulas must
/// yield the worths of each row. Fails only if memory is refused.
pub fn build(
    alloc: Global,
    numbering: &Numbering,
    preds: Preds,
    rows: &[Valued],
    plan: &Plan,
) -> Result<Instance, AllocError>
    requires numbering { IsNumbering (blocks_of_rows rows.now) numbering.now }
    requires preds { preds ≡ cone_lists plan.now numbering.now.blocks }
    requires worths { All (λ row. row.worths ≡ worths_by (formulas_of_plan plan.now) row.block)
        rows.now }
    ensures value { IfOk result (λ built. built ≡ instance plan.now (blocks_of_rows rows.now)) }
    ensures valid { IfOk result IsValid }
    ensures kept { IfOk result IsWellFormed }
{
    let blocks = Vec::from_slice(alloc, numbering.blocks())?;
    let values = values_by(alloc, numbering, rows, plan)?;
    let pairs = covered_pairs(alloc, plan)?;
    let coefs = coefs_at(alloc, pairs.as_slice(), blocks.as_slice())?;
    of_parts(alloc, blocks, preds, values, coefs, plan)
}

/// Builds the instance of a model from its blocks in order of identifier, at most 64,000,000, their predecessors and their values.
/// It needs no numbering, so the caller may have dropped it. Coefficients are computed lazily. Fails only if memory is refused.
pub fn build_with<P: PredLists + Drop, V: ValueList + Drop>(
    alloc: Global,
    blocks: Vec<Block>,
    preds: P,
    values: V,
    plan: &Plan,
) -> Result<Instance<P, LazyCoefs, V>, AllocError>
    requires few { length blocks.items ≤ MAX_BLOCKS }
    requires preds { P.lists preds ≡ cone_lists plan.now blocks.items }
    requires values { V.list values ≡ map (values_of plan.now) blocks.items }
    ensures value { (listed : List Block) → (n : NumberingView) → IsNumbering listed n
        → n.blocks ≡ blocks.items
        → IfOk result (λ built. built ≡ instance plan.now listed) }
    ensures valid { IfOk result IsValid }
    ensures kept { IfOk result IsWellFormed }
{
    let pairs = covered_pairs(alloc, plan)?;
    let coefs = LazyCoefs::new(alloc, pairs, blocks.as_slice())?;
    of_parts(alloc, blocks, preds, values, coefs, plan)
}

// The same, with the coefficients.
fn of_parts<P: PredLists + Drop, C: CoefList + Drop, V: ValueList + Drop>(
    alloc: Global,
    blocks: Vec<Block>,
    preds: P,
    values: V,
    coefs: C,
    plan: &Plan,
) -> Result<Instance<P, C, V>, AllocError>
    requires few { length blocks.items ≤ MAX_BLOCKS }
    requires preds { P.lists preds ≡ cone_lists plan.now blocks.items }
    requires values { V.list values ≡ map (values_of plan.now) blocks.items }
    requires coefs { C.list coefs ≡ coefs_of (covered plan.now) blocks.items }
    ensures value { (listed : List Block) → (n : NumberingView) → IsNumbering listed n
        → n.blocks ≡ blocks.items
        → IfOk result (λ built. built ≡ instance plan.now listed) }
    ensures valid { IfOk result IsValid }
    ensures kept { IfOk result IsWellFormed }
{
    let own = plan.name();
    // The text of a NAME encodes a NAME.
    let _text = own.as_str();
    let name = own.copy(alloc)?;
    let limits = Vec::from_slice(alloc, plan.limits())?;
    Ok(Instance {
        name,
        rate: plan.rate(),
        periods: plan.periods(),
        destinations: plan.formulas().len() as u8,
        resources: plan.resources().len() as u8,
        blocks: Blocks::new(blocks),
        preds,
        values,
        coefs,
        limits: Limits::new(limits),
    })
}

// Returns the values of the blocks in order of identifier, from the worths of their rows.
fn values_by(
    alloc: Global,
    numbering: &Numbering,
    rows: &[Valued],
    plan: &Plan,
) -> Result<Values, AllocError>
    requires numbering { IsNumbering (blocks_of_rows rows.now) numbering.now }
    requires worths { All (λ row. row.worths ≡ worths_by (formulas_of_plan plan.now) row.block)
        rows.now }
    ensures { IfOk result (λ values. values ≡ map (values_of plan.now) numbering.now.blocks) }
{
    // The worths of a plan's formulas are in the range of values.
    worths_are_in_range();
    let width = plan.formulas().len();
    let count = numbering.blocks().len();
    let mut values = Values::new(Vec::with_capacity(alloc, count * width)?, 0, width);
    let mut own = Vec::new(alloc);
    for position in numbering.positions() {
        own.clear();
        push_values(&mut own, rows[*position as usize].worths.as_slice())?;
        values.push(own.as_slice())?;
    }
    Ok(values)
}

fn push_values(own: &mut Vec<Dec>, worths: &[i128]) -> Result<(), AllocError>
    requires { All IsWorth worths.now }
    ensures { OnOk result (own.new.items ≡ own.old.items ++ map in_hundreds worths.now) }
{
    for cents in worths {
        own.push(in_hundreds(*cents as i64))?;
    }
    Ok(())
}

// Returns the coefficients of blocks in order of identifier, at these pairs.
fn coefs_at(alloc: Global, pairs: &[Covering], blocks: &[Block]) -> Result<Coefs, AllocError>
    requires { length blocks.now ≤ MAX_BLOCKS }
    ensures { IfOk result (λ coefs. coefs ≡ coefs_of pairs.now blocks.now) }
{
    let mut coefs = Vec::new(alloc);
    for (id, block) in blocks.iter().enumerate() {
        push_coefs(&mut coefs, id as u32, block, pairs)?;
    }
    Ok(Coefs::new(coefs))
}

fn push_coefs(
    coefs: &mut Vec<Coef>,
    b: u32,
    block: &Block,
    pairs: &[Covering],
) -> Result<(), AllocError>
    ensures { OnOk result (coefs.new.items
        ≡ coefs.old.items ++ block_coefs pairs.now (b, block.now)) }
{
    if block.kg == 0 {
        return Ok(());
    }
    let v = Dec::new(i128::from(block.kg) * 1000).unwrap();
    for (d, r) in pairs {
        coefs.push(Coef { b, d: *d, r: *r, v })?;
    }
    Ok(())
}

#[tactic(auto, using(crate::proofs::BuildFacts::pairs_next))]
fn covered_pairs(alloc: Global, plan: &Plan) -> Result<Vec<Covering>, AllocError>
    ensures pairs { IfOk result (λ pairs. pairs.items ≡ covered plan.now) }
    ensures few { IfOk result
        (λ pairs. length pairs.items ≤ MAX_DESTINATIONS * MAX_RESOURCES) }
{
    let mut pairs = Vec::new(alloc);
    for destination in 0..plan.formulas().len() {
        push_covering(&mut pairs, plan.resources(), destination as u8)?;
    }
    Ok(pairs)
}

fn push_covering(
    pairs: &mut Vec<Covering>,
    resources: &[Resource],
    destination: u8,
) -> Result<(), AllocError>
    requires { length resources.now ≤ MAX_RESOURCES }
    ensures { OnOk result (pairs.new.items
        ≡ pairs.old.items ++ covering resources.now destination) }
{
    for (number, resource) in resources.iter().enumerate() {
        push_if_covers(pairs, resource, number as u8, destination)?;
    }
    Ok(())
}

fn push_if_covers(
    pairs: &mut Vec<Covering>,
    resource: &Resource,
    number: u8,
    destination: u8,
) -> Result<(), AllocError>
    ensures { OnOk result (pairs.new.items
        ≡ pairs.old.items ++ (if list_any (λ e. e == destination) resource.now.covers then
        (destination, number) ∷ [] else [])) }
{
    if resource.covers.as_slice().contains(&destination) {
        pairs.push((destination, number))?;
    }
    Ok(())
}
