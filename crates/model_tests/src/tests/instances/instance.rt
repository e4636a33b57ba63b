//! An instance built from rows in one call: the program makes the steps one by one.

ghost use Rattle.std.specs.Prelude.{◌≡◌, ◌≤◌, All, length, IfOk, IfSome, IsTrue};
ghost use Rattle.plan_parts.specs.PlanFormulas.{formulas_of_plan};
ghost use Rattle.mine_instance.specs.Valid.{IsValid};
ghost use Rattle.precedence.specs.Zones.{HasZones};
ghost use Rattle.rows.specs.Valued.{worths_by};

use crate::tests::are_millionths;
use mine_instance::coefs::coef::Coef;
use mine_instance::cpit::Cpit;
use mine_instance::instance::Instance;
use mine_instance::{build, build_cpit};
use pit_model::plan::Plan;
use pit_model::read_plan;
use pit_units::Dec;
use plan_parts::block::Block;
use plan_parts::limit::{Bound, Limit};
use precedence::{Numbering, number, preds};
use rows::{Valued, Worths};
use std::alloc::Global;
use std::test::Fail;

// Returns the worths of a block at the two destinations of a plan.
fn worths_of(plan: &Plan, block: Block) -> Option<Worths>
    ensures { IfSome result (λ worths. worths ≡ worths_by (formulas_of_plan plan.now) block) }
{
    match plan.formulas() {
        [mill, dump] => Worths::new(&[mill.formula.worth(block), dump.formula.worth(block)]),
        _ => None,
    }
}

fn row(plan: &Plan, place: u32, block: Block) -> Option<Valued>
    ensures { IfSome result
        (λ row. row.worths ≡ worths_by (formulas_of_plan plan.now) row.block) }
{
    let worths = worths_of(plan, block)?;
    Some(Valued {
        file: 0,
        place,
        block,
        worths,
    })
}

fn has_zones(numbering: &Numbering, plan: &Plan) -> bool
    ensures { IsTrue result → HasZones plan.now numbering.now.blocks }
{
    numbering
        .blocks()
        .iter()
        .all(|block| usize::from(block.zone) < plan.cones().len())
}

fn built_of(alloc: Global, plan: &Plan, rows: &[Valued]) -> Result<Instance, Fail>
    requires few { length rows.now ≤ 64000000 }
    requires worths { All (λ row. row.worths ≡ worths_by (formulas_of_plan plan.now) row.block)
        rows.now }
    ensures { IfOk result IsValid }
{
    let numbering = number(alloc, rows)?;
    if !has_zones(&numbering, plan) {
        return Err("zones")?;
    }
    let lists = preds(alloc, &numbering, plan)?;
    Ok(build(alloc, &numbering, lists, rows, plan)?)
}

fn counts(instance: &Instance) -> (usize, usize, usize, usize) {
    (
        instance.blocks_len(),
        instance.arcs(),
        instance.coefs_len(),
        instance.limits_len(),
    )
}

fn has_values(instance: &Instance, id: usize, millionths: &[i128]) -> bool {
    id < instance.values.len() && are_millionths(instance.values.of(id), millionths)
}

// Returns a coefficient with this number of tonnes.
fn coef(b: u32, d: u8, r: u8, tonnes: u32) -> Option<Coef> {
    let v = Dec::new(i128::from(tonnes) * 1_000_000)?;
    Some(Coef { b, d, r, v })
}

// A plan with a mill and a dump: one resource covers both, the other covers the dump.
const BOTH: &[u8] =
    b"name,one\ngrid,0,0,0,10,10,10\nzone,1,1,1\nmill,mill,900,600,1500\ndump,dump,200\nperiods,2\nrate,0.1\nresource,plant,mill,dump\nresource,trucks,dump\nlimit,plant,1,I,0,900\nlimit,plant,0,L,500.5\n";

// Returns two blocks of ore, one above the other, the upper one first.
fn two_ores(plan: &Plan) -> Option<[Valued; 2]>
    ensures { IfSome result
        (λ rows. All (λ row. row.worths ≡ worths_by (formulas_of_plan plan.now) row.block) rows) }
{
    let [lower, upper] = ores()?;
    Some([row(plan, 0, upper)?, row(plan, 1, lower)?])
}

fn ores() -> Option<[Block; 2]> {
    Some([
        Block::new(0, 0, 0, 1_000_000, 5_000_000_000, 0)?,
        Block::new(0, 0, 1, 2_000_000, 5_000_000_000, 0)?,
    ])
}

// Returns the coefficients of the two blocks at both destinations, in order of block, destination and resource.
fn all_coefs() -> Option<[Coef; 6]> {
    Some([
        coef(0, 0, 0, 1000)?,
        coef(0, 1, 0, 1000)?,
        coef(0, 1, 1, 1000)?,
        coef(1, 0, 0, 2000)?,
        coef(1, 1, 0, 2000)?,
        coef(1, 1, 1, 2000)?,
    ])
}

// Returns the coefficients of the CPIT, in which both blocks go to the mill.
fn mill_coefs() -> Option<[Coef; 2]> {
    Some([coef(0, 0, 0, 1000)?, coef(1, 0, 0, 2000)?])
}

fn limits() -> Option<[Limit; 2]> {
    Some([
        Limit {
            resource: 0,
            period: 0,
            bound: Bound::AtMost(Dec::new(500_500_000)?),
        },
        Limit {
            resource: 0,
            period: 1,
            bound: Bound::Between(Dec::new(0)?, Dec::new(900_000_000)?),
        },
    ])
}

fn has_preds(instance: &Instance, id: usize, list: &[u32]) -> bool {
    id < instance.preds.len() && id < 2 && instance.preds.of(id as u32) == list
}

// Returns whether an instance of the two blocks has their lists.
fn borrows_lists(instance: &Instance) -> Option<bool> {
    let (blocks, coefs, limits) = (ores()?, all_coefs()?, limits()?);
    Some(
        instance.blocks.as_slice() == blocks.as_slice()
            && counts(instance) == (2, 1, 6, 2)
            && has_preds(instance, 0, &[1])
            && has_preds(instance, 1, &[])
            && has_values(instance, 0, &[12_000_000_000, -2_000_000_000])
            && has_values(instance, 1, &[24_000_000_000, -4_000_000_000])
            && instance.coefs.as_slice() == coefs.as_slice()
            && instance.limits.as_slice() == limits.as_slice(),
    )
}

fn borrows_cpit_lists(cpit: &Cpit) -> Option<bool> {
    let (coefs, limits) = (mill_coefs()?, limits()?);
    Some(
        are_millionths(cpit.values(), &[12_000_000_000, 24_000_000_000])
            && cpit.coefs() == coefs.as_slice()
            && cpit.limits() == limits.as_slice(),
    )
}

fn built_of_two_ores(alloc: Global) -> Result<Instance, Fail>
    ensures { IfOk result IsValid }
{
    let plan = read_plan(alloc, BOTH)?;
    let rows = two_ores(&plan).ok_or("rows")?;
    built_of(alloc, &plan, &rows)
}

// A built instance and CPIT return references to their lists.
#[test]
fn built_lists_are_borrowed(rt: HostRuntime) -> Result<(), Fail> {
    let instance = built_of_two_ores(rt.alloc())?;
    assert!(rt; borrows_lists(&instance) == Some(true));
    let cpit = build_cpit(rt.alloc(), &instance)?;
    assert!(rt; borrows_cpit_lists(&cpit) == Some(true));
    Ok(())
}
