ghost use Rattle.mine_instance.specs.Valid.{IsValid};

use super::headers::{cpit, pcpsp};
use super::{NINE_ABOVE, Texts, instance_of, is_text};
use crate::tests::are_millionths;
use devices::sinks::mem_sink::MemSink;
use devices::sinks::write_fault::WriteFault;
use mine_instance::coefs::coef::Coef;
use mine_instance::cpit::Cpit;
use mine_instance::instance::Instance;
use minelib_lines::text_name::TextName;
use minelib_reading::read_cpit;
use minelib_writing::write_cpit;
use pit_units::Dec;
use plan_parts::block::Block;
use plan_parts::limit::{Bound, Limit};
use std::alloc::Global;
use std::test::Fail;

// Predecessors in no order, and the smallest and largest values of most numbers.
const AT_THE_EDGE: Texts = [
    "0 0 0 0 0 0 0\n1 9999 9999 9999 1000000 1000000 63\n2 2 0 0 0 0 0\n",
    "0 2 2 1\n1 0\n2 0\n",
    pcpsp! {
        name: "n", blocks: 3, periods: 100, destinations: 1, resources: 8, rate: 1,
        values: ["0 -1000000000000000000", "1 0.000001", "2 0"],
        coefs: ["0 0 7 -1", "2 0 0 0"],
        limits: ["0 99 G -5", "7 0 I -2 -2"],
    },
];

const NAMES: [TextName; 3] = [TextName::Blocks, TextName::Prec, TextName::Pcpsp];

fn are_texts(alloc: Global, instance: &Instance, texts: Texts) -> Result<bool, WriteFault>
    requires { IsValid instance.now }
{
    for (name, text) in NAMES.iter().zip(&texts) {
        if !is_text(alloc, *name, instance, text)? {
            return Ok(false);
        }
    }
    Ok(true)
}

// The predecessors of the blocks of nine_above, in order of identifier.
const LISTS: [&[u32]; 10] = [
    &[2, 4, 5, 6, 8],
    &[],
    &[],
    &[],
    &[],
    &[],
    &[],
    &[],
    &[],
    &[],
];

// Returns whether the block with this identifier is at an index of a bench, weighs a tonne and has no metal.
fn is_at(blocks: &[Block], id: usize, x: u16, y: u16, z: u16) -> bool {
    blocks.get(id).copied() == Block::new(x, y, z, 1_000, 0, 0)
}

// Returns whether the first block is below the middle of the others, which are in order of y, then x.
fn are_nine_above(blocks: &[Block]) -> bool {
    is_at(blocks, 0, 1, 1, 0)
        && (0..9u16).all(|at| is_at(blocks, usize::from(at).wrapping_add(1), at % 3, at / 3, 1))
}

// Returns whether the block with an identifier has its list, and the value of a tonne of waste at the mill.
fn has_parts(instance: &Instance, id: usize, list: &[u32]) -> bool {
    id < instance.preds.len()
        && id < instance.values.len()
        && id < 10
        && instance.preds.of(id as u32) == list
        && are_millionths(instance.values.of(id), &[-15_000_000])
}

// Returns whether all blocks have their lists, and the counts and the NAME are as the texts state.
fn is_nine_above(instance: &Instance) -> bool {
    are_nine_above(instance.blocks.as_slice())
        && LISTS
            .iter()
            .enumerate()
            .all(|(id, list)| has_parts(instance, id, list))
        && instance.name.as_str() == "one"
        && (instance.blocks_len(), instance.arcs()) == (10, 5)
}

#[test]
fn nine_above(rt: HostRuntime) -> Result<(), Fail> {
    let instance = instance_of(rt.alloc(), NINE_ABOVE)?;
    assert!(rt; is_nine_above(&instance));
    assert!(rt; are_texts(rt.alloc(), &instance, NINE_ABOVE)?);
    Ok(())
}

// Returns the CPIT of two blocks that a text states.
fn cpit_of(alloc: Global, text: &str) -> Result<Cpit, Fail> {
    Ok(read_cpit(alloc, 2, text.as_bytes())?)
}

// Returns whether a CPIT is written as this text.
fn is_cpit_text(alloc: Global, cpit: &Cpit, text: &str) -> Result<bool, WriteFault> {
    let mut sink = MemSink::new(alloc);
    write_cpit(alloc, cpit, &mut sink)?;
    Ok(sink.bytes() == text.as_bytes())
}

// A CPIT with this coefficient among others.
macro_rules! with_coef {
    ($coef:literal) => {
        cpit! {
            name: "one", blocks: 2, periods: 1, resources: 3, rate: 0.1,
            values: ["0 0", "1 0"],
            coefs: ["0 1 0.001", "0 2 4294967.295", $coef, "1 2 7"],
            limits: [],
        }
    };
}

// CPITs with coefficients that runs do not have: no integer number of kilograms, too large, or negative.
const OTHER_TONNES: [&str; 3] = [
    with_coef!("1 0 0.0001"),
    with_coef!("1 0 4294967.296"),
    with_coef!("1 0 -0.001"),
];

#[test]
fn other_tonnes(rt: HostRuntime) -> Result<(), Fail> {
    for text in OTHER_TONNES {
        let cpit = cpit_of(rt.alloc(), text)?;
        assert_eq!(rt; cpit.coefs_len(), 4);
        assert!(rt; is_cpit_text(rt.alloc(), &cpit, text)?, "{text}");
    }
    Ok(())
}

// Returns the coefficients of AT_THE_EDGE, with their destinations.
fn edge_coefs() -> Option<[Coef; 2]> {
    Some([
        Coef {
            b: 0,
            d: 0,
            r: 7,
            v: Dec::new(-1_000_000)?,
        },
        Coef {
            b: 2,
            d: 0,
            r: 0,
            v: Dec::new(0)?,
        },
    ])
}

fn edge_limits() -> Option<[Limit; 2]> {
    let two_below = Dec::new(-2_000_000)?;
    Some([
        Limit {
            resource: 0,
            period: 99,
            bound: Bound::AtLeast(Dec::new(-5_000_000)?),
        },
        Limit {
            resource: 7,
            period: 0,
            bound: Bound::Between(two_below, two_below),
        },
    ])
}

// Returns a coefficient of a CPIT with these millionths of a tonne.
fn cpit_coef(b: u32, r: u8, millionths: i128) -> Option<Coef> {
    let v = Dec::new(millionths)?;
    Some(Coef { b, d: 0, r, v })
}

// Returns the coefficients of the CPIT with a coefficient of 0.0001 tonnes among others.
fn cpit_coefs() -> Option<[Coef; 4]> {
    Some([
        cpit_coef(0, 1, 1_000)?,
        cpit_coef(0, 2, 4_294_967_295_000)?,
        cpit_coef(1, 0, 100)?,
        cpit_coef(1, 2, 7_000_000)?,
    ])
}

fn has_edge_lists(instance: &Instance) -> Option<bool> {
    let (coefs, limits) = (edge_coefs()?, edge_limits()?);
    Some(
        instance.coefs.as_slice() == coefs.as_slice()
            && instance.limits.as_slice() == limits.as_slice(),
    )
}

fn has_cpit_coefs(cpit: &Cpit) -> Option<bool> {
    let coefs = cpit_coefs()?;
    Some(cpit.coefs() == coefs.as_slice())
}

// An instance and a CPIT that were read return references to their lists; `nine_above` has blocks, predecessors and values.
#[test]
fn read_lists_are_borrowed(rt: HostRuntime) -> Result<(), Fail> {
    let instance = instance_of(rt.alloc(), AT_THE_EDGE)?;
    assert!(rt; has_edge_lists(&instance) == Some(true));
    let cpit = cpit_of(rt.alloc(), with_coef!("1 0 0.0001"))?;
    assert!(rt; has_cpit_coefs(&cpit) == Some(true));
    assert!(rt; are_millionths(cpit.values(), &[0, 0]));
    assert_eq!(rt; cpit.limits().len(), 0);
    Ok(())
}
