//! The parts that a plan returns, and which bytes are NAMEs.

use pit_model::plan::Plan;
use pit_model::read_plan;
use pit_units::Dec;
use plan_parts::cone::{Cone, Slope};
use plan_parts::formulas::formula::{Formula, NamedFormula};
use plan_parts::grid::{Axis, Grid};
use plan_parts::limit::{Bound, Limit};
use plan_parts::name::Name;
use plan_parts::resource::Resource;
use std::alloc::{AllocError, Global};
use std::test::Fail;

// A plan in which each number appears once, so none can replace another unnoticed.
const PARTS: &[u8] =
    b"name,North_Pit-2.b\ngrid,-0.5,20,3000.125,7.5,12.25,3.125\nzone,1,2,3,4,5,6,7,8,9\nzone,10,11,12\nmill,mill,900,600,1500\ndump,dump,200\nperiods,2\nrate,0.1\nresource,plant,mill\nresource,trucks,dump,mill\nlimit,trucks,0,G,1.5\nlimit,plant,1,I,0,900\nlimit,plant,0,L,500.5\n";

const GRID: Grid = Grid {
    x: Axis {
        origin: -500,
        size: 7_500,
    },
    y: Axis {
        origin: 20_000,
        size: 12_250,
    },
    z: Axis {
        origin: 3_000_125,
        size: 3_125,
    },
};

// The first zone has a slope for each side, the second has one for all sides.
const CONES: [Cone; 2] = [
    Cone {
        east: Slope { p: 1, q: 2 },
        west: Slope { p: 3, q: 4 },
        north: Slope { p: 5, q: 6 },
        south: Slope { p: 7, q: 8 },
        k: 9,
    },
    Cone {
        east: Slope { p: 10, q: 11 },
        west: Slope { p: 10, q: 11 },
        north: Slope { p: 10, q: 11 },
        south: Slope { p: 10, q: 11 },
        k: 12,
    },
];

// The NAME and the destinations of each resource.
const RESOURCES: [(&str, &[u8]); 2] = [("plant", &[0]), ("trucks", &[1, 0])];

fn are_resources(resources: &[Resource]) -> bool {
    resources.len() == RESOURCES.len()
        && resources.iter().zip(&RESOURCES).all(|(resource, (name, covers))| resource.name.as_str()
            == *name
            && resource.covers.as_slice() == *covers)
}

fn are_formulas(formulas: &[NamedFormula]) -> bool {
    match formulas {
        [mill, dump] => {
            mill.name.as_str() == "mill"
                && dump.name.as_str() == "dump"
                && mill.formula
                    == Formula::Mill {
                        recovery: 900,
                        price: 600,
                        cost: 1_500,
                    }
                && dump.formula == Formula::Dump { cost: 200 }
        }
        _ => false,
    }
}

// Returns the limits, in order of resource and period.
fn limits() -> Option<[Limit; 3]> {
    Some([
        Limit {
            resource: 0,
            period: 0,
            bound: Bound::AtMost(Dec::new(500_500_000)?),
        },
        Limit {
            resource: 0,
            period: 1,
            bound: Bound::Between(Dec::new(0)?, Dec::new(900_000_000)?),
        },
        Limit {
            resource: 1,
            period: 0,
            bound: Bound::AtLeast(Dec::new(1_500_000)?),
        },
    ])
}

fn has_horizon(plan: &Plan) -> bool {
    plan.name().as_str() == "North_Pit-2.b"
        && plan.periods() == 2
        && plan.rate().millionths() == 100_000
}

#[test]
fn parts_of_a_plan(rt: HostRuntime) -> Result<(), Fail> {
    let plan = read_plan(rt.alloc(), PARTS)?;
    assert!(rt; has_horizon(&plan));
    assert!(rt; plan.grid() == GRID);
    assert!(rt; plan.cones() == CONES.as_slice());
    assert!(rt; are_formulas(plan.formulas()));
    assert!(rt; are_resources(plan.resources()));
    let limits = limits().ok_or("limits")?;
    assert!(rt; plan.limits() == limits.as_slice());
    Ok(())
}

// Bytes, and whether they are a NAME.
const NAMES: [(&[u8], bool); 8] = [
    (b"a", true),
    (b"Az_09-.z", true),
    (
        b"1234567890123456789012345678901234567890123456789012345678901234",
        true,
    ),
    (
        b"12345678901234567890123456789012345678901234567890123456789012345",
        false,
    ),
    (b"", false),
    (b"a b", false),
    (b"a:b", false),
    (b"\xFF", false),
];

// Returns whether these bytes are read as a NAME, which has the same text.
fn is_name(alloc: Global, bytes: &[u8]) -> Result<bool, AllocError> {
    match Name::read(alloc, bytes)? {
        Some(name) => Ok(name.is(bytes) && name.copy(alloc)?.as_str().as_bytes() == bytes),
        None => Ok(false),
    }
}

#[test]
fn names(rt: HostRuntime) -> Result<(), Fail> {
    for (place, (bytes, holds)) in NAMES.iter().enumerate() {
        assert!(rt; is_name(rt.alloc(), bytes)? == *holds, "{place}");
    }
    Ok(())
}
