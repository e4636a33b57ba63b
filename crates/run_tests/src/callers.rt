//! Callers of the crates below, as docs/calling.md shows them.

ghost use Rattle.std.specs.Prelude.{◌≡◌, [], ◌∷◌, length, sum_by, Err, IfErr, IfOk, OnOk};
ghost use Rattle.mine_instance.specs.Instance.{Instance as AnInstance};
ghost use Rattle.minelib_reading.specs.Denotes.{Denotes, denoted};
ghost use Rattle.pit_units.specs.OrMemory.{Gives};
ghost use Rattle.minelib_writing.specs.Written.{text_blocks};
ghost use Rattle.pit_compile.specs.ZoneFiles.{instance_from};
ghost use Rattle.pit_compile.specs.Verdict.{IsAccepted};

use crate::tests::headers::pcpsp;
use crate::tests::models::destinations_of;
use crate::tests::watch::{OPEN, Watch};
use devices::feeds::slice_feed::SliceFeed;
use minelib_text::mem_sink::MemSink;
use minelib_text::read_instance;
use minelib_text::text_fault::TextFault;
use pit_compile::refusal::Refusal;
use pit_compile::run;
use pit_compile::settings::Settings;
use pit_compile::sinks::Sinks;
use pit_model::destination::Destination;
use pit_model::plan::Plan;
use pit_model::read_plan;
use pit_units::OrMemory;
use std::alloc::Global;
use std::sync::Wait;
use std::test::Fail;
use std::thread::Threads;
use valuers::OpenGate;

/// Returns the number of arcs of the instance that three texts denote: pairs of a block and one of its predecessors.
///
/// # Errors
///
/// - `Fault`: the first invalid line of the texts.
/// - `OutOfMemory`: memory was refused.
pub fn count_arcs(
    alloc: Global,
    blocks: &[u8],
    prec: &[u8],
    pcpsp: &[u8],
) -> Result<usize, OrMemory<TextFault>>
    ensures arcs { IfOk result (λ arcs. (i : AnInstance) × Denotes blocks.now prec.now pcpsp.now i
        × (arcs ≡ sum_by length i.preds)) }
    ensures refused { IfErr result
        (λ error. Gives (λ x. x) (Err error) (denoted blocks.now prec.now pcpsp.now)) }
{
    let instance = read_instance(alloc, blocks, prec, pcpsp)?;
    Ok(instance.arcs())
}

/// Returns the block file of the instance of a plan with one zone, whose rows two threads value.
///
/// # Errors
///
/// Fails like `run`, or with `OutOfMemory`.
pub fn block_file<R: Threads + Wait + Sync>(
    rt: &R,
    alloc: Global,
    plan: &Plan,
    destinations: &[Destination],
    zone: &[u8],
) -> Result<Vec<u8>, Refusal>
    ensures accepted { OnOk result (IsAccepted plan.now (zone.now ∷ [])) }
    ensures text { IfOk result (λ text. text.items
        ≡ text_blocks (instance_from plan.now (zone.now ∷ []))) }
{
    let Ok(feeds) = Vec::from_array(alloc, [SliceFeed::new(zone)]) else {
        return Err(Refusal::OutOfMemory);
    };
    let mut sinks = Sinks {
        blocks: MemSink::new(alloc),
        prec: MemSink::new(alloc),
        upit: MemSink::new(alloc),
        pcpsp: MemSink::new(alloc),
        cpit: MemSink::new(alloc),
    };
    let settings = Settings {
        valuers: 2,
        capacity: 64,
    };
    let _gathered = run(
        rt,
        alloc,
        feeds,
        plan,
        destinations,
        settings,
        &OpenGate,
        &mut sinks,
    )?;
    Ok(sinks.blocks.bytes().to_vec(alloc)?)
}

const TWO_BLOCKS: &[u8] = b"0 0 0 0 1 0 0\n1 0 0 1 1 0 0\n";

const TWO_PCPSP: &str = pcpsp! {
    name: "two", blocks: 2, periods: 1, destinations: 1, resources: 0, rate: 0.1,
    values: ["0 -15", "1 -15"],
    coefs: [],
    limits: [],
};

// Returns the number of arcs, or `None` if the texts are rejected.
fn arcs_of(alloc: Global, blocks: &[u8], prec: &[u8], pcpsp: &[u8]) -> Option<usize> {
    match count_arcs(alloc, blocks, prec, pcpsp) {
        Ok(arcs) => Some(arcs),
        Err(_) => None,
    }
}

#[test]
fn arcs_are_counted(rt: HostRuntime) {
    for (prec, arcs) in [
        (b"0 1 1\n1 0\n".as_slice(), Some(1)),
        (b"0 2 1\n1 0\n", None),
    ] {
        assert_eq!(rt;
            arcs_of(rt.alloc(), TWO_BLOCKS, prec, TWO_PCPSP.as_bytes()),
            arcs
        );
    }
}

const ONE_ZONE: &[u8] =
    b"name,one\ngrid,0,0,0,10,10,10\nzone,1,1,1\nmill,mill,900,600,1500\nperiods,1\nrate,0.1\n";

const ORE: &[u8] = b"x,y,z,tonnes,grade\n0,0,0,1000,5000\n";

// Returns the block file of a zone, or `None` if the run fails.
fn blocks_of<R: Threads + Wait + Sync>(
    rt: &R,
    alloc: Global,
    plan: &Plan,
    destinations: &[Destination],
    zone: &[u8],
) -> Option<Vec<u8>> {
    match block_file(rt, alloc, plan, destinations, zone) {
        Ok(text) => Some(text),
        Err(_) => None,
    }
}

#[test]
fn one_ore_block(rt: HostRuntime) -> Result<(), Fail> {
    let plan = read_plan(rt.alloc(), ONE_ZONE)?;
    let watch = Watch::new(rt.alloc(), OPEN)?;
    let destinations = destinations_of(rt.alloc(), &plan, &watch)?;
    let text = blocks_of(&rt, rt.alloc(), &plan, destinations.as_slice(), ORE).ok_or("refused")?;
    assert!(rt; text.as_slice() == b"0 0 0 0 1000 5000 0\n".as_slice());
    Ok(())
}
