ghost use Rattle.std.specs.Prelude.{◌≤◌};
ghost use Rattle.mine_instance.specs.Valid.{IsValid};

use super::headers::{WHOLE_CPIT, WHOLE_PCPSP, WHOLE_UPIT};
use super::{BLOCKS, LIMITED, PREC, instance_of, write};
use devices::sinks::mem_sink::MemSink;
use mine_instance::build_cpit;
use mine_instance::instance::Instance;
use minelib_lines::text_name::TextName;
use minelib_writing::write_cpit;
use pit_units::OrMemory;
use std::alloc::Global;
use std::process::Abort;
use std::test::Fail;

// The texts of the instance.
const TEXTS: [(TextName, &str); 5] = [
    (TextName::Blocks, BLOCKS),
    (TextName::Prec, PREC),
    (TextName::Upit, WHOLE_UPIT),
    (TextName::Pcpsp, WHOLE_PCPSP),
    (TextName::Cpit, WHOLE_CPIT),
];

// The number of bytes that a sink takes at a time, and the end (exclusive) of the numbers of failing calls; call 0 is none.
const SINKS: [(usize, u64); 3] = [(1, 1), (2, 1), (7, 45)];

// A sink that fails at this call of a writer has a prefix of the text: it is not begun if the first call fails, and has no byte if
// its first put fails.
fn is_cut_off(sink: &MemSink, text: &[u8], nth: u64) -> bool {
    match nth {
        1 => !sink.begun(),
        2 => sink.begun() && sink.bytes().is_empty(),
        _ => sink.begun() && text.starts_with(sink.bytes()),
    }
}

// Returns whether a sink fails at this call, or takes the whole text if the writer needs fewer calls: one begins, and the others
// take the bytes.
fn ends_well(
    alloc: Global,
    name: TextName,
    instance: &Instance,
    text: &[u8],
    step: usize,
    nth: u64,
) -> bool
    requires valid { IsValid instance.now }
    requires step { 1 ≤ step }
{
    let calls = (text.len().div_ceil(step) as u64).saturating_add(1);
    let fails = nth != 0 && nth <= calls;
    let mut sink = MemSink::fresh(alloc, step, nth);
    match write(alloc, name, instance, &mut sink) {
        Ok(()) => !fails && sink.bytes() == text,
        Err(fault) => fails && matches!(fault, OrMemory::Fault(_)) && is_cut_off(&sink, text, nth),
    }
}

fn all_end_well(rt: &impl Abort, alloc: Global, name: TextName, instance: &Instance, text: &[u8])
    requires { IsValid instance.now }
{
    for (step, most) in &SINKS {
        for nth in 0..*most {
            assert!(rt;
                ends_well(alloc, name, instance, text, (*step).max(1), nth),
                "{name} {step} {nth}"
            );
        }
    }
}

// A sink that takes a few bytes at a time, and that fails at each of its calls in turn.
#[test]
fn failing_devices(rt: HostRuntime) -> Result<(), Fail> {
    let instance = instance_of(rt.alloc(), LIMITED)?;
    for (name, text) in &TEXTS {
        all_end_well(&rt, rt.alloc(), *name, &instance, text.as_bytes());
    }
    Ok(())
}

// A built CPIT has the text that is also written without building it.
#[test]
fn built_cpit(rt: HostRuntime) -> Result<(), Fail> {
    let instance = instance_of(rt.alloc(), LIMITED)?;
    let cpit = build_cpit(rt.alloc(), &instance)?;
    let mut sink = MemSink::new(rt.alloc());
    assert!(rt; write_cpit(rt.alloc(), &cpit, &mut sink).is_ok());
    assert!(rt; sink.begun() && sink.bytes() == WHOLE_CPIT.as_bytes());
    Ok(())
}
