//! The first invalid line, as calls return it that store what they read: the program only counts.

ghost use Rattle.std.specs.Prelude.{◌≤◌};

use super::{CPIT, ONE_ORE_BLOCK};
use minelib_reading::{read_cpit, read_instance};
use pit_units::OrMemory;
use std::alloc::Global;
use std::test::Fail;
use text_lines::text_fault::{TextFault, TextFile, TextKind};

type Fault = (TextFile, u64, TextKind);

fn fault_in(error: OrMemory<TextFault>) -> Option<Fault> {
    match error {
        OrMemory::Fault(TextFault { file, line, kind }) => Some((file, line, kind)),
        OrMemory::OutOfMemory => None,
    }
}

fn fault_of(alloc: Global, blocks: &str, prec: &str, pcpsp: &str) -> Option<Fault> {
    let (blocks, prec, pcpsp) = (blocks.as_bytes(), prec.as_bytes(), pcpsp.as_bytes());
    fault_in(read_instance(alloc, blocks, prec, pcpsp).err()?)
}

fn fault_of_cpit(alloc: Global, n: usize, text: &str) -> Option<Fault>
    requires { n ≤ 64000000 }
{
    fault_in(read_cpit(alloc, n, text.as_bytes()).err()?)
}

// Texts that replace one of the ore block's texts, and their first invalid line.
const INVALID_TEXTS: [(&str, Fault); 3] = [
    (
        "0 0 0 0 1000 5000\n",
        (TextFile::Blocks, 1, TextKind::Fields),
    ),
    ("", (TextFile::Prec, 1, TextKind::Missing)),
    (
        "NAME: one\nTYPE: CPIT\n",
        (TextFile::Pcpsp, 2, TextKind::Name),
    ),
];

fn is_refused(alloc: Global, text: &str, fault: Fault) -> bool {
    let [blocks, prec, pcpsp] = ONE_ORE_BLOCK;
    let found = match fault.0 {
        TextFile::Blocks => fault_of(alloc, text, prec, pcpsp),
        TextFile::Prec => fault_of(alloc, blocks, text, pcpsp),
        _ => fault_of(alloc, blocks, prec, text),
    };
    found == Some(fault)
}

#[test]
fn invalid_lines(rt: HostRuntime) -> Result<(), Fail> {
    for (place, (text, fault)) in INVALID_TEXTS.iter().enumerate() {
        assert!(rt; is_refused(rt.alloc(), text, *fault), "text {place}");
    }
    let count = (TextFile::Cpit, 3, TextKind::Count);
    assert_eq!(rt; fault_of_cpit(rt.alloc(), 1, CPIT), Some(count));
    assert_eq!(rt; fault_of_cpit(rt.alloc(), 2, CPIT), None);
    Ok(())
}
