//! The files that are written and read, and their sinks.

ghost use Rattle.std.specs.Prelude.{IfOk};
ghost use Rattle.mine_instance.specs.Valid.{IsValid};

use devices::sinks::mem_sink::MemSink;
use devices::sinks::write_fault::WriteFault;
use headers::{cpit, pcpsp};
use mine_instance::instance::Instance;
use minelib_lines::text_name::TextName;
use minelib_reading::read_instance;
use minelib_writing::write_named;
use std::alloc::Global;
use std::test::Fail;

mod faults;
mod fed;
mod file_sink;
mod headers;
mod reader;
mod section_sink;
mod writers;

/// The texts of a block file, a precedence file and a production scheduling file.
pub type Texts = [&'static str; 3];

// Two blocks with a mill and a dump, a resource and its limits.
const BLOCKS: &str = "0 0 0 0 1000 5000 0\n1 1 0 0 0 7 0\n";

const PREC: &str = "0 1 1\n1 0\n";

const PCPSP: &str = pcpsp! {
    name: "one", blocks: 2, periods: 2, destinations: 2, resources: 1, rate: 0.1,
    values: ["0 12000 -2000", "1 0 0"],
    coefs: ["0 0 0 1000"],
    limits: ["0 0 L 500.5", "0 1 I 0 900"],
};

/// The texts of these blocks.
pub const LIMITED: Texts = [BLOCKS, PREC, PCPSP];

// A block below nine blocks on the bench above it, each of which costs 15 at the mill.
const NINE_ABOVE: Texts = [
    "0 1 1 0 1 0 0\n1 0 0 1 1 0 0\n2 1 0 1 1 0 0\n3 2 0 1 1 0 0\n4 0 1 1 1 0 0\n5 1 1 1 1 0 0\n6 2 1 1 1 0 0\n7 0 2 1 1 0 0\n8 1 2 1 1 0 0\n9 2 2 1 1 0 0\n",
    "0 5 2 4 5 6 8\n1 0\n2 0\n3 0\n4 0\n5 0\n6 0\n7 0\n8 0\n9 0\n",
    pcpsp! {
        name: "one", blocks: 10, periods: 1, destinations: 1, resources: 0, rate: 0.1,
        values: ["0 -15", "1 -15", "2 -15", "3 -15", "4 -15", "5 -15", "6 -15", "7 -15", "8 -15", "9 -15"],
        coefs: [],
        limits: [],
    },
];

// One block of ore with a mill.
const ONE_ORE_BLOCK: Texts = [
    "0 0 0 0 1000 5000 0\n",
    "0 0\n",
    pcpsp! {
        name: "one", blocks: 1, periods: 1, destinations: 1, resources: 0, rate: 0.1,
        values: ["0 12000"],
        coefs: [],
        limits: [],
    },
];

// The CPIT of the two blocks.
const CPIT: &str = cpit! {
    name: "one", blocks: 2, periods: 2, resources: 1, rate: 0.1,
    values: ["0 12000", "1 0"],
    coefs: ["0 0 1000"],
    limits: ["0 0 L 500.5", "0 1 I 0 900"],
};

/// Returns the instance of these texts.
pub fn instance_of(alloc: Global, texts: Texts) -> Result<Instance, Fail>
    ensures { IfOk result IsValid }
{
    let [blocks, prec, pcpsp] = texts;
    Ok(read_instance(alloc, blocks.as_bytes(), prec.as_bytes(), pcpsp.as_bytes())?)
}

// Writes an instance's text with this name.
fn write(
    alloc: Global,
    name: TextName,
    instance: &Instance,
    sink: &mut MemSink,
) -> Result<(), WriteFault>
    requires { IsValid instance.now }
{
    write_named(alloc, name, instance, sink)
}

// Returns whether this is the instance's text with this name.
fn is_text(
    alloc: Global,
    name: TextName,
    instance: &Instance,
    text: &str,
) -> Result<bool, WriteFault>
    requires { IsValid instance.now }
{
    let mut sink = MemSink::new(alloc);
    write(alloc, name, instance, &mut sink)?;
    Ok(sink.begun() && sink.bytes() == text.as_bytes())
}
