//! The end of a zone file or its first fault, which every later call returns too.

use pit_model::plan::Plan;
use pit_model::read_plan;
use pit_units::OrMemory;
use plan_parts::block::Block;
use std::alloc::Global;
use std::test::Fail;
use zone_csv::row_fault::{Column, RowFault, RowFaultKind};
use zone_csv::zone_reader::ZoneReader;

const PLAN: &[u8] =
    b"name,waste\ngrid,0,0,0,10,10,10\nzone,1,1,1\ndump,dump,200\nperiods,1\nrate,0.1\n";

// The index of a block along x, its kilograms, and its grade in millionths of a gram per tonne.
type Row = (u16, u64, u64);

// A text, its block if it has one, and the fault after it, if there is one.
type File = (
    &'static [u8],
    Option<Row>,
    Option<(u32, Column, RowFaultKind)>,
);

// A file without rows, one with a row, and files with an invalid first or third record.
const FILES: [File; 4] = [
    (b"x,y,z,tonnes,grade\n", None, None),
    (
        b"x,y,z,tonnes,grade\n0,0,0,1000,5\n",
        Some((0, 1_000_000, 5_000_000)),
        None,
    ),
    (
        b"x,y,z,tonnes\n",
        None,
        Some((1, Column::Grade, RowFaultKind::MissingColumn)),
    ),
    (
        b"x,y,z,tonnes,grade\n99990,0,0,1,0\n5,0,0,1,0\n",
        Some((9_999, 1_000, 0)),
        Some((3, Column::X, RowFaultKind::OffGrid)),
    ),
];

fn reader_by(alloc: Global, plan: &Plan, text: Vec<u8>) -> Result<ZoneReader, Fail> {
    if plan.cones().is_empty() {
        return Err("a zone")?;
    }
    Ok(ZoneReader::new(alloc, text, plan, 0))
}

fn reader_of(alloc: Global, text: Vec<u8>) -> Result<ZoneReader, Fail> {
    let plan = read_plan(alloc, PLAN)?;
    reader_by(alloc, &plan, text)
}

fn is_next(reader: &mut ZoneReader, answer: Result<Option<Block>, OrMemory<RowFault>>) -> bool {
    reader.next() == answer
}

// Returns whether a reader returns a block, if there is one.
fn gives(reader: &mut ZoneReader, row: Option<Row>) -> bool {
    match row {
        Some((x, kg, grade)) => is_next(reader, Ok(Block::new(x, 0, 0, kg, grade, 0))),
        None => true,
    }
}

// Returns whether a reader returns this fault, or the end, at three calls.
fn ends(reader: &mut ZoneReader, fault: Option<(u32, Column, RowFaultKind)>) -> bool {
    let answer = match fault {
        Some((row, column, kind)) => Err(OrMemory::Fault(RowFault { row, column, kind })),
        None => Ok(None),
    };
    is_next(reader, answer) && is_next(reader, answer) && is_next(reader, answer)
}

// Returns whether a reader of the text returns its block, and then its fault or end.
fn is_read(alloc: Global, (text, row, fault): &File) -> Result<bool, Fail> {
    let mut reader = reader_of(alloc, text.to_vec(alloc)?)?;
    Ok(gives(&mut reader, *row) && ends(&mut reader, *fault))
}

// The program does not call again once a file has ended.
#[test]
fn ends_are_answered_again(rt: HostRuntime) -> Result<(), Fail> {
    for (place, file) in FILES.iter().enumerate() {
        assert!(rt; is_read(rt.alloc(), file)?, "{place}");
    }
    Ok(())
}
