//! The lines and exit statuses of plans and runs that fail, and what the pipe form prints.

use crate::tests::headers::PRINTED;
use crate::tests::models::destinations_of;
use crate::tests::watch::{OPEN, Watch};
use command_io::pieces::Piece;
use command_io::refused::fault_line::plan_from;
use compile_command::pipe_form::pipe;
use compile_command::refusal_line::refusal_line;
use minelib_text::text_name::TextName;
use pit_compile::refusal::{Refusal, RowAt};
use pit_compile::settings::SettingsFault;
use pit_model::read_plan;
use std::alloc::Global;
use std::sync::Wait;
use std::test::Fail;
use std::thread::Threads;
use zone_csv::row_fault::{Column, RowFault, RowFaultKind};

const MILL: &[u8] =
    b"name,one\ngrid,0,0,0,10,10,10\nzone,1,1,1\nmill,mill,900,600,1500\nperiods,1\nrate,0.1\n";

// The bytes of a vector before a call.
const BEFORE: &[u8] = b"before\n";

// Returns the number of rows or the error of the pipe form for a plan and a zone file, and then the vector's bytes.
fn piped<R: Threads + Wait + Sync>(
    rt: &R,
    alloc: Global,
    plan: &[u8],
    zone: &[u8],
) -> Result<(Result<u64, Refusal>, Vec<u8>), Fail> {
    let plan = read_plan(alloc, plan)?;
    let watch = Watch::new(alloc, OPEN)?;
    let destinations = destinations_of(alloc, &plan, &watch)?;
    let zones = [Piece::new(zone.to_vec(alloc)?)];
    let mut out = BEFORE.to_vec(alloc)?;
    let answered = match pipe(rt, alloc, &zones, &plan, destinations.as_slice(), &mut out) {
        Ok(gathered) => Ok(gathered.rows()),
        Err(refusal) => Err(refusal),
    };
    Ok((answered, out))
}

#[test]
fn one_ore_block(rt: HostRuntime) -> Result<(), Fail> {
    let zone = b"x,y,z,tonnes,grade\n0,0,0,1000,5000\n";
    let (answered, out) = piped(&rt, rt.alloc(), MILL, zone)?;
    let printed = out
        .as_slice()
        .strip_prefix(BEFORE)
        .ok_or("what stood before is gone")?;
    assert!(rt; answered == Ok(1) && printed == PRINTED.as_bytes());
    Ok(())
}

// Returns the status of an error, and its line after the earlier bytes.
fn line_of(alloc: Global, refusal: &Refusal) -> Result<(u8, Vec<u8>), Fail> {
    let mut lines = BEFORE.to_vec(alloc)?;
    let status = refusal_line(alloc, refusal, &mut lines)?;
    Ok((status, lines))
}

const REPEATED: Refusal = Refusal::Same {
    first: RowAt { file: 0, row: 2 },
    again: RowAt { file: 0, row: 4 },
};

const LATE: Refusal = Refusal::Row {
    file: 0,
    fault: RowFault {
        row: 900,
        column: Column::Grade,
        kind: RowFaultKind::Number,
    },
};

// Errors, their statuses, and their lines.
const LINES: [(Refusal, u8, &[u8]); 8] = [
    (
        REPEATED,
        1,
        b"before\npitc: file 0 row 4 repeats file 0 row 2\n",
    ),
    (
        LATE,
        1,
        b"before\npitc: file 0 row 900 column grade: Number\n",
    ),
    (
        Refusal::TooLong { file: 0 },
        1,
        b"before\npitc: file 0: TooLong\n",
    ),
    (
        Refusal::FeedFailed { file: 0 },
        3,
        b"before\npitc: file 0: FeedFailed\n",
    ),
    (
        Refusal::SinkFailed {
            which: TextName::Prec,
        },
        3,
        b"before\npitc: sink prec: SinkFailed\n",
    ),
    (
        Refusal::Settings(SettingsFault::Files),
        2,
        b"before\npitc: settings: Files\n",
    ),
    (Refusal::NoThread, 4, b"before\npitc: NoThread\n"),
    (Refusal::OutOfMemory, 4, b"before\npitc: OutOfMemory\n"),
];

#[test]
fn lines_of_refusals(rt: HostRuntime) -> Result<(), Fail> {
    for (refusal, status, line) in &LINES {
        let (found, lines) = line_of(rt.alloc(), refusal)?;
        assert_eq!(rt; found, *status);
        assert!(rt; lines.as_slice() == *line);
    }
    Ok(())
}

// Returns the status of an invalid plan, or 0, and its line after the earlier bytes.
fn plan_line(alloc: Global, text: &[u8]) -> Result<(u8, Vec<u8>), Fail> {
    let mut lines = BEFORE.to_vec(alloc)?;
    let status = match plan_from(alloc, text, &mut lines) {
        Ok(_) => 0,
        Err(status) => status,
    };
    Ok((status, lines))
}

const PLANS: [(&[u8], u8, &[u8]); 2] = [
    (MILL, 0, BEFORE),
    (b"", 1, b"before\npitc: plan row 1: Missing\n"),
];

#[test]
fn lines_of_plans(rt: HostRuntime) -> Result<(), Fail> {
    for (text, status, line) in &PLANS {
        let (found, lines) = plan_line(rt.alloc(), text)?;
        assert_eq!(rt; found, *status);
        assert!(rt; lines.as_slice() == *line);
    }
    Ok(())
}
