//! Texts that are counted while a feed gives them, in parts of any size.

ghost use Rattle.std.specs.Prelude.{◌≤◌};

use super::{CPIT, PCPSP};
use devices::feeds::fed_fault::FedFault;
use devices::feeds::mem_feed::MemFeed;
use devices::feeds::slurp::{LARGEST_LIMIT, SlurpFault};
use minelib_lines::problem::Problem;
use minelib_reading::{count_arcs, count_blocks, count_model};
use std::alloc::{AllocError, Global};
use std::test::Fail;
use text_lines::fed_lines::FedResult;
use text_lines::text_fault::TextKind;

// The count of a text, or the line and the kind of its first fault.
type Counted = Result<usize, (u64, TextKind)>;

// Block files: with a byte order mark, CR LF, a last line without an end, blank lines and comments.
const BLOCKS: [(&[u8], Counted); 11] = [
    (b"", Ok(0)),
    (b"\xEF\xBB\xBF", Ok(0)),
    (b"\r", Ok(0)),
    (b"0 0 0 0 1 1 0", Ok(1)),
    (b"\xEF\xBB\xBF0 0 0 0 1000 5000 0\r\n1 1 0 0 0 7 0\r", Ok(2)),
    (
        b"% a\n \t \r\n0 0 0 0 1 1 0\n\n  % 1 0\n1 1 0 0 1 1 0\n\n",
        Ok(2),
    ),
    (b"0 0 0 0 1 1 0\n\r\n%\nx\n0\n", Err((4, TextKind::Fields))),
    (b"0 0 0 0 1 1 0\nx", Err((2, TextKind::Fields))),
    (
        b"\xEF\xBB\xBF\xEF\xBB\xBF0 0 0 0 1 1 0\n",
        Err((1, TextKind::Number)),
    ),
    (
        b"0 0 0 0 1 1 0\n\xEF\xBB\xBF1 1 0 0 1 1 0\n",
        Err((2, TextKind::Number)),
    ),
    (b"0 0 0 0 1 1 0\r\r\n", Err((1, TextKind::Number))),
];

// Precedence files, for a number of blocks. Lists that do not rise are marked.
const ARCS: [(usize, &[u8], Counted); 7] = [
    (0, b"", Ok(0)),
    (1, b"\xEF\xBB\xBF", Err((1, TextKind::Missing))),
    (2, b"0 1 1\r\n\r\n1 0", Ok(1)),
    (2, b"0 1 1\n%", Err((3, TextKind::Missing))),
    (3, b"0 2 2 1\n1 0\n2 2 1 0\n", Ok(4)),
    (3, b"0 2 2 1\n1 0\n2 2 0 0\n", Err((3, TextKind::Twice))),
    (3, b"0 2 2 1\n1 2 2 1\n", Err((2, TextKind::Twice))),
];

// The maximum numbers of bytes for a pull.
const STEPS: [usize; 4] = [1, 2, 7, 1_000_000];

fn cutting(alloc: Global, text: &[u8], step: usize) -> Result<MemFeed, AllocError>
    requires { 1 ≤ step }
{
    Ok(MemFeed::cutting(text.to_vec(alloc)?, step))
}

fn is_counted(answer: &FedResult<usize>, wanted: &Counted) -> bool {
    match (answer, wanted) {
        (Ok(count), Ok(other)) => *count == *other,
        (Err(FedFault::Text(fault)), Err((line, kind))) => {
            fault.line == *line && fault.kind == *kind
        }
        _ => false,
    }
}

#[test]
fn blocks_in_pieces(rt: HostRuntime) -> Result<(), Fail> {
    let alloc = rt.alloc();
    for (place, (text, wanted)) in BLOCKS.iter().enumerate() {
        for step in STEPS {
            let mut feed = cutting(alloc, text, step)?;
            let answer = count_blocks(alloc, &mut feed, LARGEST_LIMIT);
            assert!(rt; is_counted(&answer, wanted), "{place} {step}");
        }
    }
    Ok(())
}

#[test]
fn arcs_in_pieces(rt: HostRuntime) -> Result<(), Fail> {
    let alloc = rt.alloc();
    for (place, (blocks, text, wanted)) in ARCS.iter().enumerate() {
        for step in STEPS {
            let mut feed = cutting(alloc, text, step)?;
            let answer = count_arcs(alloc, *blocks, &mut feed, LARGEST_LIMIT);
            assert!(rt; is_counted(&answer, wanted), "{place} {step}");
        }
    }
    Ok(())
}

#[test]
fn models_in_pieces(rt: HostRuntime) -> Result<(), Fail> {
    let alloc = rt.alloc();
    for step in STEPS {
        let mut feed = cutting(alloc, PCPSP.as_bytes(), step)?;
        let answer = count_model(alloc, Problem::Pcpsp, 2, &mut feed, LARGEST_LIMIT);
        assert!(rt; answer == Ok((1, 2)), "pcpsp {step}");
        let mut feed = cutting(alloc, CPIT.as_bytes(), step)?;
        let answer = count_model(alloc, Problem::Cpit, 2, &mut feed, LARGEST_LIMIT);
        assert!(rt; answer == Ok((1, 2)), "cpit {step}");
    }
    Ok(())
}

// The pull that fails (0 for none), the limit, and the error that replaces a text's first line, which is invalid. The first pull
// gives the whole text, the second the end.
const AFTER_A_FAULT: [(u64, u64, Option<SlurpFault>); 5] = [
    (0, 4, None),
    (0, 3, Some(SlurpFault::TooLong)),
    (1, 4, Some(SlurpFault::FeedFailed)),
    (2, 4, Some(SlurpFault::FeedFailed)),
    (3, 4, None),
];

#[test]
fn faults_of_feeds_come_first(rt: HostRuntime) -> Result<(), Fail> {
    let alloc = rt.alloc();
    for (nth, limit, before) in &AFTER_A_FAULT {
        let bytes = b"x\n0\n".to_vec(alloc)?;
        let mut feed = if *nth == 0 {
            MemFeed::new(bytes)
        } else {
            MemFeed::failing(bytes, *nth)
        };
        let answer = count_blocks(alloc, &mut feed, *limit);
        let is_answer = match (&answer, before) {
            (Err(FedFault::Text(fault)), None) => fault.line == 1 && fault.kind == TextKind::Fields,
            (Err(FedFault::Unread(fault)), Some(other)) => *fault == *other,
            _ => false,
        };
        assert!(rt; is_answer, "{nth} {limit}");
    }
    Ok(())
}
