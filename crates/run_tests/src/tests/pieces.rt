//! Where the input of the pipe form is cut.

use command_io::pieces::{Piece, cut, cut_at_most};
use std::alloc::{AllocError, Global};
use std::test::Fail;

// An input, its plan and its zone files.
type Cut = (&'static [u8], &'static [u8], &'static [&'static [u8]]);

const CUTS: [Cut; 4] = [
    (b"", b"", &[]),
    (b"a\n--\nb\n", b"a\n", &[b"b\n"]),
    (b"a\n--\r\n--", b"a\n", &[b"", b""]),
    (b"a--\n--b\n", b"a--\n--b\n", &[]),
];

fn are_zones(found: &[Piece], zones: &[&[u8]]) -> bool {
    found.len() == zones.len()
        && found
            .iter()
            .zip(zones)
            .all(|(piece, zone)| piece.as_slice() == *zone)
}

fn is_cut(alloc: Global, (input, plan, zones): &Cut) -> Result<bool, AllocError> {
    let pieces = cut(alloc, *input)?;
    Ok(pieces.plan() == *plan && are_zones(pieces.zones(), *zones))
}

// Returns the number of zone files of a cut that makes at most `most`.
fn count_at_most(alloc: Global, input: &[u8], most: usize) -> Result<Option<usize>, AllocError> {
    match cut_at_most(alloc, input, most)? {
        Some(pieces) => Ok(Some(pieces.zones().len())),
        None => Ok(None),
    }
}

fn lines_of_hyphens(alloc: Global, lines: usize) -> Result<Vec<u8>, AllocError> {
    let mut input = Vec::new(alloc);
    for _line in 0..lines {
        input.extend_from_slice(b"--\n")?;
    }
    Ok(input)
}

#[test]
fn pieces_of_inputs(rt: HostRuntime) -> Result<(), Fail> {
    for (place, row) in CUTS.iter().enumerate() {
        assert!(rt; is_cut(rt.alloc(), row)?, "{place}");
    }
    Ok(())
}

// A million zone files, with that maximum and with a maximum that is smaller by 1.
#[test]
fn a_million_pieces(rt: HostRuntime) -> Result<(), Fail> {
    let input = lines_of_hyphens(rt.alloc(), 1_000_000)?;
    let pieces = cut(rt.alloc(), input.as_slice())?;
    assert_eq!(rt; pieces.zones().len(), 1_000_000);
    for (most, count) in [(1_000_000, Some(1_000_000)), (999_999, None)] {
        assert_eq!(rt; count_at_most(rt.alloc(), input.as_slice(), most)?, count);
    }
    Ok(())
}
