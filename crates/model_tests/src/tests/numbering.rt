use super::valued;
use pit_units::OrMemory;
use precedence::{Same, number};
use rows::Valued;
use std::test::Fail;

// Returns four rows of two files, with blocks at these indices along x.
fn four_rows(places: [u16; 4]) -> Option<[Valued; 4]> {
    let [a, b, c, d] = places;
    Some([
        valued(0, 0, a, &[0])?,
        valued(1, 0, b, &[0])?,
        valued(1, 1, c, &[0])?,
        valued(1, 2, d, &[0])?,
    ])
}

#[test]
fn same_block_in_two_files(rt: HostRuntime) -> Result<(), Fail> {
    let rows = four_rows([0, 1, 2, 0]).ok_or("rows")?;
    let same = OrMemory::Fault(Same { first: 0, again: 3 });
    assert_eq!(rt; number(rt.alloc(), &rows).err(), Some(same));
    Ok(())
}

#[test]
fn blocks_out_of_order(rt: HostRuntime) -> Result<(), Fail> {
    let rows = four_rows([7, 1, 4, 0]).ok_or("rows")?;
    let numbering = number(rt.alloc(), &rows)?;
    assert_eq!(rt; numbering.len(), 4);
    assert_eq!(rt; (numbering.position(0), numbering.position(1)), (3, 1));
    assert_eq!(rt; (numbering.position(2), numbering.position(3)), (2, 0));
    Ok(())
}
