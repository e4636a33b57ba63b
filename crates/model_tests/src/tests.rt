use pit_units::Dec;
use plan_parts::block::Block;
use rows::{Valued, Worths};

mod collecting;
mod cones;
mod decimals;
mod feeds;
mod instances;
mod numbering;
mod plans;
mod signals;
mod stored_rows;
mod texts;
mod zone_reading;

// Returns a row of a file, with the block at this index along x and these worths.
fn valued(file: u8, place: u32, x: u16, worths: &[i128]) -> Option<Valued> {
    Some(Valued {
        file,
        place,
        block: Block::new(x, 0, 0, 1_000, 0, file)?,
        worths: Worths::new(worths)?,
    })
}

// Returns whether the decimals have these millionths.
fn are_millionths(decs: &[Dec], millionths: &[i128]) -> bool {
    decs.len() == millionths.len()
        && decs
            .iter()
            .zip(millionths)
            .all(|(dec, millionths)| dec.millionths() == *millionths)
}
