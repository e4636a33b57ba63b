//! The lane of a run with all its ends.

ghost use Rattle.std.specs.Prelude.{◌≡◌, ◌≤◌, vec_len, IfOk};
ghost use Rattle.lane.specs.Ends.{first_puts, first_takes};
ghost use Rattle.plan_parts.specs.declared.ranges.TheConstants.{MAX_CAPACITY, MAX_VALUERS, MAX_ZONES};

use lane::{Closer, PutEnd, TakeEnd, open};
use std::alloc::{AllocError, Global};

/// A lane that was just opened: its closer, a put end for each file and a take end for each valuer, all of them unused.
#[derive(Drop)]
pub struct OpenedLane {
    pub closer: Closer,
    pub puts: Vec<PutEnd>,
    pub takes: Vec<TakeEnd>,
    pub ghost puts_are: { puts.items ≡ first_puts closer.lane 0 closer.files },
    pub ghost takes_are: { takes.items ≡ first_takes closer.lane 0 closer.takers },
    pub ghost put_count: { vec_len puts ≡ closer.files },
    pub ghost take_count: { vec_len takes ≡ closer.takers },
    pub ghost few_puts: { closer.files ≤ MAX_ZONES },
    pub ghost few_takes: { closer.takers ≤ MAX_VALUERS },
}

/// Opens a lane for `files` files and `valuers` valuers.
pub fn open_lane(
    alloc: Global,
    files: u8,
    valuers: u8,
    capacity: usize,
) -> Result<OpenedLane, AllocError>
    requires files { (1 ≤ files) × (files ≤ MAX_ZONES) }
    requires valuers { (1 ≤ valuers) × (valuers ≤ MAX_VALUERS) }
    requires capacity { (1 ≤ capacity) × (capacity ≤ MAX_CAPACITY) }
    ensures files { IfOk result (λ lane. lane.closer.files ≡ files) }
    ensures takers { IfOk result (λ lane. lane.closer.takers ≡ valuers) }
    ensures capacity { IfOk result (λ lane. lane.closer.lane.2 ≡ capacity) }
{
    let (closer, puts, takes) = open(alloc, files, valuers, capacity)?;
    Ok(OpenedLane {
        closer,
        puts,
        takes,
    })
}
