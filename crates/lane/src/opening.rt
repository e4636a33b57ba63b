//! How a lane is opened: the first pass counts its files, its takers and its capacity, then has all parts, and gives
//! each end its own.

ghost use Rattle.std.specs.Prelude.{◌≡◌, ◌≤◌, [], ◌∷◌, IfOk, OnOk};
ghost use Rattle.crossbeam_channel.specs.Ends.{receives_on};
ghost use Rattle.lane.specs.declared.part.Part.TheVariants.{Count};
ghost use Rattle.lane.specs.Ends.{IsOpened, first_puts, first_takes};
ghost use Rattle.lane.specs.EndFields.{capacity_of};
ghost use Rattle.lane.specs.inner.Kept.{IsChannelOf, takes_remaining};
ghost use Rattle.lane.specs.Rule.{all_parts};
ghost use Rattle.plan_parts.specs.declared.ranges.TheConstants.{MAX_CAPACITY, MAX_VALUERS, MAX_ZONES};

use crate::bells::Bells;
use crate::closer::Closer;
use crate::message::Taken;
use crate::part::Part;
use crate::put_end::PutEnd;
use crate::rule::{CountsFile, CountsPlace, CountsTaker, Opens, Parts, Receiver, Rule};
use crate::seated::SeatedSender;
use crate::take_end::TakeEnd;
use crossbeam_channel::bounded_with;
use std::alloc::{AllocError, Global};

/// Opens a lane: its closer, a put end for each file and a take end for each valuer, in order. The capacity of its
/// queue is `capacity` messages. Fails only if memory is refused; no other call of the lane allocates.
pub fn open(
    alloc: Global,
    files: u8,
    valuers: u8,
    capacity: usize,
) -> Result<(Closer, Vec<PutEnd>, Vec<TakeEnd>), AllocError>
    requires files { (1 ≤ files) × (files ≤ MAX_ZONES) }
    requires valuers { (1 ≤ valuers) × (valuers ≤ MAX_VALUERS) }
    requires capacity { (1 ≤ capacity) × (capacity ≤ MAX_CAPACITY) }
    ensures opened { IfOk result (λ ends. IsOpened files valuers capacity ends.0 ends.1 ends.2) }
{
    let (sender, receiver, pass) = bounded_with::<Taken, Parts, Rule, Global>(alloc, capacity)?;
    let mut seat = SeatedSender::new(sender, pass, Bells::shared(alloc)?);
    count_files(&mut seat, files);
    count_takers(&mut seat, files, valuers);
    count_places(&mut seat, files, valuers, capacity);
    seat.split::<Opens>();
    let puts = put_ends(alloc, &mut seat, files, valuers)?;
    let takes = take_ends(alloc, &mut seat, &receiver, files, valuers)?;
    Ok((Closer::new(seat, receiver, files, valuers), puts, takes))
}

fn count_files(seat: &mut SeatedSender, files: u8)
    requires nothing { seat.old.known ≡ Count 0 0 0 ∷ [] }
    ensures counted { seat.new ≡ record seat.old { known = Count files 0 0 ∷ [] } }
{
    for _file in 0..files {
        seat.split::<CountsFile>();
    }
}

fn count_takers(seat: &mut SeatedSender, files: u8, takers: u8)
    requires files { seat.old.known ≡ Count files 0 0 ∷ [] }
    ensures counted { seat.new ≡ record seat.old { known = Count files takers 0 ∷ [] } }
{
    for _taker in 0..takers {
        seat.split::<CountsTaker>();
    }
}

fn count_places(seat: &mut SeatedSender, files: u8, takers: u8, capacity: usize)
    requires takers { seat.old.known ≡ Count files takers 0 ∷ [] }
    ensures counted { seat.new ≡ record seat.old { known = Count files takers capacity ∷ [] } }
{
    for _place in 0..capacity {
        seat.split::<CountsPlace>();
    }
}

fn put_ends(
    alloc: Global,
    seat: &mut SeatedSender,
    files: u8,
    takers: u8,
) -> Result<Vec<PutEnd>, AllocError>
    requires parts { seat.old.known ≡ all_parts files takers (capacity_of seat.old) }
    ensures remaining { OnOk result (seat.new
        ≡ record seat.old { known = takes_remaining files takers (capacity_of seat.old) 0 }) }
    ensures ends { IfOk result (λ ends. ends.items ≡ first_puts seat.old.lane 0 files) }
{
    let mut ends = Vec::with_capacity(alloc, usize::from(files))?;
    for file in 0..files {
        let end = seat.give_sender()?;
        ends.push(PutEnd::new(end, file))?;
    }
    Ok(ends)
}

fn take_ends(
    alloc: Global,
    seat: &mut SeatedSender,
    receiver: &Receiver,
    files: u8,
    takers: u8,
) -> Result<Vec<TakeEnd>, AllocError>
    requires channel { IsChannelOf seat.old.lane (receives_on receiver.now) }
    requires parts { seat.old.known ≡ takes_remaining files takers (capacity_of seat.old) 0 }
    ensures remaining { OnOk result (seat.new
        ≡ record seat.old { known = Part.Close files takers (capacity_of seat.old) 0 0 ∷ [] }) }
    ensures ends { IfOk result (λ ends. ends.items ≡ first_takes seat.old.lane 0 takers) }
{
    let mut ends = Vec::with_capacity(alloc, usize::from(takers))?;
    for taker in 0..takers {
        let end = seat.give_receiver(receiver)?;
        ends.push(TakeEnd::new(end, taker))?;
    }
    Ok(ends)
}
