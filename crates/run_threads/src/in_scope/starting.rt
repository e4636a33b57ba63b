//! Starting the threads of a run, until a start is refused.

ghost use Rattle.std.specs.Prelude.{◌≡◌, ◌≤◌, ◌++◌, true, false, drop, is_some, length, map, vec_len, IsFalse, IsTrue, IfSome};
ghost use Rattle.lane.specs.MessageKinds.{is_done};
ghost use Rattle.plan_parts.specs.Destinations.{formulas_of};
ghost use Rattle.run_threads.specs.Reading.{IsRead};
ghost use Rattle.run_threads.specs.inner.Promises.{AreUnsent, IsUnsent};
ghost use Rattle.run_threads.specs.inner.Ready.{HasRoom};
ghost use Rattle.run_threads.specs.inner.Started.{after_reader, after_readers, after_start, after_starts, AreStarted};
ghost use Rattle.rows.specs.ItemsView.{IsFullFor};
ghost use Rattle.valuers.specs.Valuing.{items_by};
ghost use Rattle.plan_parts.specs.declared.ranges.TheConstants.{MAX_DESTINATIONS, MAX_VALUERS};

use crate::file_reading::{FileRead, read_file};
use crate::promises::{ReaderHandle, ValuedBy, ValuerHandle};
use crate::shared::Shared;
use crate::starts::{OnThread, Starter};
use devices::feeds::feed::Feed;
use lane::{PutEnd, TakeEnd};
use std::snapshot::Snapshot;
use std::sync::Wait;
use valuers::{Gate, PackedItems, ValuerResult, value_packed};

/// The started threads in order, and whether a further start was refused.
#[derive(Drop)]
pub struct Started<H> {
    pub handles: Vec<H>,
    pub refused: bool,
}

/// Starts a valuer for each take end, until a start is refused.
pub fn start_valuers<'s, E, T, R: Wait + Sync, G: Gate + Sync>(
    shared: &Shared<'s, R, G>,
    starter: &mut Starter<'s, E, T>,
    takes: Vec<TakeEnd>,
    mut handles: Vec<ValuerHandle>,
) -> Started<ValuerHandle>
    requires none_refused { starter.old.refused ≡ false }
    requires takers { vec_len takes ≤ MAX_VALUERS }
    requires room { HasRoom (vec_len takes) handles }
    ensures started { AreStarted (λ h. h.promise.end.value) (λ end. end.lane) (λ h. h.promise.plan.value)
        shared.now.plan.now takes result.handles result.refused }
    ensures counted { starter.new
        ≡ after_starts (vec_len result.handles) result.refused starter.old }
{
    let mut valuer = 0u8;
    for take in takes {
        let Some(handle) = start_valuer(shared, starter, take, valuer) else {
            return Started {
                handles,
                refused: true,
            };
        };
        handles.push(handle).unwrap();
        valuer += 1;
    }
    Started {
        handles,
        refused: false,
    }
}

/// Starts a reader for each file, until a start is refused.
pub fn start_readers<'s, E, T, R: Wait + Sync, F: Feed + Send + Drop + 's, G: Gate + Sync>(
    shared: &Shared<'s, R, G>,
    starter: &mut Starter<'s, E, T>,
    feeds: Vec<F>,
    ends: Vec<PutEnd>,
    mut handles: Vec<ReaderHandle<F>>,
) -> Started<ReaderHandle<F>>
    requires none_refused { starter.old.refused ≡ false }
    requires unsent { AreUnsent shared.now.plan.now ends }
    requires feeds { vec_len feeds ≡ vec_len ends }
    requires room { HasRoom (vec_len ends) handles }
    ensures started { AreStarted (λ h. h.promise.end.value) (λ end. end.lane) (λ h. h.promise.plan.value)
        shared.now.plan.now ends result.handles result.refused }
    ensures feeds { IsFalse result.refused
        → map (λ h. h.promise.feed.value) result.handles.items ≡ feeds.items }
    ensures counted { starter.new
        ≡ after_readers (vec_len result.handles) result.refused starter.old }
{
    let mut file = 0u8;
    let mut rest = feeds.into_iter();
    for end in ends {
        let Some(feed) = rest.next() else {
            unreachable!()
        };
        let Some(handle) = start_reader(shared, starter, feed, file, end) else {
            return Started {
                handles,
                refused: true,
            };
        };
        handles.push(handle).unwrap();
        file += 1;
    }
    Started {
        handles,
        refused: false,
    }
}

fn start_valuer<'s, E, T, R: Wait + Sync, G: Gate + Sync>(
    shared: &Shared<'s, R, G>,
    starter: &mut Starter<'s, E, T>,
    end: TakeEnd,
    valuer: u8,
) -> Option<ValuerHandle>
    requires none_refused { starter.old.refused ≡ false }
    ensures counted { starter.new ≡ after_start (is_some result) starter.old }
    ensures promise { IfSome result (λ h.
        (h.promise.plan.value ≡ shared.now.plan.now) × (h.promise.end.value ≡ end)) }
{
    let rt = shared.rt;
    let alloc = shared.alloc;
    let destinations = shared.destinations;
    let gate = shared.gate;
    let promise = ValuedBy {
        plan: Snapshot::of(shared.plan),
        end: Snapshot::of(&end),
    };
    starter.spawn_valuer(
        promise,
        move |_thread: OnThread| -> ValuerResult<PackedItems>
            requires some { 1 ≤ length destinations.now }
            requires few { length destinations.now ≤ MAX_DESTINATIONS }
            ensures taker { result.taker
                ≡ record end { took = end.took ++ drop (length end.took) result.taker.took } }
            ensures done { is_done result.taker.took ≡ true }
            ensures items { let took = drop (length end.took) result.taker.took in
                IsFalse result.memory
                → result.items.items ≡ items_by (formulas_of destinations.entry.now) took }
            ensures full { IsTrue result.memory → IsFullFor (length destinations.entry.now) result.items }
        { value_packed(rt, alloc, end, valuer, destinations, gate) },
    )
}

fn start_reader<'s, E, T, R: Wait + Sync, F: Feed + Send + Drop + 's, G: Gate + Sync>(
    shared: &Shared<'s, R, G>,
    starter: &mut Starter<'s, E, T>,
    feed: F,
    file: u8,
    end: PutEnd,
) -> Option<ReaderHandle<F>>
    requires none_refused { starter.old.refused ≡ false }
    requires unsent { IsUnsent shared.now.plan.now file end }
    ensures counted { starter.new ≡ after_reader (is_some result) starter.old }
    ensures promise { IfSome result (λ h. (h.promise.feed.value ≡ feed)
        × (h.promise.plan.value ≡ shared.now.plan.now) × (h.promise.end.value ≡ end)) }
{
    let rt = shared.rt;
    let alloc = shared.alloc;
    let plan = shared.plan;
    let gate = shared.gate;
    starter.spawn_reader(
        feed,
        Snapshot::of(plan),
        Snapshot::of(&end),
        move |thread: OnThread, feed: F| -> FileRead
            requires { IsUnsent plan.now file end }
            ensures end { (result.ended.lane ≡ end.lane) × (result.ended.file ≡ file) }
            ensures read { IsRead F.state plan.entry.now.grid file feed
                result.answer result.ended.sent }
        { read_file(&thread, rt, alloc, feed, plan, file, end, gate) },
    )
}
