//! What the threads of a run promise about their results.

use crate::file_reading::FileRead;
use devices::feeds::feed::Feed;
use lane::{PutEnd, TakeEnd};
use plan_parts::plan::Plan;
use std::snapshot::Snapshot;
use std::thread::{Promise, PromisedHandle};
use valuers::{PackedItems, ValuerResult};

/// A reader reads this feed, as a zone file of this plan, into this put end.
#[derive(Drop)]
pub struct ReadBy<F> {
    pub feed: Snapshot<F>,
    pub plan: Snapshot<Plan>,
    pub end: Snapshot<PutEnd>,
}

impl<F: Feed> Promise<FileRead> for ReadBy<F> {
    ghost use Rattle.run_threads.specs.inner.Promises.{KeepsRead};

    ghost kept_by = { λ p r. KeepsRead F.state p.plan.value.grid p.feed.value
        p.end.value r.ended r.answer };
}

/// A valuer takes from this end, and values by the formulas of this plan.
#[derive(Drop)]
pub struct ValuedBy {
    pub plan: Snapshot<Plan>,
    pub end: Snapshot<TakeEnd>,
}

impl Promise<ValuerResult<PackedItems>> for ValuedBy {
    ghost use Rattle.plan_parts.specs.PlanFormulas.{formulas_of_plan};
    ghost use Rattle.run_threads.specs.inner.Promises.{KeepsValued};

    ghost kept_by = { λ p r. KeepsValued (formulas_of_plan p.plan.value) p.end.value
        r.taker r.items r.memory };
}

/// The thread of a file's reader.
pub type ReaderHandle<F> = PromisedHandle<FileRead, ReadBy<F>>;

/// The thread of a valuer.
pub type ValuerHandle = PromisedHandle<ValuerResult<PackedItems>, ValuedBy>;
