//! Counts the starts and joins of a run's threads, and the marks that end its valuers. Only this module of the crate starts and joins
//! threads. It passes the runtime to
//! `hand_over`, which opens the scope of a run, and lends it to the code that waits in the threads.

ghost use Rattle.std.specs.Prelude.{◌≡◌, ℕ, ◌+◌, ◌<◌, ◌≤◌, true, false, is_some, length, map, IfSome, OnSome};
ghost use Rattle.lane.specs.Ends.{Lane, ArePutsFrom};
ghost use Rattle.run_threads.specs.Starts.{none_spent};
ghost use Rattle.plan_parts.specs.PlanFormulas.{formulas_of_plan};
ghost use Rattle.run_threads.specs.inner.Promises.{KeepsRead, KeepsValued};
ghost use Rattle.run_threads.specs.inner.Started.{after_start, after_reader, after_marks, after_join, valuers_in, MayMark};
ghost use Rattle.run_threads.specs.declared.starts.OnThread.{OnThread as AThread};

use crate::file_reading::FileRead;
use crate::promises::{ReadBy, ReaderHandle, ValuedBy, ValuerHandle};
use devices::feeds::feed::Feed;
use lane::{Closer, EndedPut, LaneEnded, PutEnd, Stopped};
use plan_parts::plan::Plan;
use std::marker::{Model, PhantomData};
use std::mem;
use std::snapshot::Snapshot;
use std::sync::Wait;
use std::thread::{Promise, PromisedHandle, Scope, Threads};
use valuers::{OpenGate, PackedItems, ValuerResult};

/// A budget of thread starts. It holds the runtime that starts threads and waits for them, and the gate of a run, and gives neither to
/// another crate. So a function that borrows a budget and has no other runtime can start no other threads, and can wait only for a run with
/// this gate.
#[derive(Drop)]
pub struct Starts<'a, R, G = OpenGate> {
    rt: &'a R,
    gate: &'a G,
    counted: Counted,
}

impl<'a, R, G> Model for Starts<'a, R, G> {
    ghost use Rattle.run_threads.specs.Starts.{StartsView};

    ghost Value = { StartsView };

    ghost view = { λ s. s.counted };
}

impl<'a, R> Starts<'a, R> {
    /// Allows `allowed` thread starts on `rt`; a further start counts as refused. The gate lets everything pass.
    pub fn new(rt: &'a R, allowed: u32) -> Starts<'a, R>
        ensures { result ≡ none_spent allowed }
    {
        Starts::with_gate(rt, allowed, &OpenGate)
    }
}

impl<'a, R, G> Starts<'a, R, G> {
    /// Allows `allowed` thread starts on `rt`, with this gate.
    pub fn with_gate(rt: &'a R, allowed: u32, gate: &'a G) -> Starts<'a, R, G>
        ensures { result ≡ none_spent allowed }
    {
        Starts {
            rt,
            gate,
            counted: Counted::new(allowed),
        }
    }

    /// Returns the runtime.
    pub(crate) fn runtime(&self) -> &'a R {
        self.rt
    }

    /// Returns the gate.
    pub(crate) fn gate(&self) -> &'a G {
        self.gate
    }

    /// Takes out the counts, and leaves no start here until `give_back` is called.
    pub(crate) fn borrow_counts(&mut self) -> Counted
        ensures { result ≡ self.old }
    {
        mem::replace(&mut self.counted, Counted::new(0))
    }

    /// Puts the counts back that `borrow_counts` took out.
    pub(crate) fn give_back(&mut self, counted: Counted)
        ensures { self.new ≡ counted }
    {
        self.counted = counted;
    }
}

/// The number of threads that may be started, that were started, that were started as readers, and that were joined, the number of marks that
/// were sent to valuers to end them, and whether a start was refused.
#[derive(Drop)]
pub struct Counted {
    allowed: u32,
    spent: u32,
    readers: u32,
    joined: u32,
    marks: u32,
    refused: bool,
}

impl Model for Counted {
    ghost use Rattle.std.specs.Prelude.{◌≤◌};
    ghost use Rattle.run_threads.specs.Starts.{StartsView};

    ghost Value = { StartsView };

    ghost view = { λ s. record {
      allowed = s.allowed;
      spent = s.spent;
      readers = s.readers;
      joined = s.joined;
      marks = s.marks;
      refused = s.refused;
    } };

    ghost invariant = { λ s. (s.spent ≤ s.allowed) × (s.readers ≤ s.spent) × (s.joined ≤ s.spent) };
}

impl Counted {
    // No thread was started yet, and `allowed` threads may be.
    fn new(allowed: u32) -> Counted
        ensures { result ≡ none_spent allowed }
    {
        Counted {
            allowed,
            spent: 0,
            readers: 0,
            joined: 0,
            marks: 0,
            refused: false,
        }
    }

    // Counts one more reader.
    fn count_reader(&mut self)
        requires { self.old.readers < self.old.spent }
        ensures { self.new ≡ record self.old { readers = self.old.readers + 1 } }
    {
        self.readers += 1;
    }
}

/// Proof that work runs on a thread of its own: only a started thread has one, and it passes it to no other.
#[derive(Drop)]
pub struct OnThread {
    here: PhantomData<*mut u8>,
}

/// The part of a lane that must exist before threads at its ends may be joined.
pub trait OfLane {
    /// The lane of this part.
    ghost lane_of: { Self → Lane };

    /// That this part lets the threads end, if this number of valuers was started.
    ghost ends: { Self → ℕ → Type 0 };
}

// The lane is not closed yet.
impl OfLane for Closer {
    ghost lane_of = { λ closer. closer.lane };

    ghost ends = { λ closer valuers. Unit {0} };
}

// Each valuer was sent a mark.
impl OfLane for LaneEnded {
    ghost lane_of = { λ ended. ended.lane };

    ghost ends = { λ ended valuers. valuers ≤ ended.marks };
}

/// What a thread of a run promises.
pub trait RunPromise {
    /// The part of the lane that must exist before the thread may be joined.
    type After: OfLane;

    /// The lane that the thread puts into, or takes from.
    ghost lane: { Self → Lane };
}

// A reader ends by itself while valuers take, so it is joined before the lane is closed.
impl<F> RunPromise for ReadBy<F> {
    type After = Closer;

    ghost lane = { λ promise. promise.end.value.lane };
}

// A valuer ends when it takes the mark sent to it.
impl RunPromise for ValuedBy {
    type After = LaneEnded;

    ghost lane = { λ promise. promise.end.value.lane };
}

/// The feeds that the threads of readers received, in the order of these threads.
#[derive(Drop)]
pub struct GivenFeeds<F: Feed> {
    readers: Snapshot<Vec<ReaderHandle<F>>>,
}

impl<F: Feed> Model for GivenFeeds<F> {
    ghost use Rattle.std.specs.Prelude.{List, map};

    ghost Value = { List F };

    ghost view = { λ given. map (λ handle. handle.promise.feed.value) given.readers.value.items };
}

impl<F: Feed> GivenFeeds<F> {
    /// Returns the feeds of these threads.
    pub fn of(readers: &Vec<ReaderHandle<F>>) -> GivenFeeds<F>
        ensures { result ≡ map (λ handle. handle.promise.feed.value) readers.now.items }
    {
        GivenFeeds {
            readers: Snapshot::of(readers),
        }
    }
}

/// Starts threads in a scope, and joins them.
#[derive(Drop)]
pub struct Starter<'s, E, T> {
    scope: &'s Scope<'s, E>,
    rt: &'s T,
    starts: Counted,
}

impl<'s, E, T> Model for Starter<'s, E, T> {
    ghost use Rattle.std.specs.Prelude.{◌≤◌};
    ghost use Rattle.run_threads.specs.Starts.{StartsView};

    ghost Value = { StartsView };

    ghost view = { λ s. s.starts };

    ghost invariant = { λ s. s.starts.spent ≤ s.starts.allowed };
}

impl<'s, E, T> Starter<'s, E, T> {
    /// Creates a starter, which starts threads in `scope` and joins them with the runtime `rt`. It continues the counts in `starts`,
    /// whose budget limits its starts.
    pub fn new(scope: &'s Scope<'s, E>, rt: &'s T, starts: Counted) -> Starter<'s, E, T>
        requires { starts.spent ≤ starts.allowed }
        ensures { result ≡ starts }
    {
        Starter { scope, rt, starts }
    }

    /// Returns the counts.
    pub fn end(self) -> Counted
        ensures value { result ≡ self.entry }
        ensures within { result.spent ≤ result.allowed }
    {
        self.starts
    }

    /// Starts a thread that does the work of a valuer. Fails if the budget is used up or the system starts no thread.
    pub fn spawn_valuer<W: FnOnce(OnThread) -> ValuerResult<PackedItems> + Send + Drop + 's>(
        &mut self,
        promise: ValuedBy,
        work: W,
    ) -> Option<ValuerHandle>
        requires none_refused { self.old.refused ≡ false }
        requires runs { W.IsAlwaysCallable work }
        requires keeps { (thread : AThread) (r : _) → W.post work thread r
            → KeepsValued (formulas_of_plan promise.plan.value) promise.end.value r.taker r.items r.memory }
        ensures promise { IfSome result (λ handle. handle.promise ≡ promise) }
        ensures counted { self.new ≡ after_start (is_some result) self.old }
    {
        self.spawn(promise, work)
    }

    /// Starts a thread that does the work of a reader with this feed, which no other thread receives. Fails as `spawn_valuer` does.
    pub fn spawn_reader<
        F: Feed + Send + Drop + 's,
        W: FnOnce(OnThread, F) -> FileRead + Send + Drop + 's,
    >(
        &mut self,
        feed: F,
        plan: Snapshot<Plan>,
        end: Snapshot<PutEnd>,
        work: W,
    ) -> Option<ReaderHandle<F>>
        requires none_refused { self.old.refused ≡ false }
        requires runs { W.IsAlwaysCallable work }
        requires keeps { (thread : AThread) (r : _) → W.post work thread feed r
            → KeepsRead F.state plan.value.grid feed end.value r.ended r.answer }
        ensures promise { IfSome result (λ handle. (handle.promise.feed.value ≡ feed)
            × (handle.promise.plan.value ≡ plan.value) × (handle.promise.end.value ≡ end.value)) }
        ensures counted { self.new ≡ after_reader (is_some result) self.old }
    {
        let promise = ReadBy {
            feed: Snapshot::of(&feed),
            plan,
            end,
        };
        let handle = self.spawn(
            promise,
            move |thread: OnThread| -> FileRead
                requires { W.IsAlwaysCallable work }
                ensures { W.post work thread feed result }
            { work(thread, feed) },
        )?;
        self.starts.count_reader();
        Some(handle)
    }

    // Starts a thread that does this work, or fails.
    fn spawn<
        W: FnOnce(OnThread) -> A + Send + Drop + 's,
        A: Send + Drop + 's,
        P: Promise<A> + Drop,
    >(&mut self, promise: P, work: W) -> Option<PromisedHandle<A, P>>
        requires none_refused { self.old.refused ≡ false }
        requires runs { W.IsAlwaysCallable work }
        requires keeps { (thread : AThread) (r : A) → W.post work thread r → P.kept_by promise r }
        ensures promise { IfSome result (λ handle. handle.promise ≡ promise) }
        ensures counted { self.new ≡ after_start (is_some result) self.old }
        ensures more { OnSome result (self.new.readers < self.new.spent) }
    {
        if self.starts.spent == self.starts.allowed {
            self.starts.refused = true;
            return None;
        }
        let started = self.scope.spawn_with(
            promise,
            move || -> A
                requires { W.IsAlwaysCallable work }
                ensures { (thread : AThread) × W.post work thread result }
            { work(OnThread { here: PhantomData }) },
        );
        match started {
            Ok(handle) => {
                self.starts.spent += 1;
                Some(handle)
            }
            Err(_) => {
                self.starts.refused = true;
                None
            }
        }
    }
}

impl<'s, E, T: Threads> Starter<'s, E, T> {
    /// Joins a thread. `_after` is the part of the lane that must exist before.
    pub fn join<A, P: Promise<A> + RunPromise>(
        &mut self,
        handle: PromisedHandle<A, P>,
        _after: &P::After,
    ) -> A
        requires running { self.old.joined < self.old.spent }
        requires lane { P.lane handle.promise ≡ P.After.lane_of _after.now }
        requires ends { P.After.ends _after.now (valuers_in self.old) }
        ensures kept { P.kept_by handle.promise result }
        ensures counted { self.new ≡ after_join self.old }
    {
        self.starts.joined += 1;
        handle.join(self.rt)
    }
}

impl<'s, E, T> Starter<'s, E, T> {
    /// Stops the lane after every reader was joined: sends a Stop to each valuer.
    pub fn stop<R: Wait>(
        &mut self,
        rt: &R,
        closer: Closer,
        puts: Vec<EndedPut>,
    ) -> (Stopped, LaneEnded)
        requires may { MayMark self.old }
        requires valuers { valuers_in self.old ≡ closer.takers }
        requires puts { ArePutsFrom closer.lane closer.files 0 puts.items }
        ensures lane { result.0.lane ≡ closer.lane }
        ensures takers { result.0.takers ≡ closer.takers }
        ensures sent { result.0.sent ≡ map (λ put. put.sent) puts.items }
        ensures files { length result.0.sent ≡ closer.files }
        ensures ended { result.1 ≡ record { lane = closer.lane; marks = valuers_in self.old } }
        ensures counted { self.new ≡ after_marks self.old }
    {
        let stopped = closer.stop(rt, puts);
        let ended = LaneEnded::by_stop(&stopped);
        self.count_marks(&ended);
        (stopped, ended)
    }

    /// Gives the lane up after every reader was joined: sends a Quit to each valuer.
    pub fn quit<R: Wait>(&mut self, rt: &R, closer: Closer) -> LaneEnded
        requires may { MayMark self.old }
        requires valuers { valuers_in self.old ≤ closer.takers }
        ensures ended { result ≡ record { lane = closer.lane; marks = valuers_in self.old } }
        ensures counted { self.new ≡ after_marks self.old }
    {
        let valuers = self.starts.spent - self.starts.readers;
        let ended = LaneEnded::by_quits(&closer.quit(rt, valuers as u8));
        self.count_marks(&ended);
        ended
    }

    // Counts the marks that were sent into a lane.
    fn count_marks(&mut self, _ended: &LaneEnded)
        requires { _ended.now.marks ≡ valuers_in self.old }
        ensures { self.new ≡ record self.old { marks = _ended.now.marks } }
    {
        self.starts.marks = self.starts.spent - self.starts.readers;
    }
}
