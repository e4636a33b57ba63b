//! A sink of bytes in memory.

ghost use Rattle.std.specs.Prelude.{◌≡◌, ◌+◌, ◌<◌, ◌≤◌, ◌↔◌, ◌⊎◌, [], ◌++◌, take, length, min, Some, true, IsTrue, IsErr, IfOk, OnOk, OnErr};
ghost use Rattle.devices.specs.sinks.MemSinkView.{IsFresh, IsCalled, FailsNext, HasFailed};

use crate::count::{Count, raised};
use crate::sinks::sink::{Sink, SinkFault};
use std::alloc::Global;
use std::marker::Model;

/// A sink that stores the bytes in memory.
#[derive(Drop)]
pub struct MemSink {
    begun: bool,
    bytes: Vec<u8>,
    step: usize,
    failing: u64,
    calls: u64,
    failures: Count,
}

impl Model for MemSink {
    ghost use Rattle.std.specs.Prelude.{◌≤◌, vec_capacity};
    ghost use Rattle.devices.specs.sinks.MemSinkView.{MemSinkView};
    ghost use Rattle.devices.specs.Count.{count_of};

    ghost Value = { MemSinkView };

    ghost view = { λ s. record {
      begun = s.begun;
      bytes = s.bytes.items;
      room = vec_capacity s.bytes;
      step = s.step;
      failing = s.failing;
      calls = s.calls;
      failures = count_of s.failures;
    } };

    ghost invariant = { λ s. (1 ≤ s.step) × (s.calls ≤ s.failing) };
}

impl MemSink {
    /// Makes a sink that fails only if memory is refused. Allocates no memory yet.
    pub fn new(alloc: Global) -> MemSink
        ensures { IsFresh usize.MAX 0 result }
    {
        MemSink::fresh(alloc, usize::MAX, 0)
    }

    /// Makes a sink whose call number `nth` fails. Calls of `begin` and `put` are counted together, from 1. Any other
    /// call fails only if memory is refused.
    pub fn failing(alloc: Global, nth: u64) -> MemSink
        requires { 1 ≤ nth }
        ensures { IsFresh usize.MAX nth result }
    {
        MemSink::fresh(alloc, usize::MAX, nth)
    }

    /// Makes a sink that takes at most `step` bytes of each put, and fails only if memory is refused.
    pub fn short(alloc: Global, step: usize) -> MemSink
        requires { 1 ≤ step }
        ensures { IsFresh step 0 result }
    {
        MemSink::fresh(alloc, step, 0)
    }

    /// Makes a sink that takes at most `step` bytes of each put, and whose call number `failing` fails, counted as by
    /// `MemSink::failing`; 0 means no call. Any other call fails only if memory is refused.
    pub fn fresh(alloc: Global, step: usize, failing: u64) -> MemSink
        requires { 1 ≤ step }
        ensures { IsFresh step failing result }
    {
        MemSink {
            begun: false,
            bytes: Vec::new(alloc),
            step,
            failing,
            calls: 0,
            failures: Count::Zero,
        }
    }

    /// Returns whether the sink was begun.
    pub fn begun(&self) -> bool
        ensures { result ≡ self.now.begun }
    {
        self.begun
    }

    /// Returns the bytes that it took since it was begun.
    pub fn bytes(&self) -> &[u8]
        ensures { result.now ≡ self.now.bytes }
    {
        self.bytes.as_slice()
    }

    // Counts a call, and returns whether it is the one that fails.
    fn fails(&mut self) -> bool
        ensures answer { IsTrue result ↔ FailsNext self.old }
        ensures called { IsCalled self.old.begun self.old.bytes self.old.failures self.old
            self.new }
    {
        if self.calls < self.failing {
            self.calls += 1;
            return self.calls == self.failing;
        }
        false
    }

    fn refuse(&mut self) -> SinkFault
        ensures { self.new ≡ record self.old { failures = self.old.failures + 1 } }
    {
        self.failures = raised(&self.failures, 1);
        SinkFault::new()
    }
}

impl Sink for MemSink {
    ghost state = { λ s. record {
      begun = s.begun;
      before = [];
      taken = Some s.bytes;
      failures = s.failures;
    } };

    /// Drops the bytes. Allocates no memory.
    ///
    /// # Errors
    ///
    /// This is the call that fails. The sink is unchanged.
    fn begin(&mut self) -> Result<(), SinkFault>
        ensures fails { IsErr result ↔ FailsNext self.old }
        ensures begins { OnOk result (IsCalled true [] self.old.failures self.old self.new) }
        ensures refused { OnErr result (HasFailed self.old self.new) }
    {
        if self.fails() {
            return Err(self.refuse());
        }
        self.begun = true;
        self.bytes.clear();
        Ok(())
    }

    /// Takes all the bytes, up to the largest number of one put.
    ///
    /// # Errors
    ///
    /// This is the call that fails, or memory for the bytes was refused. No byte was taken.
    fn put(&mut self, bytes: &[u8]) -> Result<usize, SinkFault>
        // The call that is to fail does.
        ensures fails { FailsNext self.old → IsErr result }
        ensures fails_only { OnErr result
            (FailsNext self.old ⊎ (self.old.room
            < length self.old.bytes + min (length bytes.now) self.old.step)) }

        // After success, it holds the first bytes, up to the largest number of one put.
        ensures count { IfOk result (λ n. n ≡ min (length bytes.now) self.old.step) }
        ensures some { IfOk result (λ n. 0 < length bytes.now → 0 < n) }
        ensures takes { IfOk result
            (λ n. IsCalled self.old.begun (self.old.bytes ++ take n bytes.now) self.old.failures
            self.old self.new) }

        // After an error, no byte was taken, and one more refusal is counted.
        ensures refused { OnErr result (HasFailed self.old self.new) }
    {
        if self.fails() {
            return Err(self.refuse());
        }
        let count = bytes.len().min(self.step);
        if self.bytes.extend_from_slice(&bytes[..count]).is_err() {
            return Err(self.refuse());
        }
        Ok(count)
    }
}
