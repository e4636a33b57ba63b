//! Bytes in memory as a feed.

ghost use Rattle.std.specs.Prelude.{◌≡◌, ◌+◌, ◌<◌, ◌≤◌, ◌↔◌, [], take, drop, length, Some, IsErr, IfOk, OnErr};
ghost use Rattle.devices.specs.feeds.MemFeedView.{MemFeedView, fresh, pull_count, after_pull, never_fails, failures_of};

use crate::feeds::feed::{Feed, FeedFault};
use std::marker::Model;

/// A feed of bytes in memory. It allocates no memory.
#[derive(Drop)]
pub struct MemFeed {
    bytes: Vec<u8>,
    given: usize,
    step: usize,
    failing: u64,
    pulls: u64,
}

impl Model for MemFeed {
    ghost use Rattle.std.specs.Prelude.{◌≤◌, drop, vec_len};
    ghost use Rattle.devices.specs.feeds.MemFeedView.{MemFeedView};

    ghost Value = { MemFeedView };

    ghost view = { λ f. record {
      remaining = drop f.given f.bytes.items;
      given = f.given;
      step = f.step;
      failing = f.failing;
      pulls = f.pulls;
    } };

    ghost invariant = { λ f. (f.given ≤ vec_len f.bytes) × (1 ≤ f.step) × (f.pulls ≤ f.failing) };
}

impl MemFeed {
    /// Makes a feed that gives `bytes` and never fails.
    pub fn new(bytes: Vec<u8>) -> MemFeed
        ensures { result ≡ fresh bytes.items usize.MAX 0 }
    {
        MemFeed::fresh(bytes, usize::MAX, 0)
    }

    /// Makes a feed that gives `bytes`. Only its `nth` pull fails, counted from 1.
    pub fn failing(bytes: Vec<u8>, nth: u64) -> MemFeed
        requires { 1 ≤ nth }
        ensures { result ≡ fresh bytes.items usize.MAX nth }
    {
        MemFeed::fresh(bytes, usize::MAX, nth)
    }

    /// Makes a feed that gives `bytes`, at most `step` bytes for each pull, and never fails.
    pub fn cutting(bytes: Vec<u8>, step: usize) -> MemFeed
        requires { 1 ≤ step }
        ensures { result ≡ fresh bytes.items step 0 }
    {
        MemFeed::fresh(bytes, step, 0)
    }

    // Makes a feed with both.
    fn fresh(bytes: Vec<u8>, step: usize, failing: u64) -> MemFeed
        requires { 1 ≤ step }
        ensures { result ≡ fresh bytes.items step failing }
    {
        MemFeed {
            bytes,
            given: 0,
            step,
            failing,
            pulls: 0,
        }
    }
}

impl Feed for MemFeed {
    ghost state = { λ f. record { remaining = Some f.remaining; given = f.given; failures = failures_of f; is_sure = never_fails f } };

    /// Gives the bytes left, at most the buffer's length and the feed's step, except in the pull that fails.
    fn pull(&mut self, buffer: &mut [u8]) -> Result<usize, FeedFault>
        ensures fails { IsErr result ↔ (self.old.pulls + 1 ≡ self.old.failing) }
        ensures refused { OnErr result (self.new ≡ after_pull self.old 0) }
        ensures count { IfOk result (λ n. n ≡ pull_count self.old (length buffer.old)) }
        ensures end { IfOk result (λ n. n ≡ 0 → 0 < length buffer.old → self.old.remaining ≡ []) }
        ensures gives { IfOk result (λ n. take n buffer.new ≡ take n self.old.remaining) }
        ensures continues { IfOk result (λ n. self.new ≡ after_pull self.old n) }
    {
        if self.pulls < self.failing {
            self.pulls += 1;
            if self.pulls == self.failing {
                return Err(FeedFault::new());
            }
        }
        let (_, remaining) = self.bytes.split_at(self.given);
        let count = remaining.len().min(buffer.len()).min(self.step);
        buffer[..count].copy_from_slice(&remaining[..count]);
        self.given += count;
        Ok(count)
    }
}
