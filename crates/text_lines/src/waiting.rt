//! The bytes of a feed whose lines were not read yet.

ghost use Rattle.std.specs.Prelude.{◌≡◌, ◌+◌, ◌-◌, ◌<◌, ◌≤◌, ◌^◌, length, take, IfOk, OnOk, drop, true};
ghost use Rattle.devices.specs.feeds.ReadWhole.{ReadsFeed};
ghost use Rattle.devices.specs.declared.feeds.slurp.TheConstants.{LARGEST_LIMIT};
ghost use Rattle.text_lines.specs.Reading.{Leaves, read_lines};
ghost use Rattle.text_lines.specs.TextLines.{lines_of, numbered_lines};
ghost use Rattle.text_lines.specs.inner.Waiting.{AreWholeLines, GaveAll, Held, IsPulledOnce, NoLineEnd, TakesEnded, leading_end, leading_lines, none_held, unmarked};

use crate::cut_lines::without_mark;
use crate::line_by_line::{Admit, read_on};
use crate::text_fault::LineFault;
use devices::feeds::feed::Feed;
use devices::feeds::filling::{make_room, pull_after};
use devices::feeds::slurp::{LARGEST_LIMIT, SlurpFault};
use memchr::memrchr;
use pit_units::OrMemory;
use std::alloc::Global;
use std::marker::Model;

/// Bytes that a feed gave and whose lines were not read yet, and the number of their first line. They grow with the longest line, and not
/// with the text: `take_ended` leaves no line end in the held bytes.
#[derive(Drop)]
pub struct Waiting {
    number: u64,
    begun: bool,
    bytes: Vec<u8>,
    filled: usize,
}

impl Model for Waiting {
    ghost use Rattle.std.specs.Prelude.{◌≤◌, ◌+◌, take, vec_len};
    ghost use Rattle.devices.specs.declared.feeds.slurp.TheConstants.{LARGEST_LIMIT};
    ghost use Rattle.text_lines.specs.inner.Waiting.{WaitingView};

    ghost Value = { WaitingView };

    ghost view = { λ w. record {
      number = w.number;
      begun = w.begun;
      held = take w.filled w.bytes.items;
    } };

    ghost invariant = { λ w. (w.filled ≤ vec_len w.bytes) × (vec_len w.bytes ≤ LARGEST_LIMIT + 1) };
}

impl Waiting {
    /// Creates the value before the first byte. Allocates no memory yet.
    pub fn new(alloc: Global) -> Waiting
        ensures { result ≡ none_held }
    {
        Waiting {
            number: 1,
            begun: false,
            bytes: Vec::new(alloc),
            filled: 0,
        }
    }

    /// Returns the number of held bytes.
    pub fn len(&self) -> usize
        ensures { result ≡ length self.now.held }
    {
        self.filled
    }

    /// Holds the bytes of one pull, at most `most`, and returns their number: 0 means that the feed has ended.
    #[tactic(auto, using(crate::proofs::GivenFacts::pulled))]
    pub fn pull<F: Feed>(&mut self, feed: &mut F, most: usize) -> Result<usize, SlurpFault>
        requires some { 0 < most }
        requires room { length self.old.held + most ≤ LARGEST_LIMIT + 1 }

        // After success, the bytes of one pull follow the held bytes.
        ensures held { IfOk result
            (λ n. Held n self.old self.new (F.state feed.old).remaining (F.state feed.new).remaining) }
        ensures within { IfOk result (λ n. n ≤ most) }

        // Each error has its reason; the feed's state is known for every result.
        ensures pulls { IsPulledOnce (F.state feed.old) (F.state feed.new) result }
    {
        make_room(&mut self.bytes, self.filled, LARGEST_LIMIT as usize + 1)?;
        let count = pull_after(feed, self.bytes.as_mut_slice(), self.filled, most)?;
        self.filled += count;
        Ok(count)
    }

    /// Drops all bytes that the feed still gives, which must be at most `limit`.
    #[tactic(auto, using(crate::proofs::GivenFacts::stands_on, crate::proofs::FedSteps::too_many))]
    pub fn pass<F: Feed>(&mut self, feed: &mut F, limit: usize) -> Result<(), SlurpFault>
        requires limit { limit ≤ LARGEST_LIMIT }

        // After success, the feed gave all its bytes.
        ensures all { OnOk result (GaveAll (limit + 1) (F.state feed.old) (F.state feed.new)) }

        // Each error has its reason; the number of bytes read is bounded; the feed's state is known for every result.
        ensures reads { ReadsFeed limit (F.state feed.old) (F.state feed.new) result }
    {
        let mut rest = limit + 1;
        while rest > 0 {
            self.filled = 0;
            let count = self.pull(feed, rest)?;
            if count == 0 {
                return Ok(());
            }
            rest -= count;
        }
        Err(SlurpFault::TooLong)
    }

    /// Reads the lines that have ended, none of which ends before the position `from`, and drops their bytes: the remaining held bytes
    /// belong to one line.
    pub fn take_ended<S: Admit>(
        &mut self,
        state: &mut S,
        from: usize,
    ) -> Result<(), OrMemory<LineFault>>
        requires within { from ≤ length self.old.held }
        requires few { self.old.number + length self.old.held < 2 ^ 64 }
        requires prefix { NoLineEnd (take from self.old.held) }
        ensures takes { TakesEnded S.admit_line state.old state.new self.old self.new result }
        ensures held { OnOk result (NoLineEnd self.new.held) }
    {
        let whole = lines_end(self.held(), from);
        if whole == 0 {
            return Ok(());
        }
        let next = self.read_leading(state, whole)?;
        self.drop_taken(whole, next);
        Ok(())
    }

    /// Reads the lines of the first `count` held bytes, and returns the number of the line after the last.
    pub fn read_leading<S: Admit>(
        &self,
        state: &mut S,
        count: usize,
    ) -> Result<u64, OrMemory<LineFault>>
        requires within { count ≤ length self.now.held }
        requires few { self.now.number + length self.now.held < 2 ^ 64 }
        ensures read { Leaves state.new result
            (read_lines S.admit_line state.old (leading_lines self.now count)) }
        ensures number { IfOk result (λ n. n ≡ leading_end self.now count) }
    {
        read_chunk(state, self.number, self.begun, &self.held()[..count])
    }

    fn held(&self) -> &[u8]
        ensures { result.now ≡ self.now.held }
    {
        &self.bytes[..self.filled]
    }

    // Drops the first held bytes, whose lines were read. `next` is the number of the line after them.
    fn drop_taken(&mut self, count: usize, next: u64)
        requires { count ≤ length self.old.held }
        ensures number { self.new.number ≡ next }
        ensures begun { self.new.begun ≡ true }
        ensures held { self.new.held ≡ drop count self.old.held }
    {
        let filled = self.filled;
        self.bytes.copy_within(count..filled, 0);
        self.filled = filled - count;
        self.number = next;
        self.begun = true;
    }
}

// Reads the lines of a part of a text, which is its start if no line was read before.
fn read_chunk<S: Admit>(
    state: &mut S,
    number: u64,
    begun: bool,
    chunk: &[u8],
) -> Result<u64, OrMemory<LineFault>>
    requires { number + length chunk.now < 2 ^ 64 }
    ensures read { Leaves state.new result
        (read_lines S.admit_line state.old
        (numbered_lines number (lines_of (unmarked begun chunk.now)))) }
    ensures number { IfOk result (λ n. n ≡ number + length (lines_of (unmarked begun chunk.now))) }
{
    if begun {
        read_on(state, number, chunk)
    } else {
        read_on(state, number, without_mark(chunk))
    }
}

// Returns the position after the last byte that ends a line, from the position `from` on, or 0 if none does.
fn lines_end(bytes: &[u8], from: usize) -> usize
    requires within { from ≤ length bytes.now }
    requires prefix { NoLineEnd (take from bytes.now) }
    ensures within { result ≤ length bytes.now }
    ensures whole { 0 < result → AreWholeLines (take result bytes.now) }
    ensures following { NoLineEnd (drop result bytes.now) }
{
    match memrchr(b'\n', &bytes[from..]) {
        Some(place) => from + place + 1,
        None => 0,
    }
}
