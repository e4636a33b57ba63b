//! An input as a feed.

ghost use Rattle.std.specs.Io.KnownBytes.{ReadConsumes};
ghost use Rattle.std.specs.Prelude.{◌≡◌, ◌+◌, ◌<◌, ◌≤◌, [], length, take, IfOk, IfSome, OnOk, OnErr};
ghost use Rattle.devices.specs.feeds.Feed.{put_back, IsPulled};
ghost use Rattle.devices.specs.feeds.ReadFeedView.{input_state};

use crate::count::{Count, raised};
use crate::feeds::feed::{Feed, FeedFault};
use crate::feeds::single_read::read_some;
use std::io::Read;
use std::marker::Model;
use std::snapshot::Snapshot;

/// A feed of an input, from the input's current position. It reports the bytes that it has left if the input reported them at first. Any
/// pull may fail. It allocates no memory.
#[derive(Drop)]
pub struct ReadFeed<R: Read> {
    input: R,
    // the input before the first pull
    first: Snapshot<R>,
    given: Count,
    failures: Count,
}

impl<R: Read> Model for ReadFeed<R> {
    ghost use Rattle.devices.specs.Count.{count_of};
    ghost use Rattle.devices.specs.feeds.FeedSteps.{remaining_after};
    ghost use Rattle.devices.specs.feeds.ReadFeedView.{ReadFeedView};
    ghost use Rattle.devices.specs.inner.ReadFeedFields.{HasGiven};

    ghost Value = { ReadFeedView };

    ghost view = { λ f. record {
      remaining = remaining_after (count_of f.given) (R.remaining f.first.value);
      given = count_of f.given;
      failures = count_of f.failures;
    } };

    ghost invariant = { λ f. HasGiven (count_of f.given) (R.remaining f.first.value)
        (R.remaining f.input) };
}

impl<R: Read> ReadFeed<R> {
    /// Makes a feed of this input.
    pub fn new(input: R) -> ReadFeed<R>
        ensures { result ≡ record { remaining = R.remaining input; given = 0; failures = 0 } }
    {
        let first = Snapshot::of(&input);
        ReadFeed {
            input,
            first,
            given: Count::Zero,
            failures: Count::Zero,
        }
    }
}

impl<R: Read> Feed for ReadFeed<R> {
    ghost state = { input_state };

    /// Gives the bytes of one read of the input. Repeats a read that a signal interrupts.
    #[tactic(auto, using(crate::proofs::Giving::none_remaining))]
    fn pull(&mut self, buffer: &mut [u8]) -> Result<usize, FeedFault>
        // The effect on the input.
        ensures reads { ReadConsumes self.old.remaining self.new.remaining result buffer.new }

        // After success, the buffer starts with the next bytes.
        ensures within { IfOk result (λ n. n ≤ length buffer.old) }
        ensures gives { IfOk result
            (λ n. self.old.remaining ≡ put_back (take n buffer.new) self.new.remaining) }
        ensures end { IfOk result
            (λ n. n ≡ 0 → 0 < length buffer.old → IfSome self.old.remaining (λ bytes. bytes ≡ [])) }

        // Given bytes and refused pulls are counted. After an error, no byte was given.
        ensures pulls { IsPulled (input_state self.old) (input_state self.new) result }
    {
        match read_some(&mut self.input, buffer) {
            Ok(count) => {
                self.given = raised(&self.given, count);
                Ok(count)
            }
            Err(fault) => {
                self.failures = raised(&self.failures, 1);
                Err(fault)
            }
        }
    }
}
