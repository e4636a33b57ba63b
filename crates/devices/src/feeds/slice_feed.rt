//! Borrowed bytes as a feed.

ghost use Rattle.std.specs.Prelude.{◌≡◌, ◌+◌, ◌<◌, ◌^◌, length, Some, true};
ghost use Rattle.devices.specs.feeds.FeedState.{not_pulled};

use crate::feeds::feed::{Feed, FeedFault};

/// A feed of borrowed bytes, which never fails and allocates no memory.
#[derive(Drop)]
pub struct SliceFeed<'a> {
    remaining: &'a [u8],
    given: usize,

    ghost counted: { given + length remaining.now < 2 ^ 64 },
}

impl<'a> SliceFeed<'a> {
    /// Makes a feed that gives `bytes`.
    pub fn new(bytes: &'a [u8]) -> SliceFeed<'a>
        ensures { ⟦<SliceFeed<'a> as Feed>⟧.state result ≡ not_pulled true (Some bytes.now) }
    {
        SliceFeed {
            remaining: bytes,
            given: 0,
        }
    }
}

impl<'a> Feed for SliceFeed<'a> {
    ghost state = { λ f. record { remaining = Some f.remaining.now; given = f.given; failures = 0; is_sure = true } };

    /// Gives the next bytes.
    fn pull(&mut self, buffer: &mut [u8]) -> Result<usize, FeedFault> {
        let count = self.remaining.len().min(buffer.len());
        let (given, remaining) = self.remaining.split_at(count);
        buffer[..count].copy_from_slice(given);
        self.remaining = remaining;
        self.given += count;
        Ok(count)
    }
}
