//! A source of bytes.

ghost use Rattle.std.specs.Prelude.{◌≡◌, ◌<◌, ◌≤◌, [], length, take, IfOk, IfSome};
ghost use Rattle.devices.specs.feeds.Feed.{put_back, IsPulled};
ghost use Rattle.devices.specs.feeds.FeedState.{FeedState};

use std::io;
use thiserror::Error;

/// A device refused to give bytes. Any code outside this crate can make one from an `io::Error`, so it does not show that a feed refused
/// a pull; the feed's `failures` do.
#[derive(Clone, Copy, Debug, Error, PartialEq, Eq)]
#[error("the feed failed")]
pub struct FeedFault {
    refused: (),
}

impl FeedFault {
    /// Returns the error of a device that reported this I/O error.
    pub fn of(_error: &io::Error) -> FeedFault {
        FeedFault::new()
    }

    // Returns the error of a device of this crate.
    pub(crate) fn new() -> FeedFault {
        FeedFault { refused: () }
    }
}

/// A source of bytes that gives each byte once, in order: a file, a pipe, or bytes in memory.
pub trait Feed {
    /// Its state: the bytes that it has left, if it reports them, the numbers of bytes that it gave and of pulls that it
    /// refused so far, and whether it never fails.
    ghost state: { Self → FeedState };

    /// Writes the next bytes to the start of `buffer`, and returns their number: at most the buffer's length, and perhaps
    /// fewer than are left. For a buffer that is not empty, 0 means that no byte is left. The remainder of the buffer is
    /// unspecified.
    ///
    /// # Errors
    ///
    /// The device failed. No byte was given, and a later pull continues with the same bytes.
    fn pull(&mut self, buffer: &mut [u8]) -> Result<usize, FeedFault>
        // After success, the buffer starts with the next bytes. No byte in a buffer that is not empty means the end.
        ensures within { IfOk result (λ n. n ≤ length buffer.old) }
        ensures gives { IfOk result
            (λ n. (state self.old).remaining ≡ put_back (take n buffer.new) (state self.new).remaining) }
        ensures end { IfOk result
            (λ n. n ≡ 0 → 0 < length buffer.old → IfSome (state self.old).remaining (λ bytes. bytes ≡ [])) }

        // Given bytes and refused pulls are counted. After an error, no byte was given.
        ensures pulls { IsPulled (state self.old) (state self.new) result };
}
