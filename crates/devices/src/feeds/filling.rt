//! Fills a buffer from a feed.

ghost use Rattle.std.specs.Prelude.{◌≡◌, ◌+◌, ◌<◌, ◌≤◌, ◌^◌, [], length, max, take, vec_len, IfOk, OnOk, IfSome};
ghost use Rattle.devices.specs.declared.feeds.filling.TheConstants.{CHUNK};
ghost use Rattle.devices.specs.feeds.FeedSteps.{GaveAfter};
ghost use Rattle.devices.specs.feeds.Feed.{IsPulled};

use crate::feeds::feed::{Feed, FeedFault};
use std::alloc::AllocError;

/// The largest number of bytes by which a buffer grows at a time.
pub const CHUNK: usize = 262_144;

/// Ensures capacity for a byte after the first `filled`, within the first `most`. The capacity doubles, so that a long feed is copied a
/// bounded number of times; bytes are initialised only as far as the next read needs. If memory is refused, the list is unchanged.
pub fn make_room(bytes: &mut Vec<u8>, filled: usize, most: usize) -> Result<(), AllocError>
    requires filled { filled ≤ vec_len bytes.old }
    requires within { vec_len bytes.old ≤ most }
    requires open { filled < most }
    requires most { most ≤ 2 ^ 37 }
    ensures room { OnOk result (filled < vec_len bytes.new) }
    ensures filled { filled ≤ vec_len bytes.new }
    ensures within { vec_len bytes.new ≤ most }
    ensures few { vec_len bytes.new ≤ max (vec_len bytes.old) (filled + CHUNK) }
    ensures kept { take filled bytes.new.items ≡ take filled bytes.old.items }
{
    if filled == bytes.len() {
        let wanted = (filled + CHUNK).min(most);
        bytes.resize(wanted, 0)?;
    }
    Ok(())
}

/// Pulls at most `most` bytes into a buffer, after its first `filled`. If the device fails, no byte was given.
#[tactic(auto, using(crate::proofs::Giving::gave_after))]
pub fn pull_after<F: Feed>(
    feed: &mut F,
    buffer: &mut [u8],
    filled: usize,
    most: usize,
) -> Result<usize, FeedFault>
    requires room { filled < length buffer.old }
    requires some { 0 < most }

    // After success, the next bytes follow the filled ones, which are unchanged.
    ensures most { IfOk result (λ count. count ≤ most) }
    ensures within { IfOk result (λ count. filled + count ≤ length buffer.new) }
    ensures gave { IfOk result (λ count. GaveAfter count filled buffer.old buffer.new
        (F.state feed.old).remaining (F.state feed.new).remaining) }
    ensures prefix { take filled buffer.new ≡ take filled buffer.old }
    ensures end { IfOk result (λ count. count ≡ 0
        → IfSome (F.state feed.old).remaining (λ bytes. bytes ≡ [])) }

    // Given bytes and refused pulls are counted. After an error, no byte was given.
    ensures pulls { IsPulled (F.state feed.old) (F.state feed.new) result }
{
    let end = filled + most.min(buffer.len() - filled);
    feed.pull(&mut buffer[filled..end])
}
