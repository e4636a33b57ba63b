//! Reads a feed to its end.

ghost use Rattle.std.specs.Prelude.{◌≡◌, ◌≤◌, vec_len, IfOk};
ghost use Rattle.devices.specs.feeds.ReadWhole.{IsReadWhole, ReadsFeed};
ghost use Rattle.devices.specs.declared.feeds.slurp.SlurpFault.TheVariants.{FeedFailed, OutOfMemory};

use crate::feeds::feed::{Feed, FeedFault};
use crate::feeds::filling::{make_room, pull_after};
use std::alloc::{AllocError, Global};
use thiserror::Error;

/// The largest limit that `slurp` accepts, in bytes: 64 GiB.
pub const LARGEST_LIMIT: u64 = 68_719_476_736;

/// Why a feed was not read to its end.
#[derive(Debug, Drop, Error, PartialEq, Eq)]
pub enum SlurpFault {
    /// The feed failed. The bytes that it gave before are lost.
    #[error("the feed failed")]
    FeedFailed,
    /// The feed has more bytes than the limit. It gave one byte more than the limit, and all of these are lost.
    #[error("the feed has more bytes than the limit")]
    TooLong,
    /// Memory was refused. The bytes that the feed gave before are lost.
    #[error("OutOfMemory")]
    OutOfMemory,
}

impl From<FeedFault> for SlurpFault {
    ghost from_gives = { λ _ fault. fault ≡ FeedFailed };

    fn from(_fault: FeedFault) -> SlurpFault {
        SlurpFault::FeedFailed
    }
}

impl From<AllocError> for SlurpFault {
    ghost from_gives = { λ _ fault. fault ≡ OutOfMemory };

    fn from(_error: AllocError) -> SlurpFault {
        SlurpFault::OutOfMemory
    }
}

/// Returns all bytes of `feed` if they are at most `limit`. Reads at most `limit + 1` bytes; the last of these shows that
/// there are too many.
///
/// # Errors
///
/// Returns the first that occurs:
///
/// - `FeedFailed`: the feed refused a pull of this call;
/// - `TooLong`: the feed has more than `limit` bytes;
/// - `OutOfMemory`: the list of bytes could not grow.
///
/// The bytes that the feed gave in this call are then lost.
#[tactic(auto, using(crate::proofs::Giving::given_more))]
pub fn slurp<F: Feed>(alloc: Global, feed: &mut F, limit: u64) -> Result<Vec<u8>, SlurpFault>
    requires { limit ≤ LARGEST_LIMIT }

    // The text that is returned.
    ensures read { IfOk result (λ text. IsReadWhole (F.state feed.old) (F.state feed.new) text.items) }
    ensures short { IfOk result (λ text. vec_len text ≤ limit) }

    // After success no byte is left; each error has its reason; the number of bytes read is bounded.
    ensures reads { ReadsFeed limit (F.state feed.old) (F.state feed.new) result }
{
    let most = limit as usize + 1;
    let mut text = Vec::new(alloc);
    let mut filled = 0;
    while filled < most {
        make_room(&mut text, filled, most)?;
        let count = pull_after(feed, text.as_mut_slice(), filled, most - filled)?;
        if count == 0 {
            text.truncate(filled);
            return Ok(text);
        }
        filled += count;
    }
    Err(SlurpFault::TooLong)
}
