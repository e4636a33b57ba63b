//! Reading a source completely.

ghost use Rattle.std.specs.Prelude.{◌≢◌, ◌≤◌, length, Err, IsTrue, IfOk, IfErr};
ghost use Rattle.devices.specs.declared.feeds.slurp.TheConstants.{LARGEST_LIMIT};
ghost use Rattle.devices.specs.feeds.ReadWhole.{IsReadWhole};
ghost use Rattle.command_io.specs.Refused.{IsUnread};

use crate::refused::Refused;
use crate::refused::source::Source;
use devices::feeds::feed::Feed;
use devices::feeds::slurp::slurp;
use std::alloc::Global;

/// Returns all bytes of a feed, if there are at most `limit`. The feed is the source `source`. Requests at most `limit` + 1 bytes.
///
/// # Errors
///
/// - `FeedFailed`: a pull of the feed failed.
/// - `TooLong`: the feed has more bytes than the limit.
/// - `Run`: memory was refused.
pub fn read_source<F: Feed>(
    alloc: Global,
    feed: &mut F,
    source: Source,
    limit: u64,
) -> Result<Vec<u8>, Refused>
    requires { limit ≤ LARGEST_LIMIT }

    // The bytes of a result.
    ensures read { IfOk result (λ text. IsReadWhole (F.state feed.old) (F.state feed.new)
        text.items) }
    ensures short { IfOk result (λ text. length text.items ≤ limit) }

    // When each error occurs.
    ensures refused { IfErr result (IsUnread source limit (F.state feed.old) (F.state feed.new)) }
    ensures sure { IsTrue (F.state feed.old).is_sure → result ≢ Err (Refused.FeedFailed source) }
{
    match slurp(alloc, feed, limit) {
        Ok(text) => Ok(text),
        Err(fault) => Err(Refused::unread(source, fault)),
    }
}
