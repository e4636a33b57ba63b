//! Reads the lines of a text while a feed gives it.

ghost use Rattle.std.specs.Prelude.{◌≤◌, ℕ, List, length, OnOk, IfSome};
ghost use Rattle.devices.specs.feeds.Fed.{IfFed, feed_end};
ghost use Rattle.devices.specs.feeds.ReadWhole.{ReadsFeed};
ghost use Rattle.devices.specs.declared.feeds.slurp.TheConstants.{LARGEST_LIMIT};
ghost use Rattle.text_lines.specs.Fed.{IsFedReading, IsTextOf};

use crate::line_by_line::Admit;
use crate::text_fault::LineFault;
use crate::waiting::Waiting;
use devices::feeds::fed_fault::FedFault;
use devices::feeds::feed::Feed;
use devices::feeds::slurp::SlurpFault;
use pit_units::OrMemory;
use std::alloc::Global;

/// What the lines of a feed's text specify, or the first invalid line, or why the feed was not read to its end.
pub type FedResult<T> = Result<T, FedFault<LineFault>>;

/// Passes the lines of a feed's text that are not skipped to `state`, while the feed gives it. Returns the number of the line after the
/// last. Reads at most `limit + 1` bytes. Memory grows with the longest line, and not with the text.
///
/// # Errors
///
/// Returns the first `Unread` error that occurs, otherwise `Text`:
///
/// - `FeedFailed`: the feed refused a pull of this call;
/// - `TooLong`: the feed has more than `limit` bytes, whatever its lines specify;
/// - `OutOfMemory`: memory was refused, for the bytes of a line or by `state`;
/// - `Text`: the first invalid line. The feed is read to its end: the bytes after the line are dropped.
#[tactic(auto, using(crate::proofs::GivenFacts::stands_on))]
pub fn read_fed<S: Admit, F: Feed>(
    alloc: Global,
    state: &mut S,
    feed: &mut F,
    limit: u64,
) -> FedResult<u64>
    requires { limit ≤ LARGEST_LIMIT }

    // The result in terms of the text.
    ensures read { IfFed result
        (IsFedReading S.admit_line limit (F.state feed.old) (F.state feed.new) state.old state.new) }

    // After success no byte is left; each error has its reason; the number of bytes read is bounded.
    ensures reads { ReadsFeed limit (F.state feed.old) (F.state feed.new) (feed_end result) }
{
    let mut waiting = Waiting::new(alloc);
    let mut rest = limit as usize + 1;
    while rest > 0 {
        let before = waiting.len();
        let count = waiting.pull(feed, rest)?;
        if count == 0 {
            return Ok(waiting.read_leading(state, waiting.len())?);
        }
        rest -= count;
        if rest == 0 {
            return Err(FedFault::Unread(SlurpFault::TooLong));
        }
        match waiting.take_ended(state, before) {
            Ok(()) => {}
            Err(OrMemory::Fault(fault)) => {
                waiting.pass(feed, rest - 1)?;
                return Err(FedFault::Text(fault));
            }
            Err(OrMemory::OutOfMemory) => return Err(FedFault::Unread(SlurpFault::OutOfMemory)),
        }
    }
    Err(FedFault::Unread(SlurpFault::TooLong))
}

/// Reads the text of a feed to its end and drops it, whatever its lines specify, under the same limit. Memory does not grow with the
/// text.
///
/// # Errors
///
/// Fails like `read_fed`, with `OutOfMemory` if memory for the first bytes is refused.
#[tactic(auto, using(crate::proofs::FedSteps::passed, crate::proofs::FedSteps::passed_text))]
pub fn pass_text<F: Feed>(alloc: Global, feed: &mut F, limit: u64) -> Result<(), SlurpFault>
    requires { limit ≤ LARGEST_LIMIT }

    // After success, the text was within the limit, and the feed gave it completely.
    ensures text { OnOk result ((text : List ℕ)
        × IsTextOf limit (F.state feed.old) (F.state feed.new) text) }
    ensures short { OnOk result (IfSome (F.state feed.old).remaining (λ bytes. length bytes ≤ limit)) }

    // After success no byte is left; each error has its reason; the number of bytes read is bounded.
    ensures reads { ReadsFeed limit (F.state feed.old) (F.state feed.new) result }
{
    let mut waiting = Waiting::new(alloc);
    waiting.pass(feed, limit as usize)
}
