//! Counts of what feeds' texts state, made while the feeds are read.

ghost use Rattle.std.specs.Prelude.{◌≤◌, IfOk};
ghost use Rattle.devices.specs.feeds.Fed.{IfFed, feed_end};
ghost use Rattle.devices.specs.feeds.ReadWhole.{ReadsFeed};
ghost use Rattle.devices.specs.declared.feeds.slurp.TheConstants.{LARGEST_LIMIT};
ghost use Rattle.minelib_reading.specs.FedCounts.{IsFedAnswer, arcs_counted, blocks_counted, model_counted};
ghost use Rattle.plan_parts.specs.declared.ranges.TheConstants.{MAX_BLOCKS};

use crate::block_reader::BlockDraft;
use crate::counted::{CountedBlocks, CountedItems, CountedPreds};
use crate::model::draft::ModelDraft;
use crate::prec_reader::PrecDraft;
use crate::taking::{TakeBlocks, TakePreds};
use devices::feeds::feed::Feed;
use minelib_lines::problem::Problem;
use std::alloc::Global;
use text_lines::fed_lines::{FedResult, read_fed};

/// Returns the number of blocks that a feed's text states, in the lenient grammar of docs/formats.md. Memory grows with the longest
/// line, not with the text.
///
/// # Errors
///
/// Fails like `read_fed`.
#[tactic(auto, using(crate::proofs::counts::FedAnswers::blocks_reported, crate::proofs::counts::FedAnswers::blocks_invalid))]
pub fn count_blocks<F: Feed>(alloc: Global, feed: &mut F, limit: u64) -> FedResult<usize>
    requires { limit ≤ LARGEST_LIMIT }

    // What a result shows of the text.
    ensures counts { IfFed result (IsFedAnswer blocks_counted limit (F.state feed.old) (F.state feed.new)) }
    ensures few { IfOk result (λ blocks. blocks ≤ MAX_BLOCKS) }

    // After a count or an invalid line, the feed is at its end. The clause also states when each error occurs, the number of bytes
    // read, and the feed's state.
    ensures reads { ReadsFeed limit (F.state feed.old) (F.state feed.new) (feed_end result) }
{
    let mut draft = BlockDraft::new(CountedBlocks::new());
    read_fed(alloc, &mut draft, feed, limit)?;
    Ok(draft.finish().count())
}

/// Returns the number of predecessors that a feed's text states for all of `blocks` blocks.
///
/// # Errors
///
/// Fails like `read_fed`.
#[tactic(auto, using(crate::proofs::counts::FedAnswers::arcs_reported, crate::proofs::counts::FedAnswers::arcs_lacking, crate::proofs::counts::FedAnswers::arcs_invalid))]
pub fn count_arcs<F: Feed>(
    alloc: Global,
    blocks: usize,
    feed: &mut F,
    limit: u64,
) -> FedResult<usize>
    requires few { blocks ≤ MAX_BLOCKS }
    requires limit { limit ≤ LARGEST_LIMIT }

    // What a result shows of the text.
    ensures counts { IfFed result (IsFedAnswer (arcs_counted blocks) limit (F.state feed.old)
        (F.state feed.new)) }

    // After a count or an invalid line, the feed is at its end. The clause also states when each error occurs, the number of bytes
    // read, and the feed's state.
    ensures reads { ReadsFeed limit (F.state feed.old) (F.state feed.new) (feed_end result) }
{
    let mut draft = PrecDraft::new(alloc, CountedPreds::new(), blocks);
    let end = read_fed(alloc, &mut draft, feed, limit)?;
    Ok(draft.finish(end)?.arcs())
}

/// Returns the numbers of coefficients and limits that a problem's model file states for `blocks` blocks. The file is a feed's text.
///
/// # Errors
///
/// Fails like `read_fed`.
#[tactic(auto, using(crate::proofs::counts::FedAnswers::model_reported, crate::proofs::counts::FedAnswers::model_lacking, crate::proofs::counts::FedAnswers::model_invalid))]
pub fn count_model<F: Feed>(
    alloc: Global,
    problem: Problem,
    blocks: usize,
    feed: &mut F,
    limit: u64,
) -> FedResult<(usize, usize)>
    requires few { blocks ≤ MAX_BLOCKS }
    requires limit { limit ≤ LARGEST_LIMIT }

    // What a result shows of the text.
    ensures counts { IfFed result
        (IsFedAnswer (model_counted problem blocks) limit (F.state feed.old) (F.state feed.new)) }

    // After a count or an invalid line, the feed is at its end. The clause also states when each error occurs, the number of bytes
    // read, and the feed's state.
    ensures reads { ReadsFeed limit (F.state feed.old) (F.state feed.new) (feed_end result) }
{
    let mut draft = ModelDraft::new(alloc, problem, blocks, CountedItems::new());
    let end = read_fed(alloc, &mut draft, feed, limit)?;
    let model = draft.finish(end)?;
    Ok((model.coefs_len(), model.limits_len()))
}
