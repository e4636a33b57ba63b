//! The counts of an instance's files, one file after the other.

ghost use Rattle.std.specs.Prelude.{◌≤◌, IfOk, OnOk};
ghost use Rattle.devices.specs.feeds.Fed.{IfFed, feed_end};
ghost use Rattle.devices.specs.feeds.ReadWhole.{ReadsFeed};
ghost use Rattle.devices.specs.declared.feeds.slurp.TheConstants.{LARGEST_LIMIT};
ghost use Rattle.minelib_reading.specs.FedCounts.{IsFedAnswer};
ghost use Rattle.check_command.specs.inner.CountSteps.{counted_in, counted_on};
ghost use Rattle.plan_parts.specs.declared.ranges.TheConstants.{MAX_BLOCKS};

use crate::counts::Counts;
use devices::feeds::fed_fault::FedFault;
use devices::feeds::feed::Feed;
use devices::feeds::slurp::{LARGEST_LIMIT, SlurpFault};
use minelib_lines::problem::Problem;
use minelib_reading::{count_arcs, count_blocks, count_model};
use std::alloc::Global;
use text_lines::fed_lines::{FedResult, pass_text};
use text_lines::text_fault::{TextFault, TextFile};

/// Adds the counts of this file's text to the counts of earlier files, unless a line is invalid: `counts` is then the first
/// invalid line. Reads the text to its end in either case.
///
/// # Errors
///
/// Fails like `pass_text`, also if memory for a line is refused.
#[tactic(auto, using(crate::proofs::CountedAll::passed, crate::proofs::CountedAll::reported))]
pub fn count_on<F: Feed>(
    alloc: Global,
    file: TextFile,
    counts: &mut Result<Counts, TextFault>,
    feed: &mut F,
) -> Result<(), SlurpFault>
    requires { IfOk counts.old (λ counts. counts.blocks ≤ MAX_BLOCKS) }

    // What a result shows of the text.
    ensures counts { OnOk result (IsFedAnswer (counted_on file counts.old) LARGEST_LIMIT
        (F.state feed.old) (F.state feed.new) counts.new) }
    ensures few { OnOk result (IfOk counts.new (λ counts. counts.blocks ≤ MAX_BLOCKS)) }

    // After success, the feed is at its end. The clause also states when each error occurs, the number of bytes read, and the
    // feed's state.
    ensures reads { ReadsFeed LARGEST_LIMIT (F.state feed.old) (F.state feed.new) result }
{
    let Ok(so_far) = *counts else {
        return pass_text(alloc, feed, LARGEST_LIMIT);
    };
    *counts = match count_in(alloc, file, so_far, feed) {
        Ok(all) => Ok(all),
        Err(FedFault::Text(fault)) => Err(fault.in_file(file)),
        Err(FedFault::Unread(fault)) => return Err(fault),
    };
    Ok(())
}

// Returns the counts, including this file's text.
#[tactic(auto, using(crate::proofs::CountedAll::blocks_reported, crate::proofs::CountedAll::arcs_reported, crate::proofs::CountedAll::model_reported, crate::proofs::CountedAll::cpit_reported))]
fn count_in<F: Feed>(
    alloc: Global,
    file: TextFile,
    counts: Counts,
    feed: &mut F,
) -> FedResult<Counts>
    requires { counts.blocks ≤ MAX_BLOCKS }

    // What a result shows of the text.
    ensures counts { IfFed result (IsFedAnswer (counted_in file counts) LARGEST_LIMIT
        (F.state feed.old) (F.state feed.new)) }
    ensures few { IfOk result (λ counts. counts.blocks ≤ MAX_BLOCKS) }

    // After the counts or an invalid line, the feed is at its end. The clause also states when each error occurs, the number of
    // bytes read, and the feed's state.
    ensures reads { ReadsFeed LARGEST_LIMIT (F.state feed.old) (F.state feed.new) (feed_end result) }
{
    let n = counts.blocks;
    match file {
        TextFile::Blocks => {
            let blocks = count_blocks(alloc, feed, LARGEST_LIMIT)?;
            Ok(Counts { blocks, ..counts })
        }
        TextFile::Prec => {
            let arcs = count_arcs(alloc, n, feed, LARGEST_LIMIT)?;
            Ok(Counts { arcs, ..counts })
        }
        TextFile::Pcpsp => {
            let (coefs, limits) = count_model(alloc, Problem::Pcpsp, n, feed, LARGEST_LIMIT)?;
            Ok(Counts {
                coefficients: coefs,
                limits,
                ..counts
            })
        }
        TextFile::Cpit => {
            let (coefs, _) = count_model(alloc, Problem::Cpit, n, feed, LARGEST_LIMIT)?;
            Ok(Counts {
                cpit: Some(coefs),
                ..counts
            })
        }
    }
}
