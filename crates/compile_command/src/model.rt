//! The model in an input.

ghost use Rattle.std.specs.Prelude.{◌≡◌, IfOk, IfErr};
ghost use Rattle.compile_command.specs.Model.{HasTooManyFiles, IsNoModel, IsRead};
ghost use Rattle.command_io.specs.Pieces.{plan_piece, zone_pieces};

use command_io::input::read_source;
use command_io::pieces::{Pieces, cut_at_most, plan_piece};
use command_io::plan_text::stated_plan;
use command_io::refused::Refused;
use command_io::refused::source::Source;
use devices::feeds::feed::Feed;
use pit_model::plan::Plan;
use pit_model::ranges::MAX_FILE_BYTES;
use refusals::refusal::Refusal;
use refusals::settings_fault::SettingsFault;
use std::alloc::Global;

/// A plan with its zone files.
#[derive(Drop)]
pub struct Model {
    pub plan: Plan,
    pub pieces: Pieces,
}

/// Reads all bytes of a feed, such as standard input, and returns the model in them.
///
/// # Errors
///
/// - `FeedFailed`, `TooLong`: the input cannot be read, or has more than 256 MiB.
/// - `TooLong`, `Plan`: its first part states no plan.
/// - `Run`: it has more zone files than its plan has zones, which a run would also report, so that no list of them is stored; or
///   memory was refused.
#[tactic(auto, using(crate::proofs::Models::unread, crate::proofs::Models::planless, crate::proofs::Models::uncut))]
pub fn read_model<F: Feed>(alloc: Global, feed: &mut F) -> Result<Model, Refused>
    ensures model { IfOk result (λ model. IsRead (F.state feed.old) (F.state feed.new) model.plan
        model.pieces) }
    ensures refused { IfErr result (IsNoModel (F.state feed.old) (F.state feed.new)) }
{
    let input = read_source(alloc, feed, Source::Input, MAX_FILE_BYTES as u64)?;
    let plan = stated_plan(alloc, plan_piece(input.as_slice()))?;
    let pieces = pieces_for(alloc, input.as_slice(), &plan)?;
    Ok(Model { plan, pieces })
}

// Returns the parts of an input, if its zone files are at most as many as the plan's zones.
fn pieces_for(alloc: Global, input: &[u8], plan: &Plan) -> Result<Pieces, Refused>
    ensures pieces { IfOk result
        (λ pieces. (pieces.plan ≡ plan_piece input.now) × (pieces.zones ≡ zone_pieces input.now)) }
    ensures refused { IfErr result (HasTooManyFiles input.now plan.now) }
{
    match cut_at_most(alloc, input, plan.cones().len())? {
        Some(pieces) => Ok(pieces),
        None => Err(Refused::Run(Refusal::Settings(SettingsFault::Files))),
    }
}
