//! Readers of an instance and of a constrained pit limit problem.

ghost use Rattle.std.specs.Prelude.{◌≡◌, ◌≤◌, length, IfOk, MatchResult};
ghost use Rattle.mine_instance.specs.Instance.{Instance as AnInstance};
ghost use Rattle.mine_instance.specs.cpit.Cpit.{CpitParts};
ghost use Rattle.mine_instance.specs.WellFormed.{IsWellFormed, IsWellFormedCpit};
ghost use Rattle.mine_instance.specs.Valid.{IsValid};
ghost use Rattle.minelib_reading.specs.Denotes.{cpit_denoted, denoted};
ghost use Rattle.minelib_reading.specs.encoded.EncodedTexts.{EncodeCpit, EncodeInstance};
ghost use Rattle.pit_units.specs.OrMemory.{Gives};
ghost use Rattle.pit_units.specs.declared.or_memory.OrMemory.TheVariants.{OutOfMemory};
ghost use Rattle.plan_parts.specs.declared.ranges.TheConstants.{MAX_BLOCKS};

use crate::block_reader::read_blocks;
use crate::laws::{cpits_are_encoded, instances_are_encoded};
use crate::model::reader::read_model;
use crate::prec_reader::read_preds;
use mine_instance::cpit::Cpit;
use mine_instance::instance::Instance;
use minelib_lines::problem::Problem;
use pit_units::OrMemory;
use std::alloc::Global;
use text_lines::text_fault::{TextFault, TextFile, error_in_file};

/// Returns the instance that a block file, a precedence file and a production scheduling model file denote, in the lenient grammar
/// of docs/formats.md.
///
/// # Errors
///
/// - `Fault`: the texts denote no instance. It names the first invalid line: of the blocks, then of the precedences, then of the
///   model.
/// - `OutOfMemory`: memory was refused.
pub fn read_instance(
    alloc: Global,
    blocks: &[u8],
    prec: &[u8],
    pcpsp: &[u8],
) -> Result<Instance, OrMemory<TextFault>>
    ensures found { IfOk result (EncodeInstance blocks.now prec.now pcpsp.now) }
    ensures only { (i : AnInstance) → EncodeInstance blocks.now prec.now pcpsp.now i
        → MatchResult result (λ found. found ≡ i) (λ error. error ≡ OutOfMemory) }
    ensures exact { Gives (λ x. x) result (denoted blocks.now prec.now pcpsp.now) }
    ensures valid { IfOk result IsValid }
    ensures kept { IfOk result IsWellFormed }
{
    instances_are_encoded();
    denoted_instance(alloc, blocks, prec, pcpsp)
}

// Returns the instance that the lines of three texts denote one after the other.
#[tactic(auto, unfolding(crate::specs::Denotes::denoted), using(crate::proofs::models::ValidRead::read_valid))]
fn denoted_instance(
    alloc: Global,
    blocks: &[u8],
    prec: &[u8],
    pcpsp: &[u8],
) -> Result<Instance, OrMemory<TextFault>>
    ensures denoted { Gives (λ x. x) result (denoted blocks.now prec.now pcpsp.now) }
    ensures valid { IfOk result IsValid }
    ensures kept { IfOk result IsWellFormed }
{
    let blocks = match read_blocks(alloc, blocks) {
        Ok(blocks) => blocks,
        Err(error) => return Err(error_in_file(error, TextFile::Blocks)),
    };
    let count = blocks.as_slice().len();
    let preds = match read_preds(alloc, count, prec) {
        Ok(preds) => preds,
        Err(error) => return Err(error_in_file(error, TextFile::Prec)),
    };
    match read_model(alloc, Problem::Pcpsp, count, pcpsp) {
        Ok(model) => Ok(model.into_instance(blocks, preds)),
        Err(error) => Err(error_in_file(error, TextFile::Pcpsp)),
    }
}

/// Returns the constrained pit limit problem of `n` blocks that its model file denotes, in the lenient grammar of docs/formats.md.
///
/// # Errors
///
/// - `Fault`: the text denotes none. It names the first invalid line.
/// - `OutOfMemory`: memory was refused.
pub fn read_cpit(alloc: Global, n: usize, text: &[u8]) -> Result<Cpit, OrMemory<TextFault>>
    requires { n ≤ MAX_BLOCKS }
    ensures found { IfOk result (EncodeCpit n text.now) }
    ensures only { (c : CpitParts) → EncodeCpit n text.now c
        → MatchResult result (λ found. found ≡ c) (λ error. error ≡ OutOfMemory) }
    ensures exact { Gives (λ x. x) result (cpit_denoted n text.now) }
    ensures blocks { IfOk result (λ cpit. length cpit.values ≡ n) }
    ensures kept { IfOk result IsWellFormedCpit }
{
    cpits_are_encoded();
    denoted_cpit(alloc, n, text)
}

// Returns the constrained pit limit problem that the lines of a text denote.
#[tactic(auto, unfolding(crate::specs::Denotes::cpit_denoted))]
fn denoted_cpit(alloc: Global, n: usize, text: &[u8]) -> Result<Cpit, OrMemory<TextFault>>
    requires { n ≤ MAX_BLOCKS }
    ensures denoted { Gives (λ x. x) result (cpit_denoted n text.now) }
    ensures blocks { IfOk result (λ cpit. length cpit.values ≡ n) }
    ensures kept { IfOk result IsWellFormedCpit }
{
    let model = match read_model(alloc, Problem::Cpit, n, text) {
        Ok(model) => model,
        Err(error) => return Err(error_in_file(error, TextFile::Cpit)),
    };
    Ok(model.into_cpit())
}
