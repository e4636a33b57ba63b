//! The header of a model file that is being read.

ghost use Rattle.std.specs.Prelude.{◌≡◌, ◌<◌, true, IfOk};
ghost use Rattle.minelib_reading.specs.ModelDraft.{blank_header};
ghost use Rattle.minelib_reading.specs.ModelKeys.{number_stated};
ghost use Rattle.minelib_reading.specs.inner.ModelParts.{is_name_for, number_limit};

use crate::model::key::Header;
use crate::model::key_lines::is_exactly;
use minelib_lines::header_key::HeaderKey;
use minelib_lines::problem::Problem;
use plan_parts::name::is_name;
use plan_parts::ranges::{MAX_BLOCKS, MAX_DESTINATIONS, MAX_PERIODS, MAX_RATE, MAX_RESOURCES};
use text_lines::field_values::{below_in, integer_in, size_in};
use text_lines::text_fault::TextKind;

/// Returns the header before its first key.
pub fn blank_header(problem: Problem) -> Header
    ensures { result ≡ blank_header problem }
{
    let blank = Header::blank();
    match problem {
        Problem::Pcpsp => blank,
        Problem::Cpit => blank
            .with(HeaderKey::Destinations, 1)
            .with(HeaderKey::General, 0),
    }
}

/// Returns the number that the value of a header key states, in a file of `blocks` blocks. It is 0 for a key whose value must only
/// be correct, such as NBLOCKS.
///
/// # Errors
///
/// What is wrong with the value, or `Count` if NBLOCKS is another number.
#[tactic(auto, unfolding(crate::specs::ModelKeys::number_stated, text_lines::specs::StatedFields::size_in))]
pub fn number_of_key(
    problem: Problem,
    blocks: usize,
    key: HeaderKey,
    value: &[u8],
) -> Result<u64, TextKind>
    ensures value { result ≡ number_stated problem blocks key value.now }
    ensures name { IfOk result (λ _. is_name_for key value.now ≡ true) }
    ensures below { IfOk result (λ n. n < number_limit key) }
{
    match key {
        HeaderKey::Name if is_name(value) => Ok(0),
        HeaderKey::Type if is_exactly(value, problem.type_text()) => Ok(0),
        HeaderKey::Name | HeaderKey::Type => Err(TextKind::Name),
        HeaderKey::Blocks => {
            if below_in(value, MAX_BLOCKS as u64 + 1)? == blocks as u64 {
                Ok(0)
            } else {
                Err(TextKind::Count)
            }
        }
        HeaderKey::Periods => integer_in(value, 1, MAX_PERIODS),
        HeaderKey::Destinations => integer_in(value, 1, u32::from(MAX_DESTINATIONS)),
        HeaderKey::Resources => below_in(value, u64::from(MAX_RESOURCES) + 1),
        HeaderKey::General => below_in(value, 1),
        HeaderKey::Rate => size_in(value, 6, MAX_RATE as u64),
    }
}
