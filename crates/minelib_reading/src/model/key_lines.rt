//! The key lines of a model file that is being read.

ghost use Rattle.std.specs.Prelude.{◌≡◌, true, false, position, MatchOption};
ghost use Rattle.std.specs.List.{list_any, before_first, after_first, find};
ghost use Rattle.std.specs.Str.{bytes_eq};
ghost use Rattle.minelib_reading.specs.ModelKeys.{is_colon, key_in, key_of, section_in};
ghost use Rattle.minelib_reading.specs.ModelDraft.{is_heading, is_limits, is_next};
ghost use Rattle.minelib_lines.specs.HeaderKeys.{key_word, keys_of};
ghost use Rattle.minelib_reading.specs.inner.ModelParts.{only_value};
ghost use Rattle.text_lines.specs.FieldValues.{Shows};
ghost use Rattle.text_lines.specs.TextLines.{fields_of};

use crate::model::key::{ModelKey, Section};
use memchr::memchr;
use minelib_lines::header_key::HeaderKey;
use minelib_lines::problem::Problem;
use pit_units::after;
use text_lines::text_fault::TextKind;
use text_lines::text_fields::next_field;

/// Returns the bytes before and after the first colon of a line, or `None` if it has no colon.
pub fn cut_at_colon(line: &[u8]) -> Option<(&[u8], &[u8])>
    ensures { MatchOption result (list_any is_colon line.now ≡ false)
        (λ x. (list_any is_colon line.now ≡ true) × (x.0.now ≡ before_first is_colon line.now)
        × (x.1.now ≡ after_first is_colon line.now)) }
{
    match colon_place(line) {
        Some(place) => Some((&line[..place], after(line, place + 1))),
        None => None,
    }
}

#[tactic(auto, using(text_lines::proofs::Cuts::byte_placed))]
fn colon_place(line: &[u8]) -> Option<usize>
    ensures { result ≡ position is_colon line.now }
{
    memchr(b':', line)
}

/// Returns whether the bytes are this word.
pub fn is_exactly(bytes: &[u8], word: &[u8]) -> bool
    ensures { result ≡ bytes_eq bytes.now word.now }
{
    bytes == word
}

/// Returns the only field of a line.
///
/// # Errors
///
/// `Fields`: there is no field, or more than one.
pub fn only_value(line: &[u8]) -> Result<&[u8], TextKind>
    ensures { Shows (λ value. value.now) result (only_value (fields_of line.now)) }
{
    let Some((value, following)) = next_field(line) else {
        return Err(TextKind::Fields);
    };
    match next_field(following) {
        Some(_) => Err(TextKind::Fields),
        None => Ok(value),
    }
}

/// Returns the key that the bytes before a colon are, or `None` if they are no key.
#[tactic(auto, using(crate::proofs::models::ModelFacts::key_of_one, crate::proofs::models::ModelFacts::key_of_none))]
pub fn key_of(problem: Problem, line: &[u8]) -> Option<ModelKey>
    ensures { result ≡ key_of problem (fields_of line.now) }
{
    match only_value(line) {
        Ok(word) => key_in(problem, word),
        Err(_) => None,
    }
}

fn key_in(problem: Problem, word: &[u8]) -> Option<ModelKey>
    ensures { result ≡ key_in problem word.now }
{
    match header_key_in(problem, word) {
        Some(key) => Some(ModelKey::Header(key)),
        None => section_in(word),
    }
}

fn header_key_in(problem: Problem, word: &[u8]) -> Option<HeaderKey>
    ensures { result ≡ find (λ k. bytes_eq word.now (key_word k)) (keys_of problem) }
{
    problem
        .keys()
        .iter()
        .copied()
        .find(|key| is_exactly(word, key.word()))
}

fn section_in(word: &[u8]) -> Option<ModelKey>
    ensures { result ≡ section_in word.now }
{
    if is_exactly(word, b"OBJECTIVE_FUNCTION") {
        Some(ModelKey::Section(Section::Objective))
    } else if is_exactly(word, b"RESOURCE_CONSTRAINT_COEFFICIENTS") {
        Some(ModelKey::Section(Section::Coefs))
    } else if is_exactly(word, b"RESOURCE_CONSTRAINT_LIMITS") {
        Some(ModelKey::Section(Section::Limits))
    } else {
        None
    }
}

/// Returns whether no section has begun.
pub fn is_heading(section: Section) -> bool
    ensures { result ≡ is_heading section }
{
    matches!(section, Section::Heading)
}

/// Returns whether the section is the last.
pub fn is_limits(section: Section) -> bool
    ensures { result ≡ is_limits section }
{
    matches!(section, Section::Limits)
}

/// Returns whether the second section follows the first.
pub fn is_next(section: Section, next: Section) -> bool
    ensures { result ≡ is_next section next }
{
    match section {
        Section::Heading => matches!(next, Section::Objective),
        Section::Objective => matches!(next, Section::Coefs),
        Section::Coefs => matches!(next, Section::Limits),
        Section::Limits => false,
    }
}
