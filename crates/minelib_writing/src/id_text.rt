//! The texts of identifiers, computed once for all lines.

ghost use Rattle.std.specs.Prelude.{◌≡◌, ◌+◌, ◌-◌, ◌<◌, ◌≤◌, ◌++◌, All, IfOk, OnOk, decimal, length, take, drop};
ghost use Rattle.std.specs.List.{range_with_len};
ghost use Rattle.precedence.specs.IdRanges.{ids_of, ids_of_range};
ghost use Rattle.minelib_writing.specs.inner.Spaced.{spaced};
ghost use Rattle.plan_parts.specs.declared.ranges.TheConstants.{MAX_BLOCKS};

use crate::fields::append_field;
use precedence::IdRange;
use std::alloc::{AllocError, Global};
use std::marker::Model;

/// The text ` 0 1 2 ..` of the identifiers of a given number of blocks. A range of them is written by copying a part of it. Contracts see
/// their number.
#[derive(Drop)]
pub struct IdText {
    text: Vec<u8>,
    // the start of each identifier's text, and the end of the last: each has at most nine bytes, so all have fewer than 2^32
    starts: Vec<u32>,
}

impl Model for IdText {
    ghost use Rattle.std.specs.Prelude.{ℕ};
    ghost use Rattle.minelib_writing.specs.inner.IdTextFields.{ids_in, KeepsTexts};

    ghost Value = { ℕ };

    ghost view = { ids_in };

    ghost invariant = { KeepsTexts };
}

impl IdText {
    /// Returns the texts of the identifiers below `count`.
    pub fn below(alloc: Global, count: usize) -> Result<IdText, AllocError>
        requires { count ≤ MAX_BLOCKS }
        ensures { IfOk result (λ texts. texts ≡ count) }
    {
        let mut text = Vec::new(alloc);
        let mut starts = Vec::with_capacity(alloc, count + 1)?;
        starts.push(0)?;
        for id in 0..count {
            append_field(&mut text, id as u64)?;
            starts.push(text.len() as u32)?;
        }
        Ok(IdText { text, starts })
    }

    /// Appends an identifier.
    #[inline(always)]
    #[tactic(auto, using(crate::proofs::SpacedFacts::one_text))]
    pub fn append_one(&self, out: &mut Vec<u8>, id: u32) -> Result<(), AllocError>
        requires { id < self.now }
        ensures { OnOk result (out.new.items ≡ out.old.items ++ decimal id) }
    {
        let first = id as usize;
        out.extend_from_slice(&self.texts_between(first, first + 1)[1..])
    }

    /// Appends the identifiers of ranges, each after a space.
    #[inline(always)]
    pub fn append(&self, out: &mut Vec<u8>, ranges: &[IdRange]) -> Result<(), AllocError>
        requires { All (λ id. id < self.now) (ids_of ranges.now) }
        ensures { OnOk result (out.new.items ≡ out.old.items ++ spaced (ids_of ranges.now)) }
    {
        for range in ranges {
            self.append_range(out, *range)?;
        }
        Ok(())
    }

    #[inline(always)]
    fn append_range(&self, out: &mut Vec<u8>, range: IdRange) -> Result<(), AllocError>
        requires { range.first + range.len ≤ self.now }
        ensures { OnOk result (out.new.items ≡ out.old.items ++ spaced (ids_of_range range)) }
    {
        let first = range.first as usize;
        out.extend_from_slice(self.texts_between(first, first + range.len as usize))
    }

    // Returns the identifiers from `first` on before `past`, each after a space.
    #[inline(always)]
    fn texts_between(&self, first: usize, past: usize) -> &[u8]
        requires in_order { first ≤ past }
        requires within { past ≤ self.now }
        ensures { result.now ≡ spaced (range_with_len first (past - first)) }
    {
        let start = self.starts[first] as usize;
        let end = self.starts[past] as usize;
        bytes_between(self.text.as_slice(), start, end)
    }
}

#[inline(always)]
fn bytes_between(text: &[u8], start: usize, end: usize) -> &[u8]
    requires in_order { start ≤ end }
    requires within { end ≤ length text.now }
    ensures { result.now ≡ take (end - start) (drop start text.now) }
{
    &text[start..end]
}
