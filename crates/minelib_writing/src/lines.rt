//! A line for each item of a list.

ghost use Rattle.std.specs.Prelude.{◌≡◌, ◌<◌, ◌++◌, ◌∷◌, [], ℕ, List, HoldsAt, length, slice_index_or, OnOk};
ghost use Rattle.minelib_lines.specs.Lines.{line_of, lines_from};

use crate::parts::Parted;
use pit_units::scratch::Scratch;
use std::alloc::AllocError;

pub mod coefs;
pub mod items;
pub mod preds;
pub mod values;

/// An item that is written as a line.
pub trait Line {
    ghost fields: { ℕ → Self → List (List ℕ) };

    /// The facts that its type guarantees for the item, known after its line is written.
    ghost kept: { Self → Type 0 };

    /// Appends the line of the item, whose position in its list is `index`, with its LF. If memory is refused, a prefix of it may be
    /// appended.
    fn append(
        &self,
        index: usize,
        out: &mut Vec<u8>,
        scratch: &mut Scratch,
    ) -> Result<(), AllocError>
        ensures text { OnOk result (out.new.items
            ≡ out.old.items ++ (line_of (fields index self.now) ++ 10 ∷ [])) }
        ensures kept { OnOk result (kept self.now) };
}

/// A line for each item.
#[derive(Drop)]
pub struct Lines<'a, T> {
    pub items: &'a [T],
}

impl<'a, T: Line> Parted for Lines<'a, T> {
    ghost lines = { λ s. lines_from T.fields 0 s.items.now };

    ghost use Rattle.minelib_writing.specs.inner.Parts.{line_parts, lines_whole};

    ghost parts = { λ s. line_parts (lines_from T.fields 0 s.items.now) };

    ghost kept = { λ s n. HoldsAt T.kept s.items.now n };

    ghost whole = { λ s. lines_whole (lines_from T.fields 0 s.items.now) };

    #[tactic(auto, using(crate::proofs::LineFacts::line_parts_count))]
    fn len(&self) -> usize {
        self.items.len()
    }

    #[tactic(auto, using(crate::proofs::LineFacts::line_parts_count))]
    fn append(
        &self,
        index: usize,
        out: &mut Vec<u8>,
        scratch: &mut Scratch,
    ) -> Result<usize, AllocError> {
        item_of_line(self.items, index).append(index, out, scratch)?;
        Ok(1)
    }
}

// Returns the item whose line has this position.
fn item_of_line<T>(items: &[T], index: usize) -> &T
    requires { index < length items.now }
    ensures { result.now ≡ slice_index_or items.now index result.now }
{
    &items[index]
}
