//! The rows and the end mark of one file.

ghost use Rattle.std.specs.Prelude.{◌≡◌, ℕ, ◌<◌, ◌≤◌, [], length, is_some, true, Some, None, MatchOption, OnOk, OnErr};
ghost use Rattle.collector.specs.inner.ItemsByFile.{slot, row_fault, end_fault, IsFilled, IsLacking};
ghost use Rattle.collector.specs.inner.WithAt.{with_at};
ghost use Rattle.plan_parts.specs.declared.ranges.TheConstants.{MAX_ROWS};

use crate::add_fault::AddFault;
use crate::by_place::ByPlace;
use plan_parts::ranges::MAX_ROWS;
use rows::Valued;
use std::alloc::{AllocError, Global};

/// The rows and the end mark of one file.
#[derive(Drop)]
pub struct FileItems {
    /// The rows, each at its place.
    pub rows: ByPlace<Valued>,
    /// The count of the end mark, if there is one.
    pub end: Option<u32>,
}

impl FileItems {
    /// Makes an empty list of rows, without end mark.
    pub fn new(alloc: Global) -> FileItems
        ensures rows { result.rows ≡ [] }
        ensures end { result.end ≡ None }
    {
        FileItems {
            rows: ByPlace::new(alloc),
            end: None,
        }
    }

    /// Returns the fault of a row with this place, if it has one.
    pub fn row_fault(&self, place: u32) -> Option<AddFault>
        ensures { result ≡ row_fault self.now.rows self.now.end place }
    {
        if holds(self.rows.as_slice(), place) {
            Some(AddFault::Double)
        } else if place >= MAX_ROWS {
            Some(AddFault::Stranger)
        } else if self.end.is_some_and(|count| place >= count) {
            Some(AddFault::AfterEnd)
        } else {
            None
        }
    }

    /// Returns the fault of an end mark with this count, if it has one.
    pub fn end_fault(&self, count: u32) -> Option<AddFault>
        ensures { result ≡ end_fault self.now.rows self.now.end count }
    {
        if self.end.is_some() {
            Some(AddFault::SecondEnd)
        } else if count > MAX_ROWS || (count as usize) < self.rows.as_slice().len() {
            Some(AddFault::BadCount)
        } else {
            None
        }
    }

    /// Stores a row at its place. If memory is refused, the rows are unchanged.
    pub fn store_row(&mut self, row: &Valued) -> Result<(), AllocError>
        ensures ok { OnOk result (self.new.rows ≡ with_at self.old.rows row.now.place row.now) }
        ensures err { OnErr result (self.new.rows ≡ self.old.rows) }
        ensures end { self.new.end ≡ self.old.end }
    {
        self.rows.store(row.place, *row)
    }

    /// Returns the first place without a row, or `None` if there is an end mark and each place below its count has its row.
    pub fn lacking(&self) -> Option<u32>
        requires few { length self.now.rows ≤ MAX_ROWS }
        requires closed { (count : ℕ) → self.now.end ≡ Some count → length self.now.rows ≤ count }
        ensures { MatchOption result (IsFilled self.now.rows self.now.end)
            (IsLacking self.now.rows self.now.end) }
    {
        let place = open_place(self.rows.as_slice());
        if self.end == Some(place) {
            None
        } else {
            Some(place)
        }
    }
}

// Returns the first place without a row.
fn open_place(rows: &[Valued]) -> u32
    requires { length rows.now ≤ MAX_ROWS }
    ensures within { result ≤ length rows.now }
    ensures none { slot rows.now result ≡ None }
    ensures least { (place : ℕ) → place < result → is_some (slot rows.now place) ≡ true }
{
    let count = rows.len() as u32;
    for place in 0..count {
        if !holds(rows, place) {
            return place;
        }
    }
    count
}

// Returns whether the row with this place is among these.
fn holds(rows: &[Valued], place: u32) -> bool
    ensures { result ≡ is_some (slot rows.now place) }
{
    match rows.get(place as usize) {
        Some(row) => row.place == place,
        None => false,
    }
}
