//! The rows and end marks of all files.

ghost use Rattle.std.specs.Prelude.{◌≡◌, ℕ, ◌<◌, ◌≤◌, ◌++◌, [], ◌∷◌, length, map, if◌then◌else◌, ◌==◌, Some, Err, IfOk, IfErr, IfSome, IfNone, OnOk, OnErr};
ghost use Rattle.collector.specs.inner.ItemsByFile.{rows_of_file, end_mark_of_file, item_fault, file_of, AreStored, AreSame, IsFilled, IsFirstLacking};
ghost use Rattle.collector.specs.inner.WithAt.{with_at};
ghost use Rattle.collector.specs.Fault.{fault};
ghost use Rattle.collector.specs.Lists.{AreLists, IsFinishFault};
ghost use Rattle.plan_parts.specs.declared.ranges.TheConstants.{MAX_ROWS};

use crate::add_fault::AddFault;
use crate::file_items::FileItems;
use crate::missing::Missing;
use pit_units::OrMemory;
use plan_parts::listed::past::Past;
use rows::{Item, Rows, Valued};
use std::alloc::{AllocError, Global};
use std::marker::Model;

/// A collector: it takes the items of all files in any order, and returns the rows of each file in order of place. For each file it
/// allocates memory up to the largest place of its rows, even if rows with smaller places are missing.
///
/// Contracts see the number of files, and the items in the order in which they were added.
#[derive(Drop)]
pub struct Collector {
    alloc: Global,
    items_by_file: Vec<FileItems>,
    history: Past<Item>,
}

impl Model for Collector {
    ghost use Rattle.std.specs.Prelude.{◌≤◌, length};
    ghost use Rattle.collector.specs.CollectorView.{CollectorView};
    ghost use Rattle.collector.specs.inner.ItemsByFile.{AreGrouped, rows_of_file, end_mark_of_file};

    ghost Value = { CollectorView };

    ghost view = { λ c. record { files = length c.items_by_file.items; items = c.history } };

    ghost invariant = { λ c. (length c.items_by_file.items ≤ 255)
        × AreGrouped (length c.items_by_file.items) c.history (rows_of_file c.items_by_file.items)
        (end_mark_of_file c.items_by_file.items) };
}

impl Collector {
    /// Makes a collector without items, for the files 0 to `files` - 1. Fails only if memory is refused.
    pub fn new(alloc: Global, files: u8) -> Result<Collector, AllocError>
        ensures { IfOk result (λ c. c ≡ record { files = files; items = [] }) }
    {
        let mut items_by_file = Vec::with_capacity(alloc, files as usize)?;
        for _ in 0..files {
            items_by_file.push(FileItems::new(alloc))?;
        }
        Ok(Collector {
            alloc,
            items_by_file,
            history: Past::new(),
        })
    }

    /// Adds an item.
    ///
    /// # Errors
    ///
    /// The first fault of the item, in the order of `AddFault`. `OutOfMemory` occurs only if the item has no other fault. The
    /// collector is unchanged.
    pub fn add(&mut self, item: Item) -> Result<(), AddFault>
        ensures refused { IfSome (fault self.old.files self.old.items item)
            (λ why. result ≡ Err why) }
        ensures memory { IfNone (fault self.old.files self.old.items item)
            (IfErr result (λ why. why ≡ AddFault.OutOfMemory)) }
        ensures ok { OnOk result (self.new
            ≡ record self.old { items = self.old.items ++ item ∷ [] }) }
        ensures err { OnErr result (self.new ≡ self.old) }
    {
        if let Some(why) = self.fault_of(&item) {
            return Err(why);
        }
        store_item(&mut self.items_by_file, &item)?;
        self.history = self.history.with(&item);
        Ok(())
    }

    /// Returns the rows of each file, in order of place, and drops the collector.
    ///
    /// # Errors
    ///
    /// - `Fault`: an end mark or a row is missing. It names the first file in which one is missing, and the file's first place
    ///   without a row.
    /// - `OutOfMemory`: memory was refused.
    pub fn finish(self) -> Result<Vec<Rows>, OrMemory<Missing>>
        ensures lists { IfOk result (λ lists. AreLists self.files self.items lists.items) }
        ensures missing { IfErr result (IsFinishFault self.files self.items) }
    {
        require_filled(&self.items_by_file)?;
        Ok(rows_by_file(self.alloc, self.items_by_file)?)
    }

    // Returns the fault of an item, if it has one.
    fn fault_of(&self, item: &Item) -> Option<AddFault>
        ensures { result ≡ fault self.now.files self.now.items item.now }
    {
        fault_on(&self.items_by_file, item)
    }
}

// Returns the fault of an item after these stored items.
fn fault_on(items_by_file: &[FileItems], item: &Item) -> Option<AddFault>
    ensures { result ≡ item_fault (length items_by_file.now) (rows_of_file items_by_file.now) (end_mark_of_file items_by_file.now)
        item.now }
{
    match item {
        Item::Row(row) => match items_by_file.get(row.file as usize) {
            Some(file_items) => file_items.row_fault(row.place),
            None => Some(AddFault::Stranger),
        },
        Item::End { file, rows } => match items_by_file.get(*file as usize) {
            Some(file_items) => file_items.end_fault(*rows),
            None => Some(AddFault::Stranger),
        },
    }
}

// Stores an item for its file. If memory is refused, the stored items are unchanged.
fn store_item(items_by_file: &mut [FileItems], item: &Item) -> Result<(), AllocError>
    requires { file_of item.now < length items_by_file.old }
    ensures ok { OnOk result (AreStored item.now (rows_of_file items_by_file.old) (end_mark_of_file items_by_file.old)
        (rows_of_file items_by_file.new) (end_mark_of_file items_by_file.new)) }
    ensures err { OnErr result (AreSame (rows_of_file items_by_file.old) (end_mark_of_file items_by_file.old)
        (rows_of_file items_by_file.new) (end_mark_of_file items_by_file.new)) }
    ensures count { length items_by_file.new ≡ length items_by_file.old }
{
    match item {
        Item::Row(row) => store_row(items_by_file, row),
        Item::End { file, rows } => {
            store_end(items_by_file, *file, *rows);
            Ok(())
        }
    }
}

// Stores a row for its file. If memory is refused, the stored rows are unchanged.
fn store_row(items_by_file: &mut [FileItems], row: &Valued) -> Result<(), AllocError>
    requires { row.now.file < length items_by_file.old }
    ensures rows { OnOk result ((file : ℕ) → rows_of_file items_by_file.new file
        ≡ (if row.now.file == file then with_at (rows_of_file items_by_file.old file) row.now.place row.now else rows_of_file
        items_by_file.old file)) }
    ensures err { OnErr result ((file : ℕ) → rows_of_file items_by_file.new file ≡ rows_of_file items_by_file.old file) }
    ensures ends { (file : ℕ) → end_mark_of_file items_by_file.new file ≡ end_mark_of_file items_by_file.old file }
    ensures count { length items_by_file.new ≡ length items_by_file.old }
{
    items_by_file[row.file as usize].store_row(row)
}

// Stores an end mark for its file.
fn store_end(items_by_file: &mut [FileItems], file: u8, count: u32)
    requires { file < length items_by_file.old }
    ensures rows { (other : ℕ) → rows_of_file items_by_file.new other ≡ rows_of_file items_by_file.old other }
    ensures ends { (other : ℕ) → end_mark_of_file items_by_file.new other
        ≡ (if file == other then Some count else end_mark_of_file items_by_file.old other) }
    ensures count { length items_by_file.new ≡ length items_by_file.old }
{
    items_by_file[file as usize].end = Some(count);
}

// Returns an error for the first file that is not filled.
fn require_filled(items_by_file: &[FileItems]) -> Result<(), OrMemory<Missing>>
    requires count { length items_by_file.now ≤ 255 }
    requires few { (file : ℕ) → length (rows_of_file items_by_file.now file) ≤ MAX_ROWS }
    requires closed { (file count : ℕ) → end_mark_of_file items_by_file.now file ≡ Some count
        → length (rows_of_file items_by_file.now file) ≤ count }
    ensures filled { OnOk result
        ((file : ℕ) → file < length items_by_file.now
        → IsFilled (rows_of_file items_by_file.now file) (end_mark_of_file items_by_file.now file)) }
    ensures lacking { IfErr result (IsFirstLacking items_by_file.now) }
{
    for (file, file_items) in items_by_file.iter().enumerate() {
        if let Some(place) = file_items.lacking() {
            return Err(OrMemory::Fault(Missing {
                file: file as u8,
                place,
            }));
        }
    }
    Ok(())
}

// Returns the rows of each file, without copying them.
fn rows_by_file(alloc: Global, items_by_file: Vec<FileItems>) -> Result<Vec<Rows>, AllocError>
    ensures { IfOk result (λ lists. lists.items ≡ map (λ file_items. file_items.rows) items_by_file.items) }
{
    items_by_file.into_iter().map(rows_on).collect(alloc)
}

fn rows_on(file_items: FileItems) -> Rows
    ensures { result ≡ file_items.rows }
{
    Rows::new(file_items.rows.into_vec())
}
