//! Theorems about all zone files and coordinates. Each function does nothing; its contract states a theorem.

ghost use Rattle.std.specs.Prelude.{◌≡◌, ◌<◌, ◌↔◌, ℕ, ℤ, true, List, Option, Result, Ok, Err, None, Some};
ghost use Rattle.pit_units.specs.declared.or_memory.OrMemory.{OrMemory};
ghost use Rattle.plan_parts.specs.declared.grid.Axis.{Axis as AnAxis};
ghost use Rattle.plan_parts.specs.declared.grid.Grid.{Grid as AGrid};
ghost use Rattle.records.specs.Records.{records_of};
ghost use Rattle.plan_parts.specs.declared.block.Block.{Block};
ghost use Rattle.zone_csv.specs.Cell.{index_at, is_on_step};
ghost use Rattle.zone_csv.specs.Columns.{all_columns};
ghost use Rattle.zone_csv.specs.Header.{columns_of};
ghost use Rattle.zone_csv.specs.NamedColumns.{IsFirstUnnamed, NamesColumns};
ghost use Rattle.zone_csv.specs.RefusedRow.{HasSizes, IsRefusedAt};
ghost use Rattle.zone_csv.specs.Row.{row_of};
ghost use Rattle.zone_csv.specs.EncodedRow.{EncodesBlock, IsInGrid, centroid};
ghost use Rattle.zone_csv.specs.Zone.{blocks_of, fault_of};
ghost use Rattle.zone_csv.specs.ZoneInvariant.{HasFewBlocks, HasOwnBlocks, AccountsForRecords};
ghost use Rattle.zone_csv.specs.ZoneReaderView.{Answers, ZoneReaderView};
ghost use Rattle.zone_csv.specs.ZoneStates.{ZoneFails, ZoneStates};
ghost use Rattle.zone_csv.specs.declared.columns.Columns.{Columns as FiveColumns};
ghost use Rattle.zone_csv.specs.declared.row_fault.RowFault.{RowFault};
ghost use Rattle.plan_parts.specs.declared.ranges.TheConstants.{GRID_CELLS, MAX_ZONES};

/// A zone file has at most a million blocks, all of its own zone. Each record after the header is a block, up to the record with
/// the fault, if there is one.
#[tactic(auto, using(crate::proofs::ZoneFacts::few_blocks, crate::proofs::ZoneFacts::own_blocks, crate::proofs::ZoneFacts::accounts_for_records))]
pub fn zone_files()
    ensures few { (grid : AGrid) (zone : ℕ) (text : List ℕ) → HasFewBlocks grid zone text }
    ensures own { (grid : AGrid) (zone : ℕ) (text : List ℕ) → zone < MAX_ZONES
        → HasOwnBlocks grid zone text }
    ensures accounts { (grid : AGrid) (zone : ℕ) (text : List ℕ)
        → AccountsForRecords grid zone text }
{}

/// A coordinate is the centroid of the blocks with an index if and only if it has that index, is in the grid, and is a multiple of
/// the block size above the origin.
pub fn coordinates()
    ensures { (axis : AnAxis) (coordinate : ℤ) (index : ℕ) → 0 < axis.size
        → (IsInGrid axis coordinate
        × (is_on_step axis coordinate ≡ true)
        × (index_at axis coordinate ≡ index))
        ↔ ((coordinate ≡ centroid axis index) × (index < GRID_CELLS)) }
{}

/// A header has the columns that it names, in any order and in upper or lower case.
pub fn columns_are_named()
    ensures { (header : List (List ℕ)) (columns : FiveColumns)
        → (columns_of header ≡ Ok columns) ↔ NamesColumns header columns }
{}

/// A row states a block of this zone if and only if its cells encode the block's centroid, tonnes and grade.
pub fn rows_encode_blocks()
    ensures { (grid : AGrid) (zone : ℕ) (columns : FiveColumns) (number : ℕ)
        (row : List (List ℕ)) (block : Block)
        → 0 < grid.x.size → 0 < grid.y.size → 0 < grid.z.size → zone < MAX_ZONES
        → (row_of grid zone columns number row ≡ Ok block)
        ↔ EncodesBlock grid zone columns number row block }
{}

/// A zone file has these blocks and no fault if and only if its header names the columns, and each record after it encodes the
/// block at its place.
pub fn zone_files_are_encoded()
    ensures { (grid : AGrid) (zone : ℕ) (text : List ℕ) (blocks : List Block)
        → HasSizes grid → zone < MAX_ZONES
        → ((fault_of grid zone text ≡ None) × (blocks_of grid zone text ≡ blocks))
        ↔ ZoneStates grid zone (records_of text) blocks None }
{}

/// A zone file has these blocks and this fault in exactly two cases. Either the fault is for the first column that the header does
/// not name, and there are no blocks. Or the header names the columns, and the records after it encode these blocks, up to a record
/// that is rejected with this fault.
pub fn zone_faults_are_first()
    ensures { (grid : AGrid) (zone : ℕ) (text : List ℕ) (blocks : List Block) (fault : RowFault)
        → HasSizes grid → zone < MAX_ZONES
        → ((fault_of grid zone text ≡ Some fault) × (blocks_of grid zone text ≡ blocks))
        ↔ ZoneFails grid zone (records_of text) blocks fault }
{}

/// A record has a fault in exactly two cases: it is rejected as a whole, or at the first column, in order, whose cell encodes no
/// allowed value (`rows`). The fault names the record and the column, and its kind is the kind of the first requirement that the
/// cell violates. Such a record encodes no block (`cells`). A header has a fault if and only if a column is missing or appears
/// twice, and the fault names the first such column (`headers`). Such a header names no columns (`columns`).
pub fn invalid_rows_encode_no_block()
    ensures rows { (grid : AGrid) (zone number : ℕ) (columns : FiveColumns) (row : List (List ℕ))
        (fault : RowFault) → HasSizes grid → (row_of grid zone columns number row ≡ Err fault)
        ↔ ((fault.row ≡ number) × IsRefusedAt grid columns number row fault) }
    ensures cells { (grid : AGrid) (zone number : ℕ) (columns : FiveColumns) (row : List (List ℕ))
        (block : Block) (fault : RowFault) → HasSizes grid
        → row_of grid zone columns number row ≡ Err fault
        → ¬ (EncodesBlock grid zone columns number row block) }
    ensures headers { (header : List (List ℕ)) (fault : RowFault)
        → (columns_of header ≡ Err fault)
        ↔ ((fault.row ≡ 1) × IsFirstUnnamed header all_columns fault) }
    ensures columns { (header : List (List ℕ)) (columns : FiveColumns) (fault : RowFault)
        → columns_of header ≡ Err fault → ¬ (NamesColumns header columns) }
{}

/// A reader that returned the end of its file, its fault or `OutOfMemory` returns the same when it is called again.
#[tactic(auto, using(crate::proofs::AnsweredAgain::ended_again, crate::proofs::AnsweredAgain::fault_again))]
pub fn readers_answer_again()
    ensures ended { (old then after : ZoneReaderView) (again : Result (Option Block) (OrMemory RowFault))
        → Answers old (Ok None) then → Answers then again after → again ≡ Ok None }
    ensures refused { (old then after : ZoneReaderView) (fault : OrMemory RowFault)
        (again : Result (Option Block) (OrMemory RowFault))
        → Answers old (Err fault) then → Answers then again after → again ≡ Err fault }
{}
