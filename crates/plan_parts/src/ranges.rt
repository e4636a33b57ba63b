//! The limits of plans, zone files, texts and runs. Code, contracts and definitions all refer to these constants.

/// The number of blocks along each axis of the grid; indices are smaller.
pub const GRID_CELLS: u16 = 10_000;

/// The smallest origin of an axis of the grid, in millimetres.
pub const MIN_ORIGIN: i64 = -1_000_000_000_000;

/// The largest origin of an axis of the grid, in millimetres.
pub const MAX_ORIGIN: i64 = 1_000_000_000_000;

/// The largest size of a block along an axis, in millimetres.
pub const MAX_SIZE: u32 = 100_000;

/// The largest tonnage of a block, in kilograms.
pub const MAX_KG: u64 = 1_000_000_000;

/// The largest grade of a block, in millionths of a gram per tonne.
pub const MAX_GRADE: u64 = 1_000_000_000_000;

/// The largest rise and the largest run of a slope.
pub const MAX_SLOPE: u32 = 1000;

/// The largest number of benches of a cone.
pub const MAX_BENCHES: u32 = 20;

/// The largest recovery of metal, per mille.
pub const MAX_RECOVERY: u16 = 1000;

/// The largest price of the metal, in cents per kilogram.
pub const MAX_PRICE: u32 = 100_000_000;

/// The largest cost, in cents per tonne.
pub const MAX_COST: u32 = 10_000_000;

/// The largest number of bands of a heap leach.
pub const MAX_BANDS: usize = 16;

/// The largest number of zones of a plan, and so of zone files.
pub const MAX_ZONES: u8 = 64;

/// The largest number of destinations of a plan.
pub const MAX_DESTINATIONS: u8 = 8;

/// The largest number of resources of a plan.
pub const MAX_RESOURCES: u8 = 8;

/// The largest number of periods of a plan.
pub const MAX_PERIODS: u32 = 100;

/// The largest discount rate, in millionths.
pub const MAX_RATE: i128 = 1_000_000;

/// The largest limit of a resource, in millionths of a tonne.
pub const MAX_TONNES: i128 = 1_000_000_000_000_000_000;

/// The largest number of bytes of a NAME.
pub const MAX_NAME_BYTES: usize = 64;

/// The largest number of records of a plan, including empty ones.
pub const MAX_PLAN_RECORDS: u32 = 10_000;

/// The largest number of bytes of a plan.
pub const MAX_PLAN_BYTES: usize = 1_048_576;

/// The largest number of bytes of a zone file, and of standard input.
pub const MAX_FILE_BYTES: usize = 268_435_456;

/// The largest number of rows of a zone file, without its header.
pub const MAX_ROWS: u32 = 1_000_000;

/// The largest number of blocks of a model: all rows of the largest number of zone files.
pub const MAX_BLOCKS: usize = 64_000_000;

/// The largest number of valuers of a run.
pub const MAX_VALUERS: usize = 64;

/// The largest number of messages that a run's lane can hold.
pub const MAX_CAPACITY: usize = 4096;

/// The default number of valuers.
pub const USUAL_VALUERS: usize = 4;

/// The default capacity of the lane.
pub const USUAL_CAPACITY: usize = 64;
