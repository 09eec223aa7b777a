/// The most workers that a layout may have.
pub const MOST_WORKERS: u32 = 64;

/// The most rows that calls may be given.
pub const MOST_ROWS: u32 = 1048575;

/// The most heads of a hash table.
pub const MOST_BUCKETS: u32 = 65536;

/// The most slots of a layout.
pub const MOST_SLOTS: u32 = 4194320;

/// The most slots of a hashed placement.
pub const MOST_HASHED_SLOTS: u32 = 1048576;

/// The most calls and evictions of one run.
pub const MOST_CALLS: u32 = 1048576;

/// The most words that a worker queues to be written back.
pub const MOST_QUEUED: usize = 16;

/// The most bytes that a text may have.
pub const MOST_BYTES: usize = 268435456;

/// The greatest key; the three numbers above it are those of the tree's fixed rows.
pub const GREATEST_KEY: u32 = 4294967292;

/// The greatest value.
pub const GREATEST_VALUE: u32 = 4294967295;

/// The greatest version, and the greatest limit on versions.
pub const GREATEST_VERSION: u32 = 2147483647;
