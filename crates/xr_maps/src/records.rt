//! The records that are defined from the file maps.

use xr_base::{Addr, Run};

/// A longest run of a file's map in which offset and address rise together.
#[derive(Clone, Copy, Debug, PartialEq, Eq)]
pub struct Extent {
    /// The first offset, in blocks.
    pub off: u32,
    /// The number of blocks.
    pub len: u32,
    /// The block at the first offset.
    pub at: Addr,
}

/// A reverse mapping record: who owns the blocks of a run.
#[derive(Clone, Copy, Debug, PartialEq, Eq)]
pub struct Rev {
    pub run: Run,
    /// The inode number of the file that maps the run.
    pub owner: u64,
    /// The offset in that file of the run's first block, in blocks.
    pub off: u64,
}

/// A reference count record: how many owners each block of a run has.
#[derive(Clone, Copy, Debug, PartialEq, Eq)]
pub struct Counted {
    pub run: Run,
    pub count: u32,
    /// Whether the run is staged for copy-on-write, and so owned by no file yet.
    pub staged: bool,
}
