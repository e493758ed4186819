//! What a lookup tells of a file's map.

use xr_base::Addr;

/// Some offsets of a file, one after another, that are mapped alike. There is one at least.
#[derive(Clone, Copy, Debug, PartialEq, Eq)]
pub enum Piece {
    /// They map the blocks from `at` on.
    Mapped { at: Addr, len: u32 },
    /// They map nothing.
    Hole { len: u32 },
}
