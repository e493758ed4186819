//! The blocks that a scan found, file by file and group by group.
ghost use Rattle.std.specs.Prelude.{◌≡◌, ◌+◌, ◌*◌, ◌<◌, ℕ, length};
ghost use Rattle.xr_base.specs.Image.{block_of};
ghost use Rattle.xr_base.specs.declared.geometry.TheConstants.{
  BLOCK_BYTES,
  FILE_BLOCKS,
  FILES,
  FIRST_DATA_BLOCK,
  FIRST_FILE_BLOCK,
  FIRST_GROUP_BLOCK,
  GROUP_BLOCKS,
  GROUPS,
};
ghost use Rattle.xr_scan.specs.Scanned.{bytes_from, scanned_state};

use crate::layout::{FILE_BYTES, GROUP_BYTES};
use crate::scanned::Scanned;
use xr_base::geometry::FILES;
use xr_base::{FileNo, GroupNo};

impl Scanned {
    /// The blocks of a file, one of 32: its core and its pool.
    pub fn file(&self, file: FileNo) -> &[u8]
        requires { file.0 < FILES }
        ensures bytes { result.now ≡ bytes_from (scanned_state self.now) (FIRST_FILE_BLOCK + FILE_BLOCKS * file.0) FILE_BLOCKS }
        ensures long { length result.now ≡ BLOCK_BYTES * FILE_BLOCKS }
        ensures each { (k : ℕ) → k < FILE_BLOCKS
            → block_of result.now k ≡ (scanned_state self.now).blocks (FIRST_FILE_BLOCK + FILE_BLOCKS * file.0 + k) }
    {
        let from = FILE_BYTES * file.0 as usize;
        &self.blocks[from..from + FILE_BYTES]
    }

    /// The header and the pool of a group, one of 4.
    pub fn group(&self, group: GroupNo) -> &[u8]
        requires { group.0 < GROUPS }
        ensures bytes { result.now ≡ bytes_from (scanned_state self.now) (FIRST_GROUP_BLOCK + GROUP_BLOCKS * group.0) FIRST_DATA_BLOCK }
        ensures long { length result.now ≡ BLOCK_BYTES * FIRST_DATA_BLOCK }
        ensures each { (k : ℕ) → k < FIRST_DATA_BLOCK
            → block_of result.now k ≡ (scanned_state self.now).blocks (FIRST_GROUP_BLOCK + GROUP_BLOCKS * group.0 + k) }
    {
        let from = FILE_BYTES * FILES as usize + GROUP_BYTES * group.0 as usize;
        &self.blocks[from..from + GROUP_BYTES]
    }
}
