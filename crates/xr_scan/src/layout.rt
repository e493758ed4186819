//! How many blocks a state has, and how many works may be pending, each number named once for code and specs.
ghost use Rattle.xr_scan.specs.Layout.{HasStateLayout};

use xr_base::geometry::{BLOCK_BYTES, FILE_BLOCKS, FILES, FIRST_DATA_BLOCK, GROUPS};

/// The most intents that may be pending: a log has so many slots for them.
pub const MOST_PENDING: usize = 128;

/// The blocks of all files, and of the groups without their data blocks.
pub const STATE_BLOCKS: usize = (FILES * FILE_BLOCKS + GROUPS * FIRST_DATA_BLOCK) as usize;

/// The bytes of a file's blocks.
pub const FILE_BYTES: usize = BLOCK_BYTES * FILE_BLOCKS as usize;

/// The bytes of a group's header and pool.
pub const GROUP_BYTES: usize = BLOCK_BYTES * FIRST_DATA_BLOCK as usize;

/// The bytes of all blocks of a state.
pub const STATE_BYTES: usize = BLOCK_BYTES * STATE_BLOCKS;

/// Each number above is that of the format. So whatever is defined by a constant is defined by that number.
pub fn layout_is_fixed()
    ensures { HasStateLayout }
{}
