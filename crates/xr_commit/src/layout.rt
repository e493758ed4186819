//! Sizes in the log, each named once for code and specs.
ghost use Rattle.xr_commit.specs.Layout.{HasLogLayout};

use xr_base::geometry::{BLOCK_BYTES, LOG_SECTORS, SECTOR_BYTES};
use xr_base::layout::MAX_BODY_BYTES;

/// The bytes of the log.
pub const LOG_BYTES: usize = SECTOR_BYTES * LOG_SECTORS as usize;

/// The most bytes of a record's sectors.
pub const MOST_RECORD_BYTES: usize = SECTOR_BYTES + MAX_BODY_BYTES;

/// So many sectors after the head are free of live records: the room to log each pending intent anew.
pub const RELOG_SECTORS: u32 = 90;

/// Each number above is that of the format. So whatever is defined by a constant is defined by that number.
pub fn layout_is_fixed()
    ensures { HasLogLayout }
{}
