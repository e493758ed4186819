//! The places and fixed numbers of the headers, of fresh leaves and of the fresh log's record, each named once for code and
//! specs, with the XFS field that each stands for ("XFS Algorithms and Data Structures", 3rd edition).

use xr_base::geometry::UUID_BYTES;
use xr_base::layout::{
    BB_BLKNO_BYTES, BB_LEFTSIB, BB_LSN_BYTES, LONG_POINTER_BYTES, SHORT_POINTER_BYTES,
};

/// How a superblock begins ("XRSB"), as `sb_magicnum`.
pub const SUPER_MAGIC: u32 = 0x5852_5342;

/// How a group header begins ("XRGH"), as `agf_magicnum`.
pub const GROUP_MAGIC: u32 = 0x5852_4748;

/// How a file core begins ("XRFC"), as `di_magic`.
pub const CORE_MAGIC: u32 = 0x5852_4643;

/// The version of the three headers, which follows the magic, as `sb_versionnum`.
pub const VERSION: u32 = 1;

/// The place of the identifier in each header, as `sb_uuid`, `agf_uuid` and `di_uuid`.
pub const UUID_PLACE: usize = 16;

/// The place in a superblock of the fixed numbers of the layout, the first of them as `sb_logstart`, that of groups as
/// `sb_agcount`, that of their blocks as `sb_agblocks`.
pub const GEOMETRY_PLACE: usize = 32;

/// Bytes of a superblock up to the last of these numbers.
pub const SUPER_BYTES: usize = 64;

/// The place of a group header's own number, as `agf_seqno`. Four zeros follow it.
pub const GROUP_PLACE: usize = 8;

/// The place of a group header's roots, as `agf_roots`.
pub const ROOTS_PLACE: usize = 32;

/// The place of a group header's levels, as `agf_levels`.
pub const LEVELS_PLACE: usize = 48;

/// The place of a group header's free map, which does what the list `agfl_bno` does.
pub const FREE_MAP_PLACE: usize = 64;

/// Bytes of a group header's free map.
pub const FREE_MAP_BYTES: usize = 64;

/// Bytes of a group header up to the end of its free map.
pub const GROUP_BYTES: usize = 128;

/// The place of the checksum in a superblock and in a group header, as `sb_crc` and `agf_crc`.
pub const BLOCK_CRC: usize = 4092;

/// The place of a file core's inode number, as `di_ino`.
pub const INODE_PLACE: usize = 8;

/// The place of the root of a file's tree. Its level follows.
pub const CORE_ROOT_PLACE: usize = 32;

/// The place of the free mask of a file's pool.
pub const CORE_FREE_PLACE: usize = 40;

/// Bytes of a file core up to the end of its free mask.
pub const CORE_FIELDS: usize = 44;

/// The place of a file core's checksum, as `di_crc`.
pub const CORE_CRC: usize = 60;

/// Bytes of a file core.
pub const CORE_BYTES: usize = 64;

/// The places in a block of a group's tree of `bb_blkno`, `bb_uuid` and `bb_owner`.
pub const SHORT_BB_BLKNO: usize = BB_LEFTSIB + 2 * SHORT_POINTER_BYTES;

pub const SHORT_BB_UUID: usize = SHORT_BB_BLKNO + BB_BLKNO_BYTES + BB_LSN_BYTES;

pub const SHORT_BB_OWNER: usize = SHORT_BB_UUID + UUID_BYTES;

/// The same in a block of a file's tree.
pub const LONG_BB_BLKNO: usize = BB_LEFTSIB + 2 * LONG_POINTER_BYTES;

pub const LONG_BB_UUID: usize = LONG_BB_BLKNO + BB_BLKNO_BYTES + BB_LSN_BYTES;

pub const LONG_BB_OWNER: usize = LONG_BB_UUID + UUID_BYTES;

/// Bytes of the operation that says that the log is at rest, as `h_len`, and of the data at its end, as `oh_len`.
pub const UNMOUNT_BYTES: u32 = 20;

pub const UNMOUNT_DATA: u32 = 8;

/// That operation's client, the log, with its one flag (`oh_clientid`, `oh_flags`), and the first word of its data.
pub const UNMOUNT_CLIENT: u32 = 0xAA20_0000;

pub const UNMOUNT_MAGIC: u32 = 0x6E55_0000;

/// What stands for a sibling (`bb_leftsib`) or an earlier record (`h_prev_block`) where there is none.
pub const MISSING: u32 = u32::MAX;
