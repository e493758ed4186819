//! The layout of an image, each number named once for code and specs.
ghost use Rattle.xr_base.specs.Geometry.{HasGeometry};

/// Bytes of a block.
pub const BLOCK_BYTES: usize = 4096;

/// Bytes of a sector, the unit in which a disk is read and written.
pub const SECTOR_BYTES: usize = 512;

/// Sectors of a block.
pub const BLOCK_SECTORS: u32 = 8;

/// Bytes of an identifier.
pub const UUID_BYTES: usize = 16;

/// Blocks of an image.
pub const BLOCKS: u32 = 8968;

/// Sectors of an image.
pub const SECTORS: u32 = 71_744;

/// The image block where the log begins.
pub const FIRST_LOG_BLOCK: u32 = 8;

/// Sectors of the log.
pub const LOG_SECTORS: u32 = 4096;

/// The cycle that no log record may have. All below it but 0 are cycles.
pub const CYCLES: u32 = 4_000_000_000;

/// Files of an image.
pub const FILES: u32 = 32;

/// The image block where the first file's blocks begin.
pub const FIRST_FILE_BLOCK: u32 = 520;

/// Blocks of a file: its core and the pool of its tree.
pub const FILE_BLOCKS: u32 = 8;

/// Offsets of a file, in blocks.
pub const OFFSETS: u32 = 512;

/// The inode number of file 0. File `f` has the inode number `FIRST_INODE + f`.
pub const FIRST_INODE: u64 = 128;

/// Whose staged blocks are, in records that name an owner: -9 as an unsigned number.
pub const OWN_COW: u64 = 0xFFFF_FFFF_FFFF_FFF7;

/// Allocation groups of an image.
pub const GROUPS: u32 = 4;

/// The image block where the first group begins.
pub const FIRST_GROUP_BLOCK: u32 = 776;

/// Blocks of a group.
pub const GROUP_BLOCKS: u32 = 2048;

/// The first data block of a group. Those below it are its header and the pool of its trees.
pub const FIRST_DATA_BLOCK: u32 = 512;

/// Data blocks of a group.
pub const DATA_BLOCKS: u32 = GROUP_BLOCKS - FIRST_DATA_BLOCK;

/// Each number above is that of the format. So whatever is defined by a constant is defined by that number.
pub fn geometry_is_fixed()
    ensures { HasGeometry }
{}
