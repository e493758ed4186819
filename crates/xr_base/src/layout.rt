//! The numbers of formats that more than one crate reads or writes, each named once for code and specs: records of the log,
//! and blocks of trees ("XFS Algorithms and Data Structures", 3rd edition, Log Record and Variable Length Record B+trees).
ghost use Rattle.xr_base.specs.Layout.{HasRecordLayout, HasTreeLayout};

/// `h_magicno`: how a record of the log begins (`XLOG_HEADER_MAGIC_NUM`).
pub const RECORD_MAGIC: u32 = 0xFEED_BABE;

/// `h_version`: the one kind of record here.
pub const RECORD_VERSION: u32 = 2;

/// `h_fmt`: how the machine that wrote the record orders bytes.
pub const RECORD_FORMAT: u32 = 1;

/// `h_size`: the most bytes that a record's body has, as every header says.
pub const MAX_BODY_BYTES: usize = 32_768;

/// The place of `h_lsn` in a record: a cycle and then a sector.
pub const RECORD_LSN_PLACE: usize = 16;

/// The place of `h_tail_lsn`.
pub const RECORD_TAIL_PLACE: usize = 24;

/// The place of `h_crc`. `h_prev_block` and `h_num_logops` follow.
pub const RECORD_CRC_PLACE: usize = 32;

/// The place of `h_fmt`.
pub const RECORD_FORMAT_PLACE: usize = 300;

/// The place of `h_fs_uuid`.
pub const RECORD_UUID_PLACE: usize = 304;

/// The place of `h_size`.
pub const RECORD_SIZE_PLACE: usize = 320;

/// `bb_magic`: how the blocks of a tree of free runs by block begin (`XFS_ABTB_CRC_MAGIC`).
pub const BY_BLOCK_MAGIC: u32 = 0x4142_3342;

/// The same of free runs by size (`XFS_ABTC_CRC_MAGIC`).
pub const BY_SIZE_MAGIC: u32 = 0x4142_3343;

/// The same of reverse records (`XFS_RMAP_CRC_MAGIC`).
pub const REVERSE_MAGIC: u32 = 0x524D_4233;

/// The same of reference records (`XFS_REFC_CRC_MAGIC`).
pub const REFERENCE_MAGIC: u32 = 0x5233_4643;

/// The same of a file's extents (`XFS_BMAP_CRC_MAGIC`).
pub const MAPPING_MAGIC: u32 = 0x424D_4133;

/// The place of `bb_level` in the header of a tree's block, short or long.
pub const BB_LEVEL: usize = 4;

/// The place of `bb_numrecs`.
pub const BB_NUMRECS: usize = 6;

/// The place of `bb_leftsib`. `bb_rightsib` follows, and then `bb_blkno`, `bb_lsn`, `bb_uuid` and `bb_owner`.
pub const BB_LEFTSIB: usize = 8;

/// Bytes of `bb_blkno`, and of `bb_lsn`.
pub const BB_BLKNO_BYTES: usize = 8;

pub const BB_LSN_BYTES: usize = 8;

/// Bytes of a sibling, of the owner and of a pointer: in blocks with the short header, which groups have, and in those with
/// the long one, which files have.
pub const SHORT_POINTER_BYTES: usize = 4;

pub const LONG_POINTER_BYTES: usize = 8;

/// The place of `bb_crc` in the short header and in the long one.
pub const SHORT_BB_CRC: usize = 52;

pub const LONG_BB_CRC: usize = 64;

/// Bytes of the short header and of the long one, whose last four are `bb_pad`.
pub const SHORT_HEADER_BYTES: usize = 56;

pub const LONG_HEADER_BYTES: usize = 72;

/// Each number above is that of the format.
pub fn layout_is_fixed()
    ensures records { HasRecordLayout }
    ensures trees { HasTreeLayout }
{}
