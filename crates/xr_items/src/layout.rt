//! The types, places and fixed numbers of format regions, each named once for code and specs, with the XFS field or structure
//! that each stands for ("XFS Algorithms and Data Structures", 3rd edition, Log Items).

/// `XFS_LI_BUF`. These are the types of the twelve items, the first number of their format regions (`blf_type`, `efi_type`
/// and so on).
pub const BUF_TYPE: u16 = 0x123C;

/// `XFS_LI_INODE`.
pub const INODE_TYPE: u16 = 0x123B;

/// `XFS_LI_EFI`.
pub const EFI_TYPE: u16 = 0x1236;

/// `XFS_LI_EFD`.
pub const EFD_TYPE: u16 = 0x1237;

/// `XFS_LI_RUI`.
pub const RUI_TYPE: u16 = 0x1240;

/// `XFS_LI_RUD`.
pub const RUD_TYPE: u16 = 0x1241;

/// `XFS_LI_CUI`.
pub const CUI_TYPE: u16 = 0x1242;

/// `XFS_LI_CUD`.
pub const CUD_TYPE: u16 = 0x1243;

/// `XFS_LI_BUI`.
pub const BUI_TYPE: u16 = 0x1244;

/// `XFS_LI_BUD`.
pub const BUD_TYPE: u16 = 0x1245;

/// `XFS_LI_XMI`.
pub const XMI_TYPE: u16 = 0x1248;

/// `XFS_LI_XMD`.
pub const XMD_TYPE: u16 = 0x1249;

/// Ids (`efi_id`, `rui_id` and so on) are below this one.
pub const IDS: u64 = 1 << 63;

/// Bytes of a format region that holds an inode number or an id alone.
pub const SHORT_BYTES: usize = 16;

/// Bytes of a buffer item's.
pub const BUF_BYTES: usize = 24;

/// Bytes of one that names a run alone.
pub const RUN_BYTES: usize = 32;

/// Bytes of one that maps a run.
pub const MAP_BYTES: usize = 48;

/// Bytes of an exchange's.
pub const SWAP_BYTES: usize = 56;

/// Bytes of the longest format region.
pub const LONGEST_REGION: usize = SWAP_BYTES;

/// The place of the number of regions in a format region: `blf_size`, `efi_size` and so on.
pub const REGIONS_PLACE: usize = 2;

/// The place of what follows type and number of regions: the number of extents (`efi_nextents`, `rui_nextents`,
/// `cui_nextents`, `bui_nextents`), which is one, or zeros.
pub const EXTENTS_PLACE: usize = 4;

/// The place of an item's id, and of the inode number of an inode item (`ilf_ino`).
pub const ID_PLACE: usize = 8;

/// The place of a buffer item's flags, `blf_flags`.
pub const BUF_FLAGS_PLACE: usize = 4;

/// The place of its length in sectors, `blf_len`.
pub const BUF_LEN_PLACE: usize = 6;

/// The place of its first sector, `blf_blkno`.
pub const BUF_SECTOR_PLACE: usize = 8;

/// The place of the number of words of its map, `blf_map_size`.
pub const BUF_WORDS_PLACE: usize = 16;

/// The place of that word, `blf_data_map`.
pub const BUF_MAP_PLACE: usize = 20;

/// The map of a buffer item that logs all of its block.
pub const WHOLE_BLOCK: u32 = u32::MAX;

/// The places of the run and the flags of an item that names a run alone: `ext_start` and `ext_len`, or `pe_startblock`,
/// `pe_len` and `pe_flags`.
pub const RUN_START_PLACE: usize = 16;

pub const RUN_LEN_PLACE: usize = 24;

pub const RUN_FLAGS_PLACE: usize = 28;

/// The places of `me_owner`, `me_startblock`, `me_startoff`, `me_len` and `me_flags` of an item that maps a run.
pub const OWNER_PLACE: usize = 16;

pub const MAP_START_PLACE: usize = 24;

pub const MAP_OFF_PLACE: usize = 32;

pub const MAP_LEN_PLACE: usize = 40;

pub const MAP_FLAGS_PLACE: usize = 44;

/// The places of the two inode numbers of an exchange, `xmi_inode1` and `xmi_inode2`, of the two offsets, `xmi_startoff1` and
/// `xmi_startoff2`, and of its length, `xmi_blockcount`.
pub const SWAP_INO_PLACE: usize = 16;

pub const SWAP_OTHER_PLACE: usize = 24;

pub const SWAP_OFF_PLACE: usize = 32;

pub const SWAP_OTHER_OFF_PLACE: usize = 40;

pub const SWAP_LEN_PLACE: usize = 48;

/// Blocks, new works and done slots that a transaction has room for.
pub const TRANS_BLOCKS: usize = 64;

pub const TRANS_WORKS: usize = 12;

pub const TRANS_SLOTS: usize = 12;
