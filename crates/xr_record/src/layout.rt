//! The numbers of the formats of records and operations, each named once for code and specs ("XFS Algorithms and Data
//! Structures", 3rd edition, Log Record and Log Operations). Those that a fresh log's first record needs, too, stand in
//! `xr_base::layout`.

/// The place in a record's header of `h_cycle`. `h_magicno` is at the front.
pub const CYCLE_PLACE: usize = 4;

/// The place of `h_version`.
pub const VERSION_PLACE: usize = 8;

/// The place of `h_len`.
pub const LEN_PLACE: usize = 12;

/// The place of `h_prev_block`, which follows `h_crc`.
pub const PREV_PLACE: usize = 36;

/// The place of `h_num_logops`.
pub const OPS_PLACE: usize = 40;

/// The place of the words, `h_cycle_data`.
pub const WORDS_PLACE: usize = 44;

/// The place of the zeros at the header's end, and how many they are.
pub const ZEROS_PLACE: usize = 324;

pub const ZEROS_BYTES: usize = 188;

/// The bytes of the words, with room for the first word of each sector of the longest body.
pub const WORDS_BYTES: usize = 256;

/// The bytes of an operation's header.
pub const OPERATION_BYTES: usize = 12;

/// The places in it of `oh_len`, `oh_clientid`, `oh_flags` and `oh_res2`. `oh_tid` is at the front.
pub const OPERATION_LEN_PLACE: usize = 4;

pub const CLIENT_PLACE: usize = 8;

pub const FLAGS_PLACE: usize = 9;

pub const OPERATION_ZEROS_PLACE: usize = 10;

/// `oh_clientid` of an operation of a transaction.
pub const TRANSACTION_CLIENT: u8 = 0x69;

/// `oh_clientid` of an operation of the log itself.
pub const LOG_CLIENT: u8 = 0xAA;

/// The flag in `oh_flags` of an operation that begins a transaction.
pub const START: u8 = 0x01;

/// The flag of an operation that ends a transaction.
pub const COMMIT: u8 = 0x02;

/// The flag of a part of a region whose next part follows in the next record.
pub const CONTINUE: u8 = 0x04;

/// The flag of a part of a region whose first part stands in a record before.
pub const WAS_CONTINUED: u8 = 0x08;

/// The flag of a region's last part.
pub const END: u8 = 0x10;

/// The flags of a part of a region that is neither its first nor its last.
pub const MIDDLE_FLAGS: u8 = CONTINUE | WAS_CONTINUED;

/// The flags of the last part of a region that was cut.
pub const LAST_FLAGS: u8 = WAS_CONTINUED | END;

/// The flag of the operation that marks a clean unmount.
pub const UNMOUNT: u8 = 0x20;

/// The bytes of the body of the operation that marks a clean unmount, and these.
pub const UNMOUNT_BODY_BYTES: usize = 8;

pub const UNMOUNT_BODY: [u8; UNMOUNT_BODY_BYTES] = [0x6E, 0x55, 0, 0, 0, 0, 0, 0];

/// The most bytes of a region.
pub const MOST_REGION_BYTES: usize = 4096;

/// The bytes of a transaction's header.
pub const TRANSACTION_HEADER_BYTES: usize = 16;

/// The places in it of `th_type`, `th_tid` and `th_num_items`. `th_magic` is at the front.
pub const TRANSACTION_TYPE_PLACE: usize = 4;

pub const TRANSACTION_TID_PLACE: usize = 8;

pub const TRANSACTION_COUNT_PLACE: usize = 12;

/// `th_magic`: how a transaction's header begins.
pub const TRANSACTION_MAGIC: u32 = 0x5452_414E;

/// `th_type`: the one type of transaction.
pub const TRANSACTION_TYPE: u32 = 40;
