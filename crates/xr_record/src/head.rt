//! Where a record stands in the log, and the values of its header.
ghost use Rattle.std.specs.Prelude.{◌≡◌};
ghost use Rattle.std.specs.Ordering.{nat_cmp};
ghost use Rattle.xr_record.specs.Lsn.{lsn_number};

use std::cmp::Ordering;
use uuid::Uuid;

/// A log sequence number: the sector where a record begins, and how often the log had been gone round by then, from 1 on.
/// Later records have greater ones ("XFS Algorithms and Data Structures", 3rd edition, Log Record).
#[derive(Clone, Copy, Debug, PartialEq, Eq, PartialOrd, Ord, Hash)]
pub struct Lsn {
    pub cycle: u32,
    pub sector: u32,
}

impl Lsn {
    /// The one number by which places in the log are ordered.
    pub fn number(self) -> u64
        ensures { result ≡ lsn_number self }
    {
        u64::from(self.cycle) * (1 << 32) + u64::from(self.sector)
    }
}

/// What `h_prev_block` holds in the first record of a fresh log, where no sector has this number.
pub const NO_RECORD_BEFORE: u32 = u32::MAX;

/// The values in a record's header that don't follow from its body ("XFS Algorithms and Data Structures", 3rd edition,
/// Log Record).
#[derive(Clone, Copy, Debug, PartialEq, Eq)]
pub struct Head {
    /// Where this record begins: `h_lsn`.
    pub lsn: Lsn,
    /// The oldest record that is still needed: `h_tail_lsn`.
    pub tail: Lsn,
    /// The sector where the record before begins, or [`NO_RECORD_BEFORE`]: `h_prev_block`.
    pub prev: u32,
    /// How many operations the body holds: `h_num_logops`.
    pub ops: u32,
    /// The bytes of the body without its padding: `h_len`.
    pub len: u32,
    /// The identifier of the file system: `h_fs_uuid`.
    pub uuid: Uuid,
}

/// Which of two places in the log comes first. Their own order is that of their numbers.
pub fn lsn_order(a: Lsn, b: Lsn) -> Ordering
    ensures { result ≡ nat_cmp (lsn_number a) (lsn_number b) }
{
    a.cmp(&b)
}
