//! Why the live stream of an image can't be had.
ghost use Rattle.std.specs.Prelude.{◌≡◌};
ghost use Rattle.xr_commit.specs.declared.fault.ScanFault.TheVariants.{NoMemory};
ghost use Rattle.xr_commit.specs.LogRecords.{log_block_of};
ghost use Rattle.xr_commit.specs.Refusals.{fault_of};

use std::alloc::{AllocError, AllocFailed};
use thiserror::Error;
use xr_base::geometry::{BLOCK_SECTORS, FIRST_LOG_BLOCK};
use xr_record::SealFault;

/// Why the live stream of an image can't be had, with the image block where the cause stands.
#[derive(Clone, Copy, Debug, PartialEq, Eq, Error)]
pub enum ScanFault {
    /// No record begins there. In the log's first block: no record of this file system stands in the log.
    #[error("no record begins in block {block}")]
    Magic { block: u32 },
    /// The record is of another version, format or size.
    #[error("the record in block {block} is of another kind")]
    Version { block: u32 },
    /// The record has a bad length. In the head's block: too few sectors after the head are free.
    #[error("the record in block {block} has a bad length or too little room after it")]
    Length { block: u32 },
    /// The record has a bad checksum.
    #[error("the record in block {block} has a bad checksum")]
    Checksum { block: u32 },
    /// The record isn't of that place or not of this chain, names no sector of the log, or marks an unmount beside other
    /// operations or with another tail.
    #[error("the record in block {block} isn't of that place")]
    Place { block: u32 },
    /// An operation in the record is bad, or the record doesn't hold as many whole operations as it says.
    #[error("an operation in block {block} is bad")]
    Operation { block: u32 },
    /// An item in the record has no known type.
    #[error("an item in block {block} has no known type")]
    ItemType { block: u32 },
    /// An item in the record, or the region that follows it, has a wrong length.
    #[error("an item in block {block} has a wrong size")]
    Size { block: u32 },
    /// An item in the record has a wrong field, is followed by the core of another file, or is an intent whose id isn't
    /// greater than that of each one before it.
    #[error("an item in block {block} is wrong")]
    Field { block: u32 },
    /// More intents are pending than a log has slots for. `live` doesn't count them.
    #[error("too much work is pending in the log at block {block}")]
    Debt { block: u32 },
    /// The superblock is bad.
    #[error("the header in block {block} is wrong")]
    Header { block: u32 },
    /// The disk failed, and has counted so many faults.
    #[error("the disk failed, by now {faults} times")]
    DiskFault { faults: u64 },
    /// Want of memory.
    #[error("out of memory")]
    NoMemory,
}

/// The image block that holds a sector of the log.
pub fn log_block_of(sector: u32) -> u32
    ensures { result ≡ log_block_of sector }
{
    FIRST_LOG_BLOCK + sector / BLOCK_SECTORS
}

impl From<SealFault> for ScanFault {
    ghost from_gives = { λ broken fault. fault ≡ fault_of broken };

    fn from(broken: SealFault) -> ScanFault {
        match broken {
            SealFault::Magic { sector } => ScanFault::Magic {
                block: log_block_of(sector),
            },
            SealFault::Version { sector } => ScanFault::Version {
                block: log_block_of(sector),
            },
            SealFault::Length { sector } => ScanFault::Length {
                block: log_block_of(sector),
            },
            SealFault::Checksum { sector } => ScanFault::Checksum {
                block: log_block_of(sector),
            },
            SealFault::Place { sector } => ScanFault::Place {
                block: log_block_of(sector),
            },
        }
    }
}

impl From<AllocError> for ScanFault {
    ghost from_gives = { λ _ fault. fault ≡ NoMemory };

    fn from(_error: AllocError) -> ScanFault {
        ScanFault::NoMemory
    }
}

impl<T: Drop> From<AllocFailed<T>> for ScanFault {
    ghost from_gives = { λ _ fault. fault ≡ NoMemory };

    fn from(_error: AllocFailed<T>) -> ScanFault {
        ScanFault::NoMemory
    }
}
