//! Why a clean image can't be had.
ghost use Rattle.std.specs.Prelude.{◌≡◌};
ghost use Rattle.xr_check.specs.LoadRefusals.{told_of_open, told_of_scan};
ghost use Rattle.xr_check.specs.declared.fault.CheckFault.TheVariants.{Foreign, NoMemory};

use std::alloc::{AllocError, AllocFailed};
use thiserror::Error;
use xr_commit::ScanFault;
use xr_open::OpenFault;
use xr_record::Lsn;

/// Which rule of the format a block of an image breaks.
#[derive(Clone, Copy, Debug, PartialEq, Eq)]
pub enum Broken {
    /// No record begins there. In the log's first block: no record of this file system stands in the log.
    Magic,
    /// The record is of another version, format or size.
    Version,
    /// The record has a bad length, or too little room after it.
    Length,
    /// The record has a bad checksum.
    Checksum,
    /// The record isn't of that place.
    Place,
    /// An operation in the record is bad.
    Operation,
    /// An item in the record has no known type.
    ItemType,
    /// An item in the record has a wrong size.
    Size,
    /// An item in the record is wrong.
    Field,
    /// More works are pending than a log has slots for.
    Debt,
    /// A superblock, a core or a group's header is wrong.
    Header,
    /// The block is no block of its tree.
    Tree,
}

/// Why an image can't be loaded.
#[derive(Clone, Copy, Debug, PartialEq, Eq, Error)]
pub enum CheckFault {
    /// The newest record of the log, which begins there, isn't an unmount.
    #[error("the image was not unmounted: its newest record is {}:{}", lsn.cycle, lsn.sector)]
    Dirty { lsn: Lsn },
    /// A block of the image breaks a rule of the format.
    #[error("block {block} is not of this format: {rule:?}")]
    Foreign { block: u32, rule: Broken },
    /// The disk failed, and has counted so many faults.
    #[error("the disk failed, by now {faults} times")]
    DiskFault { faults: u64 },
    /// Want of memory.
    #[error("out of memory")]
    NoMemory,
}

const fn foreign(block: u32, rule: Broken) -> CheckFault
    ensures { result ≡ Foreign block rule }
{
    CheckFault::Foreign { block, rule }
}

impl From<ScanFault> for CheckFault {
    ghost from_gives = { λ fault made. made ≡ told_of_scan fault };

    fn from(fault: ScanFault) -> CheckFault {
        match fault {
            ScanFault::Magic { block } => foreign(block, Broken::Magic),
            ScanFault::Version { block } => foreign(block, Broken::Version),
            ScanFault::Length { block } => foreign(block, Broken::Length),
            ScanFault::Checksum { block } => foreign(block, Broken::Checksum),
            ScanFault::Place { block } => foreign(block, Broken::Place),
            ScanFault::Operation { block } => foreign(block, Broken::Operation),
            ScanFault::ItemType { block } => foreign(block, Broken::ItemType),
            ScanFault::Size { block } => foreign(block, Broken::Size),
            ScanFault::Field { block } => foreign(block, Broken::Field),
            ScanFault::Debt { block } => foreign(block, Broken::Debt),
            ScanFault::Header { block } => foreign(block, Broken::Header),
            ScanFault::DiskFault { faults } => CheckFault::DiskFault { faults },
            ScanFault::NoMemory => CheckFault::NoMemory,
        }
    }
}

impl From<OpenFault> for CheckFault {
    ghost from_gives = { λ fault made. made ≡ told_of_open fault };

    fn from(fault: OpenFault) -> CheckFault {
        match fault {
            OpenFault::Header(header) => foreign(header.block, Broken::Header),
            OpenFault::Tree(tree) => foreign(tree.block, Broken::Tree),
            OpenFault::NoMemory => CheckFault::NoMemory,
        }
    }
}

impl From<AllocError> for CheckFault {
    ghost from_gives = { λ _ fault. fault ≡ NoMemory };

    fn from(_error: AllocError) -> CheckFault {
        CheckFault::NoMemory
    }
}

impl<T: Drop> From<AllocFailed<T>> for CheckFault {
    ghost from_gives = { λ _ fault. fault ≡ NoMemory };

    fn from(_error: AllocFailed<T>) -> CheckFault {
        CheckFault::NoMemory
    }
}
