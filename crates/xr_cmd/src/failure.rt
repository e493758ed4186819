//! Why a command has nothing to print but a line that says so.
ghost use Rattle.std.specs.Prelude.{◌≡◌};
ghost use Rattle.xr_check.specs.LoadRefusals.{told_of_scan};
ghost use Rattle.xr_cmd.specs.declared.failure.Failure.TheVariants.{DiskFailed, NoMemory};
ghost use Rattle.xr_cmd.specs.Failures.{failure_of_check, failure_of_read, failure_of_script};

use crate::script::ScriptFault;
use crate::streams::ReadFault;
use std::alloc::AllocError;
use xr_base::{Addr, Fault, GroupNo};
use xr_check::{Broken, CheckFault, TreeName};
use xr_commit::ScanFault;
use xr_record::Lsn;

/// Why there is no other text.
#[derive(Clone, Copy, Debug, PartialEq, Eq)]
pub enum Failure {
    /// The script's first bad line has this number.
    BadLine(u32),
    /// The source failed.
    SourceFailed,
    /// The disk failed.
    DiskFailed,
    /// This is the first tree of the first group whose records aren't those that are defined from what the files map, and the
    /// start of the lesser record at the first place where the two lists differ.
    Differs {
        tree: TreeName,
        group: GroupNo,
        key: Addr,
    },
    /// The newest record of the log, which begins there, isn't an unmount.
    Dirty {
        lsn: Lsn,
    },
    /// A block of the image breaks a rule of the format.
    Foreign {
        block: u32,
        rule: Broken,
    },
    /// Want of memory.
    NoMemory,
}

impl From<ReadFault> for Failure {
    ghost from_gives = { λ fault failure. failure ≡ failure_of_read fault };

    fn from(fault: ReadFault) -> Failure {
        match fault {
            ReadFault::Source => Failure::SourceFailed,
            ReadFault::NoMemory => Failure::NoMemory,
        }
    }
}

impl From<ScriptFault> for Failure {
    ghost from_gives = { λ fault failure. failure ≡ failure_of_script fault };

    fn from(fault: ScriptFault) -> Failure {
        match fault {
            ScriptFault::Line { number } => Failure::BadLine(number),
            ScriptFault::NoMemory => Failure::NoMemory,
        }
    }
}

impl From<CheckFault> for Failure {
    ghost from_gives = { λ fault failure. failure ≡ failure_of_check fault };

    fn from(fault: CheckFault) -> Failure {
        match fault {
            CheckFault::Dirty { lsn } => Failure::Dirty { lsn },
            CheckFault::Foreign { block, rule } => Failure::Foreign { block, rule },
            CheckFault::DiskFault { .. } => Failure::DiskFailed,
            CheckFault::NoMemory => Failure::NoMemory,
        }
    }
}

impl From<ScanFault> for Failure {
    ghost from_gives = { λ fault failure. failure ≡ failure_of_check (told_of_scan fault) };

    fn from(fault: ScanFault) -> Failure {
        Failure::from(CheckFault::from(fault))
    }
}

impl From<Fault> for Failure {
    ghost from_gives = { λ _ failure. failure ≡ DiskFailed };

    fn from(_fault: Fault) -> Failure {
        Failure::DiskFailed
    }
}

impl From<AllocError> for Failure {
    ghost from_gives = { λ _ failure. failure ≡ NoMemory };

    fn from(_error: AllocError) -> Failure {
        Failure::NoMemory
    }
}
