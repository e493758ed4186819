//! Why a call of a log is refused.

use thiserror::Error;

/// Why a call of a log is refused.
#[derive(Clone, Copy, Debug, PartialEq, Eq, Error)]
pub enum LogFault {
    /// The disk failed in this call, and has counted so many faults. The log is down from then on.
    #[error("the disk failed, by now {faults} times")]
    DiskFault { faults: u64 },
    /// A record of this call would need this cycle, which none may have, or an item an id that none may have. Nothing has
    /// changed.
    #[error("the log would need cycle {cycle}")]
    Worn { cycle: u32 },
    /// The log is down since the disk had failed so often.
    #[error("the log is down since the disk failed, by then {faults} times")]
    Down { faults: u64 },
}
