//! How a log ends: whether its newest record marks that the image was unmounted.
ghost use Rattle.std.specs.Prelude.{◌≡◌, ◌↔◌, IsTrue, IfOk, length};
ghost use Rattle.xr_commit.specs.LogEnds.{EndsWith};
ghost use Rattle.xr_record.specs.Operations.{operation_bytes};
ghost use Rattle.xr_record.specs.Stream.{unmount};

use crate::bodies::body_at;
use crate::head::find_head;
use crate::layout::{LOG_BYTES, MOST_RECORD_BYTES};
use std::alloc::{AllocError, Global};
use uuid::Uuid;
use xr_record::Lsn;

/// How a log ends ("XFS Algorithms and Data Structures", 3rd edition, Journaling Log).
#[derive(Clone, Copy, Debug, PartialEq, Eq)]
pub enum LogEnd {
    /// No record of this file system stands in the log.
    Empty,
    /// The newest record is an unmount and nothing else: whatever was logged is home.
    Unmounted,
    /// The newest record, which begins there, is something else.
    InUse { lsn: Lsn },
}

/// The body of an unmount: one operation.
const UNMOUNT_BODY: [u8; 20] = [
    0, 0, 0, 0, 0, 0, 0, 8, 0xAA, 0x20, 0, 0, 0x6E, 0x55, 0, 0, 0, 0, 0, 0,
];

/// Whether a body is one unmount operation.
fn is_unmount(body: &[u8]) -> bool
    ensures { IsTrue result ↔ (body.now ≡ operation_bytes unmount) }
{
    body == UNMOUNT_BODY.as_slice()
}

/// How the log of the file system with this identifier ends. The chain back to its tail isn't looked at.
pub fn log_end(alloc: Global, uuid: &Uuid, log: &[u8]) -> Result<LogEnd, AllocError>
    requires { length log.now ≡ LOG_BYTES }
    ensures { IfOk result (EndsWith uuid.now log.now) }
{
    let mut scratch = vec![in alloc; 0; MOST_RECORD_BYTES]?;
    let Some(head) = find_head(uuid, log, &mut scratch) else {
        return Ok(LogEnd::Empty);
    };
    if is_unmount(body_at(log, &head, &mut scratch)) {
        Ok(LogEnd::Unmounted)
    } else {
        Ok(LogEnd::InUse { lsn: head.lsn })
    }
}
