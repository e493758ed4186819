//! Following the log back from the head to its tail.
ghost use Rattle.std.specs.Prelude.{◌≡◌, ◌<◌, ◌≤◌, ℕ, List, IfOk, IfErr, length};
ghost use Rattle.xr_commit.specs.ChainHeaders.{HasChain, HasNoChain, IsHeaderBefore};
ghost use Rattle.xr_commit.specs.LogRecords.{IsNewest};
ghost use Rattle.xr_commit.specs.Refusals.{LeadsNowhere, OrNoMemory};

use crate::fault::{ScanFault, log_block_of};
use crate::layout::{LOG_BYTES, MOST_RECORD_BYTES};
use crate::opening::open_at;
use std::alloc::Global;
use uuid::Uuid;
use xr_base::geometry::LOG_SECTORS;
use xr_record::Head;

/// The header of the record that the last one names as the one before it, where it isn't the tail.
fn step_back(
    uuid: &Uuid,
    log: &[u8],
    head: &Head,
    last: &Head,
    scratch: &mut [u8],
) -> Result<Head, ScanFault>
    requires log { length log.now ≡ LOG_BYTES }
    requires scratch { length scratch.old ≡ MOST_RECORD_BYTES }
    ensures before { IfOk result (IsHeaderBefore uuid.now log.now head.now.tail last.now) }
    ensures nowhere { IfErr result (LeadsNowhere uuid.now log.now head.now last.now) }
{
    if last.prev >= LOG_SECTORS {
        return Err(ScanFault::Place {
            block: log_block_of(last.lsn.sector),
        });
    }
    let found = open_at(log, last.prev, scratch)?;
    let lsn = found.lsn.number();
    if found.uuid != *uuid || lsn >= last.lsn.number() || lsn < head.tail.number() {
        return Err(ScanFault::Place {
            block: log_block_of(last.prev),
        });
    }
    Ok(found)
}

/// The headers from the head's tail to the head, in log order.
pub fn follow(
    alloc: Global,
    uuid: &Uuid,
    log: &[u8],
    head: &Head,
    scratch: &mut [u8],
) -> Result<Vec<Head>, ScanFault>
    requires log { length log.now ≡ LOG_BYTES }
    requires scratch { length scratch.old ≡ MOST_RECORD_BYTES }
    requires head { IsNewest uuid.now log.now head.now }
    ensures chain { IfOk result (λ heads. HasChain uuid.now log.now head.now heads.items) }
    ensures broken { IfErr result (OrNoMemory (HasNoChain uuid.now log.now head.now)) }
{
    let mut heads = vec![in alloc; *head]?;
    let mut last = *head;
    while last.lsn != head.tail {
        last = step_back(uuid, log, head, &last, scratch)?;
        heads.push(last)?;
    }
    heads.reverse();
    Ok(heads)
}
