//! The live stream of a log: its records from the head's tail to the head, and their entries.
ghost use Rattle.std.specs.Prelude.{◌≡◌, IfOk, IfErr, length};
ghost use Rattle.xr_commit.specs.LiveStream.{EndsOpen, IsLiveIn};
ghost use Rattle.xr_commit.specs.Refusals.{OrNoMemory, RefusesLog};

use crate::bodies::{Bodies, check_unmounts, read_entries};
use crate::chain::follow;
use crate::check_items::check_items;
use crate::fault::{ScanFault, log_block_of};
use crate::head::find_head;
use crate::layout::{LOG_BYTES, MOST_RECORD_BYTES};
use crate::reserve::has_reserve;
use std::alloc::Global;
use uuid::Uuid;
use xr_base::geometry::FIRST_LOG_BLOCK;
use xr_record::{Entry, Head};

/// The live stream of an image ("XFS Algorithms and Data Structures", 3rd edition, Journaling Log).
#[derive(Debug, Drop)]
pub struct Live {
    /// The image's identifier.
    pub uuid: Uuid,
    /// The headers of the records from the head's tail to the head, in log order.
    pub heads: Vec<Head>,
    /// What their bodies say, in log order. A transaction that isn't ended is none.
    pub entries: Vec<Entry>,
    /// Whether they end within such a transaction.
    pub ends_open: bool,
}

/// The live stream of a log of an image with this identifier.
pub fn live_in(alloc: Global, uuid: Uuid, log: &[u8]) -> Result<Live, ScanFault>
    requires { length log.now ≡ LOG_BYTES }
    ensures uuid { IfOk result (λ live. live.uuid ≡ uuid) }
    ensures live { IfOk result (λ live. IsLiveIn uuid log.now live.heads.items live.entries.items) }
    ensures ends { IfOk result (λ live. EndsOpen uuid log.now live) }
    ensures refused { IfErr result (OrNoMemory (RefusesLog uuid log.now)) }
{
    let mut scratch = vec![in alloc; 0; MOST_RECORD_BYTES]?;
    let Some(head) = find_head(&uuid, log, &mut scratch) else {
        return Err(ScanFault::Magic {
            block: FIRST_LOG_BLOCK,
        });
    };
    let heads = follow(alloc, &uuid, log, &head, &mut scratch)?;
    if !has_reserve(&head, &heads) {
        return Err(ScanFault::Length {
            block: log_block_of(head.lsn.sector),
        });
    }
    check_unmounts(log, &heads, &mut scratch)?;
    let Bodies { entries, ends_open } = read_entries(alloc, log, &heads, &mut scratch)?;
    check_items(&uuid, log, &heads, &entries, &mut scratch)?;
    Ok(Live {
        uuid,
        heads,
        entries,
        ends_open,
    })
}
