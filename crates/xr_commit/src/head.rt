//! The search for the head, the newest record in the log.
ghost use Rattle.std.specs.Prelude.{◌≡◌, ◌<◌, ◌↔◌, ℕ, List, Option, Some, MatchOption, length};
ghost use Rattle.xr_base.specs.declared.geometry.TheConstants.{LOG_SECTORS};
ghost use Rattle.xr_commit.specs.LogRecords.{HasNoRecord, IsHeaderAt, IsNewest, IsNewer};
ghost use Rattle.xr_record.specs.declared.head.Head.{Head};

use crate::layout::{LOG_BYTES, MOST_RECORD_BYTES};
use crate::opening::open_at;
use uuid::Uuid;
use xr_base::geometry::LOG_SECTORS;
use xr_record::Head;

/// The header of the record of this file system at a sector.
fn own_at(uuid: &Uuid, log: &[u8], sector: u32, scratch: &mut [u8]) -> Option<Head>
    requires log { length log.now ≡ LOG_BYTES }
    requires sector { sector < LOG_SECTORS }
    requires scratch { length scratch.old ≡ MOST_RECORD_BYTES }
    ensures { (head : Head) → (result ≡ Some head) ↔ IsHeaderAt uuid.now log.now sector head }
{
    match open_at(log, sector, scratch) {
        Ok(head) if head.uuid == *uuid => Some(head),
        _ => None,
    }
}

/// The newer of two records.
fn newer(best: Option<Head>, found: Option<Head>) -> Option<Head>
    ensures { IsNewer best found result }
{
    let Some(old) = best else {
        return found;
    };
    match found {
        Some(new) if old.lsn.number() < new.lsn.number() => Some(new),
        _ => Some(old),
    }
}

/// The header of the newest record of this file system in the log.
pub fn find_head(uuid: &Uuid, log: &[u8], scratch: &mut [u8]) -> Option<Head>
    requires log { length log.now ≡ LOG_BYTES }
    requires scratch { length scratch.old ≡ MOST_RECORD_BYTES }
    ensures { MatchOption result (HasNoRecord uuid.now log.now) (IsNewest uuid.now log.now) }
{
    let mut best = None;
    for sector in 0..LOG_SECTORS {
        best = newer(best, own_at(uuid, log, sector, scratch));
    }
    best
}
