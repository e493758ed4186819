//! The reserve: the sectors of the log after its newest record, in which no live record lies.
ghost use Rattle.std.specs.Prelude.{◌≡◌, ◌≤◌, ◌↔◌, List, All, IsTrue};
ghost use Rattle.xr_base.specs.declared.geometry.TheConstants.{LOG_SECTORS};
ghost use Rattle.xr_commit.specs.Chain.{IsClear, HasReserve};
ghost use Rattle.xr_commit.specs.LogRecords.{record_end};
ghost use Rattle.xr_record.specs.declared.head.Head.{Head};

use crate::layout::RELOG_SECTORS;
use xr_base::geometry::{LOG_SECTORS, SECTOR_BYTES};
use xr_record::Head;

/// The sector after a record's last one.
fn record_end(head: &Head) -> u32
    requires { record_end head.now ≤ LOG_SECTORS }
    ensures { result ≡ record_end head.now }
{
    head.lsn.sector + 1 + head.len.div_ceil(SECTOR_BYTES as u32)
}

/// Whether the reserve after the newest record meets no sector of this one: neither begins in the other.
fn is_clear(newest: &Head, head: &Head) -> bool
    requires newest { record_end newest.now ≤ LOG_SECTORS }
    requires head { record_end head.now ≤ LOG_SECTORS }
    ensures { IsTrue result ↔ IsClear newest.now head.now }
{
    let reserve = record_end(newest) % LOG_SECTORS;
    let first = head.lsn.sector;
    let sectors = record_end(head) - first;
    (first + LOG_SECTORS - reserve) % LOG_SECTORS >= RELOG_SECTORS
        && (reserve + LOG_SECTORS - first) % LOG_SECTORS >= sectors
}

/// Whether no live record lies in the reserve after the newest.
pub fn has_reserve(newest: &Head, heads: &[Head]) -> bool
    requires newest { record_end newest.now ≤ LOG_SECTORS }
    requires heads { All (λ (head : Head). record_end head ≤ LOG_SECTORS) heads.now }
    ensures { IsTrue result ↔ HasReserve newest.now heads.now }
{
    for head in heads {
        if !is_clear(newest, head) {
            return false;
        }
    }
    true
}
