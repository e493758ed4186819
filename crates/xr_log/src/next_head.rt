//! The header of the next record.
ghost use Rattle.std.specs.Prelude.{◌≡◌, ◌⊎◌, ◌↔◌, ◌+◌, ◌*◌, ◌≤◌, ◌<◌, ◌^◌, IsTrue, if◌then◌else◌, true};
ghost use Rattle.xr_base.specs.declared.geometry.TheConstants.{LOG_SECTORS, SECTOR_BYTES};
ghost use Rattle.xr_base.specs.declared.layout.TheConstants.{MAX_BODY_BYTES};
ghost use Rattle.xr_record.specs.Record.{sectors_of};
ghost use Rattle.xr_commit.specs.LogRecords.{record_end};
ghost use Rattle.xr_commit.specs.declared.layout.TheConstants.{MOST_RECORD_BYTES};
ghost use Rattle.xr_scan.specs.LoggedLaws.{IsPlacedHead};
ghost use Rattle.xr_log.specs.Calls.{NeedsLastCycle};
ghost use Rattle.xr_log.specs.Positions.{LeavesSectors, packed_sectors};
ghost use Rattle.xr_log.specs.Writing.{ComesNext, IsPlaceAfter};

use uuid::Uuid;
use xr_base::geometry::{CYCLES, LOG_SECTORS, SECTOR_BYTES};
use xr_record::{Head, Lsn, Packer};

/// The sectors of a record with a body of so many bytes.
pub(crate) fn record_sectors(len: u32) -> u32
    requires { len ≤ MAX_BODY_BYTES }
    ensures { result ≡ 1 + sectors_of len }
{
    1 + len.div_ceil(SECTOR_BYTES as u32)
}

/// Their bytes.
pub(crate) fn record_bytes(len: u32) -> usize
    requires { len ≤ MAX_BODY_BYTES }
    ensures bytes { result ≡ SECTOR_BYTES + SECTOR_BYTES * sectors_of len }
    ensures most { result ≤ MOST_RECORD_BYTES }
{
    SECTOR_BYTES * record_sectors(len) as usize
}

/// The sectors of the record that is packed, which isn't written where it is empty.
pub(crate) fn packed_sectors(packer: &Packer) -> u32
    ensures sectors { result ≡ packed_sectors packer.now }
    ensures few { result ≤ 65 }
{
    let len = packer.body().len() as u32;
    if len == 0 { 0 } else { record_sectors(len) }
}

/// The sector after a record's last one.
pub(crate) fn sector_after(head: &Head) -> u32
    requires { IsPlacedHead head.now }
    ensures end { result ≡ record_end head.now }
    ensures within { result ≤ LOG_SECTORS }
{
    head.lsn.sector + record_sectors(head.len)
}

/// Whether records of so many sectors after this one would need the cycle that none may have.
pub(crate) fn needs_last_cycle(last: &Head, sectors: u32) -> bool
    requires placed { IsPlacedHead last.now }
    requires few { sectors < 2 ^ 31 }
    ensures { IsTrue result ↔ NeedsLastCycle last.now sectors }
{
    last.lsn.cycle + 1 == CYCLES && sector_after(last) + sectors > LOG_SECTORS
}

/// Whether there is less than a whole round from the tail to so many sectors after this record.
pub(crate) fn leaves_sectors(last: &Head, sectors: u32) -> bool
    requires { IsPlacedHead last.now }
    ensures { IsTrue result ↔ LeavesSectors sectors last.now }
{
    let round = u64::from(LOG_SECTORS);
    let end = round * u64::from(last.lsn.cycle) + u64::from(sector_after(last));
    let tail = round * u64::from(last.tail.cycle) + u64::from(last.tail.sector);
    end + u64::from(sectors) <= tail + round
}

/// Where a record of so many sectors comes after this one.
fn next_place(last: &Head, sectors: u32) -> Lsn
    requires placed { IsPlacedHead last.now }
    requires few { sectors < 2 ^ 31 }
    ensures { IsPlaceAfter last.now sectors result }
{
    let end = sector_after(last);
    if end + sectors > LOG_SECTORS {
        Lsn {
            cycle: last.lsn.cycle + 1,
            sector: 0,
        }
    } else {
        Lsn {
            cycle: last.lsn.cycle,
            sector: end,
        }
    }
}

fn tail_of(anew: bool, own: Lsn, last: Lsn) -> Lsn
    ensures { result ≡ (if anew then own else last) }
{
    if anew { own } else { last }
}

/// The header of the next record, with so many operations and bytes in its body. It is its own tail where it begins `anew`.
pub(crate) fn next_head(last: &Head, anew: bool, uuid: &Uuid, ops: u32, len: u32) -> Head
    requires placed { IsPlacedHead last.now }
    requires len { len ≤ MAX_BODY_BYTES }
    ensures { ComesNext last.now anew uuid.now ops len result }
{
    let lsn = next_place(last, record_sectors(len));
    Head {
        lsn,
        tail: tail_of(anew, lsn, last.tail),
        prev: last.lsn.sector,
        ops,
        len,
        uuid: *uuid,
    }
}
