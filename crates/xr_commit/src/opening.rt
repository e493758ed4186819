//! Opening a record at a sector of the log, whose bytes stay as they are.
ghost use Rattle.std.specs.Prelude.{◌≡◌, ◌+◌, ◌≤◌, ◌<◌, ℕ, IfOk, IfErr, Ok, length};
ghost use Rattle.xr_base.specs.Image.{part};
ghost use Rattle.xr_base.specs.declared.geometry.TheConstants.{LOG_SECTORS, SECTOR_BYTES};
ghost use Rattle.xr_commit.specs.LogRecords.{LogRecord, StandsAt, bytes_at};
ghost use Rattle.xr_record.specs.Unsealing.{IsRefusal};
ghost use Rattle.xr_base.specs.Fields.{be32_at};

use crate::layout::{LOG_BYTES, MOST_RECORD_BYTES};
use byteorder::{BigEndian, ByteOrder};
use xr_base::be32_at;
use xr_base::geometry::SECTOR_BYTES;
use xr_base::layout::RECORD_MAGIC;
use xr_record::{Head, SealFault, unseal};

/// The header of the record that stands at a sector of the log. Its body is then in `scratch`, after one sector. Only where
/// a record's magic stands are the bytes copied there.
pub fn open_at(log: &[u8], sector: u32, scratch: &mut [u8]) -> Result<Head, SealFault>
    requires log { length log.now ≡ LOG_BYTES }
    requires sector { sector < LOG_SECTORS }
    requires scratch { length scratch.old ≡ MOST_RECORD_BYTES }
    ensures stands { IfOk result (λ head. StandsAt log.now sector (record { head = head; body = part SECTOR_BYTES head.len scratch.new })) }
    ensures every { (r : LogRecord) → StandsAt log.now sector r → result ≡ Ok r.head }
    ensures refused { IfErr result (IsRefusal sector (bytes_at log.now sector)) }
{
    let from = SECTOR_BYTES * sector as usize;
    if be32_at(log, from) != RECORD_MAGIC {
        return Err(SealFault::Magic { sector });
    }
    let n = MOST_RECORD_BYTES.min(LOG_BYTES - from);
    let record = &mut scratch[..n];
    record.copy_from_slice(&log[from..from + n]);
    unseal(record, sector)
}
