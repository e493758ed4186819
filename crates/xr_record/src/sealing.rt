//! Sealing a record: its header, the stamps in its body, and the checksum over both.
ghost use Rattle.std.specs.Prelude.{◌≡◌, ◌+◌, ◌*◌, length, drop};
ghost use Rattle.xr_base.specs.Image.{part};
ghost use Rattle.xr_base.specs.declared.geometry.TheConstants.{SECTOR_BYTES};
ghost use Rattle.xr_record.specs.Record.{IsGoodHead, sectors_of, sectors_with, record_sectors, padded_body};

use crate::bytes::put;
use crate::head::Head;
use crate::header::put_header;
use crate::layout::WORDS_BYTES;
use crate::words::stamp;
use byteorder::{ByteOrder, LittleEndian};
use xr_base::crc32c;
use xr_base::geometry::SECTOR_BYTES;
use xr_base::layout::RECORD_CRC_PLACE;

/// The sectors that a body of so many bytes takes.
pub fn sectors_of(len: u32) -> usize
    ensures { result ≡ sectors_of len }
{
    (len as usize).div_ceil(SECTOR_BYTES)
}

/// Writes a record but for its checksum.
fn write_sectors(head: &Head, out: &mut [u8])
    requires good { IsGoodHead head.now }
    requires room { length out.old ≡ SECTOR_BYTES + SECTOR_BYTES * sectors_of head.now.len }
    requires padding { drop SECTOR_BYTES out.old ≡ padded_body (part SECTOR_BYTES head.now.len out.old) }
    ensures { out.new ≡ sectors_with 0 head.now (part SECTOR_BYTES head.now.len out.old) }
{
    let (header, body) = out.split_at_mut(SECTOR_BYTES);
    let mut words = [0; WORDS_BYTES];
    stamp(&mut words, body, sectors_of(head.len), head.lsn.cycle);
    put_header(header, head, &words);
}

/// Seals a record in place ("XFS Algorithms and Data Structures", 3rd edition, Log Record). `out` has one sector of any
/// bytes, where the header goes, and then the body with zeros up to the end of its last sector.
pub fn seal(head: &Head, out: &mut [u8])
    requires good { IsGoodHead head.now }
    requires room { length out.old ≡ SECTOR_BYTES + SECTOR_BYTES * sectors_of head.now.len }
    requires padding { drop SECTOR_BYTES out.old ≡ padded_body (part SECTOR_BYTES head.now.len out.old) }
    ensures { out.new ≡ record_sectors head.now (part SECTOR_BYTES head.now.len out.old) }
{
    write_sectors(head, out);
    let mut checksum = [0; 4];
    LittleEndian::write_u32(&mut checksum, crc32c(out));
    put(out, RECORD_CRC_PLACE, &checksum);
}
