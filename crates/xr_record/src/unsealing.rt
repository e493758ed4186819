//! Reading a sealed record back, or refusing it by its first broken rule.
ghost use Rattle.std.specs.Prelude.{◌≡◌, ◌+◌, ◌*◌, ◌≤◌, ◌<◌, ◌^◌, ◌%◌, ◌↔◌, ℕ, List, IsTrue, IfOk, IfErr, Ok, OnErr, length, take, drop};
ghost use Rattle.byteorder.specs.Endian.{big_bytes};
ghost use Rattle.xr_base.specs.declared.geometry.TheConstants.{SECTOR_BYTES};
ghost use Rattle.xr_record.specs.declared.head.Head.{Head};
ghost use Rattle.xr_base.specs.Fields.{AreBytes, be32_at};
ghost use Rattle.xr_record.specs.Record.{IsSealed, sectors_of};
ghost use Rattle.xr_record.specs.Unsealing.{HasChecksum, HasLength, HasMagic, HasStamps, HasVersion, HasZeros, IsHere, IsInPlace, IsPadded};
ghost use Rattle.xr_record.specs.Unsealing.{IsPlacedRecord, IsRefusal, Opens, checksum_in, head_in, opened_record};

use crate::bytes::is_zero;
use crate::head::{Head, Lsn};
use crate::layout::{
    CYCLE_PLACE, LEN_PLACE, OPS_PLACE, PREV_PLACE, VERSION_PLACE, WORDS_BYTES, WORDS_PLACE,
    ZEROS_PLACE,
};
use crate::sealing::sectors_of;
use crate::words::{restore, stamp};
use byteorder::{BigEndian, ByteOrder, LittleEndian};
use thiserror::Error;
use uuid::Uuid;
use xr_base::geometry::{CYCLES, LOG_SECTORS, SECTOR_BYTES, UUID_BYTES};
use xr_base::layout::{
    MAX_BODY_BYTES, RECORD_CRC_PLACE, RECORD_FORMAT, RECORD_FORMAT_PLACE, RECORD_LSN_PLACE,
    RECORD_MAGIC, RECORD_SIZE_PLACE, RECORD_TAIL_PLACE, RECORD_UUID_PLACE, RECORD_VERSION,
};
use xr_base::{be32_at, crc32c_without};

/// Why the bytes at a sector aren't a sealed record of that sector: the first rule, in this order, that is broken.
#[derive(Clone, Copy, Debug, PartialEq, Eq, Error)]
pub enum SealFault {
    /// They don't begin as a record does.
    #[error("no record begins at sector {sector}")]
    Magic { sector: u32 },
    /// The record is of another version, format or size.
    #[error("the record at sector {sector} is of another kind")]
    Version { sector: u32 },
    /// The body is empty or too long, or the bytes end before it does.
    #[error("the record at sector {sector} has a bad length")]
    Length { sector: u32 },
    /// The checksum is another.
    #[error("the record at sector {sector} has a bad checksum")]
    Checksum { sector: u32 },
    /// The record names another sector, no sector of the log or a bad cycle, a sector of the body doesn't begin with the
    /// cycle, the tail comes after the record, or a byte that has to be zero isn't.
    #[error("the record at sector {sector} isn't of that place")]
    Place { sector: u32 },
}

fn lsn_in(bytes: &[u8], place: usize) -> Lsn
    requires { place + 8 ≤ length bytes.now }
    ensures cycle { result.cycle ≡ be32_at bytes.now place }
    ensures sector { result.sector ≡ be32_at bytes.now (place + 4) }
{
    Lsn {
        cycle: be32_at(bytes, place),
        sector: be32_at(bytes, place + 4),
    }
}

fn uuid_in(bytes: &[u8], place: usize) -> Uuid
    requires { place + UUID_BYTES ≤ length bytes.now }
    ensures { result ≡ take UUID_BYTES (drop place bytes.now) }
{
    let mut uuid = [0; UUID_BYTES];
    uuid.copy_from_slice(&bytes[place..place + UUID_BYTES]);
    Uuid::from_bytes(uuid)
}

/// The values that a header holds.
fn head_in(bytes: &[u8]) -> Head
    requires { SECTOR_BYTES ≤ length bytes.now }
    ensures values { result ≡ head_in bytes.now }
    ensures small { AreBytes bytes.now }
{
    Head {
        lsn: lsn_in(bytes, RECORD_LSN_PLACE),
        tail: lsn_in(bytes, RECORD_TAIL_PLACE),
        prev: be32_at(bytes, PREV_PLACE),
        ops: be32_at(bytes, OPS_PLACE),
        len: be32_at(bytes, LEN_PLACE),
        uuid: uuid_in(bytes, RECORD_UUID_PLACE),
    }
}

fn has_version(bytes: &[u8]) -> bool
    requires { SECTOR_BYTES ≤ length bytes.now }
    ensures { IsTrue result ↔ HasVersion bytes.now }
{
    be32_at(bytes, VERSION_PLACE) == RECORD_VERSION
        && be32_at(bytes, RECORD_FORMAT_PLACE) == RECORD_FORMAT
        && be32_at(bytes, RECORD_SIZE_PLACE) == MAX_BODY_BYTES as u32
}

fn has_length(bytes: &[u8]) -> bool
    requires { SECTOR_BYTES ≤ length bytes.now }
    ensures { IsTrue result ↔ HasLength bytes.now }
{
    let len = be32_at(bytes, LEN_PLACE);
    len > 0
        && len <= MAX_BODY_BYTES as u32
        && SECTOR_BYTES + SECTOR_BYTES * sectors_of(len) <= bytes.len()
}

fn has_checksum(bytes: &[u8]) -> bool
    requires room { SECTOR_BYTES ≤ length bytes.now }
    requires length { HasLength bytes.now }
    ensures checksum { IsTrue result ↔ HasChecksum bytes.now }
    ensures fits { checksum_in bytes.now < 2 ^ 32 }
{
    let total = SECTOR_BYTES + SECTOR_BYTES * sectors_of(be32_at(bytes, LEN_PLACE));
    LittleEndian::read_u32(&bytes[RECORD_CRC_PLACE..])
        == crc32c_without(&bytes[..total], RECORD_CRC_PLACE)
}

fn has_stamp(body: &[u8], i: usize, cycle: u32) -> bool
    requires { SECTOR_BYTES * i + SECTOR_BYTES ≤ length body.now }
    ensures { IsTrue result ↔ (take 4 (drop (SECTOR_BYTES * i) body.now) ≡ big_bytes 4 cycle) }
{
    be32_at(body, SECTOR_BYTES * i) == cycle
}

/// Whether each of the first sectors begins with the cycle.
fn has_stamps(body: &[u8], sectors: usize, cycle: u32) -> bool
    requires { SECTOR_BYTES * sectors ≤ length body.now }
    ensures { IsTrue result ↔ HasStamps cycle sectors body.now }
{
    for i in 0..sectors {
        if !has_stamp(body, i, cycle) {
            return false;
        }
    }
    true
}

/// Whether the header says that the record is that of the sector.
fn is_here(bytes: &[u8], sector: u32) -> bool
    requires { SECTOR_BYTES ≤ length bytes.now }
    ensures { IsTrue result ↔ IsHere sector bytes.now }
{
    let head = head_in(bytes);
    head.lsn.sector == sector
        && sector < LOG_SECTORS
        && be32_at(bytes, CYCLE_PLACE) == head.lsn.cycle
        && head.lsn.cycle > 0
        && head.lsn.cycle < CYCLES
        && head.tail.number() <= head.lsn.number()
}

/// Whether the header is zero where it holds nothing.
fn has_zeros(bytes: &[u8], sectors: usize) -> bool
    requires room { SECTOR_BYTES ≤ length bytes.now }
    requires words { 4 * sectors ≤ WORDS_BYTES }
    ensures { IsTrue result ↔ HasZeros sectors bytes.now }
{
    is_zero(&bytes[WORDS_PLACE + 4 * sectors..RECORD_FORMAT_PLACE])
        && is_zero(&bytes[ZEROS_PLACE..SECTOR_BYTES])
}

/// Whether the record is that of the sector, but for what follows its body.
fn is_placed(bytes: &[u8], sector: u32) -> bool
    requires room { SECTOR_BYTES ≤ length bytes.now }
    requires length { HasLength bytes.now }
    ensures { IsTrue result ↔ IsPlacedRecord sector bytes.now }
{
    let sectors = sectors_of(be32_at(bytes, LEN_PLACE));
    let cycle = be32_at(bytes, RECORD_LSN_PLACE);
    if !is_here(bytes, sector) {
        return false;
    }
    if !has_stamps(&bytes[SECTOR_BYTES..], sectors, cycle) {
        return false;
    }
    has_zeros(bytes, sectors)
}

/// Puts the first words of the body's sectors back, and says whether zeros follow the body. Where they don't the bytes are
/// as they were.
fn open(bytes: &mut [u8], len: u32, cycle: u32) -> bool
    requires room { SECTOR_BYTES + SECTOR_BYTES * sectors_of len ≤ length bytes.old }
    requires len { len ≤ MAX_BODY_BYTES }
    requires stamps { HasStamps cycle (sectors_of len) (drop SECTOR_BYTES bytes.old) }
    ensures padded { IsTrue result ↔ IsPadded len bytes.old }
    ensures opened { IsTrue result → bytes.new ≡ opened_record len bytes.old }
    ensures unchanged { (IsTrue result → ⊥) → bytes.new ≡ bytes.old }
{
    let sectors = sectors_of(len);
    let (header, body) = bytes.split_at_mut(SECTOR_BYTES);
    restore(&header[WORDS_PLACE..RECORD_FORMAT_PLACE], body, sectors);
    if is_zero(&body[len as usize..SECTOR_BYTES * sectors]) {
        return true;
    }
    stamp(&mut [0; WORDS_BYTES], body, sectors, cycle);
    false
}

/// The header of the sealed record that the bytes begin with, where that is one of this sector. The first word of each
/// sector of its body is then put back in its place ("XFS Algorithms and Data Structures", 3rd edition, Log Record).
pub fn unseal(bytes: &mut [u8], sector: u32) -> Result<Head, SealFault>
    requires whole { length bytes.old % SECTOR_BYTES ≡ 0 }
    requires some { SECTOR_BYTES ≤ length bytes.old }
    requires most { length bytes.old ≤ SECTOR_BYTES + MAX_BODY_BYTES }
    ensures opened { IfOk result (Opens sector bytes.old bytes.new) }
    ensures every { (head : Head) (body : List ℕ) → IsSealed bytes.old head body → head.lsn.sector ≡ sector → result ≡ Ok head }
    ensures refused { IfErr result (IsRefusal sector bytes.old) }
    ensures unchanged { OnErr result (bytes.new ≡ bytes.old) }
{
    if be32_at(bytes, 0) != RECORD_MAGIC {
        return Err(SealFault::Magic { sector });
    }
    if !has_version(bytes) {
        return Err(SealFault::Version { sector });
    }
    if !has_length(bytes) {
        return Err(SealFault::Length { sector });
    }
    if !has_checksum(bytes) {
        return Err(SealFault::Checksum { sector });
    }
    if !is_placed(bytes, sector) {
        return Err(SealFault::Place { sector });
    }
    let head = head_in(bytes);
    if !open(bytes, head.len, head.lsn.cycle) {
        return Err(SealFault::Place { sector });
    }
    Ok(head)
}
