//! Fields written at their places, checksums, and the comparison of a header with what it has to be.
ghost use Rattle.std.specs.Prelude.{◌≡◌, ◌≢◌, ℕ, ◌+◌, ◌-◌, ◌*◌, ◌^◌, ◌<◌, ◌≤◌, ◌↔◌, ◌⊎◌, List, [], length, slice_index, IsTrue, IsNone, IfSome};
ghost use Rattle.byteorder.specs.Endian.{big_bytes};
ghost use Rattle.xr_base.specs.Checksum.{with_crc, sum_bytes};
ghost use Rattle.xr_base.specs.Image.{part, overlaid};
ghost use Rattle.xr_headers.specs.FirstWrong.{IsFirst, IsNamedPlace, IsWrong};
ghost use Rattle.xr_headers.specs.FreshImage.{first_sector_of};
ghost use Rattle.xr_headers.specs.Headers.{AreWords};
ghost use Rattle.xr_headers.specs.Padded.{numbers_in, words, zero_padded};

use byteorder::{BigEndian, ByteOrder, LittleEndian};
use thiserror::Error;
use uuid::Uuid;
use xr_base::crc32c_without;
use xr_base::geometry::{BLOCK_SECTORS, UUID_BYTES};

/// The image block of a header that isn't what it has to be, and the place there of its first wrong field. A byte that
/// has to be zero is a field of its own.
#[derive(Clone, Copy, Debug, PartialEq, Eq, Error)]
#[error("the header in block {block} is wrong at byte {field}")]
pub struct HeaderFault {
    pub block: u32,
    pub field: u32,
}

/// Makes all bytes zero.
pub(crate) fn clear(out: &mut [u8])
    ensures { out.new ≡ zero_padded (length out.old) [] }
{
    for byte in out.iter_mut() {
        *byte = 0;
    }
}

pub(crate) fn put_bytes(out: &mut [u8], at: usize, bytes: &[u8])
    requires { at + length bytes.now ≤ length out.old }
    ensures { out.new ≡ overlaid at bytes.now out.old }
{
    out[at..at + bytes.len()].copy_from_slice(bytes);
}

pub(crate) fn put_uuid(out: &mut [u8], at: usize, uuid: &Uuid)
    requires { at + 16 ≤ length out.old }
    ensures placed { out.new ≡ overlaid at uuid.now out.old }
    ensures whole { length uuid.now ≡ UUID_BYTES }
{
    put_bytes(out, at, uuid.as_bytes());
}

pub(crate) fn put_words(out: &mut [u8], at: usize, numbers: &[u32])
    requires { at + 4 * length numbers.now ≤ length out.old }
    ensures { out.new ≡ overlaid at (words numbers.now) out.old }
{
    BigEndian::write_u32_into(numbers, &mut out[at..at + 4 * numbers.len()]);
}

pub(crate) fn put_u16(out: &mut [u8], at: usize, number: u16)
    requires { at + 2 ≤ length out.old }
    ensures { out.new ≡ overlaid at (big_bytes 2 number) out.old }
{
    let mut bytes = [0; 2];
    BigEndian::write_u16(&mut bytes, number);
    put_bytes(out, at, &bytes);
}

pub(crate) fn put_u64(out: &mut [u8], at: usize, number: u64)
    requires { at + 8 ≤ length out.old }
    ensures { out.new ≡ overlaid at (big_bytes 8 number) out.old }
{
    let mut bytes = [0; 8];
    BigEndian::write_u64(&mut bytes, number);
    put_bytes(out, at, &bytes);
}

/// Writes the sector where an image block begins.
pub(crate) fn put_sector(out: &mut [u8], at: usize, block: u32)
    requires { at + 8 ≤ length out.old }
    ensures { out.new ≡ overlaid at (big_bytes 8 (first_sector_of block)) out.old }
{
    put_u64(out, at, u64::from(block) * u64::from(BLOCK_SECTORS));
}

/// Writes the log sequence number of the log's sector 0 in a cycle.
pub(crate) fn put_first_lsn(out: &mut [u8], at: usize, cycle: u32)
    requires { at + 8 ≤ length out.old }
    ensures { out.new ≡ overlaid at (big_bytes 8 (cycle * 2 ^ 32)) out.old }
{
    put_u64(out, at, u64::from(cycle) << 32);
}

/// The checksum of all bytes, as it is to stand at its place among them.
fn sum_bytes(bytes: &[u8], at: usize) -> [u8; 4]
    requires { at + 4 ≤ length bytes.now }
    ensures { result ≡ sum_bytes at bytes.now }
{
    let mut sum = [0; 4];
    LittleEndian::write_u32(&mut sum, crc32c_without(bytes, at));
    sum
}

/// Writes the checksum of all bytes.
pub(crate) fn seal(out: &mut [u8], at: usize)
    requires { at + 4 ≤ length out.old }
    ensures { out.new ≡ with_crc at out.old }
{
    let sum = sum_bytes(out, at);
    put_bytes(out, at, &sum);
}

pub(crate) fn uuid_at(bytes: &[u8], at: usize) -> Uuid
    requires { at + 16 ≤ length bytes.now }
    ensures { result ≡ part at 16 bytes.now }
{
    let mut raw = [0; 16];
    raw.copy_from_slice(&bytes[at..at + 16]);
    Uuid::from_bytes(raw)
}

/// Reads numbers of 32 bits.
pub(crate) fn read_words(bytes: &[u8], at: usize, numbers: &mut [u32])
    requires { at + 4 * length numbers.old ≤ length bytes.now }
    ensures held { numbers.new ≡ numbers_in (length numbers.old) (part at (4 * length numbers.old) bytes.now) }
    ensures words { AreWords numbers.new }
{
    BigEndian::read_u32_into(&bytes[at..at + 4 * numbers.len()], numbers);
}

/// Whether the checksum is that of all bytes.
fn is_sealed(bytes: &[u8], at: usize) -> bool
    requires { at + 4 ≤ length bytes.now }
    ensures { IsTrue result ↔ bytes.now ≡ with_crc at bytes.now }
{
    let sum = sum_bytes(bytes, at);
    bytes[at..at + 4] == sum[..]
}

/// The first place where the bytes aren't the wanted ones with zeros after them.
pub(crate) fn difference(bytes: &[u8], wanted: &[u8]) -> Option<usize>
    ensures none { IsNone result ↔ ((k : ℕ) → k < length bytes.now → slice_index bytes.now k ≡ slice_index wanted.now k) }
    ensures within { IfSome result (λ place. place < length bytes.now) }
    ensures differs { IfSome result (λ place. slice_index bytes.now place ≢ slice_index wanted.now place) }
    ensures first { IfSome result (λ place. (k : ℕ) → k < place → slice_index bytes.now k ≡ slice_index wanted.now k) }
{
    for (place, byte) in bytes.iter().enumerate() {
        let want = if place < wanted.len() {
            wanted[place]
        } else {
            0
        };
        if *byte != want {
            return Some(place);
        }
    }
    None
}

fn earlier(one: Option<usize>, two: Option<usize>) -> Option<usize>
    ensures none { IsNone result ↔ (IsNone one × IsNone two) }
    ensures first { IfSome result (λ place. IsFirst (λ k. (one ≡ Some k) ⊎ (two ≡ Some k)) place) }
{
    match (one, two) {
        (Some(one), Some(two)) => Some(one.min(two)),
        _ => one.or(two),
    }
}

/// The place that is named: one in the magic goes before a wrong checksum, which stands at `end`.
fn magic_first(place: Option<usize>, sealed: bool, end: usize) -> Option<usize>
    ensures right { IsNone result ↔ (IsNone place × IsTrue sealed) }
    ensures named { IfSome result (λ named. ((place ≡ Some named) × ((named < 4) ⊎ IsTrue sealed))
        ⊎ ((named ≡ end) × (IsTrue sealed → ⊥) × IfSome place (λ first. 4 ≤ first))) }
{
    match place {
        Some(first) if first < 4 => Some(first),
        _ if !sealed => Some(end),
        _ => place,
    }
}

/// The first wrong byte of a header that ends with its checksum and begins with its magic, or of a wrong field that the
/// caller found: the magic goes first, then the checksum, then the lowest place.
pub(crate) fn first_wrong(bytes: &[u8], wanted: &[u8], broken: Option<usize>) -> Option<usize>
    requires room { length wanted.now + 4 ≤ length bytes.now }
    requires broken_within { IfSome broken (λ place. place < length bytes.now) }
    ensures right { IsNone result ↔ (IsNone broken × (bytes.now ≡ with_crc (length bytes.now - 4) (zero_padded (length bytes.now) wanted.now))) }
    ensures within { IfSome result (λ place. place < length bytes.now) }
    ensures named { let end = length bytes.now - 4 in
        IfSome result (λ place. IsNamedPlace bytes.now end (IsWrong bytes.now end wanted.now (λ k. broken ≡ Some k)) place) }
{
    let end = bytes.len() - 4;
    let place = earlier(broken, difference(&bytes[..end], wanted));
    magic_first(place, is_sealed(bytes, end), end)
}
