//! CRC32C, the checksum of log records, headers and tree blocks. It goes by table, eight bytes a step.
ghost use Rattle.std.specs.Prelude.{◌≡◌, ◌+◌, ◌*◌, ◌<◌, ◌≤◌, bit_xor, length, drop, take};
ghost use Rattle.xr_base.specs.Checksum.{after_bits, after_byte, after_bytes, checksum_of, without_four, le_number};

use crate::tables::TABLES;

/// How many bytes a step takes.
const WORD_BYTES: usize = 8;

/// What a byte leaves after `8 * (table + 1)` bits.
fn entry(table: usize, byte: u64) -> u32
    requires table { table < 8 }
    requires byte { byte < 256 }
    ensures { result ≡ after_bits (8 * (table + 1)) byte }
{
    TABLES[table][byte as usize]
}

/// The remainder after one more byte.
fn take_byte(remainder: u32, byte: u8) -> u32
    ensures { result ≡ after_byte remainder byte }
{
    let mixed = remainder ^ u32::from(byte);
    entry(0, u64::from(mixed % 256)) ^ (mixed / 256)
}

/// The remainder after the eight bytes of a word, the lowest first. Each byte has the bits of those above it still to go,
/// so the lowest takes the last table.
fn take_word(remainder: u32, word: u64) -> u32
    ensures { result ≡ after_bits 64 (bit_xor remainder word) }
{
    let mut left = word ^ u64::from(remainder);
    let mut after = 0;
    for table in 0..WORD_BYTES {
        after ^= entry(WORD_BYTES - 1 - table, left % 256);
        left /= 256;
    }
    after
}

/// Eight bytes as a number, the first as its lowest digit.
fn word_at(bytes: &[u8], at: usize) -> u64
    requires { at + 8 ≤ length bytes.now }
    ensures { result ≡ le_number (take 8 (drop at bytes.now)) }
{
    u64::from_le_bytes([
        bytes[at],
        bytes[at + 1],
        bytes[at + 2],
        bytes[at + 3],
        bytes[at + 4],
        bytes[at + 5],
        bytes[at + 6],
        bytes[at + 7],
    ])
}

fn remainder_by_bytes(start: u32, bytes: &[u8]) -> u32
    ensures { result ≡ after_bytes start bytes.now }
{
    let mut remainder = start;
    for byte in bytes {
        remainder = take_byte(remainder, *byte);
    }
    remainder
}

fn remainder_over(start: u32, bytes: &[u8]) -> u32
    ensures { result ≡ after_bytes start bytes.now }
{
    let mut remainder = start;
    let mut at = 0;
    while bytes.len() - at >= WORD_BYTES {
        remainder = take_word(remainder, word_at(bytes, at));
        at += WORD_BYTES;
    }
    remainder_by_bytes(remainder, &bytes[at..])
}

/// The CRC32C of the bytes.
pub fn crc32c(bytes: &[u8]) -> u32
    ensures { result ≡ checksum_of bytes.now }
{
    remainder_over(u32::MAX, bytes) ^ u32::MAX
}

/// The CRC32C of the bytes with the four from `at` on taken as zero.
pub fn crc32c_without(bytes: &[u8], at: usize) -> u32
    requires { at + 4 ≤ length bytes.now }
    ensures { result ≡ checksum_of (without_four at bytes.now) }
{
    let before = remainder_over(u32::MAX, &bytes[..at]);
    let within = remainder_over(before, &[0; 4]);
    remainder_over(within, &bytes[at + 4..]) ^ u32::MAX
}
