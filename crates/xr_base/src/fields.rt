//! Numbers read at their places among some bytes, the highest byte first (`be`) or the lowest (`le`).
ghost use Rattle.std.specs.Prelude.{◌≡◌, ◌+◌, ◌≤◌, length};
ghost use Rattle.xr_base.specs.Fields.{be16_at, be32_at, be64_at, le16_at, le32_at, le64_at};

use byteorder::{BigEndian, ByteOrder, LittleEndian};

/// The number in two bytes, the highest first.
pub fn be16_at(bytes: &[u8], place: usize) -> u16
    requires { place + 2 ≤ length bytes.now }
    ensures { result ≡ be16_at bytes.now place }
{
    BigEndian::read_u16(&bytes[place..])
}

/// The number in four bytes, the highest first.
pub fn be32_at(bytes: &[u8], place: usize) -> u32
    requires { place + 4 ≤ length bytes.now }
    ensures { result ≡ be32_at bytes.now place }
{
    BigEndian::read_u32(&bytes[place..])
}

/// The number in eight bytes, the highest first.
pub fn be64_at(bytes: &[u8], place: usize) -> u64
    requires { place + 8 ≤ length bytes.now }
    ensures { result ≡ be64_at bytes.now place }
{
    BigEndian::read_u64(&bytes[place..])
}

/// The number in two bytes, the lowest first.
#[tactic(auto, unfolding(crate::specs::Fields::le_at))]
pub fn le16_at(bytes: &[u8], place: usize) -> u16
    requires { place + 2 ≤ length bytes.now }
    ensures { result ≡ le16_at bytes.now place }
{
    LittleEndian::read_u16(&bytes[place..])
}

/// The number in four bytes, the lowest first.
#[tactic(auto, unfolding(crate::specs::Fields::le_at))]
pub fn le32_at(bytes: &[u8], place: usize) -> u32
    requires { place + 4 ≤ length bytes.now }
    ensures { result ≡ le32_at bytes.now place }
{
    LittleEndian::read_u32(&bytes[place..])
}

/// The number in eight bytes, the lowest first.
#[tactic(auto, unfolding(crate::specs::Fields::le_at))]
pub fn le64_at(bytes: &[u8], place: usize) -> u64
    requires { place + 8 ≤ length bytes.now }
    ensures { result ≡ le64_at bytes.now place }
{
    LittleEndian::read_u64(&bytes[place..])
}
