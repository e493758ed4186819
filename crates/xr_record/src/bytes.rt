//! Writing bytes over others, and testing them for zero.
ghost use Rattle.std.specs.Prelude.{◌≡◌, ◌+◌, ◌≤◌, ◌++◌, ◌↔◌, ℕ, All, IsTrue, length, take, drop};
ghost use Rattle.byteorder.specs.Endian.{big_bytes};
ghost use Rattle.xr_base.specs.Image.{overlaid};

use byteorder::{BigEndian, ByteOrder};

pub fn put(out: &mut [u8], at: usize, bytes: &[u8])
    requires { at + length bytes.now ≤ length out.old }
    ensures { out.new ≡ overlaid at bytes.now out.old }
{
    out[at..at + bytes.len()].copy_from_slice(bytes);
}

/// The four bytes of a number, the highest first.
pub fn word_bytes(value: u32) -> [u8; 4]
    ensures { result ≡ big_bytes 4 value }
{
    let mut bytes = [0; 4];
    BigEndian::write_u32(&mut bytes, value);
    bytes
}

pub fn put_word(out: &mut [u8], at: usize, value: u32)
    requires { at + 4 ≤ length out.old }
    ensures front { take (at + 4) out.new ≡ take at out.old ++ big_bytes 4 value }
    ensures rest { (n : ℕ) → at + 4 ≤ n → drop n out.new ≡ drop n out.old }
{
    put(out, at, &word_bytes(value));
}

pub fn is_zero(bytes: &[u8]) -> bool
    ensures { IsTrue result ↔ All (λ byte. byte ≡ 0) bytes.now }
{
    bytes.iter().all(|byte| *byte == 0)
}
