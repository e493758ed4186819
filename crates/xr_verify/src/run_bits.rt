//! Runs of blocks in a map of bits.
ghost use Rattle.std.specs.Prelude.{◌≡◌, ◌⊎◌, ℕ, ◌*◌, ◌<◌, ◌≤◌, ◌↔◌, true, false, length, replicate, IsTrue};
ghost use Rattle.xr_pool.specs.Bits.{has_bit};

use xr_pool::bits::{has_bit, set_bit};

/// Bytes of a map with a bit for each block of a group, and one for the block after the last.
pub(crate) const MAP_BYTES: usize = 257;

/// A map with no bit set.
pub(crate) fn empty_map() -> [u8; MAP_BYTES]
    ensures { result ≡ replicate MAP_BYTES 0 }
{
    [0; MAP_BYTES]
}

/// Whether no bit of a range is set.
pub(crate) fn are_clear(bits: &[u8], from: usize, to: usize) -> bool
    requires { to ≤ 8 * length bits.now }
    ensures { IsTrue result ↔ ((n : ℕ) → from ≤ n → n < to → has_bit bits.now n ≡ false) }
{
    for n in from..to {
        if has_bit(bits, n) {
            return false;
        }
    }
    true
}

/// Sets the bits of a range.
pub(crate) fn set_bits(bits: &mut [u8], from: usize, to: usize)
    requires range { from ≤ to }
    requires room { to ≤ 8 * length bits.old }
    ensures long { length bits.new ≡ length bits.old }
    ensures set { (n : ℕ) → from ≤ n → n < to → has_bit bits.new n ≡ true }
    ensures others { (n : ℕ) → (n < from ⊎ to ≤ n) → has_bit bits.new n ≡ has_bit bits.old n }
{
    for n in from..to {
        set_bit(bits, n);
    }
}
