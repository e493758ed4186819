//! Maps of bits, in which bit `n % 8` of byte `n / 8`, the lowest first, stands for the number `n`.
ghost use Rattle.std.specs.Prelude.{◌≡◌, ℕ, ◌*◌, ◌<◌, ◌≤◌, ◌↔◌, false, true, length, IsNone, IfSome};
ghost use Rattle.xr_pool.specs.Bits.{has_bit, with_bit, without_bit};

/// Whether the number's bit is set.
pub fn has_bit(bits: &[u8], n: usize) -> bool
    requires { n < 8 * length bits.now }
    ensures { result ≡ has_bit bits.now n }
{
    bits[n / 8] >> (n % 8) & 1 == 1
}

/// Sets the number's bit.
pub fn set_bit(bits: &mut [u8], n: usize)
    requires { n < 8 * length bits.old }
    ensures { bits.new ≡ with_bit bits.old n }
{
    bits[n / 8] |= 1 << (n % 8);
}

/// Clears the number's bit.
pub fn clear_bit(bits: &mut [u8], n: usize)
    requires { n < 8 * length bits.old }
    ensures { bits.new ≡ without_bit bits.old n }
{
    bits[n / 8] &= !(1 << (n % 8));
}

/// The lowest number from `from` up to `end` whose bit is set.
pub fn first_bit(bits: &[u8], from: usize, end: usize) -> Option<usize>
    requires { end ≤ 8 * length bits.now }
    ensures none { IsNone result ↔ ((n : ℕ) → from ≤ n → n < end → has_bit bits.now n ≡ false) }
    ensures within { IfSome result (λ n. (from ≤ n) × (n < end)) }
    ensures set { IfSome result (λ n. has_bit bits.now n ≡ true) }
    ensures first { IfSome result (λ n. (k : ℕ) → from ≤ k → k < n → has_bit bits.now k ≡ false) }
{
    for n in from..end {
        if has_bit(bits, n) {
            return Some(n);
        }
    }
    None
}
