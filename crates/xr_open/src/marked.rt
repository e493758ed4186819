//! Whether some marks have all of a pool that is used: what each tree's blocks were marked in, tested last.
ghost use Rattle.std.specs.Prelude.{◌↔◌, ◌*◌, ◌≤◌, length, IsTrue};
ghost use Rattle.xr_open.specs.Marked.{AreAllMarked};
ghost use Rattle.xr_pool.specs.Overlay.{pool_size};

use xr_pool::Overlay;
use xr_pool::bits::has_bit;

/// Whether each block of the pool behind the first that isn't free is marked.
pub fn are_all_marked(over: &Overlay, marks: &[u8]) -> bool
    requires { pool_size over.now ≤ 8 * length marks.now }
    ensures { IsTrue result ↔ AreAllMarked over.now marks.now }
{
    for n in 1..over.len() {
        if !over.is_free(n) && !has_bit(marks, n as usize) {
            return false;
        }
    }
    true
}
