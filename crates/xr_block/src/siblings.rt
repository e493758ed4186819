//! The siblings of a block in its level, as its header names them.
ghost use Rattle.std.specs.Prelude.{◌≡◌, ◌+◌, ◌≤◌, drop};
ghost use Rattle.xr_kinds.specs.Form.{pointer_size};
ghost use Rattle.xr_block.specs.Checks.{left_in, sibling_in, right_in};

use crate::read::pointer_bytes;
use xr_base::geometry::BLOCK_BYTES;
use xr_base::layout::BB_LEFTSIB;
use xr_base::{be32_at, be64_at};
use xr_kinds::Record;
use xr_pool::Block;

/// The sibling that stands at a place, if there is one.
fn sibling_at<R: Record>(block: &Block, at: usize) -> Option<u64>
    requires { at + pointer_size R.form ≤ BLOCK_BYTES }
    ensures { result ≡ sibling_in (pointer_size R.form) (drop at block.now) }
{
    if R::LONG {
        let number = be64_at(block, at);
        if number == u64::MAX {
            None
        } else {
            Some(number)
        }
    } else {
        let number = be32_at(block, at);
        if number == u32::MAX {
            None
        } else {
            Some(u64::from(number))
        }
    }
}

/// The block to the left, if the header names one.
pub fn left_of<R: Record>(block: &Block) -> Option<u64>
    ensures { result ≡ left_in R.form block.now }
{
    sibling_at::<R>(block, BB_LEFTSIB)
}

/// The block to the right.
pub fn right_of<R: Record>(block: &Block) -> Option<u64>
    ensures { result ≡ right_in R.form block.now }
{
    sibling_at::<R>(block, BB_LEFTSIB + pointer_bytes::<R>())
}
