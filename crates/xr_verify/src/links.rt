//! How a block is linked to those beside it in its level, and how the block that is visited before one is found.
ghost use Rattle.std.specs.Prelude.{◌≡◌, ◌+◌, ◌<◌, ◌≤◌, ◌↔◌, IsTrue, drop};
ghost use Rattle.xr_block.specs.Checks.{left_in, sibling_in, right_in};
ghost use Rattle.xr_kinds.specs.Form.{pointer_size};
ghost use Rattle.xr_pool.specs.Overlay.{block_at, pool_size};
ghost use Rattle.xr_verify.specs.Visits.{IsBack, IsLinked, last_below};

use xr_block::read::{child_at, count_of};
use xr_block::siblings::{left_of, right_of};
use xr_kinds::Record;
use xr_pool::Overlay;

/// Whether the block that was visited before this one in its level, if there is one, names it as its right sibling.
fn is_back<R: Record>(over: &Overlay, left: Option<u64>, n: u32) -> bool
    ensures { IsTrue result ↔ IsBack R.form over.now left n }
{
    match left {
        Some(m) if m < u64::from(over.len()) => {
            right_of::<R>(over.block(m as u32)) == Some(u64::from(n))
        }
        Some(_) => false,
        None => true,
    }
}

/// Whether a block is linked to the one that was visited before it in its level, and to none after it if it is the last.
pub(crate) fn is_linked<R: Record>(over: &Overlay, left: Option<u64>, last: bool, n: u32) -> bool
    requires { n < pool_size over.now }
    ensures { IsTrue result ↔ IsLinked R.form over.now left last n }
{
    let block = over.block(n);
    left_of::<R>(block) == left
        && is_back::<R>(over, left, n)
        && (!last || right_of::<R>(block).is_none())
}

/// The last child of a node, if the block can be one.
pub(crate) fn last_child<R: Record>(over: &Overlay, node: Option<u64>) -> Option<u64>
    ensures { result ≡ last_below R.form over.now node }
{
    let n = node?;
    if n >= u64::from(over.len()) {
        return None;
    }
    let block = over.block(n as u32);
    let count = count_of(block);
    if count > 0 && count <= R::NODE_MAX as usize {
        Some(child_at::<R>(block, count - 1))
    } else {
        None
    }
}
