//! How many records a tree has: one pass over its leaves, of which only the headers are read.
ghost use Rattle.std.specs.Prelude.{◌≡◌, ◌^◌, ◌<◌, length};
ghost use Rattle.xr_block.specs.Tree.{tree_records};
ghost use Rattle.xr_block.specs.Trees.{IsTree, records_of_tree};
ghost use Rattle.xr_block.specs.Under.{IsUnder};

use crate::steps::{child_count, child_of, record_count};
use xr_block::Root;
use xr_kinds::Record;
use xr_pool::Overlay;

/// How many records there are under a block.
fn count_under<R: Record>(over: &Overlay, n: u32, level: u32) -> u32
    requires under { IsUnder R.form over.now level n }
    requires few { length (tree_records R.form over.now n level) < 2 ^ 32 }
    ensures { result ≡ length (tree_records R.form over.now n level) }
{
    if level == 0 {
        return record_count::<R>(over, n) as u32;
    }
    let mut records = 0;
    for k in 0..child_count::<R>(over, n, level - 1) {
        let child = child_of::<R>(over, n, level - 1, k);
        records += count_under::<R>(over, child, level - 1);
    }
    records
}

/// How many records a tree has.
pub fn count<R: Record>(over: &Overlay, root: Root) -> u32
    requires { IsTree R.form over.now root }
    ensures { result ≡ length (records_of_tree R.form over.now root) }
{
    // No tree has more records than this, so their number fits.
    let _most = R::MOST;
    count_under::<R>(over, root.block, root.level)
}
