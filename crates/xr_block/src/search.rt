//! Where a bound falls among the items of one block, which are read where they stand.
ghost use Rattle.std.specs.Prelude.{◌≡◌, ◌+◌, ◌*◌, ◌^◌, ◌<◌, ◌≤◌, slice_index_or};
ghost use Rattle.xr_base.specs.Image.{part};
ghost use Rattle.xr_block.specs.Bounds.{IsParted, IsPlaceOf, entry_is_before, is_before};
ghost use Rattle.xr_block.specs.Leaf.{IsLeaf};
ghost use Rattle.xr_block.specs.NodeEntries.{key_in, low_key_in};
ghost use Rattle.xr_block.specs.TreeBlock.{Entry, count_in, entries_in, records_in};
ghost use Rattle.xr_kinds.specs.Form.{header_size};

use crate::bound::Bound;
use crate::read::{count_of, low_key_at, record_at};
use xr_kinds::Record;
use xr_pool::Block;

/// Whether the record at a place of a leaf stands before a bound.
fn is_record_passed<R: Record>(block: &Block, k: usize, bound: &Bound<R>) -> bool
    requires leaf { IsLeaf R.form block.now }
    requires within { k < count_in block.now }
    ensures { (d : R) → result ≡ is_before R.form bound.now (slice_index_or (records_in R.form block.now) k d) }
{
    match record_at::<R>(block, k) {
        Some(record) => bound.passes(&record),
        None => false,
    }
}

/// How many records of a leaf stand before a bound.
pub fn record_place<R: Record>(block: &Block, bound: &Bound<R>) -> usize
    requires leaf { IsLeaf R.form block.now }
    requires parted { IsParted (is_before R.form bound.now) (records_in R.form block.now) }
    ensures { IsPlaceOf (is_before R.form bound.now) (records_in R.form block.now) result }
{
    let mut low = 0;
    let mut high = count_of(block);
    while low < high {
        let middle = low + (high - low) / 2;
        if is_record_passed(block, middle, bound) {
            low = middle + 1;
        } else {
            high = middle;
        }
    }
    low
}

/// Whether the first record under a child of a node stands before a bound.
fn is_child_passed<R: Record>(block: &Block, k: usize, bound: &Bound<R>) -> bool
    requires few { count_in block.now ≤ R.form.node_max }
    requires within { k < count_in block.now }
    ensures { (d : Entry) → result ≡ entry_is_before R.form bound.now (slice_index_or (entries_in R.form block.now) k d) }
{
    bound.passes_key(low_key_at::<R>(block, k))
}

/// How many children of a node begin before a bound. Nothing is asked of the node's bytes but their number.
pub fn child_place<R: Record>(block: &Block, bound: &Bound<R>) -> usize
    requires few { count_in block.now ≤ R.form.node_max }
    requires parted { IsParted (entry_is_before R.form bound.now) (entries_in R.form block.now) }
    ensures { IsPlaceOf (entry_is_before R.form bound.now) (entries_in R.form block.now) result }
{
    let mut low = 0;
    let mut high = count_of(block);
    while low < high {
        let middle = low + (high - low) / 2;
        if is_child_passed(block, middle, bound) {
            low = middle + 1;
        } else {
            high = middle;
        }
    }
    low
}
