//! The steps of a lookup: what is read of a block that it comes to.
ghost use Rattle.std.specs.Prelude.{◌≡◌, ◌+◌, ◌<◌, ◌≤◌, IfSome, length, slice_index_or};
ghost use Rattle.std.specs.List.{All, slice_get};
ghost use Rattle.xr_block.specs.Bounds.{IsPlaceOf, entry_is_before, is_before};
ghost use Rattle.xr_block.specs.NodeEntries.{high_key_in, low_key_from, low_key_in};
ghost use Rattle.xr_pool.specs.Overlay.{block_at};
ghost use Rattle.xr_lookup.specs.Reach.{IsInside, IsUnderKeys, next_key};
ghost use Rattle.xr_block.specs.Tree.{tree_records};
ghost use Rattle.xr_block.specs.TreeBlock.{Entry, count_in, entries_in, records_in};
ghost use Rattle.xr_block.specs.Under.{IsUnder};

use crate::reach::Reach;
use xr_block::bound::Bound;
use xr_block::read::{child_at, count_of, high_key_at, low_key_at, record_at};
use xr_block::search::{child_place, record_place};
use xr_kinds::{Record, Span};
use xr_pool::{Block, Overlay};

/// The block of a child of a node, whose level is given.
pub(crate) fn child_of<R: Record>(over: &Overlay, n: u32, level: u32, k: usize) -> u32
    requires node { IsUnder R.form over.now (level + 1) n }
    requires within { k < length (entries_in R.form (block_at over.now n)) }
    ensures under { IsUnder R.form over.now level result }
    ensures child { (d : Entry) → (let e = slice_index_or (entries_in R.form (block_at over.now n)) k d in result ≡ e.child) }
{
    let child = child_at::<R>(over.block(n), k);
    prove!(child < u64::from(over.len()));
    child as u32
}

/// How many children a node has. The level is that of the children.
pub(crate) fn child_count<R: Record>(over: &Overlay, n: u32, level: u32) -> usize
    requires { IsUnder R.form over.now (level + 1) n }
    ensures { result ≡ length (entries_in R.form (block_at over.now n)) }
{
    count_of(over.block(n))
}

/// How many records a leaf has.
pub(crate) fn record_count<R: Record>(over: &Overlay, n: u32) -> usize
    requires { IsUnder R.form over.now 0 n }
    ensures { result ≡ length (records_in R.form (block_at over.now n)) }
{
    count_of(over.block(n))
}

/// How many children of a node begin before a place of the order. The level is that of the children.
pub(crate) fn children_before<R: Record>(
    over: &Overlay,
    n: u32,
    level: u32,
    bound: &Bound<R>,
) -> usize
    requires { IsUnder R.form over.now (level + 1) n }
    ensures { IsPlaceOf (entry_is_before R.form bound.now) (entries_in R.form (block_at over.now n)) result }
{
    child_place(over.block(n), bound)
}

/// How many records of a leaf stand before a place of the order.
pub(crate) fn records_before<R: Record>(over: &Overlay, n: u32, bound: &Bound<R>) -> usize
    requires { IsUnder R.form over.now 0 n }
    ensures { IsPlaceOf (is_before R.form bound.now) (records_in R.form (block_at over.now n)) result }
{
    record_place(over.block(n), bound)
}

/// A record of a leaf.
pub(crate) fn record_of<R: Record>(over: &Overlay, n: u32, k: usize) -> Option<R>
    requires leaf { IsUnder R.form over.now 0 n }
    requires within { k < length (records_in R.form (block_at over.now n)) }
    ensures { result ≡ slice_get (records_in R.form (block_at over.now n)) k }
{
    record_at(over.block(n), k)
}

/// The low key of a child, if the node has so many.
fn low_key_from<R: Record>(block: &Block, k: usize) -> Option<&[u8]>
    requires { count_in block.now ≤ R.form.node_max }
    ensures long { IfSome result (λ key. length key.now ≡ R.LOW) }
    ensures value { next_key result ≡ low_key_from R.form k block.now }
{
    if k < count_of(block) {
        Some(low_key_at::<R>(block, k))
    } else {
        None
    }
}

/// A run that holds the blocks or offsets of all records under a child, by the keys of a node.
fn reach_at<R: Reach>(block: &Block, k: usize) -> Span
    requires few { count_in block.now ≤ R.form.node_max }
    requires within { k < count_in block.now }
    ensures { (x : R)
        → IsUnderKeys R.form (low_key_in R.form k block.now) (high_key_in R.form k block.now) (low_key_from R.form (k + 1) block.now) x
        → IsInside (R.span_of x) result }
{
    R::reach(
        low_key_at::<R>(block, k),
        high_key_at::<R>(block, k),
        low_key_from::<R>(block, k + 1),
    )
}

/// A run that holds the blocks or offsets of all records under a child of a node, whose level is given.
pub(crate) fn reach_of<R: Reach>(over: &Overlay, n: u32, level: u32, k: usize) -> Span
    requires node { IsUnder R.form over.now (level + 1) n }
    requires within { k < length (entries_in R.form (block_at over.now n)) }
    ensures { (d : Entry) → (let e = slice_index_or (entries_in R.form (block_at over.now n)) k d in
        All (λ x. IsInside (R.span_of x) result) (tree_records R.form over.now e.child level)) }
{
    reach_at::<R>(over.block(n), k)
}
