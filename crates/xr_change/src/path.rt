//! The path of a record from a node down: the child under which it belongs, with room for an item more, or with an item
//! more than it needs.
ghost use Rattle.std.specs.Prelude.{◌≡◌, ◌+◌, ◌<◌, ◌≤◌, ◌⊎◌, length, slice_index_or, take, drop, true, false, ◌^◌, [], ◌∷◌};
ghost use Rattle.std.specs.List.{All, Contains};
ghost use Rattle.std.specs.declared.cmp.Ordering.TheVariants.{Less};
ghost use Rattle.xr_pool.specs.Overlay.{block_at, free_count};
ghost use Rattle.xr_block.specs.Rows.{named_below, min_records};
ghost use Rattle.xr_block.specs.Tree.{records_of, tree_held};
ghost use Rattle.xr_block.specs.TreeBlock.{Entry, entries_in};
ghost use Rattle.xr_change.specs.Paths.{IsInTree, IsChildAt, IsOnPath, item_count, path_index, child_of, full_on_path, is_full, max_records};
ghost use Rattle.xr_block.specs.Bounds.{entry_is_before};
ghost use Rattle.xr_block.specs.declared.bound.Bound.TheVariants.{After};
ghost use Rattle.xr_change.specs.Changes.{HasPathWithRoom, HasPathWithSurplus};

use crate::draft::Draft;
use crate::rebalance::{merge_children, rebalance_children, split_child};
use xr_block::bound::Bound;
use xr_block::read::{child_at, count_of, low_key_at};
use xr_block::search::child_place;
use xr_kinds::Record;

/// A child of a node, by its place and its block.
#[derive(Clone, Copy)]
pub(crate) struct PathStep {
    pub place: usize,
    pub child: u32,
}

/// The child of a node under which a record belongs. The level is that of the children.
pub(crate) fn path_index<R: Record>(draft: &Draft<R>, n: u32, level: u32, r: &R) -> usize
    requires here { IsInTree R.form draft.now (level + 1) n }
    requires some { 1 ≤ item_count R.form draft.now (level + 1) n }
    ensures path { IsOnPath R.form draft.now level n r.now result }
    ensures place { result ≡ path_index R.form r.now (entries_in R.form (block_at draft.now n)) }
{
    child_place(draft.block(n), &Bound::After(*r)).saturating_sub(1)
}

/// The one of two sibling children under which a record belongs that belongs under one of them.
pub(crate) fn path_half<R: Record>(draft: &Draft<R>, n: u32, level: u32, k: usize, r: &R) -> usize
    requires here { IsInTree R.form draft.now (level + 1) n }
    requires within { k + 1 < item_count R.form draft.now (level + 1) n }
    requires before { All (λ x. R.form.order x r.now
        ≡ Less) (records_of R.form draft.now level (take k (named_below (tree_held R.form draft.now) n))) }
    requires after { All (λ x. R.form.order r.now x
        ≡ Less) (records_of R.form draft.now level (drop (k + 2) (named_below (tree_held R.form draft.now) n))) }
    ensures path { IsOnPath R.form draft.now level n r.now result }
    ensures first { (d : Entry) → result ≡ k
        → entry_is_before R.form (After r.now) (slice_index_or (entries_in R.form (block_at draft.now n)) (k + 1) d) ≡ false }
    ensures second { (d : Entry) → result ≡ k + 1
        → entry_is_before R.form (After r.now) (slice_index_or (entries_in R.form (block_at draft.now n)) (k + 1) d) ≡ true }
    ensures either { (result ≡ k) ⊎ (result ≡ k + 1) }
{
    let next = k + 1;
    if Bound::After(*r).passes_key(low_key_at::<R>(draft.block(n), next)) {
        next
    } else {
        k
    }
}

/// The block of a child of a node.
pub(crate) fn child_block<R: Record>(draft: &Draft<R>, n: u32, level: u32, k: usize) -> u32
    requires here { IsInTree R.form draft.now (level + 1) n }
    requires within { k < length (entries_in R.form (block_at draft.now n)) }
    ensures kth { IsChildAt R.form draft.now level n k result }
    ensures here { IsInTree R.form draft.now level result }
{
    draft.is_known();
    child_at::<R>(draft.block(n), k) as u32
}

/// Whether a block has as many items as it may.
pub(crate) fn is_full<R: Record>(draft: &Draft<R>, n: u32, level: u32) -> bool
    requires { IsInTree R.form draft.now level n }
    ensures { result ≡ is_full R.form draft.now level n }
{
    let count = count_of(draft.block(n));
    if level == 0 {
        count == R::LEAF_MAX as usize
    } else {
        count == R::NODE_MAX as usize
    }
}

/// The child under which a record belongs, once the child in its place was split, which is full.
fn split_on_path<R: Record>(draft: &mut Draft<R>, n: u32, level: u32, k: usize, r: &R) -> usize
    requires here { IsInTree R.form draft.old (level + 1) n }
    requires room { length (entries_in R.form (block_at draft.old n)) < R.form.node_max }
    requires path { IsOnPath R.form draft.old level n r.now k }
    requires place { k ≡ path_index R.form r.now (entries_in R.form (block_at draft.old n)) }
    requires full { item_count R.form draft.old level (child_of R.form draft.old n k) ≡ max_records R.form level }
    requires spare { 1 ≤ free_count draft.old }
    ensures { HasPathWithRoom R.form draft.old draft.new level n r.now result }
{
    draft.is_known();
    split_child::<R>(draft, n, level, k);
    path_half(draft, n, level, k, r)
}

/// The child under which a record belongs, which has room for one item more: a full one is split.
pub(crate) fn path_with_room<R: Record>(draft: &mut Draft<R>, n: u32, level: u32, r: &R) -> usize
    requires here { IsInTree R.form draft.old (level + 1) n }
    requires some { 1 ≤ item_count R.form draft.old (level + 1) n }
    requires room { item_count R.form draft.old (level + 1) n < R.form.node_max }
    requires free { full_on_path R.form draft.old (level + 1) n r.now ≤ free_count draft.old }
    ensures { HasPathWithRoom R.form draft.old draft.new level n r.now result }
{
    let k = path_index(draft, n, level, r);
    let child = child_block::<R>(draft, n, level, k);
    if !is_full::<R>(draft, child, level) {
        return k;
    }
    split_on_path(draft, n, level, k, r)
}

/// How many items a block of a level may have.
fn max_records_of<R: Record>(level: u32) -> usize
    ensures { result ≡ max_records R.form level }
{
    if level == 0 {
        R::LEAF_MAX as usize
    } else {
        R::NODE_MAX as usize
    }
}

/// How many items a child of a node has.
fn child_count<R: Record>(draft: &Draft<R>, n: u32, level: u32, k: usize) -> usize
    requires here { IsInTree R.form draft.now (level + 1) n }
    requires within { k < length (entries_in R.form (block_at draft.now n)) }
    ensures count { result ≡ item_count R.form draft.now level (child_of R.form draft.now n k) }
    ensures most { result ≤ max_records R.form level }
    ensures small { result < 2 ^ 16 }
{
    let child = child_block::<R>(draft, n, level, k);
    count_of(draft.block(child))
}

/// The place of a child that has no more than the least number of items, once it was given items of a sibling or joined with it.
fn fill_child<R: Record>(draft: &mut Draft<R>, n: u32, level: u32, k: usize) -> usize
    requires here { IsInTree R.form draft.old (level + 1) n }
    requires two { 2 ≤ length (entries_in R.form (block_at draft.old n)) }
    requires within { k < length (entries_in R.form (block_at draft.old n)) }
    requires low { item_count R.form draft.old level (child_of R.form draft.old n k) ≤ min_records R.form level }
    ensures { (r : R) → Contains (records_of R.form draft.old level (child_of R.form draft.old n k ∷ [])) r
        → HasPathWithSurplus R.form draft.old draft.new level n r result }
{
    draft.is_known();
    let left = k.saturating_sub(1);
    let all = child_count::<R>(draft, n, level, left) + child_count::<R>(draft, n, level, left + 1);
    if all <= max_records_of::<R>(level) {
        merge_children::<R>(draft, n, level, left);
        return left;
    }
    if left == k {
        rebalance_children::<R>(draft, n, level, left, all - all / 2);
        return k;
    }
    rebalance_children::<R>(draft, n, level, left, all / 2);
    k
}

/// The child under which a record stands, which may have one item less then: one that may not is given some.
pub(crate) fn path_with_surplus<R: Record>(draft: &mut Draft<R>, n: u32, level: u32, r: &R) -> usize
    requires here { IsInTree R.form draft.old (level + 1) n }
    requires two { 2 ≤ item_count R.form draft.old (level + 1) n }
    requires held { Contains (records_of R.form draft.old (level + 1) (n ∷ [])) r.now }
    ensures { HasPathWithSurplus R.form draft.old draft.new level n r.now result }
{
    let k = path_index(draft, n, level, r);
    if child_count::<R>(draft, n, level, k) > max_records_of::<R>(level) / 2 {
        return k;
    }
    fill_child::<R>(draft, n, level, k)
}
