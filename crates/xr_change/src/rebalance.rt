//! Children of a node that are rearranged: a full one is split, two are rebalanced, or one takes the items of the next.
ghost use Rattle.std.specs.Prelude.{◌≡◌, ◌+◌, ◌<◌, ◌≤◌, [], ◌∷◌, true, length, ℕ, ◌^◌, Some};
ghost use Rattle.xr_pool.specs.Overlay.{block_at, free_count, is_changed, pool_size};
ghost use Rattle.xr_block.specs.Rows.{min_records};
ghost use Rattle.xr_block.specs.TreeBlock.{entries_in};
ghost use Rattle.xr_change.specs.Regroups.{Regroups, MovesItems, IsBetweenSiblings};
ghost use Rattle.xr_change.specs.Paths.{items_of_two, IsInTree, child_of, item_count, max_records};
ghost use Rattle.xr_change.specs.Writes.{MarksAtMost, unchanged};
ghost use Rattle.std.specs.Option.{option_to_list};
ghost use Rattle.xr_block.specs.Checks.{left_in, right_in};

use crate::draft::Draft;
use crate::path::child_block;
use crate::write::{
    copy_of, gather, insert_child, pool_number, remove_child, set_child_key, set_left_sibling,
};
use xr_block::read::count_of;
use xr_block::siblings::{left_of, right_of};
use xr_kinds::Record;
use xr_pool::Block;

/// Splits a full child of a node that isn't full: a new block takes the upper half of its items and stands after it. Gives the new
/// block.
pub(crate) fn split_child<R: Record>(draft: &mut Draft<R>, n: u32, level: u32, k: usize) -> u32
    requires here { IsInTree R.form draft.old (level + 1) n }
    requires within { k < length (entries_in R.form (block_at draft.old n)) }
    requires room { length (entries_in R.form (block_at draft.old n)) < R.form.node_max }
    requires full { item_count R.form draft.old level (child_of R.form draft.old n k) ≡ max_records R.form level }
    requires spare { 1 ≤ free_count draft.old }
    ensures split { (let c = child_of R.form draft.old n k in
        Regroups R.form draft.old draft.new level n k (k + 1) (c ∷ []) (c ∷ result ∷ [])) }
    ensures free { free_count draft.old ≡ free_count draft.new + 1 }
    ensures marks { MarksAtMost draft.old draft.new (unchanged draft.old n + 3) }
    ensures changed { (is_changed draft.new n ≡ true) × (is_changed draft.new (child_of R.form draft.old n k) ≡ true)
        × (is_changed draft.new result ≡ true) }
{
    let child = child_block::<R>(draft, n, level, k);
    let fresh = draft.take_free();
    split_items::<R>(draft, level, child, fresh);
    set_child_key::<R>(draft, n, level, k, child);
    insert_child::<R>(draft, n, level, k + 1, fresh);
    fresh
}

/// MovesItems the items of two sibling children anew: the left one has `count` of them then.
pub(crate) fn rebalance_children<R: Record>(
    draft: &mut Draft<R>,
    n: u32,
    level: u32,
    k: usize,
    count: usize,
)
    requires here { IsInTree R.form draft.old (level + 1) n }
    requires within { k + 1 < length (entries_in R.form (block_at draft.old n)) }
    requires low { (min_records R.form level ≤ count) × (count ≤ max_records R.form level) }
    requires high { min_records R.form level + count ≤ items_of_two R.form draft.old level n k }
    requires high_most { items_of_two R.form draft.old level n k ≤ max_records R.form level + count }
    ensures rebalance { (let c = child_of R.form draft.old n k in let d = child_of R.form draft.old n (k + 1) in
        Regroups R.form draft.old draft.new level n k (k + 2) (c ∷ d ∷ []) (c ∷ d ∷ [])) }
    ensures count { item_count R.form draft.new level (child_of R.form draft.old n k) ≡ count }
    ensures marks { MarksAtMost draft.old draft.new (unchanged draft.old n + 2) }
    ensures changed { (is_changed draft.new n ≡ true) × (is_changed draft.new (child_of R.form draft.old n k) ≡ true)
        × (is_changed draft.new (child_of R.form draft.old n (k + 1)) ≡ true) }
{
    let c = child_block::<R>(draft, n, level, k);
    let d = child_block::<R>(draft, n, level, k + 1);
    rebalance_items::<R>(draft, level, c, d, count);
    set_child_key::<R>(draft, n, level, k, c);
    set_child_key::<R>(draft, n, level, k + 1, d);
}

/// Gives the items of the next child to a child, and the next one's block back.
pub(crate) fn merge_children<R: Record>(draft: &mut Draft<R>, n: u32, level: u32, k: usize)
    requires here { IsInTree R.form draft.old (level + 1) n }
    requires within { k + 1 < length (entries_in R.form (block_at draft.old n)) }
    requires fits { items_of_two R.form draft.old level n k ≤ max_records R.form level }
    ensures merge { (let c = child_of R.form draft.old n k in let d = child_of R.form draft.old n (k + 1) in
        Regroups R.form draft.old draft.new level n k (k + 2) (c ∷ d ∷ []) (c ∷ [])) }
    ensures marks { MarksAtMost draft.old draft.new (unchanged draft.old n + 3) }
    ensures changed { (is_changed draft.new n ≡ true) × (is_changed draft.new (child_of R.form draft.old n k) ≡ true) }
{
    let c = child_block::<R>(draft, n, level, k);
    let d = child_block::<R>(draft, n, level, k + 1);
    merge_items::<R>(draft, level, c, d);
    draft.give_block(d);
    set_child_key::<R>(draft, n, level, k, c);
    remove_child::<R>(draft, n, k + 1);
}

/// The siblings of a block, as numbers of the pool.
fn siblings<R: Record>(block: &Block) -> (Option<u32>, Option<u32>)
    requires left { (q : ℕ) → left_in R.form block.now ≡ Some q → q < 2 ^ 32 }
    requires right { (q : ℕ) → right_in R.form block.now ≡ Some q → q < 2 ^ 32 }
    ensures left { result.0 ≡ left_in R.form block.now }
    ensures right { result.1 ≡ right_in R.form block.now }
{
    (
        pool_number(left_of::<R>(block)),
        pool_number(right_of::<R>(block)),
    )
}

/// MovesItems the items of a full block to itself and to a new one after it.
pub(crate) fn split_items<R: Record>(draft: &mut Draft<R>, level: u32, c: u32, m: u32)
    requires level { level < 2 ^ 16 }
    requires placed { IsBetweenSiblings R.form draft.old level c }
    requires full { item_count R.form draft.old level c ≡ max_records R.form level }
    requires within { m < pool_size draft.old }
    requires apart { c ≡ m → ⊥ }
    requires beside { (q : ℕ) → right_in R.form (block_at draft.old c) ≡ Some q → q ≡ m → ⊥ }
    ensures { MovesItems R.form draft.old draft.new level (c ∷ []) (c ∷ m ∷ [])
        (c ∷ m ∷ option_to_list (right_in R.form (block_at draft.old c))) c m }
{
    draft.is_known();
    let block = copy_of(draft, c);
    let count = count_of(&block);
    let (left, right) = siblings::<R>(&block);
    gather::<R>(draft, c, level, left, Some(m), &block, &block, 0, count / 2);
    gather::<R>(
        draft,
        m,
        level,
        Some(c),
        right,
        &block,
        &block,
        count / 2,
        count,
    );
    set_left_sibling::<R>(draft, right, m);
}

/// MovesItems the items of two siblings anew, so that the left one has so many.
pub(crate) fn rebalance_items<R: Record>(
    draft: &mut Draft<R>,
    level: u32,
    c: u32,
    d: u32,
    count: usize,
)
    requires level { level < 2 ^ 16 }
    requires placed { IsBetweenSiblings R.form draft.old level c × IsBetweenSiblings R.form draft.old level d }
    requires apart { c ≡ d → ⊥ }
    requires beside { (q : ℕ) → right_in R.form (block_at draft.old d) ≡ Some q → q ≡ c → ⊥ }
    requires low { (min_records R.form level ≤ count) × (count ≤ max_records R.form level) }
    requires high { min_records R.form level + count ≤ item_count R.form draft.old level c + item_count R.form draft.old level d }
    requires high_most { item_count R.form draft.old level c + item_count R.form draft.old level d ≤ max_records R.form level + count }
    ensures rebalances { MovesItems R.form draft.old draft.new level (c ∷ d ∷ []) (c ∷ d ∷ []) (c ∷ d ∷ []) d d }
    ensures count { item_count R.form draft.new level c ≡ count }
{
    draft.is_known();
    let first = copy_of(draft, c);
    let second = copy_of(draft, d);
    let total = count_of(&first) + count_of(&second);
    let (left, right) = siblings::<R>(&first);
    gather::<R>(draft, c, level, left, right, &first, &second, 0, count);
    let (left, right) = siblings::<R>(&second);
    gather::<R>(draft, d, level, left, right, &first, &second, count, total);
}

/// Gives the items of a block to the one before it, which takes its place before the block after it.
pub(crate) fn merge_items<R: Record>(draft: &mut Draft<R>, level: u32, c: u32, d: u32)
    requires level { level < 2 ^ 16 }
    requires placed { IsBetweenSiblings R.form draft.old level c × IsBetweenSiblings R.form draft.old level d }
    requires beside { (q : ℕ) → right_in R.form (block_at draft.old d) ≡ Some q → q ≡ c → ⊥ }
    requires fits { item_count R.form draft.old level c + item_count R.form draft.old level d ≤ max_records R.form level }
    ensures { MovesItems R.form draft.old draft.new level (c ∷ d ∷ []) (c ∷ [])
        (c ∷ option_to_list (right_in R.form (block_at draft.old d))) d c }
{
    draft.is_known();
    let first = copy_of(draft, c);
    let second = copy_of(draft, d);
    let total = count_of(&first) + count_of(&second);
    let (left, _) = siblings::<R>(&first);
    let (_, right) = siblings::<R>(&second);
    gather::<R>(draft, c, level, left, right, &first, &second, 0, total);
    set_left_sibling::<R>(draft, right, c);
}
