//! What a change writes in one step: one block of some items, a link to a sibling, or a child and its key.
ghost use Rattle.std.specs.Prelude.{◌≡◌, ℕ, ◌+◌, ◌-◌, ◌^◌, ◌<◌, ◌≤◌, ◌++◌, [], ◌∷◌, List, Some, length, take, drop};
ghost use Rattle.std.specs.List.{insert, remove};
ghost use Rattle.std.specs.Option.{option_to_list};
ghost use Rattle.xr_kinds.specs.Form.{key_size};
ghost use Rattle.xr_pool.specs.Overlay.{block_at, pool_size};
ghost use Rattle.xr_block.specs.Rows.{held_in, key_held};
ghost use Rattle.xr_block.specs.Tree.{site_of, tree_held};
ghost use Rattle.xr_block.specs.TreeBlock.{Entry, Place, Site, count_in};
ghost use Rattle.xr_change.specs.Draft.{ReadsAs};
ghost use Rattle.xr_change.specs.Regroups.{GivesKey, IsBlockOf, HasNewLeft, Item, entry_for};
ghost use Rattle.xr_change.specs.Paths.{max_records};
ghost use Rattle.xr_change.specs.Writes.{Writes, MarksAtMost, WritesOnly, unmarked};
ghost use Rattle.xr_block.specs.Edits.{IsHeader, IsNodeOf, sealed, with_key};
ghost use Rattle.xr_change.specs.Changes.{MayUpdateKey};

use crate::draft::Draft;
use xr_block::key::{KEY_ROOM, is_same, key_fits};
use xr_block::read::key_at;
use xr_block::{
    Header, gather_leaf, gather_node, insert_entry, put_key_of_leaf, put_key_of_node, remove_entry,
    set_key, set_left,
};
use xr_kinds::Record;
use xr_pool::Block;

/// A copy of a block, which may have no checksum.
pub(crate) fn copy_of<R: Record>(draft: &Draft<R>, n: u32) -> Block
    requires { n < pool_size draft.now }
    ensures { ReadsAs R.form result (block_at draft.now n) }
{
    *draft.block(n)
}

/// A sibling's block as a number of the pool.
pub(crate) fn pool_number(near: Option<u64>) -> Option<u32>
    requires { (q : ℕ) → near ≡ Some q → q < 2 ^ 32 }
    ensures { result ≡ near }
{
    match near {
        Some(n) => Some(n as u32),
        None => None,
    }
}

/// Writes a block of the items from a place to another of two blocks.
fn put_items<R: Record>(
    out: &mut Block,
    fields: &Header,
    level: u32,
    first: &Block,
    second: &Block,
    from: usize,
    to: usize,
)
    requires level { fields.now.level < 2 ^ 16 }
    requires order { from ≤ to }
    requires within { to ≤ count_in first.now + count_in second.now }
    requires few { (count_in first.now ≤ max_records R.form level) × (count_in second.now ≤ max_records R.form level) }
    requires room { to - from ≤ max_records R.form level }
    ensures { (site : Site) (place one other : Place) (xs ys : List (Item R level)) → IsHeader fields.now site place
        → IsBlockOf R.form level site one xs (sealed R.form first.now) → IsBlockOf R.form level site other ys (sealed R.form second.now)
        → IsBlockOf R.form level site place (take (to - from) (drop from (xs ++ ys))) (sealed R.form out.new) }
{
    if level == 0 {
        gather_leaf::<R>(out, fields, first, second, from, to);
    } else {
        gather_node::<R>(out, fields, first, second, from, to);
    }
}

/// Writes a block of a level of the items from a place to another of two blocks, the second's after the first's, with two
/// siblings.
pub(crate) fn gather<R: Record>(
    draft: &mut Draft<R>,
    n: u32,
    level: u32,
    left: Option<u32>,
    right: Option<u32>,
    first: &Block,
    second: &Block,
    from: usize,
    to: usize,
)
    requires here { n < pool_size draft.old }
    requires level { level < 2 ^ 16 }
    requires order { from ≤ to }
    requires within { to ≤ count_in first.now + count_in second.now }
    requires few { (count_in first.now ≤ max_records R.form level) × (count_in second.now ≤ max_records R.form level) }
    requires room { to - from ≤ max_records R.form level }
    ensures writes { Writes draft.old draft.new (n ∷ []) }
    ensures block { (one other : Place) (xs ys : List (Item R level)) → IsBlockOf R.form level (site_of draft.old) one xs (sealed R.form first.now)
        → IsBlockOf R.form level (site_of draft.old) other ys (sealed R.form second.now)
        → IsBlockOf R.form level (site_of draft.old) (record { number = n; level = level; left = left; right = right })
        (take (to - from) (drop from (xs ++ ys))) (block_at draft.new n) }
{
    draft.is_known();
    let fields = draft.header(n, level, left, right);
    put_items::<R>(draft.block_mut(n), &fields, level, first, second, from, to);
}

/// Gives the block after one, if there is one, another left sibling.
pub(crate) fn set_left_sibling<R: Record>(draft: &mut Draft<R>, next: Option<u32>, left: u32)
    requires { (q : ℕ) → next ≡ Some q → q < pool_size draft.old }
    ensures writes { Writes draft.old draft.new (option_to_list next) }
    ensures relinked { (q old : ℕ) → next ≡ Some q → HasNewLeft R.form draft.old draft.new q old left }
{
    draft.is_known();
    if let Some(n) = next {
        set_left::<R>(draft.block_mut(n), Some(left));
    }
}

/// Writes the key that a block gives to its parent.
fn put_key<R: Record>(block: &Block, level: u32, out: &mut [u8])
    requires keyed { GivesKey R.form level block.now }
    requires long { length out.old ≡ key_size R.form }
    ensures { (n : ℕ) (at : ℕ → List ℕ) → at n ≡ block.now → out.new ≡ key_held R.form (held_in R.form at) level n }
{
    if level == 0 {
        put_key_of_leaf::<R>(block, out);
    } else {
        put_key_of_node::<R>(block, out);
    }
}

/// The key that a block gives to its parent.
pub(crate) fn key_of<'a, R: Record>(
    draft: &Draft<R>,
    level: u32,
    c: u32,
    scratch: &'a mut [u8; KEY_ROOM],
) -> &'a [u8]
    requires here { c < pool_size draft.now }
    requires keyed { GivesKey R.form level (block_at draft.now c) }
    ensures long { length result.now ≡ key_size R.form }
    ensures key { result.now ≡ key_held R.form (tree_held R.form draft.now) level c }
{
    key_fits::<R>();
    let key = &mut scratch[..R::LOW + R::HIGH];
    put_key::<R>(draft.block(c), level, key);
    key
}

/// Gives a child of a node the key that its block has now.
pub(crate) fn set_child_key<R: Record>(draft: &mut Draft<R>, n: u32, level: u32, k: usize, c: u32)
    requires here { (n < pool_size draft.old) × (c < pool_size draft.old) }
    requires keyed { GivesKey R.form level (block_at draft.old c) }
    requires within { k < count_in (block_at draft.old n) }
    requires few { count_in (block_at draft.old n) ≤ R.form.node_max }
    ensures writes { Writes draft.old draft.new (n ∷ []) }
    ensures node { (site : Site) (place : Place) (entries : List Entry) → IsNodeOf R.form site place entries (block_at draft.old n)
        → IsNodeOf R.form site place (with_key k (key_held R.form (tree_held R.form draft.old) level c) entries) (block_at draft.new n) }
{
    draft.is_known();
    let mut scratch = [0; KEY_ROOM];
    let key = key_of(draft, level, c, &mut scratch);
    set_key::<R>(draft.block_mut(n), k, key);
}

/// Puts a block with its key among the children of a node that isn't full.
pub(crate) fn insert_child<R: Record>(draft: &mut Draft<R>, n: u32, level: u32, k: usize, m: u32)
    requires here { (n < pool_size draft.old) × (m < pool_size draft.old) }
    requires keyed { GivesKey R.form level (block_at draft.old m) }
    requires within { k ≤ count_in (block_at draft.old n) }
    requires room { count_in (block_at draft.old n) < R.form.node_max }
    ensures writes { Writes draft.old draft.new (n ∷ []) }
    ensures node { (site : Site) (place : Place) (entries : List Entry) → IsNodeOf R.form site place entries (block_at draft.old n)
        → IsNodeOf R.form site place (insert entries k (entry_for R.form draft.old level m)) (block_at draft.new n) }
{
    draft.is_known();
    let mut scratch = [0; KEY_ROOM];
    let key = key_of(draft, level, m, &mut scratch);
    insert_entry::<R>(draft.block_mut(n), k, key, m);
}

/// Cuts a child out of a node.
pub(crate) fn remove_child<R: Record>(draft: &mut Draft<R>, n: u32, k: usize)
    requires here { n < pool_size draft.old }
    requires within { k < count_in (block_at draft.old n) }
    requires few { count_in (block_at draft.old n) ≤ R.form.node_max }
    ensures writes { Writes draft.old draft.new (n ∷ []) }
    ensures node { (site : Site) (place : Place) (entries : List Entry) → IsNodeOf R.form site place entries (block_at draft.old n)
        → IsNodeOf R.form site place (remove entries k) (block_at draft.new n) }
{
    draft.is_known();
    remove_entry::<R>(draft.block_mut(n), k);
}

/// Gives a child of a node the key that its block has now. Nothing is written where it has it already.
pub(crate) fn update_key<R: Record>(draft: &mut Draft<R>, n: u32, level: u32, k: usize, c: u32)
    requires { MayUpdateKey R.form draft.old level n k c }
    ensures only { WritesOnly draft.old draft.new n }
    ensures free { draft.new.free ≡ draft.old.free }
    ensures marks { MarksAtMost draft.old draft.new (unmarked draft.old (n ∷ [])) }
    ensures node { (site : Site) (place : Place) (entries : List Entry) → IsNodeOf R.form site place entries (block_at draft.old n)
        → IsNodeOf R.form site place (with_key k (key_held R.form (tree_held R.form draft.old) level c) entries) (block_at draft.new n) }
{
    draft.is_known();
    let mut scratch = [0; KEY_ROOM];
    let key = key_of(draft, level, c, &mut scratch);
    if is_same(key_at::<R>(draft.block(n), k), key) {
        return;
    }
    set_key::<R>(draft.block_mut(n), k, key);
}
