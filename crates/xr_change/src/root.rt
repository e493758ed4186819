//! The root of a tree: a node above it where it is full, and its only child in its place.
ghost use Rattle.std.specs.Prelude.{◌≡◌, ◌+◌, ◌^◌, ◌<◌, ◌≤◌, [], ◌∷◌, None, length};
ghost use Rattle.xr_kinds.specs.Form.{key_size, pointer_size};
ghost use Rattle.xr_pool.specs.Overlay.{block_at, free_count, pool_size};
ghost use Rattle.xr_block.specs.Rows.{min_records};
ghost use Rattle.xr_block.specs.Tree.{AreRecords, IsTreeIn, site_of, tree_records};
ghost use Rattle.xr_block.specs.TreeBlock.{Place, Site};
ghost use Rattle.xr_change.specs.Alters.{AreRowsIn};
ghost use Rattle.xr_change.specs.Roots.{alone, GrowsRoot, ShrinksRoot};
ghost use Rattle.xr_change.specs.Regroups.{entry_for};
ghost use Rattle.xr_change.specs.Paths.{blocks_wanted, item_count, max_records, HasSome};
ghost use Rattle.xr_change.specs.Writes.{Writes};
ghost use Rattle.xr_block.specs.Edits.{IsHeader, IsNodeOf, sealed};

use crate::draft::Draft;
use crate::path::child_block;
use crate::write::key_of;
use xr_base::layout::LONG_POINTER_BYTES;
use xr_block::key::KEY_ROOM;
use xr_block::read::{count_of, pointer_bytes};
use xr_block::{Header, Root, build_node, put_number};
use xr_kinds::Record;
use xr_pool::Block;

/// Writes a node with one child.
fn put_single<R: Record>(out: &mut Block, fields: &Header, key: &[u8], child: u32)
    requires level { fields.now.level < 2 ^ 16 }
    requires key { length key.now ≡ key_size R.form }
    ensures { (site : Site) (place : Place) → IsHeader fields.now site place → child < 256 ^ pointer_size R.form
        → IsNodeOf R.form site place (record { key = key.now; child = child } ∷ []) (sealed R.form out.new) }
{
    let mut scratch = [0; LONG_POINTER_BYTES];
    let pointer = &mut scratch[..pointer_bytes::<R>()];
    put_number::<R>(pointer, u64::from(child));
    build_node::<R>(out, fields, key, pointer);
}

/// Writes a node whose only child is a root.
fn put_node_above<R: Record>(draft: &mut Draft<R>, p: u32, root: Root)
    requires here { p < pool_size draft.old }
    requires rows { AreRowsIn R.form draft.old (min_records R.form root.level) root.level (root.block ∷ []) }
    ensures level { root.level + 1 < 2 ^ 16 }
    ensures writes { Writes draft.old draft.new (p ∷ []) }
    ensures node { IsNodeOf R.form (site_of draft.old) (alone p (root.level + 1))
        (entry_for R.form draft.old root.level root.block ∷ []) (block_at draft.new p) }
{
    draft.is_known();
    let fields = draft.header(p, root.level + 1, None, None);
    let mut scratch = [0; KEY_ROOM];
    let key = key_of(draft, root.level, root.block, &mut scratch);
    put_single::<R>(draft.block_mut(p), &fields, key, root.block);
}

/// Puts a node above a full root. The record is the one that is to come into the tree.
pub(crate) fn grow_root<R: Record>(draft: &mut Draft<R>, root: Root, r: &R) -> Root
    requires tree { IsTreeIn R.form draft.old root.block root.level }
    requires full { item_count R.form draft.old root.level root.block ≡ max_records R.form root.level }
    requires spare { blocks_wanted R.form draft.old root.level root.block r.now ≤ free_count draft.old }
    ensures level { result.level ≡ root.level + 1 }
    ensures grows { GrowsRoot R.form draft.old draft.new root.block root.level result.block result.level r.now }
{
    draft.is_known();
    let block = draft.take_free();
    put_node_above::<R>(draft, block, root);
    Root {
        block,
        level: root.level + 1,
    }
}

/// The root of a tree that may have one child: the child is the root then, and the old root's block is given back.
pub(crate) fn shrink_root<R: Record>(draft: &mut Draft<R>, root: Root) -> Root
    requires rows { AreRowsIn R.form draft.old 0 root.level (root.block ∷ []) }
    requires some { HasSome R.form draft.old root.level root.block }
    requires rules { AreRecords R.form (tree_records R.form draft.old root.block root.level) }
    ensures { ShrinksRoot R.form draft.old draft.new root.block root.level result.block result.level }
{
    draft.is_known();
    if root.level == 0 {
        return root;
    }
    let level = root.level - 1;
    if count_of(draft.block(root.block)) > 1 {
        return root;
    }
    let block = child_block::<R>(draft, root.block, level, 0);
    draft.give_block(root.block);
    Root { block, level }
}
