//! The keys and pointers of a node: one child more, one less, another key, and a node that is built from those of others.
ghost use Rattle.std.specs.Prelude.{◌≡◌, ℕ, ◌+◌, ◌-◌, ◌*◌, ◌^◌, ◌<◌, ◌≤◌, ◌++◌, [], List, length, take, drop, slice_set, slice_index_or};
ghost use Rattle.std.specs.List.{flat_map, insert, remove};
ghost use Rattle.byteorder.specs.Endian.{big_bytes};
ghost use Rattle.xr_base.specs.Image.{overlaid, part};
ghost use Rattle.xr_block.specs.BlockLaws.{AreEntries};
ghost use Rattle.xr_kinds.specs.Form.{header_size, key_size, pointer_size};
ghost use Rattle.xr_block.specs.TreeBlock.{Entry, Place, Site, count_in, zero_filled};
ghost use Rattle.xr_block.specs.Edits.{IsHeader, IsNodeOf, sealed, with_key};
ghost use Rattle.xr_block.specs.ItemBytes.{with_item, without_item};

use crate::header::{Header, put_count, put_header, put_number};
use crate::items::{gather_items, insert_gap, put_both, put_item, remove_item};
use crate::read::{count_of, header_size, pointer_bytes};
use xr_kinds::Record;
use xr_pool::Block;

/// Bytes of a key.
fn key_bytes<R: Record>() -> usize
    ensures value { result ≡ key_size R.form }
    ensures fits { header_size R.form + R.form.node_max * (result + pointer_size R.form) ≤ 4096 }
{
    R::LOW + R::HIGH
}

/// Puts a pointer among some, of which `pointers` has the bytes.
fn put_pointer<R: Record>(pointers: &mut [u8], k: usize, count: usize, child: u32)
    requires place { k ≤ count }
    requires room { pointer_size R.form * (count + 1) ≤ length pointers.old }
    requires small { length pointers.old ≤ 4096 }
    ensures { pointers.new ≡ with_item (pointer_size R.form * k) (pointer_size R.form * count) (big_bytes (pointer_size R.form) child) pointers.old }
{
    let size = pointer_bytes::<R>();
    let at = size * k;
    insert_gap(pointers, at, size * count, size);
    put_number::<R>(&mut pointers[at..at + size], u64::from(child));
}

/// Puts a key and a pointer among those of a node.
fn insert_among<R: Record>(items: &mut [u8], k: usize, count: usize, key: &[u8], child: u32)
    requires place { k ≤ count }
    requires room { count < R.form.node_max }
    requires key { length key.now ≡ key_size R.form }
    requires long { header_size R.form + length items.old ≡ 4096 }
    ensures { items.new ≡ with_item (key_size R.form * k) (key_size R.form * count) key.now (take (R.form.node_max * key_size R.form) items.old)
        ++ with_item (pointer_size R.form * k) (pointer_size R.form * count) (big_bytes (pointer_size R.form) child)
        (drop (R.form.node_max * key_size R.form) items.old) }
{
    let size = key_bytes::<R>();
    let (keys, pointers) = items.split_at_mut(R::NODE_MAX as usize * size);
    put_item(keys, size * k, size * count, key);
    put_pointer::<R>(pointers, k, count, child);
}

/// Cuts a key and a pointer out of those of a node.
fn remove_among<R: Record>(items: &mut [u8], k: usize, count: usize)
    requires place { k < count }
    requires few { count ≤ R.form.node_max }
    requires long { header_size R.form + length items.old ≡ 4096 }
    ensures { items.new
        ≡ without_item (key_size R.form * k) (key_size R.form * count) (key_size R.form)
        (take (R.form.node_max * key_size R.form) items.old)
        ++ without_item (pointer_size R.form * k) (pointer_size R.form * count) (pointer_size R.form)
        (drop (R.form.node_max * key_size R.form) items.old) }
{
    let size = key_bytes::<R>();
    let pointer = pointer_bytes::<R>();
    let (keys, pointers) = items.split_at_mut(R::NODE_MAX as usize * size);
    remove_item(keys, size * k, size * count, size);
    remove_item(pointers, pointer * k, pointer * count, pointer);
}

/// Writes a key over one of a node.
fn put_over<R: Record>(items: &mut [u8], k: usize, key: &[u8])
    requires place { k < R.form.node_max }
    requires key { length key.now ≡ key_size R.form }
    requires long { header_size R.form + length items.old ≡ 4096 }
    ensures { items.new ≡ overlaid (key_size R.form * k) key.now items.old }
{
    let at = key_bytes::<R>() * k;
    items[at..at + key.len()].copy_from_slice(key);
}

/// Puts a child with its key at a place of a node that isn't full.
pub fn insert_entry<R: Record>(block: &mut Block, k: usize, key: &[u8], child: u32)
    requires key { length key.now ≡ key_size R.form }
    requires place { k ≤ count_in block.old }
    requires room { count_in block.old < R.NODE_MAX }
    ensures { (site : Site) (place : Place) (entries : List Entry) → IsNodeOf R.form site place entries (sealed R.form block.old)
        → IsNodeOf R.form site place (insert entries k (record { key = key.now; child = child })) (sealed R.form block.new) }
{
    let count = count_of(block);
    let (_, items) = block.split_at_mut(header_size::<R>());
    insert_among::<R>(items, k, count, key, child);
    put_count(block, count + 1);
}

/// Cuts the child at a place out of a node, with its key.
pub fn remove_entry<R: Record>(block: &mut Block, k: usize)
    requires place { k < count_in block.old }
    requires few { count_in block.old ≤ R.NODE_MAX }
    ensures { (site : Site) (place : Place) (entries : List Entry) → IsNodeOf R.form site place entries (sealed R.form block.old)
        → IsNodeOf R.form site place (remove entries k) (sealed R.form block.new) }
{
    let count = count_of(block);
    let (_, items) = block.split_at_mut(header_size::<R>());
    remove_among::<R>(items, k, count);
    put_count(block, count - 1);
}

/// Gives the child at a place of a node another key.
pub fn set_key<R: Record>(block: &mut Block, k: usize, key: &[u8])
    requires key { length key.now ≡ key_size R.form }
    requires place { k < count_in block.old }
    requires few { count_in block.old ≤ R.NODE_MAX }
    ensures { (site : Site) (place : Place) (entries : List Entry) → IsNodeOf R.form site place entries (sealed R.form block.old)
        → IsNodeOf R.form site place (with_key k key.now entries) (sealed R.form block.new) }
{
    let (_, items) = block.split_at_mut(header_size::<R>());
    put_over::<R>(items, k, key);
}

/// The bytes of a node's keys.
fn keys_in<R: Record>(block: &Block) -> &[u8]
    requires { count_in block.now ≤ R.form.node_max }
    ensures value { result.now ≡ part (header_size R.form) (key_size R.form * count_in block.now) block.now }
    ensures long { length result.now ≡ key_size R.form * count_in block.now }
{
    let start = header_size::<R>();
    &block[start..start + key_bytes::<R>() * count_of(block)]
}

/// The bytes of a node's pointers.
fn pointers_in<R: Record>(block: &Block) -> &[u8]
    requires { count_in block.now ≤ R.form.node_max }
    ensures value { result.now ≡ part (header_size R.form + R.form.node_max * key_size R.form) (pointer_size R.form * count_in block.now) block.now }
    ensures long { length result.now ≡ pointer_size R.form * count_in block.now }
{
    let start = header_size::<R>() + R::NODE_MAX as usize * key_bytes::<R>();
    &block[start..start + pointer_bytes::<R>() * count_of(block)]
}

/// Writes a node whose keys and pointers have these bytes.
pub fn build_node<R: Record>(out: &mut Block, fields: &Header, keys: &[u8], pointers: &[u8])
    requires level { fields.now.level < 2 ^ 16 }
    requires keys { length keys.now ≤ R.form.node_max * key_size R.form }
    requires pointers { length pointers.now ≤ R.form.node_max * pointer_size R.form }
    ensures { (site : Site) (place : Place) (entries : List Entry) → IsHeader fields.now site place → AreEntries R.form entries
        → keys.now ≡ flat_map (λ (e : Entry). e.key) entries → pointers.now
        ≡ flat_map (λ (e : Entry). big_bytes (pointer_size R.form) e.child) entries
        → IsNodeOf R.form site place entries (sealed R.form out.new) }
{
    let (head, items) = out.split_at_mut(header_size::<R>());
    let (first, second) = items.split_at_mut(R::NODE_MAX as usize * key_bytes::<R>());
    put_header::<R>(head, fields, pointers.len() / pointer_bytes::<R>());
    put_both(first, keys, &[]);
    put_both(second, pointers, &[]);
}

/// Writes keys from a place to another of two nodes.
fn gather_keys<R: Record>(keys: &mut [u8], first: &Block, second: &Block, from: usize, to: usize)
    requires order { from ≤ to }
    requires within { to ≤ count_in first.now + count_in second.now }
    requires few { (count_in first.now ≤ R.form.node_max) × (count_in second.now ≤ R.form.node_max) }
    requires room { key_size R.form * (to - from) ≤ length keys.old }
    ensures { keys.new ≡ zero_filled (length keys.old) (part (key_size R.form * from) (key_size R.form * to - key_size R.form * from)
        (part (header_size R.form) (key_size R.form * count_in first.now) first.now
        ++ part (header_size R.form) (key_size R.form * count_in second.now) second.now)) }
{
    let size = key_bytes::<R>();
    gather_items(
        keys,
        keys_in::<R>(first),
        keys_in::<R>(second),
        size * from,
        size * to,
    );
}

/// Writes the pointers.
fn gather_pointers<R: Record>(
    pointers: &mut [u8],
    first: &Block,
    second: &Block,
    from: usize,
    to: usize,
)
    requires order { from ≤ to }
    requires within { to ≤ count_in first.now + count_in second.now }
    requires few { (count_in first.now ≤ R.form.node_max) × (count_in second.now ≤ R.form.node_max) }
    requires room { pointer_size R.form * (to - from) ≤ length pointers.old }
    ensures { pointers.new
        ≡ zero_filled (length pointers.old) (part (pointer_size R.form * from) (pointer_size R.form * to - pointer_size R.form * from)
        (part (header_size R.form + R.form.node_max * key_size R.form) (pointer_size R.form * count_in first.now) first.now
        ++ part (header_size R.form + R.form.node_max * key_size R.form) (pointer_size R.form * count_in second.now) second.now)) }
{
    let size = pointer_bytes::<R>();
    gather_items(
        pointers,
        pointers_in::<R>(first),
        pointers_in::<R>(second),
        size * from,
        size * to,
    );
}

/// Writes a node of the children from a place to another of two nodes, the second's after the first's.
pub fn gather_node<R: Record>(
    out: &mut Block,
    fields: &Header,
    first: &Block,
    second: &Block,
    from: usize,
    to: usize,
)
    requires level { fields.now.level < 2 ^ 16 }
    requires order { from ≤ to }
    requires within { to ≤ count_in first.now + count_in second.now }
    requires few { (count_in first.now ≤ R.NODE_MAX) × (count_in second.now ≤ R.NODE_MAX) }
    requires room { to - from ≤ R.NODE_MAX }
    ensures { (site : Site) (place one other : Place) (xs ys : List Entry) → IsHeader fields.now site place
        → IsNodeOf R.form site one xs (sealed R.form first.now) → IsNodeOf R.form site other ys (sealed R.form second.now)
        → IsNodeOf R.form site place (take (to - from) (drop from (xs ++ ys))) (sealed R.form out.new) }
{
    let (head, items) = out.split_at_mut(header_size::<R>());
    let (keys, pointers) = items.split_at_mut(R::NODE_MAX as usize * key_bytes::<R>());
    put_header::<R>(head, fields, to - from);
    gather_keys::<R>(keys, first, second, from, to);
    gather_pointers::<R>(pointers, first, second, from, to);
}
