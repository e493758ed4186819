//! The records of a leaf: one more, one less, another one, and a leaf that is built from those of others.
ghost use Rattle.std.specs.Prelude.{◌≡◌, ℕ, ◌+◌, ◌-◌, ◌*◌, ◌^◌, ◌<◌, ◌≤◌, ◌++◌, true, List, length, take, drop, slice_set, IsTrue};
ghost use Rattle.std.specs.List.{All, flat_map, insert, remove};
ghost use Rattle.xr_base.specs.Image.{overlaid, part};
ghost use Rattle.xr_kinds.specs.Form.{header_size};
ghost use Rattle.xr_block.specs.TreeBlock.{Place, Site, count_in, zero_filled};
ghost use Rattle.xr_block.specs.Edits.{IsHeader, IsLeafOf, sealed};
ghost use Rattle.xr_block.specs.ItemBytes.{with_item, without_item};

use crate::header::{Header, put_count, put_header};
use crate::items::{gather_items, insert_gap, put_both, remove_item};
use crate::read::{count_of, header_size};
use xr_kinds::Record;
use xr_pool::Block;

/// Puts a record among some, of which `items` has the bytes.
fn insert_among<R: Record>(items: &mut [u8], k: usize, count: usize, added: &R)
    requires valid { IsTrue (R.form.is_valid added.now) }
    requires place { k ≤ count }
    requires room { R.form.size * (count + 1) ≤ length items.old }
    requires small { length items.old ≤ 4096 }
    ensures { items.new ≡ with_item (R.form.size * k) (R.form.size * count) (R.form.bytes_of added.now) items.old }
{
    let at = R::SIZE * k;
    insert_gap(items, at, R::SIZE * count, R::SIZE);
    added.put(&mut items[at..at + R::SIZE]);
}

/// Cuts a record out of some, of which `items` has the bytes.
fn remove_among<R: Record>(items: &mut [u8], k: usize, count: usize)
    requires place { k < count }
    requires within { R.form.size * count ≤ length items.old }
    requires small { length items.old ≤ 4096 }
    ensures { items.new ≡ without_item (R.form.size * k) (R.form.size * count) R.form.size items.old }
{
    remove_item(items, R::SIZE * k, R::SIZE * count, R::SIZE);
}

/// Writes a record over one of some, of which `items` has the bytes.
fn put_over<R: Record>(items: &mut [u8], k: usize, other: &R)
    requires valid { IsTrue (R.form.is_valid other.now) }
    requires room { R.form.size * (k + 1) ≤ length items.old }
    requires small { length items.old ≤ 4096 }
    ensures { items.new ≡ overlaid (R.form.size * k) (R.form.bytes_of other.now) items.old }
{
    let at = R::SIZE * k;
    other.put(&mut items[at..at + R::SIZE]);
}

/// Puts a record at a place of a leaf that isn't full.
pub fn insert_record<R: Record>(block: &mut Block, k: usize, added: &R)
    requires valid { IsTrue (R.form.is_valid added.now) }
    requires place { k ≤ count_in block.old }
    requires room { count_in block.old < R.LEAF_MAX }
    ensures { (site : Site) (place : Place) (records : List R) → IsLeafOf R.form site place records (sealed R.form block.old)
        → IsLeafOf R.form site place (insert records k added.now) (sealed R.form block.new) }
{
    let count = count_of(block);
    let (_, items) = block.split_at_mut(header_size::<R>());
    insert_among(items, k, count, added);
    put_count(block, count + 1);
}

/// Cuts the record at a place out of a leaf.
pub fn remove_record<R: Record>(block: &mut Block, k: usize)
    requires place { k < count_in block.old }
    requires few { count_in block.old ≤ R.LEAF_MAX }
    ensures { (site : Site) (place : Place) (records : List R) → IsLeafOf R.form site place records (sealed R.form block.old)
        → IsLeafOf R.form site place (remove records k) (sealed R.form block.new) }
{
    let count = count_of(block);
    let (_, items) = block.split_at_mut(header_size::<R>());
    remove_among::<R>(items, k, count);
    put_count(block, count - 1);
}

/// Writes another record over the one at a place of a leaf.
pub fn replace_record<R: Record>(block: &mut Block, k: usize, other: &R)
    requires valid { IsTrue (R.form.is_valid other.now) }
    requires place { k < count_in block.old }
    requires few { count_in block.old ≤ R.LEAF_MAX }
    ensures { (site : Site) (place : Place) (records : List R) → IsLeafOf R.form site place records (sealed R.form block.old)
        → IsLeafOf R.form site place (slice_set records k other.now) (sealed R.form block.new) }
{
    let (_, items) = block.split_at_mut(header_size::<R>());
    put_over(items, k, other);
}

/// The bytes of a leaf's records.
fn record_bytes<R: Record>(block: &Block) -> &[u8]
    requires { count_in block.now ≤ R.LEAF_MAX }
    ensures value { result.now ≡ part (header_size R.form) (R.form.size * count_in block.now) block.now }
    ensures long { length result.now ≡ R.form.size * count_in block.now }
{
    let start = header_size::<R>();
    &block[start..start + R::SIZE * count_of(block)]
}

/// Writes a leaf whose records have these bytes.
pub fn build_leaf<R: Record>(out: &mut Block, fields: &Header, records: &[u8])
    requires level { fields.now.level < 2 ^ 16 }
    requires room { length records.now ≤ R.form.size * R.LEAF_MAX }
    ensures { (site : Site) (place : Place) (listed : List R) → IsHeader fields.now site place → All (λ r. R.form.is_valid r ≡ true) listed
        → records.now ≡ flat_map R.form.bytes_of listed → IsLeafOf R.form site place listed (sealed R.form out.new) }
{
    let (head, items) = out.split_at_mut(header_size::<R>());
    put_header::<R>(head, fields, records.len() / R::SIZE);
    put_both(items, records, &[]);
}

/// Writes a leaf of the records from a place to another of two leaves, the second's after the first's.
pub fn gather_leaf<R: Record>(
    out: &mut Block,
    fields: &Header,
    first: &Block,
    second: &Block,
    from: usize,
    to: usize,
)
    requires level { fields.now.level < 2 ^ 16 }
    requires order { from ≤ to }
    requires within { to ≤ count_in first.now + count_in second.now }
    requires few { (count_in first.now ≤ R.LEAF_MAX) × (count_in second.now ≤ R.LEAF_MAX) }
    requires room { to - from ≤ R.LEAF_MAX }
    ensures { (site : Site) (place one other : Place) (xs ys : List R) → IsHeader fields.now site place
        → IsLeafOf R.form site one xs (sealed R.form first.now) → IsLeafOf R.form site other ys (sealed R.form second.now)
        → IsLeafOf R.form site place (take (to - from) (drop from (xs ++ ys))) (sealed R.form out.new) }
{
    let size = R::SIZE;
    let (head, items) = out.split_at_mut(header_size::<R>());
    put_header::<R>(head, fields, to - from);
    gather_items(
        items,
        record_bytes::<R>(first),
        record_bytes::<R>(second),
        size * from,
        size * to,
    );
}
