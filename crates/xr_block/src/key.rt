//! Whether the key that a node gives for a child is the one that the child's own records or keys give.
ghost use Rattle.std.specs.Prelude.{◌≡◌, ◌+◌, ◌<◌, ◌≤◌, ◌↔◌, IsTrue, length, map, slice_index_or};
ghost use Rattle.std.specs.Cmp.Lexicographic.{slice_cmp};
ghost use Rattle.std.specs.Ordering.{is_lt, nat_cmp};
ghost use Rattle.xr_block.specs.Checks.{HoldsRecords};
ghost use Rattle.xr_kinds.specs.Form.{key_size};
ghost use Rattle.xr_block.specs.Rows.{greater_key, greatest_key, key_of_entries, key_of_records};
ghost use Rattle.xr_block.specs.TreeBlock.{Entry, count_in, entries_in, records_in};
ghost use Rattle.xr_block.specs.NodeEntries.{high_part};

use crate::read::{checked_record, count_of, key_at};
use xr_kinds::Record;
use xr_pool::Block;

/// Bytes that a key fits in: a node has room for sixteen of them, and they are all of its block then.
pub const KEY_ROOM: usize = 256;

/// A key has room.
pub fn key_fits<R: Record>()
    ensures { key_size R.form ≤ KEY_ROOM }
{}

/// Whether a key is less than another one, byte by byte.
fn is_less(key: &[u8], other: &[u8]) -> bool
    ensures { result ≡ is_lt (slice_cmp nat_cmp key.now other.now) }
{
    key < other
}

/// Whether two keys are the same, byte by byte.
pub fn is_same(key: &[u8], other: &[u8]) -> bool
    ensures { IsTrue result ↔ key.now ≡ other.now }
{
    key[..] == other[..]
}

/// The greater of two keys.
fn greater<'a>(key: &'a [u8], other: &'a [u8]) -> &'a [u8]
    ensures { result.now ≡ greater_key key.now other.now }
{
    if is_less(key, other) { other } else { key }
}

fn both(one: bool, other: bool) -> bool
    ensures { IsTrue result ↔ IsTrue one × IsTrue other }
{
    one && other
}

/// Keeps the greater of two keys of one length.
fn keep_greater(next: &[u8], best: &mut [u8])
    requires { length next.now ≡ length best.old }
    ensures { best.new ≡ greater_key next.now best.old }
{
    if !is_less(next, best) {
        best.copy_from_slice(next);
    }
}

/// Writes the greatest high key of the records of a leaf, which isn't read where its kind has none. `next` is room for a key.
pub fn put_greatest<R: Record>(block: &Block, next: &mut [u8], out: &mut [u8])
    requires tested { HoldsRecords R.form block.now }
    requires some { 0 < count_in block.now }
    requires next_room { length next.old ≡ R.form.high }
    requires room { length out.old ≡ R.form.high }
    ensures { out.new ≡ greatest_key (map R.form.high_of (records_in R.form block.now)) }
{
    if R::HIGH == 0 {
        return;
    }
    let mut k = count_of(block) - 1;
    checked_record::<R>(block, k).put_high(out);
    while k > 0 {
        k -= 1;
        checked_record::<R>(block, k).put_high(next);
        keep_greater(next, out);
    }
}

/// Whether these bytes are the low key of a record.
fn is_low<R: Record>(of: R, low: &[u8]) -> bool
    requires valid { IsTrue (R.form.is_valid of) }
    requires long { length low.now ≡ R.form.low }
    ensures { IsTrue result ↔ low.now ≡ R.form.low_of of }
{
    key_fits::<R>();
    let mut room = [0; KEY_ROOM];
    let own = &mut room[..R::LOW];
    of.put_low(own);
    is_same(low, own)
}

/// Whether these bytes are the greatest high key of a leaf.
fn is_greatest<R: Record>(block: &Block, high: &[u8]) -> bool
    requires tested { HoldsRecords R.form block.now }
    requires some { 0 < count_in block.now }
    requires long { length high.now ≡ R.form.high }
    ensures { IsTrue result ↔ high.now ≡ greatest_key (map R.form.high_of (records_in R.form block.now)) }
{
    key_fits::<R>();
    let mut room = [0; KEY_ROOM];
    let mut other_room = [0; KEY_ROOM];
    let own = &mut room[..R::HIGH];
    put_greatest::<R>(block, &mut other_room[..R::HIGH], own);
    is_same(high, own)
}

/// Whether this is the key that a leaf's records give.
pub fn is_key_of_leaf<R: Record>(block: &Block, key: &[u8]) -> bool
    requires tested { HoldsRecords R.form block.now }
    requires some { 0 < count_in block.now }
    requires long { length key.now ≡ key_size R.form }
    ensures { IsTrue result ↔ key.now ≡ key_of_records R.form (records_in R.form block.now) }
{
    let low = is_low::<R>(checked_record::<R>(block, 0), &key[..R::LOW]);
    let high = is_greatest::<R>(block, &key[R::LOW..]);
    both(low, high)
}

/// The high key of a child of a node.
fn high_at<R: Record>(block: &Block, k: usize) -> &[u8]
    requires within { k < count_in block.now }
    requires few { count_in block.now ≤ R.form.node_max }
    ensures { (d : Entry) → result.now ≡ high_part R.form (slice_index_or (entries_in R.form block.now) k d) }
{
    &key_at::<R>(block, k)[R::LOW..]
}

/// The greatest high key of the children of a node.
pub fn greatest_high<R: Record>(block: &Block) -> &[u8]
    requires some { 0 < count_in block.now }
    requires few { count_in block.now ≤ R.form.node_max }
    ensures { result.now ≡ greatest_key (map (high_part R.form) (entries_in R.form block.now)) }
{
    let mut k = count_of(block) - 1;
    let mut best = high_at::<R>(block, k);
    while k > 0 {
        k -= 1;
        best = greater(high_at::<R>(block, k), best);
    }
    best
}

/// Whether this is the key that a node's own keys give.
pub fn is_key_of_node<R: Record>(block: &Block, key: &[u8]) -> bool
    requires some { 0 < count_in block.now }
    requires few { count_in block.now ≤ R.form.node_max }
    requires long { length key.now ≡ key_size R.form }
    ensures { IsTrue result ↔ key.now ≡ key_of_entries R.form (entries_in R.form block.now) }
{
    let low = is_same(&key[..R::LOW], &key_at::<R>(block, 0)[..R::LOW]);
    let high = is_same(&key[R::LOW..], greatest_high::<R>(block));
    both(low, high)
}
