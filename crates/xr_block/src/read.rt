//! The items of a tree's block, read where they stand. Nothing is asked of a node's bytes, so they may be any block's.
ghost use Rattle.std.specs.Prelude.{◌≡◌, ◌+◌, ◌*◌, ◌^◌, ◌<◌, length, slice_index_or, IsTrue};
ghost use Rattle.xr_base.specs.Image.{part};
ghost use Rattle.xr_kinds.specs.Form.{header_size, pointer_size};
ghost use Rattle.xr_block.specs.TreeBlock.{count_in, records_in};
ghost use Rattle.xr_block.specs.Checks.{HoldsRecords};
ghost use Rattle.xr_block.specs.NodeEntries.{child_in, high_key_in, key_in, low_key_in};

use xr_base::layout::{
    BB_NUMRECS, LONG_HEADER_BYTES, LONG_POINTER_BYTES, SHORT_HEADER_BYTES, SHORT_POINTER_BYTES,
};
use xr_base::{be16_at, be32_at, be64_at};
use xr_kinds::Record;
use xr_pool::Block;

/// How many items a block of a tree says that it holds.
pub fn count_of(block: &Block) -> usize
    ensures count { result ≡ count_in block.now }
    ensures small { result < 2 ^ 16 }
{
    usize::from(be16_at(block, BB_NUMRECS))
}

/// Bytes of the header of a tree's blocks.
pub fn header_size<R: Record>() -> usize
    ensures { result ≡ header_size R.form }
{
    if R::LONG {
        LONG_HEADER_BYTES
    } else {
        SHORT_HEADER_BYTES
    }
}

/// Bytes of a pointer.
pub fn pointer_bytes<R: Record>() -> usize
    ensures { result ≡ pointer_size R.form }
{
    if R::LONG {
        LONG_POINTER_BYTES
    } else {
        SHORT_POINTER_BYTES
    }
}

/// The record at a place of a leaf, if its bytes are those of a valid one.
pub fn record_at<R: Record>(block: &Block, k: usize) -> Option<R>
    requires { k < R.LEAF_MAX }
    ensures { result ≡ R.form.taken (part (header_size R.form + R.form.size * k) R.form.size block.now) }
{
    let at = header_size::<R>() + R::SIZE * k;
    R::take(&block[at..at + R::SIZE])
}

/// A record of a leaf whose records were tested.
pub fn checked_record<R: Record>(block: &Block, k: usize) -> R
    requires tested { HoldsRecords R.form block.now }
    requires within { k < count_in block.now }
    ensures value { (d : R) → result ≡ slice_index_or (records_in R.form block.now) k d }
    ensures valid { IsTrue (R.form.is_valid result) }
{
    match record_at::<R>(block, k) {
        Some(record) => record,
        None => unreachable!(),
    }
}

/// How many records a leaf has.
pub fn record_count<R: Record>(block: &Block) -> usize
    requires { HoldsRecords R.form block.now }
    ensures { result ≡ length (records_in R.form block.now) }
{
    count_of(block)
}

/// The key of a child: its low key, with its high key where the tree has one.
pub fn key_at<R: Record>(block: &Block, k: usize) -> &[u8]
    requires { k < R.NODE_MAX }
    ensures { result.now ≡ key_in R.form k block.now }
{
    let at = header_size::<R>() + (R::LOW + R::HIGH) * k;
    &block[at..at + (R::LOW + R::HIGH)]
}

/// The low key of a child alone.
pub fn low_key_at<R: Record>(block: &Block, k: usize) -> &[u8]
    requires { k < R.NODE_MAX }
    ensures long { length result.now ≡ R.LOW }
    ensures value { result.now ≡ low_key_in R.form k block.now }
{
    &key_at::<R>(block, k)[..R::LOW]
}

/// The high key of a child alone: no bytes where the tree has none.
pub fn high_key_at<R: Record>(block: &Block, k: usize) -> &[u8]
    requires { k < R.NODE_MAX }
    ensures long { length result.now ≡ R.HIGH }
    ensures value { result.now ≡ high_key_in R.form k block.now }
{
    &key_at::<R>(block, k)[R::LOW..]
}

/// The block of a child, a number of the pool where the node is one of a tree.
pub fn child_at<R: Record>(block: &Block, k: usize) -> u64
    requires { k < R.NODE_MAX }
    ensures value { result ≡ child_in R.form k block.now }
    ensures small { result < 256 ^ pointer_size R.form }
{
    let keys_end = header_size::<R>() + R::NODE_MAX as usize * (R::LOW + R::HIGH);
    if R::LONG {
        be64_at(block, keys_end + LONG_POINTER_BYTES * k)
    } else {
        u64::from(be32_at(block, keys_end + SHORT_POINTER_BYTES * k))
    }
}
