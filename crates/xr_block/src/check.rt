//! Whether a block is a leaf or a node of a tree: its header, its checksum, how many items it has, and the room after them.
ghost use Rattle.std.specs.Prelude.{◌≡◌, ℕ, ◌+◌, ◌*◌, ◌-◌, ◌^◌, ◌<◌, ◌≤◌, ◌↔◌, length, replicate, IsTrue, IsOk, IfErr, IfOk, IsSome};
ghost use Rattle.xr_base.specs.Image.{part};
ghost use Rattle.xr_block.specs.Checks.{HasFields, HasRecords, HasZeroPadding, HasHeader, IsCheckedLeaf, IsCheckedNode};
ghost use Rattle.xr_block.specs.Refusals.{RefusesCount, RefusesHeader, RefusesLeaf, RefusesNode};
ghost use Rattle.xr_block.specs.declared.fault.TreeKind.TheVariants.{Field};
ghost use Rattle.xr_kinds.specs.Form.{header_size, key_size, pointer_size};
ghost use Rattle.xr_pool.specs.Overlay.{pool_size};
ghost use Rattle.xr_block.specs.Tree.{site_of};
ghost use Rattle.xr_block.specs.TreeBlock.{count_in, crc_place};
ghost use Rattle.xr_base.specs.Checksum.{with_crc};

use crate::fault::TreeKind;
use crate::read::{count_of, header_size, pointer_bytes, record_at};
use byteorder::{ByteOrder, LittleEndian};
use xr_base::crc32c_without;
use xr_base::geometry::UUID_BYTES;
use xr_base::layout::{
    BB_BLKNO_BYTES, BB_LEFTSIB, BB_LEVEL, BB_LSN_BYTES, LONG_BB_CRC, SHORT_BB_CRC,
};
use xr_kinds::Record;
use xr_pool::{Block, Overlay};

/// Whether these bytes stand at a place.
pub fn holds(bytes: &[u8], at: usize, wanted: &[u8]) -> bool
    requires { at + length wanted.now ≤ length bytes.now }
    ensures { IsTrue result ↔ part at (length wanted.now) bytes.now ≡ wanted.now }
{
    bytes[at..at + wanted.len()] == wanted[..]
}

/// Whether all bytes are zero.
pub fn are_zeros(bytes: &[u8]) -> bool
    ensures { IsTrue result ↔ bytes.now ≡ replicate (length bytes.now) 0 }
{
    for byte in bytes {
        if *byte != 0 {
            return false;
        }
    }
    true
}

/// Whether the checksum at a place is that of all bytes.
fn has_crc(bytes: &[u8], at: usize) -> bool
    requires { at + 4 ≤ length bytes.now }
    ensures { IsTrue result ↔ bytes.now ≡ with_crc at bytes.now }
{
    let mut sum = [0; 4];
    LittleEndian::write_u32(&mut sum, crc32c_without(bytes, at));
    holds(bytes, at, &sum)
}

/// Where the checksum stands.
pub fn crc_place<R: Record>() -> usize
    ensures { result ≡ crc_place R.form }
{
    if R::LONG { LONG_BB_CRC } else { SHORT_BB_CRC }
}

/// Whether a block says where it stands and whose it is, and has zeros where a header has nothing to say.
fn has_fields<R: Record>(over: &Overlay, n: u32, level: u32, block: &Block) -> bool
    requires { n < pool_size over.now }
    ensures { IsTrue result ↔ HasFields R.form (site_of over.now) n level block.now }
{
    let pointer = pointer_bytes::<R>();
    let blkno = BB_LEFTSIB + 2 * pointer;
    let lsn = blkno + BB_BLKNO_BYTES;
    let uuid = lsn + BB_LSN_BYTES;
    let owner = over.owner().to_be_bytes();
    level < 1 << 16
        && holds(block, BB_LEVEL, &(level as u16).to_be_bytes())
        && holds(block, blkno, &over.sector(n).to_be_bytes())
        && are_zeros(&block[lsn..uuid])
        && holds(block, uuid, over.uuid())
        && holds(block, uuid + UUID_BYTES, &owner[8 - pointer..])
        && are_zeros(&block[crc_place::<R>() + 4..header_size::<R>()])
}

/// The magic, the checksum and the other fields of a header.
pub fn check_header<R: Record>(
    over: &Overlay,
    n: u32,
    level: u32,
    block: &Block,
) -> Result<(), TreeKind>
    requires { n < pool_size over.now }
    ensures tests { IsOk result ↔ HasHeader R.form (site_of over.now) n level block.now }
    ensures refused { IfErr result (RefusesHeader R.form (site_of over.now) n level block.now) }
{
    if !holds(block, 0, &R::MAGIC.to_be_bytes()) {
        Err(TreeKind::Magic)
    } else if !has_crc(block, crc_place::<R>()) {
        Err(TreeKind::Checksum)
    } else if !has_fields::<R>(over, n, level, block) {
        Err(TreeKind::Header)
    } else {
        Ok(())
    }
}

/// Whether the first places of a leaf hold valid records.
fn has_records<R: Record>(block: &Block, count: usize) -> bool
    requires { count ≤ R.LEAF_MAX }
    ensures { IsTrue result ↔ ((k : ℕ) → k < count → IsSome (R.form.taken (part (header_size R.form + R.form.size * k) R.form.size block.now))) }
{
    for k in 0..count {
        if record_at::<R>(block, k).is_none() {
            return false;
        }
    }
    true
}

/// How many items a block holds, if it may hold so many.
fn count_within(block: &Block, least: usize, most: u32) -> Result<usize, TreeKind>
    ensures few { IsOk result ↔ (least ≤ count_in block.now) × (count_in block.now ≤ most) }
    ensures value { IfOk result (λ count. count ≡ count_in block.now) }
    ensures refused { IfErr result (RefusesCount least most block.now) }
{
    let count = count_of(block);
    if least <= count && count <= most as usize {
        Ok(count)
    } else {
        Err(TreeKind::Count)
    }
}

/// Whether the places of a leaf hold valid records, and zeros stand after them.
fn check_records<R: Record>(block: &Block, count: usize) -> Result<(), TreeKind>
    requires { count ≤ R.LEAF_MAX }
    ensures tests { IsOk result ↔ HasRecords R.form count block.now }
    ensures refused { IfErr result (λ kind. kind ≡ Field) }
{
    let end = header_size::<R>() + R::SIZE * count;
    if has_records::<R>(block, count) && are_zeros(&block[end..]) {
        Ok(())
    } else {
        Err(TreeKind::Field)
    }
}

/// Whether zeros stand after the keys of a node and after its pointers.
fn check_padding<R: Record>(block: &Block, count: usize) -> Result<(), TreeKind>
    requires { count ≤ R.NODE_MAX }
    ensures tests { IsOk result ↔ HasZeroPadding R.form count block.now }
    ensures refused { IfErr result (λ kind. kind ≡ Field) }
{
    let key = R::LOW + R::HIGH;
    let keys = header_size::<R>();
    let pointers = keys + key * R::NODE_MAX as usize;
    let end = pointers + pointer_bytes::<R>() * count;
    if are_zeros(&block[keys + key * count..pointers]) && are_zeros(&block[end..]) {
        Ok(())
    } else {
        Err(TreeKind::Field)
    }
}

/// Whether a block is a leaf with at least so many records, whatever its siblings are.
pub fn check_leaf<R: Record>(
    over: &Overlay,
    n: u32,
    least: usize,
    block: &Block,
) -> Result<(), TreeKind>
    requires { n < pool_size over.now }
    ensures tests { IsOk result ↔ IsCheckedLeaf R.form (site_of over.now) least n block.now }
    ensures refused { IfErr result (RefusesLeaf R.form (site_of over.now) least n block.now) }
{
    check_header::<R>(over, n, 0, block)?;
    let count = count_within(block, least, R::LEAF_MAX)?;
    check_records::<R>(block, count)
}

/// Whether a block is a node with at least so many children, whatever its siblings are.
pub fn check_node<R: Record>(
    over: &Overlay,
    n: u32,
    level: u32,
    least: usize,
    block: &Block,
) -> Result<(), TreeKind>
    requires { n < pool_size over.now }
    ensures tests { IsOk result ↔ IsCheckedNode R.form (site_of over.now) least n level block.now }
    ensures refused { IfErr result (RefusesNode R.form (site_of over.now) least n level block.now) }
{
    check_header::<R>(over, n, level, block)?;
    let count = count_within(block, least, R::NODE_MAX)?;
    check_padding::<R>(block, count)
}
