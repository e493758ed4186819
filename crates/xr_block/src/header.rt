//! The header of a tree's block: as a whole, its siblings, its count, and the checksum that seals the block.
ghost use Rattle.std.specs.Prelude.{◌≡◌, ℕ, ◌+◌, ◌-◌, ◌*◌, ◌^◌, ◌<◌, ◌≤◌, ◌++◌, List, length, replicate};
ghost use Rattle.byteorder.specs.Endian.{big_bytes, little_bytes};
ghost use Rattle.xr_base.specs.Image.{overlaid};
ghost use Rattle.xr_kinds.specs.Form.{header_size, pointer_size};
ghost use Rattle.xr_pool.specs.Overlay.{pool_size};
ghost use Rattle.xr_block.specs.Tree.{site_of};
ghost use Rattle.xr_block.specs.TreeBlock.{Place, Site, header, sibling, crc_place, tree_block};
ghost use Rattle.xr_block.specs.Edits.{IsHeader, sealed, with_left};

use crate::check::crc_place;
use crate::read::{header_size, pointer_bytes};
use byteorder::{BigEndian, ByteOrder, LittleEndian};
use xr_base::crc32c_without;
use xr_base::geometry::{BLOCK_BYTES, BLOCK_SECTORS, UUID_BYTES};
use xr_base::layout::{BB_BLKNO_BYTES, BB_LEFTSIB, BB_LEVEL, BB_LSN_BYTES, BB_NUMRECS};
use xr_kinds::Record;
use xr_pool::{Block, Overlay};

/// Bytes of the fields that say where a block stands in the image.
const PLACE_BYTES: usize = BB_BLKNO_BYTES + BB_LSN_BYTES + UUID_BYTES;

/// What a header says beside the count and the checksum: where the block stands in the image and in its tree, and whose it
/// is.
#[derive(Clone, Copy, Debug, PartialEq, Eq)]
pub struct Header {
    pub block: u32,
    pub level: u32,
    pub left: Option<u32>,
    pub right: Option<u32>,
    pub owner: u64,
    pub uuid: [u8; UUID_BYTES],
}

impl Header {
    /// The header of a block of a pool.
    pub fn new(over: &Overlay, n: u32, level: u32, left: Option<u32>, right: Option<u32>) -> Header
        requires { n < pool_size over.now }
        ensures { IsHeader result (site_of over.now) (record { number = n; level = level; left = left; right = right }) }
    {
        over.has_blocks();
        Header {
            block: over.place(n),
            level,
            left,
            right,
            owner: over.owner(),
            uuid: *over.uuid(),
        }
    }
}

/// Writes a number that a pointer may be, the lowest bytes where it has fewer than the number.
pub fn put_number<R: Record>(out: &mut [u8], number: u64)
    requires { length out.old ≡ pointer_size R.form }
    ensures { out.new ≡ big_bytes (pointer_size R.form) number }
{
    let bytes = number.to_be_bytes();
    out.copy_from_slice(&bytes[8 - pointer_bytes::<R>()..]);
}

/// Writes the block of a sibling.
fn put_sibling<R: Record>(out: &mut [u8], block: Option<u32>)
    requires { length out.old ≡ pointer_size R.form }
    ensures { out.new ≡ sibling (pointer_size R.form) block }
{
    match block {
        Some(n) => put_number::<R>(out, u64::from(n)),
        None => out.fill(255),
    }
}

/// Writes the magic, the level and the count.
fn put_start<R: Record>(out: &mut [u8], level: u32, count: usize)
    requires level { level < 2 ^ 16 }
    requires count { count < 2 ^ 16 }
    requires room { length out.old ≡ BB_LEFTSIB }
    ensures { out.new ≡ big_bytes 4 R.form.magic ++ big_bytes 2 level ++ big_bytes 2 count }
{
    BigEndian::write_u32(&mut out[..BB_LEVEL], R::MAGIC);
    BigEndian::write_u16(&mut out[BB_LEVEL..BB_NUMRECS], level as u16);
    BigEndian::write_u16(&mut out[BB_NUMRECS..BB_LEFTSIB], count as u16);
}

/// Writes both siblings.
fn put_links<R: Record>(out: &mut [u8], left: Option<u32>, right: Option<u32>)
    requires { length out.old ≡ 2 * pointer_size R.form }
    ensures { out.new ≡ sibling (pointer_size R.form) left ++ sibling (pointer_size R.form) right }
{
    let (first, second) = out.split_at_mut(pointer_bytes::<R>());
    put_sibling::<R>(first, left);
    put_sibling::<R>(second, right);
}

/// Writes the block's first sector, counted from the image's, and the image's identifier.
fn put_place(out: &mut [u8], block: u32, uuid: &[u8; UUID_BYTES])
    requires { length out.old ≡ PLACE_BYTES }
    ensures { out.new ≡ big_bytes BB_BLKNO_BYTES (block * BLOCK_SECTORS) ++ big_bytes BB_LSN_BYTES 0 ++ uuid.now }
{
    let (blkno, rest) = out.split_at_mut(BB_BLKNO_BYTES);
    let (lsn, end) = rest.split_at_mut(BB_LSN_BYTES);
    BigEndian::write_u64(blkno, u64::from(block) * u64::from(BLOCK_SECTORS));
    lsn.fill(0);
    end.copy_from_slice(uuid);
}

/// Writes the owner, and zeros in the room after it.
fn put_owner<R: Record>(out: &mut [u8], owner: u64)
    requires { length out.old ≡ pointer_size R.form + (header_size R.form - crc_place R.form) }
    ensures { out.new ≡ big_bytes (pointer_size R.form) owner ++ replicate (header_size R.form - crc_place R.form) 0 }
{
    let (first, zeros) = out.split_at_mut(pointer_bytes::<R>());
    put_number::<R>(first, owner);
    zeros.fill(0);
}

/// Writes a header without its checksum.
pub(crate) fn put_header<R: Record>(out: &mut [u8], fields: &Header, count: usize)
    requires level { fields.now.level < 2 ^ 16 }
    requires count { count < 2 ^ 16 }
    requires room { length out.old ≡ header_size R.form }
    ensures { (site : Site) (place : Place) → IsHeader fields.now site place → out.new ≡ header R.form site place count }
{
    let (start, rest) = out.split_at_mut(BB_LEFTSIB);
    let (links, after) = rest.split_at_mut(2 * pointer_bytes::<R>());
    let (place, owner) = after.split_at_mut(PLACE_BYTES);
    put_start::<R>(start, fields.level, count);
    put_links::<R>(links, fields.left, fields.right);
    put_place(place, fields.block, &fields.uuid);
    put_owner::<R>(owner, fields.owner);
}

fn put_crc(block: &mut Block, at: usize, sum: u32)
    requires { at + 4 ≤ BLOCK_BYTES }
    ensures { block.new ≡ overlaid at (little_bytes 4 sum) block.old }
{
    LittleEndian::write_u32(&mut block[at..at + 4], sum);
}

/// Writes the checksum, which each edit leaves as it was.
pub fn seal<R: Record>(block: &mut Block)
    ensures { block.new ≡ sealed R.form block.old }
{
    let at = crc_place::<R>();
    let sum = crc32c_without(block, at);
    put_crc(block, at, sum);
}

/// Writes the count.
pub(crate) fn put_count(block: &mut Block, count: usize)
    requires { count < 2 ^ 16 }
    ensures { block.new ≡ overlaid BB_NUMRECS (big_bytes 2 count) block.old }
{
    BigEndian::write_u16(&mut block[BB_NUMRECS..BB_NUMRECS + 2], count as u16);
}

/// Writes a sibling at a place of a header.
fn link<R: Record>(block: &mut Block, at: usize, other: Option<u32>)
    requires { at + pointer_size R.form ≤ BLOCK_BYTES }
    ensures { block.new ≡ overlaid at (sibling (pointer_size R.form) other) block.old }
{
    put_sibling::<R>(&mut block[at..at + pointer_bytes::<R>()], other);
}

/// Gives a block another left sibling.
pub fn set_left<R: Record>(block: &mut Block, left: Option<u32>)
    ensures { (site : Site) (place : Place) (count : ℕ) (items : List ℕ) → length site.uuid ≡ 16
        → sealed R.form block.old ≡ tree_block R.form site place count items
        → sealed R.form block.new ≡ tree_block R.form site (with_left left place) count items }
{
    link::<R>(block, BB_LEFTSIB, left);
}
