//! The roots of fresh trees: leaves that hold at most one record.
ghost use Rattle.std.specs.Prelude.{◌≡◌, ◌<◌, ◌≤◌, ◌*◌, length};
ghost use Rattle.xr_headers.specs.FreshImage.{short_leaf_fields, short_leaf, long_leaf_fields, long_leaf};
ghost use Rattle.xr_headers.specs.Padded.{zero_padded};

use crate::codec::{clear, put_sector, put_u16, put_u64, put_uuid, put_words, seal};
use crate::layout::{
    LONG_BB_BLKNO, LONG_BB_OWNER, LONG_BB_UUID, MISSING, SHORT_BB_BLKNO, SHORT_BB_OWNER,
    SHORT_BB_UUID,
};
use uuid::Uuid;
use xr_base::geometry::BLOCK_BYTES;
use xr_base::layout::{
    BB_LEFTSIB, BB_NUMRECS, LONG_BB_CRC, MAPPING_MAGIC, SHORT_BB_CRC, SHORT_HEADER_BYTES,
};

fn lay_short_leaf(magic: u32, numbers: &[u32], uuid: &Uuid, block: u32, owner: u32, out: &mut [u8])
    requires few { length numbers.now ≤ 2 }
    requires room { length out.old ≡ BLOCK_BYTES }
    ensures { out.new ≡ zero_padded (length out.old) (short_leaf_fields magic numbers.now uuid.now block owner) }
{
    clear(out);
    put_words(out, 0, &[magic]);
    put_u16(out, BB_NUMRECS, (numbers.len() / 2) as u16);
    put_words(out, BB_LEFTSIB, &[MISSING, MISSING]);
    put_sector(out, SHORT_BB_BLKNO, block);
    put_uuid(out, SHORT_BB_UUID, uuid);
    put_words(out, SHORT_BB_OWNER, &[owner]);
    put_words(out, SHORT_HEADER_BYTES, numbers);
}

/// Writes a leaf of the tree of a group, `owner`, with the numbers of its records.
pub(crate) fn put_short_leaf(
    magic: u32,
    numbers: &[u32],
    uuid: &Uuid,
    block: u32,
    owner: u32,
    out: &mut [u8],
)
    requires few { length numbers.now ≤ 2 }
    requires room { length out.old ≡ BLOCK_BYTES }
    ensures { out.new ≡ short_leaf magic numbers.now uuid.now block owner }
{
    lay_short_leaf(magic, numbers, uuid, block, owner, out);
    seal(out, SHORT_BB_CRC);
}

fn lay_long_leaf(uuid: &Uuid, block: u32, owner: u64, out: &mut [u8])
    requires { length out.old ≡ BLOCK_BYTES }
    ensures { out.new ≡ zero_padded (length out.old) (long_leaf_fields uuid.now block owner) }
{
    clear(out);
    put_words(
        out,
        0,
        &[MAPPING_MAGIC, 0, MISSING, MISSING, MISSING, MISSING],
    );
    put_sector(out, LONG_BB_BLKNO, block);
    put_uuid(out, LONG_BB_UUID, uuid);
    put_u64(out, LONG_BB_OWNER, owner);
}

/// Writes an empty leaf of the tree of the file whose inode number is `owner`.
pub(crate) fn put_long_leaf(uuid: &Uuid, block: u32, owner: u64, out: &mut [u8])
    requires { length out.old ≡ BLOCK_BYTES }
    ensures { out.new ≡ long_leaf uuid.now block owner }
{
    lay_long_leaf(uuid, block, owner, out);
    seal(out, LONG_BB_CRC);
}
