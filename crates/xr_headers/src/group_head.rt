//! The header of an allocation group: the roots of its four trees, and the free blocks of their pool.
ghost use Rattle.std.specs.Prelude.{◌≡◌, ◌+◌, ◌*◌, ◌<◌, ◌≤◌, ◌↔◌, ℕ, length, slice_index, IsNone, IfSome, Ok, IfOk, IfErr};
ghost use Rattle.xr_headers.specs.FirstWrong.{IsFirst, IsGroupOutOfRange, NamesGroupField, group_field};
ghost use Rattle.xr_headers.specs.Headers.{group_in, IsPoolRoot, AreWords, IsGroupHead, KeepsPool, group_fields, group_block};
ghost use Rattle.xr_headers.specs.Padded.{IsZeroPadded};

use crate::codec::{
    HeaderFault, clear, first_wrong, put_bytes, put_uuid, put_words, read_words, seal,
};
use crate::layout::{
    BLOCK_CRC, FREE_MAP_BYTES, FREE_MAP_PLACE, GROUP_BYTES, GROUP_MAGIC, LEVELS_PLACE, ROOTS_PLACE,
    UUID_PLACE, VERSION,
};
use uuid::Uuid;
use xr_base::GroupNo;
use xr_base::geometry::{
    BLOCK_BYTES, FIRST_DATA_BLOCK, FIRST_GROUP_BLOCK, GROUP_BLOCKS, GROUPS, UUID_BYTES,
};

/// The header of a group. Roots, levels and free blocks are counted within the group.
#[derive(Clone, Copy, Debug, PartialEq, Eq)]
pub struct GroupHead {
    pub group: GroupNo,
    pub uuid: Uuid,
    /// The root blocks of the trees by block, by size, of reverse mappings and of reference counts, from 1 to 511.
    pub roots: [u32; 4],
    /// The levels of the roots.
    pub levels: [u32; 4],
    /// A bit for each block of the pool, set where the block is free: block `n` has the bit `n % 8`, least first, of byte `n / 8`.
    pub free: [u8; FREE_MAP_BYTES],
}

fn lay_group(v: &GroupHead, out: &mut [u8])
    requires { GROUP_BYTES ≤ length out.old }
    ensures laid { IsZeroPadded (length out.old) GROUP_BYTES (group_fields v.now) out.new }
    ensures whole { length v.now.uuid ≡ UUID_BYTES }
{
    clear(out);
    put_words(out, 0, &[GROUP_MAGIC, VERSION, v.group.0, 0]);
    put_uuid(out, UUID_PLACE, &v.uuid);
    put_words(out, ROOTS_PLACE, &v.roots);
    put_words(out, LEVELS_PLACE, &v.levels);
    put_bytes(out, FREE_MAP_PLACE, &v.free);
}

/// Writes the header over a whole block.
pub fn put_group(v: &GroupHead, out: &mut [u8])
    requires valid { IsGroupHead v.now }
    requires room { length out.old ≡ BLOCK_BYTES }
    ensures { out.new ≡ group_block v.now }
{
    lay_group(v, out);
    seal(out, BLOCK_CRC);
}

/// The first root that is no block of the pool.
fn first_outside(roots: &[u32]) -> Option<usize>
    ensures none { IsNone result ↔ ((k : ℕ) → k < length roots.now → IsPoolRoot (slice_index roots.now k)) }
    ensures within { IfSome result (λ place. place < length roots.now) }
    ensures outside { IfSome result (λ place. IsPoolRoot (slice_index roots.now place) → ⊥) }
    ensures first { IfSome result (λ place. (k : ℕ) → k < place → IsPoolRoot (slice_index roots.now k)) }
{
    for (index, root) in roots.iter().enumerate() {
        if *root == 0 || *root >= FIRST_DATA_BLOCK {
            return Some(index);
        }
    }
    None
}

/// The place of the first root outside the pool, or of a free map that gives the header's own block away.
fn broken_range(v: &GroupHead) -> Option<usize>
    ensures none { IsNone result ↔ KeepsPool v.now }
    ensures within { IfSome result (λ place. place < BLOCK_BYTES) }
    ensures first { IfSome result (λ place. IsFirst (IsGroupOutOfRange v.now) place) }
{
    match first_outside(&v.roots) {
        Some(index) => Some(ROOTS_PLACE + 4 * index),
        None if v.free[0] % 2 == 1 => Some(FREE_MAP_PLACE),
        None => None,
    }
}

/// The place of the field that a byte of a group header belongs to.
fn field_of(place: usize) -> usize
    ensures place { result ≡ group_field place }
    ensures below { result ≤ place }
{
    match place {
        0..12 | ROOTS_PLACE..FREE_MAP_PLACE => place / 4 * 4,
        UUID_PLACE..ROOTS_PLACE => UUID_PLACE,
        _ => place,
    }
}

fn read_group(bytes: &[u8], group: GroupNo, uuid: &Uuid) -> GroupHead
    requires { length bytes.now ≡ BLOCK_BYTES }
    ensures held { result ≡ group_in bytes.now group uuid.now }
    ensures group { result.group ≡ group }
    ensures uuid { result.uuid ≡ uuid.now }
    ensures levels { AreWords result.levels }
{
    let mut roots = [0; 4];
    read_words(bytes, ROOTS_PLACE, &mut roots);
    let mut levels = [0; 4];
    read_words(bytes, LEVELS_PLACE, &mut levels);
    let mut free = [0; FREE_MAP_BYTES];
    free.copy_from_slice(&bytes[FREE_MAP_PLACE..GROUP_BYTES]);
    GroupHead {
        group,
        uuid: *uuid,
        roots,
        levels,
        free,
    }
}

/// Reads a group's header from its block, which has to be exactly what `put_group` writes for this group and identifier.
/// The error names the magic before the checksum, and that before the lowest of the other fields.
pub fn take_group(bytes: &[u8], group: GroupNo, uuid: &Uuid) -> Result<GroupHead, HeaderFault>
    requires room { length bytes.now ≡ BLOCK_BYTES }
    requires known { group.0 < GROUPS }
    ensures ok { IfOk result (λ v. IsGroupHead v × (v.group ≡ group) × (v.uuid ≡ uuid.now) × (bytes.now ≡ group_block v)) }
    ensures complete { (v : GroupHead) → IsGroupHead v → v.group ≡ group → v.uuid ≡ uuid.now → bytes.now ≡ group_block v → result ≡ Ok v }
    ensures err { IfErr result (λ fault. fault.block ≡ FIRST_GROUP_BLOCK + GROUP_BLOCKS * group.0) }
    ensures field { IfErr result (λ fault. NamesGroupField bytes.now (group_in bytes.now group uuid.now) fault.field) }
{
    let found = read_group(bytes, group, uuid);
    let mut wanted = [0; GROUP_BYTES];
    lay_group(&found, &mut wanted);
    match first_wrong(bytes, &wanted, broken_range(&found)) {
        None => Ok(found),
        Some(place) => Err(HeaderFault {
            block: FIRST_GROUP_BLOCK + GROUP_BLOCKS * group.0,
            field: field_of(place) as u32,
        }),
    }
}
