//! The core of a file: the root of its tree, and the free blocks of its pool.
ghost use Rattle.std.specs.Prelude.{◌≡◌, ◌+◌, ◌*◌, ◌<◌, ◌≤◌, ◌↔◌, length, take, IsNone, IfSome, Ok, IfOk, IfErr};
ghost use Rattle.xr_headers.specs.FirstWrong.{IsFirst, IsCoreOutOfRange, NamesCoreBlockField, NamesCoreField, core_field};
ghost use Rattle.xr_headers.specs.Headers.{core_in, IsCore, KeepsFilePool, core_fields, core_bytes, core_block};
ghost use Rattle.xr_headers.specs.Padded.{IsZeroPadded};

use crate::codec::{
    HeaderFault, clear, difference, first_wrong, put_u64, put_uuid, put_words, read_words, seal,
};
use crate::layout::{
    CORE_BYTES, CORE_CRC, CORE_FIELDS, CORE_FREE_PLACE, CORE_MAGIC, CORE_ROOT_PLACE, INODE_PLACE,
    UUID_PLACE, VERSION,
};
use uuid::Uuid;
use xr_base::FileNo;
use xr_base::geometry::{
    BLOCK_BYTES, FILE_BLOCKS, FILES, FIRST_FILE_BLOCK, FIRST_INODE, UUID_BYTES,
};

/// The core of a file. Its root and its free blocks are counted within the file.
#[derive(Clone, Copy, Debug, PartialEq, Eq)]
pub struct Core {
    /// The inode number, `FIRST_INODE` for file 0 and so on.
    pub ino: u64,
    pub uuid: Uuid,
    /// The root block of the file's tree, from 1 to 7.
    pub root: u32,
    /// The level of the root.
    pub level: u32,
    /// A bit for each block of the pool, bit `n` for block `n`, set where the block is free.
    pub free: u32,
}

fn lay_core(v: &Core, out: &mut [u8])
    requires { CORE_FIELDS ≤ length out.old }
    ensures laid { IsZeroPadded (length out.old) CORE_FIELDS (core_fields v.now) out.new }
    ensures whole { length v.now.uuid ≡ UUID_BYTES }
{
    clear(out);
    put_words(out, 0, &[CORE_MAGIC, VERSION]);
    put_u64(out, INODE_PLACE, v.ino);
    put_uuid(out, UUID_PLACE, &v.uuid);
    put_words(out, CORE_ROOT_PLACE, &[v.root, v.level, v.free]);
}

/// Writes a core's own bytes.
pub(crate) fn put_core_bytes(v: &Core, out: &mut [u8])
    requires valid { IsCore v.now }
    requires room { length out.old ≡ CORE_BYTES }
    ensures { out.new ≡ core_bytes v.now }
{
    lay_core(v, out);
    seal(out, CORE_CRC);
}

/// Writes the core over a whole block.
pub fn put_core(v: &Core, out: &mut [u8])
    requires valid { IsCore v.now }
    requires room { length out.old ≡ BLOCK_BYTES }
    ensures { out.new ≡ core_block v.now }
{
    clear(out);
    put_core_bytes(v, &mut out[..CORE_BYTES]);
}

/// The place of a root outside the pool, or else of a mask with a bit for no block of the pool.
fn broken_range(v: &Core) -> Option<usize>
    ensures none { IsNone result ↔ KeepsFilePool v.now }
    ensures within { IfSome result (λ place. place < CORE_BYTES) }
    ensures first { IfSome result (λ place. IsFirst (IsCoreOutOfRange v.now) place) }
{
    if v.root == 0 || v.root >= FILE_BLOCKS {
        Some(CORE_ROOT_PLACE)
    } else if v.free >= 1 << FILE_BLOCKS || v.free % 2 == 1 {
        Some(CORE_FREE_PLACE)
    } else {
        None
    }
}

/// The place of the field that a byte of a core belongs to.
fn field_of(place: usize) -> usize
    ensures place { result ≡ core_field place }
    ensures below { result ≤ place }
{
    match place {
        0..INODE_PLACE | CORE_ROOT_PLACE..CORE_FIELDS => place / 4 * 4,
        INODE_PLACE..UUID_PLACE => INODE_PLACE,
        UUID_PLACE..CORE_ROOT_PLACE => UUID_PLACE,
        _ => place,
    }
}

fn read_core(bytes: &[u8], file: FileNo, uuid: &Uuid) -> Core
    requires { length bytes.now ≡ CORE_BYTES }
    ensures held { result ≡ core_in bytes.now file.0 uuid.now }
    ensures ino { result.ino ≡ FIRST_INODE + file.0 }
    ensures uuid { result.uuid ≡ uuid.now }
{
    let mut numbers = [0; 3];
    read_words(bytes, CORE_ROOT_PLACE, &mut numbers);
    let [root, level, free] = numbers;
    Core {
        ino: FIRST_INODE + u64::from(file.0),
        uuid: *uuid,
        root,
        level,
        free,
    }
}

/// Reads a core from its own bytes, as they stand in the log: all that `take_core` asks for but the zeros after them. The
/// error is the place of the first wrong field.
pub fn take_core_bytes(bytes: &[u8], file: FileNo, uuid: &Uuid) -> Result<Core, usize>
    requires room { length bytes.now ≡ CORE_BYTES }
    requires known { file.0 < FILES }
    ensures ok { IfOk result (λ v. IsCore v × (v.ino ≡ FIRST_INODE + file.0) × (v.uuid ≡ uuid.now) × (bytes.now ≡ core_bytes v)) }
    ensures complete { (v : Core) → IsCore v → v.ino ≡ FIRST_INODE + file.0 → v.uuid ≡ uuid.now → bytes.now ≡ core_bytes v → result ≡ Ok v }
    ensures held { IfOk result (λ v. v ≡ core_in bytes.now file.0 uuid.now) }
    ensures within { IfErr result (λ place. place < CORE_BYTES) }
    ensures field { IfErr result (λ place. NamesCoreField bytes.now (core_in bytes.now file.0 uuid.now) place) }
{
    let found = read_core(bytes, file, uuid);
    let mut wanted = [0; CORE_FIELDS];
    lay_core(&found, &mut wanted);
    match first_wrong(bytes, &wanted, broken_range(&found)) {
        None => Ok(found),
        Some(place) => Err(field_of(place)),
    }
}

/// Reads a file's core from its block, which has to be exactly what `put_core` writes for this file and identifier.
/// The error names the magic before the checksum, and that before the lowest of the other fields.
pub fn take_core(bytes: &[u8], file: FileNo, uuid: &Uuid) -> Result<Core, HeaderFault>
    requires room { length bytes.now ≡ BLOCK_BYTES }
    requires known { file.0 < FILES }
    ensures ok { IfOk result (λ v. IsCore v × (v.ino ≡ FIRST_INODE + file.0) × (v.uuid ≡ uuid.now) × (bytes.now ≡ core_block v)) }
    ensures complete { (v : Core) → IsCore v → v.ino ≡ FIRST_INODE + file.0 → v.uuid ≡ uuid.now → bytes.now ≡ core_block v → result ≡ Ok v }
    ensures err { IfErr result (λ fault. fault.block ≡ FIRST_FILE_BLOCK + FILE_BLOCKS * file.0) }
    ensures field { IfErr result (λ fault. NamesCoreBlockField bytes.now (core_in (take CORE_BYTES bytes.now) file.0 uuid.now) fault.field) }
{
    let block = FIRST_FILE_BLOCK + FILE_BLOCKS * file.0;
    match take_core_bytes(&bytes[..CORE_BYTES], file, uuid) {
        Err(place) => Err(HeaderFault {
            block,
            field: place as u32,
        }),
        Ok(core) => match difference(&bytes[CORE_BYTES..], &[]) {
            None => Ok(core),
            Some(place) => Err(HeaderFault {
                block,
                field: (CORE_BYTES + place) as u32,
            }),
        },
    }
}
