//! The superblock: the identifier of an image among the fixed numbers of its layout.
ghost use Rattle.std.specs.Prelude.{◌≡◌, ◌≤◌, length, Ok, IfOk, IfErr};
ghost use Rattle.xr_headers.specs.FirstWrong.{NamesSuperField, super_field};
ghost use Rattle.xr_headers.specs.Headers.{super_in, IsSuper, super_fields, super_block};
ghost use Rattle.xr_headers.specs.Padded.{IsZeroPadded};

use crate::codec::{HeaderFault, clear, first_wrong, put_uuid, put_words, seal, uuid_at};
use crate::layout::{BLOCK_CRC, GEOMETRY_PLACE, SUPER_BYTES, SUPER_MAGIC, UUID_PLACE, VERSION};
use uuid::Uuid;
use xr_base::geometry::{
    BLOCK_BYTES, BLOCKS, FILES, FIRST_DATA_BLOCK, FIRST_FILE_BLOCK, FIRST_GROUP_BLOCK,
    FIRST_LOG_BLOCK, GROUP_BLOCKS, GROUPS, LOG_SECTORS, UUID_BYTES,
};

/// What a superblock says that isn't the same in all images.
#[derive(Clone, Copy, Debug, PartialEq, Eq)]
pub struct Super {
    pub uuid: Uuid,
}

fn lay_super(v: &Super, out: &mut [u8])
    requires { SUPER_BYTES ≤ length out.old }
    ensures laid { IsZeroPadded (length out.old) SUPER_BYTES (super_fields v.now) out.new }
    ensures whole { length v.now.uuid ≡ UUID_BYTES }
{
    clear(out);
    put_words(out, 0, &[SUPER_MAGIC, VERSION, BLOCK_BYTES as u32, BLOCKS]);
    put_uuid(out, UUID_PLACE, &v.uuid);
    put_words(
        out,
        GEOMETRY_PLACE,
        &[
            FIRST_LOG_BLOCK,
            LOG_SECTORS,
            FILES,
            FIRST_FILE_BLOCK,
            GROUPS,
            FIRST_GROUP_BLOCK,
            GROUP_BLOCKS,
            FIRST_DATA_BLOCK,
        ],
    );
}

/// Writes the superblock over a whole block.
pub fn put_super(v: &Super, out: &mut [u8])
    requires { length out.old ≡ BLOCK_BYTES }
    ensures { out.new ≡ super_block v.now }
{
    lay_super(v, out);
    seal(out, BLOCK_CRC);
}

/// The place of the field that a byte of a superblock belongs to.
fn field_of(place: usize) -> usize
    ensures place { result ≡ super_field place }
    ensures below { result ≤ place }
{
    match place {
        UUID_PLACE..GEOMETRY_PLACE => UUID_PLACE,
        0..SUPER_BYTES => place / 4 * 4,
        _ => place,
    }
}

fn read_super(bytes: &[u8]) -> Super
    requires { length bytes.now ≡ BLOCK_BYTES }
    ensures held { result ≡ super_in bytes.now }
    ensures valid { IsSuper result }
{
    Super {
        uuid: uuid_at(bytes, UUID_PLACE),
    }
}

/// Reads the superblock from its block, which has to be exactly what `put_super` writes. The error names the magic
/// before the checksum, and that before the lowest of the other fields.
pub fn take_super(bytes: &[u8]) -> Result<Super, HeaderFault>
    requires { length bytes.now ≡ BLOCK_BYTES }
    ensures ok { IfOk result (λ v. IsSuper v × (bytes.now ≡ super_block v)) }
    ensures complete { (v : Super) → IsSuper v → bytes.now ≡ super_block v → result ≡ Ok v }
    ensures err { IfErr result (λ fault. fault.block ≡ 0) }
    ensures field { IfErr result (λ fault. NamesSuperField bytes.now (super_in bytes.now) fault.field) }
{
    let found = read_super(bytes);
    let mut wanted = [0; SUPER_BYTES];
    lay_super(&found, &mut wanted);
    match first_wrong(bytes, &wanted, None) {
        None => Ok(found),
        Some(place) => Err(HeaderFault {
            block: 0,
            field: field_of(place) as u32,
        }),
    }
}
