//! The operations of a record's body by their headers alone, before any rule is tested.
ghost use Rattle.std.specs.Prelude.{◌≡◌, ◌≤◌, ◌<◌, ◌^◌, length, sum_by};
ghost use Rattle.std.specs.List.{list_any};
ghost use Rattle.xr_commit.specs.Operations.{headers_of, is_unmount, operation_len};
ghost use Rattle.xr_record.specs.declared.layout.TheConstants.{OPERATION_BYTES};
ghost use Rattle.xr_base.specs.declared.layout.TheConstants.{MAX_BODY_BYTES};
ghost use Rattle.xr_record.specs.Operations.{fields};

use byteorder::{BigEndian, ByteOrder};
use xr_record::layout::{LOG_CLIENT, OPERATION_BYTES, UNMOUNT};

/// The headers of a body, summed up.
#[derive(Clone, Copy, Debug, PartialEq, Eq)]
pub struct Summary {
    /// How many there are.
    pub operations: u32,
    /// How many bytes the operations have by them, which is the body's length where they are whole.
    pub bytes: usize,
    /// Whether any is that of an unmount.
    pub unmounts: bool,
}

/// Whether the log's own operation with the flag of an unmount stands there, however wrong the rest of it is.
fn is_unmount(header: &[u8]) -> bool
    requires { OPERATION_BYTES ≤ length header.now }
    ensures { result ≡ is_unmount (fields header.now) }
{
    header[8] == LOG_CLIENT && header[9] / UNMOUNT % 2 == 1
}

/// The length of the operation that stands there, by its header.
pub fn operation_len(header: &[u8]) -> usize
    requires { OPERATION_BYTES ≤ length header.now }
    ensures len { result ≡ operation_len (fields header.now) }
    ensures most { result < 2 ^ 33 }
{
    OPERATION_BYTES + BigEndian::read_u32(&header[4..]) as usize
}

/// Goes from header to header through a body.
pub fn sum_up(body: &[u8]) -> Summary
    requires { length body.now ≤ MAX_BODY_BYTES }
    ensures operations { result.operations ≡ length (headers_of body.now) }
    ensures bytes { result.bytes ≡ sum_by operation_len (headers_of body.now) }
    ensures unmounts { result.unmounts ≡ list_any is_unmount (headers_of body.now) }
{
    let mut operations = 0;
    let mut bytes = 0;
    let mut unmounts = false;
    while bytes + OPERATION_BYTES <= body.len() {
        let header = &body[bytes..];
        operations += 1;
        bytes += operation_len(header);
        unmounts = unmounts || is_unmount(header);
    }
    Summary {
        operations,
        bytes,
        unmounts,
    }
}
