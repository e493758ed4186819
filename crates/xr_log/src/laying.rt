//! Laying a record's sectors in memory.
ghost use Rattle.std.specs.Prelude.{◌≡◌, ◌+◌, ◌*◌, ◌-◌, ◌≤◌, ◌++◌, length};
ghost use Rattle.xr_base.specs.declared.geometry.TheConstants.{SECTOR_BYTES};
ghost use Rattle.xr_record.specs.Record.{IsGoodHead, sectors_of, zeros};
ghost use Rattle.xr_log.specs.Writing.{IsLaid};

use xr_base::geometry::SECTOR_BYTES;
use xr_record::{Head, seal};

/// Puts bytes at the front, with zeros after them.
fn lay_body(body: &[u8], out: &mut [u8])
    requires { length body.now ≤ length out.old }
    ensures { out.new ≡ body.now ++ zeros (length out.old - length body.now) }
{
    let (front, rest) = out.split_at_mut(body.len());
    front.copy_from_slice(body);
    rest.fill(0);
}

/// Lays the sealed record with this header and this body.
pub(crate) fn lay_record(head: &Head, body: &[u8], out: &mut [u8])
    requires good { IsGoodHead head.now }
    requires len { length body.now ≡ head.now.len }
    requires room { length out.old ≡ SECTOR_BYTES + SECTOR_BYTES * sectors_of head.now.len }
    ensures { IsLaid head.now body.now out.new }
{
    let (_header, after) = out.split_at_mut(SECTOR_BYTES);
    lay_body(body, after);
    seal(head, out);
}
