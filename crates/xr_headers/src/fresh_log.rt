//! The first block of a fresh log, which holds one record: the log is at rest.
ghost use Rattle.std.specs.Prelude.{◌≡◌, length};
ghost use Rattle.xr_headers.specs.FreshImage.{fresh_log_block, unmount_fields};
ghost use Rattle.xr_headers.specs.Padded.{IsZeroPadded};

use crate::codec::{clear, put_first_lsn, put_uuid, put_words, seal};
use crate::layout::{MISSING, UNMOUNT_BYTES, UNMOUNT_CLIENT, UNMOUNT_DATA, UNMOUNT_MAGIC};
use uuid::Uuid;
use xr_base::geometry::{BLOCK_BYTES, SECTOR_BYTES};
use xr_base::layout::{
    MAX_BODY_BYTES, RECORD_CRC_PLACE, RECORD_FORMAT, RECORD_FORMAT_PLACE, RECORD_LSN_PLACE,
    RECORD_MAGIC, RECORD_SIZE_PLACE, RECORD_TAIL_PLACE, RECORD_UUID_PLACE, RECORD_VERSION,
};

fn lay_record(uuid: &Uuid, cycle: u32, out: &mut [u8])
    requires { length out.old ≡ BLOCK_BYTES }
    ensures { IsZeroPadded (length out.old) 532 (unmount_fields uuid.now cycle) out.new }
{
    clear(out);
    put_words(
        out,
        0,
        &[RECORD_MAGIC, cycle, RECORD_VERSION, UNMOUNT_BYTES],
    );
    put_first_lsn(out, RECORD_LSN_PLACE, cycle);
    put_first_lsn(out, RECORD_TAIL_PLACE, cycle);
    put_words(out, RECORD_CRC_PLACE, &[0, MISSING, 1]);
    put_words(out, RECORD_FORMAT_PLACE, &[RECORD_FORMAT]);
    put_uuid(out, RECORD_UUID_PLACE, uuid);
    put_words(out, RECORD_SIZE_PLACE, &[MAX_BODY_BYTES as u32]);
    put_words(
        out,
        SECTOR_BYTES,
        &[cycle, UNMOUNT_DATA, UNMOUNT_CLIENT, UNMOUNT_MAGIC, 0],
    );
}

/// Writes the log's first block.
pub(crate) fn put_fresh_log(uuid: &Uuid, cycle: u32, out: &mut [u8])
    requires { length out.old ≡ BLOCK_BYTES }
    ensures { out.new ≡ fresh_log_block uuid.now cycle }
{
    lay_record(uuid, cycle, out);
    seal(&mut out[..2 * SECTOR_BYTES], RECORD_CRC_PLACE);
}
