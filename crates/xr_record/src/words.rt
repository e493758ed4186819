//! The first word of each sector of a body: moved into the header and back.
ghost use Rattle.std.specs.Prelude.{◌≡◌, ◌+◌, ◌*◌, ◌≤◌, ◌++◌, length, drop};
ghost use Rattle.byteorder.specs.Endian.{big_bytes};
ghost use Rattle.xr_record.specs.Record.{moved, stamped, restored};

use crate::bytes::{put, word_bytes};
use xr_base::geometry::SECTOR_BYTES;

/// Moves the first word of each of the first sectors of a body to the words, and writes the stamp in its place.
pub fn stamp(words: &mut [u8], body: &mut [u8], sectors: usize, cycle: u32)
    requires words { 4 * sectors ≤ length words.old }
    requires body { SECTOR_BYTES * sectors ≤ length body.old }
    ensures words { words.new ≡ moved sectors body.old ++ drop (4 * sectors) words.old }
    ensures body { body.new ≡ stamped (big_bytes 4 cycle) sectors body.old }
{
    let stamp = word_bytes(cycle);
    for i in 0..sectors {
        put(words, 4 * i, &body[SECTOR_BYTES * i..SECTOR_BYTES * i + 4]);
        put(body, SECTOR_BYTES * i, &stamp);
    }
}

/// Puts the first word of each of the first sectors of a body back.
pub fn restore(words: &[u8], body: &mut [u8], sectors: usize)
    requires words { 4 * sectors ≤ length words.now }
    requires body { SECTOR_BYTES * sectors ≤ length body.old }
    ensures { body.new ≡ restored sectors words.now body.old }
{
    for i in 0..sectors {
        put(body, SECTOR_BYTES * i, &words[4 * i..4 * i + 4]);
    }
}
