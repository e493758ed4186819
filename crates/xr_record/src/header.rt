//! The fields of a record's header, each at its place.
ghost use Rattle.std.specs.Prelude.{◌≡◌, ◌+◌, ◌≤◌, ◌++◌, length, take, drop};
ghost use Rattle.byteorder.specs.Endian.{big_bytes};
ghost use Rattle.xr_base.specs.declared.geometry.TheConstants.{SECTOR_BYTES};
ghost use Rattle.xr_record.specs.declared.layout.TheConstants.{WORDS_BYTES};
ghost use Rattle.xr_record.specs.Record.{fields_before, fields_after};

use crate::bytes::{put, put_word};
use crate::head::Head;
use crate::layout::{
    CYCLE_PLACE, LEN_PLACE, OPS_PLACE, PREV_PLACE, VERSION_PLACE, WORDS_PLACE, ZEROS_BYTES,
    ZEROS_PLACE,
};
use xr_base::layout::{
    MAX_BODY_BYTES, RECORD_CRC_PLACE, RECORD_FORMAT, RECORD_FORMAT_PLACE, RECORD_LSN_PLACE,
    RECORD_MAGIC, RECORD_SIZE_PLACE, RECORD_TAIL_PLACE, RECORD_UUID_PLACE, RECORD_VERSION,
};

/// Writes the fields before the words. The one of the checksum is zero.
fn put_fields_before(header: &mut [u8], head: &Head)
    requires { WORDS_PLACE ≤ length header.old }
    ensures front { take WORDS_PLACE header.new ≡ fields_before head.now 0 }
    ensures rest { drop WORDS_PLACE header.new ≡ drop WORDS_PLACE header.old }
{
    put_word(header, 0, RECORD_MAGIC);
    put_word(header, CYCLE_PLACE, head.lsn.cycle);
    put_word(header, VERSION_PLACE, RECORD_VERSION);
    put_word(header, LEN_PLACE, head.len);
    put_word(header, RECORD_LSN_PLACE, head.lsn.cycle);
    put_word(header, RECORD_LSN_PLACE + 4, head.lsn.sector);
    put_word(header, RECORD_TAIL_PLACE, head.tail.cycle);
    put_word(header, RECORD_TAIL_PLACE + 4, head.tail.sector);
    put_word(header, RECORD_CRC_PLACE, 0);
    put_word(header, PREV_PLACE, head.prev);
    put_word(header, OPS_PLACE, head.ops);
}

/// Writes the fields after the words.
fn put_fields_after(header: &mut [u8], head: &Head)
    requires { length header.old ≡ SECTOR_BYTES }
    ensures { header.new ≡ take RECORD_FORMAT_PLACE header.old ++ fields_after head.now }
{
    put_word(header, RECORD_FORMAT_PLACE, RECORD_FORMAT);
    put(header, RECORD_UUID_PLACE, head.uuid.as_bytes());
    put_word(header, RECORD_SIZE_PLACE, MAX_BODY_BYTES as u32);
    put(header, ZEROS_PLACE, &[0; ZEROS_BYTES]);
}

/// Writes a header with these words. Its checksum is zero.
pub fn put_header(header: &mut [u8], head: &Head, words: &[u8])
    requires room { length header.old ≡ SECTOR_BYTES }
    requires words { length words.now ≡ WORDS_BYTES }
    ensures { header.new ≡ fields_before head.now 0 ++ words.now ++ fields_after head.now }
{
    put_fields_before(header, head);
    put(header, WORDS_PLACE, words);
    put_fields_after(header, head);
}
