//! Each kind of record with its bytes and keys written out.

use crate::{ByBlock, BySize, Mapping, Record, Reference, Reverse};
use std::process::Abort;
use xr_base::geometry::OWN_COW;

/// The greatest number of bytes of a record and of a key.
const MOST_BYTES: usize = 24;

/// A record is written and read as these bytes, and has these keys.
fn stands_as<R: Record + PartialEq>(
    rt: &impl Abort,
    record: R,
    bytes: &[u8],
    low: &[u8],
    high: &[u8],
) {
    let mut out = [0; MOST_BYTES];
    assert!(rt; record.valid());
    assert!(rt; R::SIZE <= MOST_BYTES && R::LOW <= MOST_BYTES && R::HIGH <= MOST_BYTES);
    assert!(rt; bytes.len() == R::SIZE);
    record.put(&mut out[..R::SIZE]);
    assert!(rt; out[..R::SIZE] == bytes[..]);
    record.put_low(&mut out[..R::LOW]);
    assert!(rt; out[..R::LOW] == low[..]);
    record.put_high(&mut out[..R::HIGH]);
    assert!(rt; out[..R::HIGH] == high[..]);
    assert!(rt; R::take(bytes) == Some(record));
}

#[test]
fn free_runs_stand_as_their_bytes(rt: HostRuntime) {
    let bytes = b"\x00\x00\x02\x00\x00\x00\x06\x00";
    let start = 512;
    let len = 1536;
    stands_as(&rt, ByBlock { start, len }, bytes, bytes, b"");
    stands_as(&rt, BySize { start, len }, bytes, bytes, b"");
    assert!(rt; ByBlock::take(b"\x00\x00\x02\x01\x00\x00\x06\x00").is_none());
}

#[test]
fn reverse_records_stand_as_their_bytes(rt: HostRuntime) {
    stands_as(
        &rt,
        Reverse {
            start: 512,
            len: 4,
            owner: 128,
            off: 0,
        },
        b"\x00\x00\x02\x00\x00\x00\x00\x04\x00\x00\x00\x00\x00\x00\x00\x80\x00\x00\x00\x00\x00\x00\x00\x00",
        b"\x00\x00\x02\x00\x00\x00\x00\x00\x00\x00\x00\x80\x00\x00\x00\x00\x00\x00\x00\x00",
        b"\x00\x00\x02\x03\x00\x00\x00\x00\x00\x00\x00\x80\x00\x00\x00\x00\x00\x00\x00\x03",
    );
    stands_as(
        &rt,
        Reverse {
            start: 514,
            len: 2,
            owner: OWN_COW,
            off: 0,
        },
        b"\x00\x00\x02\x02\x00\x00\x00\x02\xff\xff\xff\xff\xff\xff\xff\xf7\x00\x00\x00\x00\x00\x00\x00\x00",
        b"\x00\x00\x02\x02\xff\xff\xff\xff\xff\xff\xff\xf7\x00\x00\x00\x00\x00\x00\x00\x00",
        b"\x00\x00\x02\x03\xff\xff\xff\xff\xff\xff\xff\xf7\x00\x00\x00\x00\x00\x00\x00\x00",
    );
}

#[test]
fn running_reverse_records_do_not_agree(rt: HostRuntime) {
    let first = Reverse {
        start: 512,
        len: 4,
        owner: 128,
        off: 0,
    };
    let between = Reverse {
        start: 514,
        len: 1,
        owner: 129,
        off: 9,
    };
    let last = Reverse {
        start: 516,
        len: 4,
        owner: 128,
        off: 4,
    };
    assert!(rt; first.agrees(&between) && between.agrees(&last));
    assert!(rt; first.meets(&between) && !first.agrees(&last));
}

#[test]
fn reference_records_stand_as_their_bytes(rt: HostRuntime) {
    stands_as(
        &rt,
        Reference {
            start: 516,
            len: 2,
            count: 1,
            staged: true,
        },
        b"\x80\x00\x02\x04\x00\x00\x00\x02\x00\x00\x00\x01",
        b"\x80\x00\x02\x04",
        b"",
    );
    stands_as(
        &rt,
        Reference {
            start: 512,
            len: 4,
            count: 32_768,
            staged: false,
        },
        b"\x00\x00\x02\x00\x00\x00\x00\x04\x00\x00\x80\x00",
        b"\x00\x00\x02\x00",
        b"",
    );
    assert!(rt; Reference::take(b"\x80\x00\x02\x04\x00\x00\x00\x02\x00\x00\x00\x02").is_none());
}

#[test]
fn extents_stand_as_their_bytes(rt: HostRuntime) {
    stands_as(
        &rt,
        Mapping {
            off: 4,
            at: 2560,
            len: 2,
        },
        b"\x00\x00\x00\x00\x00\x00\x08\x00\x00\x00\x00\x01\x40\x00\x00\x02",
        b"\x00\x00\x00\x00\x00\x00\x00\x04",
        b"",
    );
    assert!(rt;
        Mapping::take(b"\x80\x00\x00\x00\x00\x00\x08\x00\x00\x00\x00\x01\x40\x00\x00\x02").is_none()
    );
}
