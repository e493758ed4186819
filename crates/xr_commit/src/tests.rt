//! Rows of logs, each with its live stream or its refusal. The operations' bytes were worked out by hand.
ghost use Rattle.std.specs.Prelude.{◌≡◌, ◌<◌, ◌≤◌, length, drop};
ghost use Rattle.xr_base.specs.Image.{part};
ghost use Rattle.xr_record.specs.Record.{padded_body};

use super::*;
use crate::layout::LOG_BYTES;
use crate::live_stream::live_in;
use std::alloc::{AllocError, Global};
use std::process::Abort;
use std::test::Fail;
use uuid::Uuid;
use xr_base::geometry::{
    BLOCK_BYTES, BLOCKS, CYCLES, FIRST_LOG_BLOCK, LOG_SECTORS, SECTOR_BYTES, SECTORS,
};
use xr_disk::MemDisk;
use xr_headers::fresh_block;
use xr_record::{Entry, Head, Lsn, NO_RECORD_BEFORE, seal};

/// An unmount.
const UNMOUNTED: &[u8] = &[
    0, 0, 0, 0, 0, 0, 0, 8, 0xAA, 0x20, 0, 0, 0x6E, 0x55, 0, 0, 0, 0, 0, 0,
];

/// An unmount beside another.
const IN_COMPANY: &[u8] = &[
    0, 0, 0, 0, 0, 0, 0, 8, 0xAA, 0x20, 0, 0, 0x6E, 0x55, 0, 0, 0, 0, 0, 0, 0, 0, 0, 0, 0, 0, 0, 8,
    0xAA, 0x20, 0, 0, 0x6E, 0x55, 0, 0, 0, 0, 0, 0,
];

/// A transaction of no items: a START, a header and a COMMIT.
const EMPTY: &[u8] = &[
    0, 0, 0, 1, 0, 0, 0, 0, 0x69, 1, 0, 0, 0, 0, 0, 1, 0, 0, 0, 16, 0x69, 0, 0, 0, 0x4E, 0x41,
    0x52, 0x54, 40, 0, 0, 0, 1, 0, 0, 0, 0, 0, 0, 0, 0, 0, 0, 1, 0, 0, 0, 0, 0x69, 2, 0, 0,
];

/// A transaction of one region, which begins no item.
const STRANGE: &[u8] = &[
    0, 0, 0, 1, 0, 0, 0, 0, 0x69, 1, 0, 0, 0, 0, 0, 1, 0, 0, 0, 16, 0x69, 0, 0, 0, 0x4E, 0x41,
    0x52, 0x54, 40, 0, 0, 0, 1, 0, 0, 0, 1, 0, 0, 0, 0, 0, 0, 1, 0, 0, 0, 4, 0x69, 0, 0, 0, 0x99,
    0x99, 1, 0, 0, 0, 0, 1, 0, 0, 0, 0, 0x69, 2, 0, 0,
];

/// A transaction of one region, too short for the item of its type.
const SHORT: &[u8] = &[
    0, 0, 0, 1, 0, 0, 0, 0, 0x69, 1, 0, 0, 0, 0, 0, 1, 0, 0, 0, 16, 0x69, 0, 0, 0, 0x4E, 0x41,
    0x52, 0x54, 40, 0, 0, 0, 1, 0, 0, 0, 1, 0, 0, 0, 0, 0, 0, 1, 0, 0, 0, 4, 0x69, 0, 0, 0, 0x42,
    0x12, 1, 0, 0, 0, 0, 1, 0, 0, 0, 0, 0x69, 2, 0, 0,
];

/// A transaction of one intent, and then one of another with the same id.
const TWICE: &[u8] = &[
    0, 0, 0, 1, 0, 0, 0, 0, 0x69, 1, 0, 0, 0, 0, 0, 1, 0, 0, 0, 16, 0x69, 0, 0, 0, 0x4E, 0x41,
    0x52, 0x54, 40, 0, 0, 0, 1, 0, 0, 0, 2, 0, 0, 0, 0, 0, 0, 1, 0, 0, 0, 32, 0x69, 0, 0, 0, 0x42,
    0x12, 1, 0, 1, 0, 0, 0, 5, 0, 0, 0, 0, 0, 0, 0, 0, 2, 0, 0, 0, 0, 0, 0, 4, 0, 0, 0, 1, 0, 0, 0,
    0, 0, 0, 1, 0, 0, 0, 32, 0x69, 0, 0, 0, 0x42, 0x12, 1, 0, 1, 0, 0, 0, 5, 0, 0, 0, 0, 0, 0, 0,
    0, 2, 0, 0, 0, 0, 0, 0, 4, 0, 0, 0, 1, 0, 0, 0, 0, 0, 0, 1, 0, 0, 0, 0, 0x69, 2, 0, 0,
];

fn lsn(cycle: u32, sector: u32) -> Lsn {
    Lsn { cycle, sector }
}

/// A record of an empty transaction, by its place, its tail and the sector of the record before it.
fn record(at: Lsn, tail: Lsn, prev: u32) -> Head {
    Head {
        lsn: at,
        tail,
        prev,
        ops: 3,
        len: 52,
        uuid: Uuid::NAMESPACE_DNS,
    }
}

/// Two sectors, of which the second holds a body.
fn scratch_for(body: &[u8]) -> [u8; 2 * SECTOR_BYTES]
    requires some { 0 < length body.now }
    requires most { length body.now ≤ SECTOR_BYTES }
    ensures body { part SECTOR_BYTES (length body.now) result ≡ body.now }
    ensures padding { drop SECTOR_BYTES result ≡ padded_body body.now }
{
    let mut out = [0; 2 * SECTOR_BYTES];
    out[SECTOR_BYTES..SECTOR_BYTES + body.len()].copy_from_slice(body);
    out
}

/// Writes a record with this body of at most one sector.
fn put(rt: &impl Abort, log: &mut [u8], head: &Head, body: &[u8]) {
    assert!(rt; body.len() == head.len as usize && head.len > 0 && head.len <= 512);
    assert!(rt; head.lsn.sector < LOG_SECTORS && head.lsn.cycle > 0 && head.lsn.cycle < CYCLES);
    assert!(rt; head.tail.number() <= head.lsn.number());
    let mut out = scratch_for(body);
    seal(head, &mut out);
    let from = SECTOR_BYTES * head.lsn.sector as usize;
    assert!(rt; from + out.len() <= log.len());
    log[from..from + out.len()].copy_from_slice(&out);
}

fn empty_log(alloc: Global) -> Result<Vec<u8>, AllocError> {
    vec![in alloc; 0; LOG_BYTES]
}

/// The heads that are found, by their sectors, and how many entries.
fn found_in(rt: &impl Abort, alloc: Global, log: &[u8]) -> Result<(Vec<u32>, usize), ScanFault> {
    assert!(rt; log.len() == LOG_BYTES);
    let live = live_in(alloc, Uuid::NAMESPACE_DNS, log)?;
    let mut sectors = Vec::new(alloc);
    for head in &live.heads {
        sectors.push(head.lsn.sector)?;
    }
    Ok((sectors, live.entries.len()))
}

/// Writes a block of a fresh image.
fn write_fresh(rt: &impl Abort, image: &mut [u8], block: u32, uuid: &Uuid) {
    let from = BLOCK_BYTES * block as usize;
    assert!(rt; block < BLOCKS && from + BLOCK_BYTES <= image.len());
    fresh_block(block, uuid, 1, &mut image[from..from + BLOCK_BYTES]);
}

#[test]
fn finds_the_unmount_of_a_fresh_image(rt: HostRuntime) -> Result<(), Fail> {
    let mut image = vec![in rt.alloc(); 0; SECTORS as usize * SECTOR_BYTES]?;
    let uuid = Uuid::NAMESPACE_DNS;
    write_fresh(&rt, &mut image, 0, &uuid);
    write_fresh(&rt, &mut image, FIRST_LOG_BLOCK, &uuid);
    assert!(rt; image.len() == SECTORS as usize * SECTOR_BYTES);
    let none = Vec::new(rt.alloc());
    let mut disk = MemDisk::new(rt.alloc(), image, none, None, 4, 0)?;
    let found = live(rt.alloc(), &mut disk)?;
    assert_eq!(rt; found.uuid, uuid);
    let head = Head {
        ops: 1,
        len: 20,
        ..record(lsn(1, 0), lsn(1, 0), NO_RECORD_BEFORE)
    };
    assert_eq!(rt; found.heads.as_slice(), [head].as_slice());
    assert_eq!(rt; found.entries.len(), 1);
    assert!(rt; matches!(found.entries[0], Entry::Unmount));
    Ok(())
}

/// A record at the log's end, the one before the records of the rows.
const FIRST: Head = Head {
    lsn: Lsn {
        cycle: 1,
        sector: 4094,
    },
    tail: Lsn {
        cycle: 1,
        sector: 4094,
    },
    prev: 4092,
    ops: 3,
    len: 52,
    uuid: Uuid::NAMESPACE_DNS,
};

#[test]
fn goes_round_the_log_and_passes_over_what_is_no_record(rt: HostRuntime) -> Result<(), Fail> {
    let mut log = empty_log(rt.alloc())?;
    put(&rt, &mut log, &FIRST, EMPTY);
    put(&rt, &mut log, &record(lsn(2, 0), FIRST.lsn, 4094), EMPTY);
    let foreign = Head {
        uuid: Uuid::NAMESPACE_URL,
        ..record(lsn(3, 9), lsn(3, 9), 0)
    };
    put(&rt, &mut log, &foreign, EMPTY);
    let (sectors, entries) = found_in(&rt, rt.alloc(), &log)?;
    assert_eq!(rt; sectors.as_slice(), [4094, 0].as_slice());
    assert_eq!(rt; entries, 2);
    assert!(rt; log.len() == LOG_BYTES);
    log[SECTOR_BYTES + 9] ^= 1;
    let (sectors, entries) = found_in(&rt, rt.alloc(), &log)?;
    assert_eq!(rt; sectors.as_slice(), [4094].as_slice());
    assert_eq!(rt; entries, 1);
    Ok(())
}

/// A record after the first, and one that is its own tail.
const NEXT: Head = Head {
    lsn: Lsn {
        cycle: 2,
        sector: 16,
    },
    tail: Lsn {
        cycle: 1,
        sector: 4094,
    },
    prev: 4094,
    ops: 3,
    len: 52,
    uuid: Uuid::NAMESPACE_DNS,
};

const ALONE: Head = Head {
    tail: Lsn {
        cycle: 2,
        sector: 16,
    },
    ..NEXT
};

/// The newest record's head and body, and the refusal. The first record has an empty transaction.
const REFUSALS: [(Head, &[u8], ScanFault); 12] = [
    // The chain names a sector past the log's end, then one that holds no record, then the head itself.
    (
        Head { prev: 4096, ..NEXT },
        EMPTY,
        ScanFault::Place { block: 10 },
    ),
    (
        Head { prev: 80, ..NEXT },
        EMPTY,
        ScanFault::Magic { block: 18 },
    ),
    (
        Head { prev: 16, ..NEXT },
        EMPTY,
        ScanFault::Place { block: 10 },
    ),
    // It passes the tail.
    (
        Head {
            tail: Lsn {
                cycle: 1,
                sector: 4095,
            },
            ..NEXT
        },
        EMPTY,
        ScanFault::Place { block: 519 },
    ),
    // An unmount isn't alone, or has another tail, which goes before the rules of operations.
    (
        Head {
            len: 40,
            ops: 2,
            ..ALONE
        },
        IN_COMPANY,
        ScanFault::Place { block: 10 },
    ),
    (
        Head {
            len: 20,
            ops: 7,
            ..NEXT
        },
        UNMOUNTED,
        ScanFault::Place { block: 10 },
    ),
    // Another number of operations, a cut operation, and a bad one.
    (
        Head { ops: 4, ..ALONE },
        EMPTY,
        ScanFault::Operation { block: 10 },
    ),
    (
        Head { len: 51, ..ALONE },
        EMPTY,
        ScanFault::Operation { block: 10 },
    ),
    (
        Head {
            len: 20,
            ops: 1,
            ..NEXT
        },
        EMPTY,
        ScanFault::Operation { block: 10 },
    ),
    // A bad item.
    (
        Head {
            len: 68,
            ops: 4,
            ..NEXT
        },
        STRANGE,
        ScanFault::ItemType { block: 10 },
    ),
    (
        Head {
            len: 68,
            ops: 4,
            ..NEXT
        },
        SHORT,
        ScanFault::Size { block: 10 },
    ),
    (
        Head {
            len: 140,
            ops: 5,
            ..NEXT
        },
        TWICE,
        ScanFault::Field { block: 10 },
    ),
];

#[test]
fn refuses_by_the_first_broken_rule(rt: HostRuntime) -> Result<(), Fail> {
    let mut log = empty_log(rt.alloc())?;
    assert_eq!(rt;
        found_in(&rt, rt.alloc(), &log).err(),
        Some(ScanFault::Magic { block: 8 })
    );
    put(&rt, &mut log, &FIRST, EMPTY);
    for (head, body, fault) in REFUSALS {
        let len = head.len as usize;
        assert!(rt; len <= body.len());
        put(&rt, &mut log, &head, &body[..len]);
        assert_eq!(rt; found_in(&rt, rt.alloc(), &log).err(), Some(fault));
    }
    // A bad item is named by the record in which it begins, which is the first one here.
    let strange = Head {
        len: 68,
        ops: 4,
        ..FIRST
    };
    put(&rt, &mut log, &strange, STRANGE);
    put(&rt, &mut log, &NEXT, EMPTY);
    assert_eq!(rt;
        found_in(&rt, rt.alloc(), &log).err(),
        Some(ScanFault::ItemType { block: 519 })
    );
    Ok(())
}

/// A byte of the first record that is changed, and the refusal of the chain that comes to it.
const DAMAGES: [(usize, u8, ScanFault); 4] = [
    (0, 0, ScanFault::Magic { block: 519 }),
    (11, 1, ScanFault::Version { block: 519 }),
    (14, 0x90, ScanFault::Length { block: 519 }),
    (43, 4, ScanFault::Checksum { block: 519 }),
];

/// Changes a byte of the first record's header.
fn damage(rt: &impl Abort, log: &mut [u8], place: usize, value: u8) {
    assert!(rt; place < SECTOR_BYTES && log.len() == LOG_BYTES);
    log[SECTOR_BYTES * 4094 + place] = value;
}

#[test]
fn refuses_what_the_chain_comes_to(rt: HostRuntime) -> Result<(), Fail> {
    let mut log = empty_log(rt.alloc())?;
    put(&rt, &mut log, &NEXT, EMPTY);
    for (place, value, fault) in DAMAGES {
        put(&rt, &mut log, &FIRST, EMPTY);
        damage(&rt, &mut log, place, value);
        assert_eq!(rt; found_in(&rt, rt.alloc(), &log).err(), Some(fault));
    }
    let foreign = Head {
        uuid: Uuid::NAMESPACE_URL,
        ..FIRST
    };
    put(&rt, &mut log, &foreign, EMPTY);
    assert_eq!(rt;
        found_in(&rt, rt.alloc(), &log).err(),
        Some(ScanFault::Place { block: 519 })
    );
    Ok(())
}

/// The head ends at sector 2, so its room is sectors 2 to 91: where the first record stands, and whether it lies there.
const ROOMS: [(u32, Option<ScanFault>); 2] = [
    (91, Some(ScanFault::Length { block: 8 })),
    (92, None),
];

#[test]
fn needs_room_after_the_head(rt: HostRuntime) -> Result<(), Fail> {
    for (tail, fault) in ROOMS {
        let mut log = empty_log(rt.alloc())?;
        put(&rt, &mut log, &record(lsn(1, tail), lsn(1, tail), 0), EMPTY);
        put(&rt, &mut log, &record(lsn(2, 0), lsn(1, tail), tail), EMPTY);
        assert_eq!(rt; found_in(&rt, rt.alloc(), &log).err(), fault);
    }
    Ok(())
}

#[test]
fn tells_how_a_log_ends(rt: HostRuntime) -> Result<(), Fail> {
    let uuid = Uuid::NAMESPACE_DNS;
    let mut log = empty_log(rt.alloc())?;
    assert!(rt; log.len() == LOG_BYTES);
    assert_eq!(rt; log_end(rt.alloc(), &uuid, &log)?, LogEnd::Empty);
    put(&rt, &mut log, &FIRST, EMPTY);
    assert!(rt; log.len() == LOG_BYTES);
    assert_eq!(rt;
        log_end(rt.alloc(), &uuid, &log)?,
        LogEnd::InUse { lsn: FIRST.lsn }
    );
    let unmount = Head {
        ops: 1,
        len: 20,
        ..ALONE
    };
    put(&rt, &mut log, &unmount, UNMOUNTED);
    assert!(rt; log.len() == LOG_BYTES);
    assert_eq!(rt; log_end(rt.alloc(), &uuid, &log)?, LogEnd::Unmounted);
    Ok(())
}
