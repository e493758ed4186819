//! Rows of logs, each with what a scan finds of it. The items' bytes were worked out by hand.
ghost use Rattle.std.specs.Prelude.{◌≡◌, length};
ghost use Rattle.xr_record.specs.Record.{IsGoodHead};

use super::*;
use std::alloc::{AllocError, Global};
use std::process::Abort;
use std::test::Fail;
use uuid::Uuid;
use xr_base::geometry::{
    BLOCK_BYTES, BLOCK_SECTORS, BLOCKS, CYCLES, FIRST_LOG_BLOCK, LOG_SECTORS, SECTOR_BYTES, SECTORS,
};
use xr_base::{FileNo, GroupNo};
use xr_commit::ScanFault;
use xr_disk::{Disk, MemDisk};
use xr_headers::fresh_block;
use xr_headers::layout::CORE_BYTES;
use xr_record::layout::{COMMIT, START, TRANSACTION_CLIENT};
use xr_record::{Head, Lsn, NO_RECORD_BEFORE, Packer, seal};

const UUID: Uuid = Uuid::NAMESPACE_DNS;

/// The first pool block of file 0, the core of file 1, and the header of group 3, and the bytes that stand there at home.
const HOMES: [u32; 3] = [521, 528, 6920];

const HOME: u8 = 9;

/// The items that log these blocks. A byte is given with each, with which the block is filled.
const POOL: &[u8] =
    b"\x3C\x12\x02\x00\x00\x00\x08\x00\x48\x10\x00\x00\x00\x00\x00\x00\x01\x00\x00\x00\xFF\xFF\xFF\xFF";

const CORE: &[u8] = b"\x3B\x12\x02\x00\x00\x00\x00\x00\x81\x00\x00\x00\x00\x00\x00\x00";

const HEADER: &[u8] =
    b"\x3C\x12\x02\x00\x00\x00\x08\x00\x40\xD8\x00\x00\x00\x00\x00\x00\x01\x00\x00\x00\xFF\xFF\xFF\xFF";

/// Intents to free blocks and to raise their counts, and items that say that such works are done. A byte is given with each,
/// which is its id.
const FREE: &[u8] =
    b"\x36\x12\x01\x00\x01\x00\x00\x00\x00\x00\x00\x00\x00\x00\x00\x00\x00\x0A\x00\x00\x00\x00\x00\x00\x03\x00\x00\x00\x00\x00\x00\x00";

const FREED: &[u8] =
    b"\x37\x12\x01\x00\x01\x00\x00\x00\x00\x00\x00\x00\x00\x00\x00\x00\x00\x0A\x00\x00\x00\x00\x00\x00\x03\x00\x00\x00\x00\x00\x00\x00";

const RAISE: &[u8] =
    b"\x42\x12\x01\x00\x01\x00\x00\x00\x00\x00\x00\x00\x00\x00\x00\x00\x00\x02\x00\x00\x00\x00\x00\x00\x04\x00\x00\x00\x01\x00\x00\x00";

const RAISED: &[u8] = b"\x43\x12\x01\x00\x00\x00\x00\x00\x00\x00\x00\x00\x00\x00\x00\x00";

const MAPPED: &[u8] = b"\x45\x12\x01\x00\x00\x00\x00\x00\x00\x00\x00\x00\x00\x00\x00\x00";

fn push(rt: &impl Abort, packer: &mut Packer, flags: u8, region: &[u8]) {
    assert!(rt; packer.push(1, TRANSACTION_CLIENT, flags, region, 0) == Some(region.len()));
}

/// The core of file 1, and zeros after it.
fn core_block() -> [u8; BLOCK_BYTES] {
    let mut block = [0; BLOCK_BYTES];
    fresh_block(HOMES[1], &UUID, 1, &mut block);
    block
}

fn push_core(rt: &impl Abort, packer: &mut Packer, block: &[u8]) {
    assert!(rt; CORE_BYTES <= block.len());
    push(rt, packer, 0, &block[..CORE_BYTES]);
}

/// Pushes an item, and the region that follows it.
fn push_item(rt: &impl Abort, packer: &mut Packer, item: &[u8], byte: u8) {
    let mut bytes = [0; 32];
    assert!(rt; 9 <= item.len() && item.len() <= bytes.len());
    let region = &mut bytes[..item.len()];
    region.copy_from_slice(item);
    match item[0] {
        0x3C => {
            push(rt, packer, 0, region);
            push(rt, packer, 0, &[byte; BLOCK_BYTES]);
        }
        0x3B => {
            push(rt, packer, 0, region);
            push_core(rt, packer, &core_block());
        }
        _ => {
            region[8] = byte;
            push(rt, packer, 0, region);
        }
    }
}

/// Pushes a transaction up to its COMMIT, by the number of its regions.
fn push_open(rt: &impl Abort, packer: &mut Packer, regions: u8, items: &[(&[u8], u8)]) {
    let header = [
        0x4E, 0x41, 0x52, 0x54, 40, 0, 0, 0, 1, 0, 0, 0, regions, 0, 0, 0,
    ];
    push(rt, packer, START, &[]);
    push(rt, packer, 0, &header);
    for (item, byte) in items {
        push_item(rt, packer, item, *byte);
    }
}

fn push_whole(rt: &impl Abort, packer: &mut Packer, regions: u8, items: &[(&[u8], u8)]) {
    push_open(rt, packer, regions, items);
    push(rt, packer, COMMIT, &[]);
}

/// The sectors of a record with this body.
fn sealed(alloc: Global, head: &Head, body: &[u8]) -> Result<Vec<u8>, AllocError>
    requires good { IsGoodHead head.now }
    requires len { length body.now ≡ head.now.len }
{
    let mut out = vec![in alloc; 0; SECTOR_BYTES]?;
    out.extend_from_slice(body)?;
    let rest = SECTOR_BYTES * body.len().div_ceil(SECTOR_BYTES) - body.len();
    let padding = vec![in alloc; 0; rest]?;
    out.extend_from_slice(&padding)?;
    seal(head, &mut out);
    Ok(out)
}

/// Writes a record at a place with what was packed, and scans the image then. Its tail is the log's begin in the same round.
fn scan_of(
    rt: &impl Abort,
    alloc: Global,
    disk: &mut MemDisk,
    packer: &Packer,
    lsn: Lsn,
    prev: u32,
) -> Result<Scanned, ScanFault> {
    let body = packer.body();
    let tail = Lsn { sector: 0, ..lsn };
    assert!(rt;
        !body.is_empty() && lsn.sector < LOG_SECTORS && lsn.cycle > 0 && lsn.cycle < CYCLES
    );
    assert!(rt; tail.number() <= lsn.number());
    let head = Head {
        lsn,
        tail,
        prev,
        ops: packer.ops(),
        len: body.len() as u32,
        uuid: UUID,
    };
    let bytes = sealed(alloc, &head, body)?;
    let at = BLOCK_SECTORS * FIRST_LOG_BLOCK + lsn.sector;
    assert!(rt; !bytes.is_empty() && bytes.len() % SECTOR_BYTES == 0);
    assert!(rt; SECTOR_BYTES * at as usize + bytes.len() <= SECTOR_BYTES * SECTORS as usize);
    assert!(rt; disk.write(at, &bytes).is_ok());
    scan(alloc, disk)
}

fn put_fresh(rt: &impl Abort, image: &mut [u8], block: u32) {
    let from = BLOCK_BYTES * block as usize;
    assert!(rt; block < BLOCKS && from + BLOCK_BYTES <= image.len());
    fresh_block(block, &UUID, 1, &mut image[from..from + BLOCK_BYTES]);
}

fn put_home(rt: &impl Abort, image: &mut [u8], block: u32) {
    let from = BLOCK_BYTES * block as usize;
    assert!(rt; from + BLOCK_BYTES <= image.len());
    image[from..from + BLOCK_BYTES].fill(HOME);
}

/// A disk with a fresh superblock and log, and three blocks at home.
fn disk(rt: &impl Abort, alloc: Global) -> Result<MemDisk, Fail> {
    let mut image = vec![in alloc; 0; SECTORS as usize * SECTOR_BYTES]?;
    for block in [0, FIRST_LOG_BLOCK] {
        put_fresh(rt, &mut image, block);
    }
    for block in HOMES {
        put_home(rt, &mut image, block);
    }
    assert!(rt; image.len() == SECTORS as usize * SECTOR_BYTES);
    let none = Vec::new(alloc);
    Ok(MemDisk::new(alloc, image, none, None, 100, 100_000)?)
}

/// Where nothing is logged, each block is as it is at home.
fn finds_a_fresh_log_clean(
    rt: &impl Abort,
    alloc: Global,
    disk: &mut MemDisk,
) -> Result<(), ScanFault> {
    let found = scan(alloc, disk)?;
    let begin = Lsn {
        cycle: 1,
        sector: 0,
    };
    assert!(rt; found.clean && !found.ends_open && found.uuid == UUID && found.head == begin);
    assert!(rt; found.last.len == 20 && found.next == 1 && found.pending.is_empty());
    assert!(rt; found.file(FileNo(0))[BLOCK_BYTES] == HOME);
    assert!(rt; found.file(FileNo(1))[BLOCK_BYTES - 1] == HOME);
    assert!(rt; found.file(FileNo(1))[BLOCK_BYTES] == 0);
    assert!(rt; found.group(GroupNo(3))[0] == HOME && found.group(GroupNo(3))[BLOCK_BYTES] == 0);
    Ok(())
}

/// The last of three images of a block counts, a core has zeros after it, and a transaction that isn't ended logs nothing.
fn lays_the_last_image_of_a_whole_transaction(
    rt: &impl Abort,
    alloc: Global,
    disk: &mut MemDisk,
    packer: &mut Packer,
) -> Result<(), ScanFault> {
    packer.clear();
    push_whole(rt, packer, 4, &[(POOL, 1), (POOL, 2)]);
    push_whole(rt, packer, 4, &[(HEADER, 5), (CORE, 0)]);
    push_whole(rt, packer, 2, &[(POOL, 3)]);
    push_open(rt, packer, 2, &[(POOL, 4)]);
    let lsn = Lsn {
        cycle: 2,
        sector: 0,
    };
    let found = scan_of(rt, alloc, disk, packer, lsn, NO_RECORD_BEFORE)?;
    assert!(rt; !found.clean && found.ends_open && found.head == lsn);
    let file = found.file(FileNo(0));
    assert!(rt; file[BLOCK_BYTES] == 3 && file[2 * BLOCK_BYTES - 1] == 3);
    assert!(rt; file[2 * BLOCK_BYTES] == 0);
    assert!(rt; found.file(FileNo(1)).starts_with(&core_block()));
    assert!(rt; found.group(GroupNo(3))[BLOCK_BYTES - 1] == 5);
    assert!(rt; found.dirty.iter().filter(|dirty| **dirty).count() == 3);
    Ok(())
}

/// The transactions of a row with their regions; whether the last one is ended; and the ids of works that are then pending,
/// and the next id. In all rows the greatest id stands in the first transaction.
type Row = (
    &'static [(&'static [u8], u8)],
    &'static [(&'static [u8], u8)],
    &'static [u64],
    u64,
);

const ROWS: [Row; 3] = [
    // An intent that is ended, one that is ended by another kind, and one that isn't ended; and what ends none.
    (
        &[(FREE, 5), (RAISE, 6), (FREE, 7)],
        &[(FREED, 5), (FREED, 6), (MAPPED, 2)],
        &[6, 7],
        8,
    ),
    // An item that ends what isn't there has the greatest id.
    (&[(MAPPED, 9), (RAISE, 3)], &[(RAISED, 3)], &[], 10),
    // An item before an intent doesn't end it.
    (&[(RAISED, 4)], &[(RAISE, 4)], &[4], 5),
];

fn keeps_what_no_later_item_of_its_kind_ends(
    rt: &impl Abort,
    alloc: Global,
    disk: &mut MemDisk,
    packer: &mut Packer,
) -> Result<(), ScanFault> {
    let mut cycle = 3;
    for (first, second, ids, next) in ROWS {
        packer.clear();
        push_whole(rt, packer, first.len() as u8, first);
        push_whole(rt, packer, second.len() as u8, second);
        let lsn = Lsn { cycle, sector: 0 };
        let found = scan_of(rt, alloc, disk, packer, lsn, NO_RECORD_BEFORE)?;
        assert!(rt; !found.clean && !found.ends_open && found.next == next);
        assert!(rt; found.pending.len() == ids.len());
        for (pending, id) in found.pending.iter().zip(ids) {
            assert!(rt; pending.id == *id);
        }
        cycle = cycle.saturating_add(1);
    }
    Ok(())
}

/// So many intents are pending, one in each transaction.
fn scan_pending(
    rt: &impl Abort,
    alloc: Global,
    disk: &mut MemDisk,
    packer: &mut Packer,
    cycle: u32,
    count: u8,
) -> Result<Scanned, ScanFault> {
    packer.clear();
    for id in 0..count {
        push_whole(rt, packer, 1, &[(FREE, id + 1)]);
    }
    let lsn = Lsn { cycle, sector: 0 };
    scan_of(rt, alloc, disk, packer, lsn, NO_RECORD_BEFORE)
}

#[test]
fn scans_logs(rt: HostRuntime) -> Result<(), Fail> {
    let alloc = rt.alloc();
    let mut disk = disk(&rt, alloc)?;
    let mut packer = Packer::new(alloc)?;
    finds_a_fresh_log_clean(&rt, alloc, &mut disk)?;
    // A record behind the unmount record, whose tail that one is, with a transaction that doesn't end.
    push_open(&rt, &mut packer, 1, &[]);
    let behind = Lsn {
        cycle: 1,
        sector: 2,
    };
    let found = scan_of(&rt, alloc, &mut disk, &packer, behind, 0)?;
    assert!(rt; !found.clean && found.ends_open && found.head == behind);
    lays_the_last_image_of_a_whole_transaction(&rt, alloc, &mut disk, &mut packer)?;
    keeps_what_no_later_item_of_its_kind_ends(&rt, alloc, &mut disk, &mut packer)?;
    let found = scan_pending(&rt, alloc, &mut disk, &mut packer, 7, 128)?;
    assert!(rt; found.pending.len() == 128 && found.next == 129);
    let many = scan_pending(&rt, alloc, &mut disk, &mut packer, 8, 129);
    assert_eq!(rt; many.err(), Some(ScanFault::Debt { block: 8 }));
    Ok(())
}
