//! A log with an item of each kind, and what `show` prints of it.
ghost use Rattle.std.specs.Prelude.{◌≡◌, length};
ghost use Rattle.xr_record.specs.Record.{IsGoodHead};

use crate::image::UUID;
use crate::tests::{blank, leaves};
use std::alloc::{AllocError, Global};
use std::process::Abort;
use std::test::Fail;
use uuid::Uuid;
use xr_base::geometry::{BLOCK_BYTES, SECTOR_BYTES};
use xr_cmd::mkfs;
use xr_disk::{Disk, MemDisk};
use xr_headers::layout::CORE_BYTES;
use xr_items::layout::LONGEST_REGION;
use xr_items::{Item, put, take};
use xr_record::layout::{COMMIT, START, TRANSACTION_CLIENT};
use xr_record::{Head, Lsn, seal};

/// The format regions of items, and their lines. Of the intents 2 and 5 only done items of other kinds name the ids.
const ITEMS: [(&[u8], &str); 12] = [
    (
        b"\x3C\x12\x02\x00\x00\x00\x08\x00\x48\x10\x00\x00\x00\x00\x00\x00\x01\x00\x00\x00\xFF\xFF\xFF\xFF",
        "buf 4168\n",
    ),
    (
        b"\x3B\x12\x02\x00\x00\x00\x00\x00\x83\x00\x00\x00\x00\x00\x00\x00",
        "inode 131\n",
    ),
    (
        b"\x36\x12\x01\x00\x01\x00\x00\x00\x01\x00\x00\x00\x00\x00\x00\x00\x00\x0A\x00\x00\x00\x00\x00\x00\x03\x00\x00\x00\x00\x00\x00\x00",
        "efi 1 2560 3\n",
    ),
    (
        b"\x40\x12\x01\x00\x01\x00\x00\x00\x02\x00\x00\x00\x00\x00\x00\x00\xF7\xFF\xFF\xFF\xFF\xFF\xFF\xFF\x00\x02\x00\x00\x00\x00\x00\x00\x00\x00\x00\x00\x00\x00\x00\x00\x00\x06\x00\x00\x07\x00\x00\x00",
        "rui 2 7 18446744073709551607 512 0 1536\n",
    ),
    (
        b"\x42\x12\x01\x00\x01\x00\x00\x00\x05\x00\x00\x00\x00\x00\x00\x00\x00\x02\x00\x00\x00\x00\x00\x00\x04\x00\x00\x00\x01\x00\x00\x00",
        "cui 5 1 512 4\n",
    ),
    (
        b"\x44\x12\x01\x00\x01\x00\x00\x00\x07\x00\x00\x00\x00\x00\x00\x00\x81\x00\x00\x00\x00\x00\x00\x00\xFE\x1F\x00\x00\x00\x00\x00\x00\xFE\x01\x00\x00\x00\x00\x00\x00\x02\x00\x00\x00\x02\x00\x00\x00",
        "bui 7 2 129 8190 510 2\n",
    ),
    (
        b"\x48\x12\x01\x00\x00\x00\x00\x00\x09\x00\x00\x00\x00\x00\x00\x00\x80\x00\x00\x00\x00\x00\x00\x00\x9F\x00\x00\x00\x00\x00\x00\x00\x00\x00\x00\x00\x00\x00\x00\x00\x00\x01\x00\x00\x00\x00\x00\x00\x00\x01\x00\x00\x00\x00\x00\x00",
        "xmi 9 128 0 159 256 256\n",
    ),
    (
        b"\x37\x12\x01\x00\x01\x00\x00\x00\x01\x00\x00\x00\x00\x00\x00\x00\x00\x0A\x00\x00\x00\x00\x00\x00\x03\x00\x00\x00\x00\x00\x00\x00",
        "efd 1\n",
    ),
    (
        b"\x41\x12\x01\x00\x00\x00\x00\x00\x05\x00\x00\x00\x00\x00\x00\x00",
        "rud 5\n",
    ),
    (
        b"\x43\x12\x01\x00\x00\x00\x00\x00\x02\x00\x00\x00\x00\x00\x00\x00",
        "cud 2\n",
    ),
    (
        b"\x45\x12\x01\x00\x00\x00\x00\x00\x07\x00\x00\x00\x00\x00\x00\x00",
        "bud 7\n",
    ),
    (
        b"\x49\x12\x01\x00\x00\x00\x00\x00\x09\x00\x00\x00\x00\x00\x00\x00",
        "xmd 9\n",
    ),
];

/// The header of a transaction with 14 regions.
const HEADER: &[u8] = b"\x4E\x41\x52\x54\x28\x00\x00\x00\x01\x00\x00\x00\x0E\x00\x00\x00";

/// Appends an operation of transaction 1.
fn add(rt: &impl Abort, body: &mut Vec<u8>, flags: u8, region: &[u8]) -> Result<(), AllocError> {
    assert!(rt; region.len() <= BLOCK_BYTES);
    body.extend_from_slice(&1u32.to_be_bytes())?;
    body.extend_from_slice(&(region.len() as u32).to_be_bytes())?;
    body.extend_from_slice(&[TRANSACTION_CLIENT, flags, 0, 0])?;
    body.extend_from_slice(region)?;
    Ok(())
}

/// Appends an item, as it is written of what was read of it, and the region that follows it.
fn add_item(
    rt: &impl Abort,
    body: &mut Vec<u8>,
    bytes: &[u8],
    core: &[u8; SECTOR_BYTES],
) -> Result<(), Fail> {
    let mut region = [0; LONGEST_REGION];
    let item = take(bytes)?;
    let length = put(&item, &mut region);
    add(rt, body, 0, &region[..length])?;
    match item {
        Item::Buf { .. } => add(rt, body, 0, &[0xA5; BLOCK_BYTES])?,
        Item::Inode { .. } => add(rt, body, 0, &core[..CORE_BYTES])?,
        _ => (),
    }
    Ok(())
}

/// The operations of a transaction with all items.
fn transaction(rt: &impl Abort, alloc: Global, core: &[u8; SECTOR_BYTES]) -> Result<Vec<u8>, Fail> {
    let mut body = Vec::new(alloc);
    add(rt, &mut body, START, &[])?;
    add(rt, &mut body, 0, HEADER)?;
    for (bytes, _) in ITEMS {
        add_item(rt, &mut body, bytes, core)?;
    }
    add(rt, &mut body, COMMIT, &[])?;
    Ok(body)
}

/// What is printed of its record, which stands at sector 2.
fn printed(alloc: Global) -> Result<String, AllocError> {
    let mut text = String::from_str(alloc, "record 1:2 1:2 4732 17\ntrans 1 12\n")?;
    for (_, line) in ITEMS {
        text.push_str(line)?;
    }
    text.push_str("pending 2\n")?;
    Ok(text)
}

/// The sectors of a record with this body.
pub(crate) fn sealed(alloc: Global, head: &Head, body: &[u8]) -> Result<Vec<u8>, AllocError>
    requires good { IsGoodHead head.now }
    requires len { length body.now ≡ head.now.len }
{
    let mut out = vec![in alloc; 0; SECTOR_BYTES]?;
    out.extend_from_slice(body)?;
    let rest = SECTOR_BYTES * body.len().div_ceil(SECTOR_BYTES) - body.len();
    let padding = vec![in alloc; 0; rest]?;
    out.extend_from_slice(&padding)?;
    seal(head, &mut out);
    Ok(out)
}

/// Writes the record behind that of a fresh image. Its first item's block and core are those of files 0 and 3.
fn write_record(
    rt: &impl Abort,
    alloc: Global,
    disk: &mut MemDisk,
    uuid: Uuid,
) -> Result<(), Fail> {
    let mut core = [0; SECTOR_BYTES];
    assert_eq!(rt; disk.read(544 * 8, &mut core), Ok(()));
    let body = transaction(rt, alloc, &core)?;
    assert!(rt; body.len() == 4732);
    let at = Lsn {
        cycle: 1,
        sector: 2,
    };
    let head = Head {
        lsn: at,
        tail: at,
        prev: 0,
        ops: 17,
        len: 4732,
        uuid,
    };
    let record = sealed(alloc, &head, &body)?;
    assert!(rt; record.len() == 11 * SECTOR_BYTES);
    assert_eq!(rt; disk.write(66, &record), Ok(()));
    Ok(())
}

#[test]
fn shows_an_item_of_each_kind(rt: HostRuntime) -> Result<(), Fail> {
    let alloc = rt.alloc();
    let mut disk = blank(alloc, &[], None, 40_000, 40_000_000)?;
    let uuid = Uuid::parse_str(UUID)?;
    assert!(rt; mkfs(&mut disk, &uuid, 1).is_ok());
    write_record(&rt, alloc, &mut disk, uuid)?;
    let text = printed(alloc)?;
    leaves(&rt, disk, &["show", "IMG", "log"], (0, text.as_str()))?;
    Ok(())
}
