//! A fresh image on a disk in memory, whole and with a block changed.
ghost use Rattle.std.specs.Prelude.{◌≡◌, ◌*◌, length};
ghost use Rattle.xr_base.specs.declared.geometry.TheConstants.{SECTOR_BYTES};
ghost use Rattle.xr_record.specs.Record.{IsGoodHead};

use crate::fault::{Broken, CheckFault};
use crate::tests::{identifier, put, put_runs};
use crate::{TreeName, Verdict, check, load};
use std::alloc::Global;
use std::process::Abort;
use std::test::Fail;
use xr_base::geometry::{
    BLOCK_BYTES, BLOCK_SECTORS, BLOCKS, FIRST_DATA_BLOCK, FIRST_GROUP_BLOCK, GROUP_BLOCKS,
};
use xr_base::{Addr, GroupNo};
use xr_disk::{Disk, MemDisk};
use xr_headers::fresh_block;
use xr_record::{Head, Lsn, seal};

/// Whether no file maps the block: fresh data blocks are zeros.
fn is_kept(block: u32) -> bool {
    block < FIRST_GROUP_BLOCK || (block - FIRST_GROUP_BLOCK) % GROUP_BLOCKS < FIRST_DATA_BLOCK
}

fn fill_fresh(rt: &impl Abort, image: &mut [u8]) {
    for block in 0..BLOCKS {
        if is_kept(block) {
            let mut bytes = [0; BLOCK_BYTES];
            fresh_block(block, &identifier(), 1, &mut bytes);
            put(rt, image, BLOCK_BYTES * block as usize, &bytes);
        }
    }
}

/// A fresh image on a disk of which these calls fail.
fn fresh_disk(rt: &impl Abort, alloc: Global, fails: &[u64]) -> Result<MemDisk, Fail> {
    let mut image = vec![in alloc; 0; BLOCK_BYTES * BLOCKS as usize]?;
    fill_fresh(rt, &mut image);
    let fails = Vec::from_slice(alloc, fails)?;
    Ok(MemDisk::new(alloc, image, fails, None, 400, 1 << 16)?)
}

fn write_block(rt: &impl Abort, disk: &mut MemDisk, block: u32, bytes: &[u8; BLOCK_BYTES]) {
    assert!(rt; block < BLOCKS);
    assert!(rt; disk.write(BLOCK_SECTORS * block, bytes).is_ok());
}

fn read_block(rt: &impl Abort, disk: &mut MemDisk, block: u32) -> [u8; BLOCK_BYTES] {
    let mut bytes = [0; BLOCK_BYTES];
    assert!(rt; block < BLOCKS);
    assert!(rt; disk.read(BLOCK_SECTORS * block, &mut bytes).is_ok());
    bytes
}

fn refuses(rt: &impl Abort, alloc: Global, disk: &mut MemDisk, fault: CheckFault) {
    match load(alloc, disk) {
        Ok(_) => assert!(rt; false),
        Err(found) => assert_eq!(rt; found, fault),
    }
}

/// A fresh image, and one with a free run by length that is too short.
#[test]
fn images_are_judged(rt: HostRuntime) -> Result<(), Fail> {
    let mut disk = fresh_disk(&rt, rt.alloc(), &[])?;
    match check(rt.alloc(), &mut disk) {
        Ok(verdict) => assert_eq!(rt; verdict, Verdict::Sound),
        Err(_) => assert!(rt; false),
    }
    assert_eq!(rt; disk.moment(), 38);
    let mut leaf = read_block(&rt, &mut disk, 778);
    put_runs(&rt, &mut leaf, &[(512, 1535)]);
    write_block(&rt, &mut disk, 778, &leaf);
    let found = Verdict::Differs {
        tree: TreeName::Sizes,
        group: GroupNo(0),
        key: Addr(512),
    };
    match check(rt.alloc(), &mut disk) {
        Ok(verdict) => assert_eq!(rt; verdict, found),
        Err(_) => assert!(rt; false),
    }
    Ok(())
}

/// A block of zeros, and what is refused for it: the superblock, the log, a file's core and tree, and a group's header.
#[test]
fn zeroed_blocks_are_named(rt: HostRuntime) -> Result<(), Fail> {
    let zeros = [0; BLOCK_BYTES];
    let mut disk = fresh_disk(&rt, rt.alloc(), &[])?;
    for (block, rule) in [
        (0, Broken::Header),
        (8, Broken::Magic),
        (520, Broken::Header),
        (529, Broken::Tree),
        (6920, Broken::Header),
    ] {
        let kept = read_block(&rt, &mut disk, block);
        write_block(&rt, &mut disk, block, &zeros);
        let fault = CheckFault::Foreign { block, rule };
        refuses(&rt, rt.alloc(), &mut disk, fault);
        write_block(&rt, &mut disk, block, &kept);
    }
    Ok(())
}

/// Seals a record whose body fills a sector.
fn seal_sector(head: &Head, sectors: &mut [u8])
    requires good { IsGoodHead head.now }
    requires len { head.now.len ≡ SECTOR_BYTES }
    requires room { length sectors.old ≡ 2 * SECTOR_BYTES }
{
    seal(head, sectors);
}

/// A newer record that is no unmount goes before all that is wrong behind it.
#[test]
fn an_image_in_use_is_dirty(rt: HostRuntime) -> Result<(), Fail> {
    let mut disk = fresh_disk(&rt, rt.alloc(), &[])?;
    let lsn = Lsn {
        cycle: 1,
        sector: 2,
    };
    let head = Head {
        lsn,
        tail: lsn,
        prev: 0,
        ops: 1,
        len: 512,
        uuid: identifier(),
    };
    let mut sectors = [7; 1024];
    seal_sector(&head, &mut sectors);
    assert!(rt; disk.write(66, &sectors).is_ok());
    refuses(&rt, rt.alloc(), &mut disk, CheckFault::Dirty { lsn });
    Ok(())
}

/// A fault at the superblock, the log, a file and a group, of four loads one after the other.
#[test]
fn failing_calls_are_told(rt: HostRuntime) -> Result<(), Fail> {
    let mut disk = fresh_disk(&rt, rt.alloc(), &[1, 3, 23, 61])?;
    for faults in 1..5 {
        refuses(&rt, rt.alloc(), &mut disk, CheckFault::DiskFault { faults });
    }
    assert_eq!(rt; disk.moment(), 61);
    assert!(rt; load(rt.alloc(), &mut disk).is_ok());
    Ok(())
}
