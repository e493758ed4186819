//! Rows of `mkfs` and `show`, over a disk in memory and over a file.

use crate::expect::ALL_FREE;
use crate::tests::{blank, gives, leaves, no_disk, script};
use std::alloc::AllocError;
use std::process::Abort;
use std::test::Fail;
use std::{env, fs, process};
use xr_disk::{Call, Disk, FileDisk, MemDisk, Pick};

/// Calls of `mkfs`: a write a block and one more, and three syncs.
const MKFS_CALLS: u32 = 8972;

pub(crate) const UUID: &str = "00000000-0000-4000-8000-000000000001";

/// What is printed of the log of a fresh image.
const FRESH_LOG: &str = "record 1:0 1:0 20 1\nunmount\npending 0\n";

#[test]
fn formats_and_shows(rt: HostRuntime) -> Result<(), Fail> {
    let mut disk = blank(rt.alloc(), &[], None, 40_000, 40_000_000)?;
    for (words, wanted) in [
        (
            ["mkfs", "IMG", UUID],
            "made 00000000-0000-4000-8000-000000000001\n",
        ),
        (["show", "IMG", "files"], ""),
        (["show", "IMG", "owners"], ""),
        (["show", "IMG", "shared"], ""),
        (["show", "IMG", "free"], ALL_FREE),
        (["show", "IMG", "log"], FRESH_LOG),
    ] {
        disk = leaves(&rt, disk, &words, (0, wanted))?;
    }
    disk = leaves(&rt, disk, &["check", "IMG"], (0, "sound\n"))?;
    // A byte of a file's core that is to be zero.
    assert_eq!(rt; disk.write(600 * 8 + 7, &[1; 512]), Ok(()));
    leaves(&rt, disk, &["show", "IMG", "free"], (7, "foreign 600 12\n"))?;
    Ok(())
}

#[test]
fn mkfs_ends_where_the_disk_stops(rt: HostRuntime) -> Result<(), Fail> {
    for sixty_fourth in 0..MKFS_CALLS / 64 + 1 {
        let stop = u64::from(sixty_fourth * 64 + 1);
        let disk = blank(rt.alloc(), &[], Some(stop), MKFS_CALLS, 37_000_000)?;
        let disk = leaves(&rt, disk, &["mkfs", "IMG", UUID], (6, "disk\n"))?;
        assert_eq!(rt; (disk.moment(), disk.faults()), (stop, 1));
    }
    Ok(())
}

/// Words without a disk behind them, the status and what is written.
const WORDS: [(&[&str], u8, &str); 25] = [
    (&["mkfs", "IMG", "123"], 2, "words\n"),
    (&["mkfs", "IMG"], 2, "words\n"),
    (&["mkfs", "", UUID], 2, "words\n"),
    (&["mkfs", "-IMG", UUID], 2, "words\n"),
    (&["mkfs", "IMG", UUID, "keep"], 2, "words\n"),
    (&["show", "IMG"], 2, "words\n"),
    (&["show", "IMG", "owner"], 2, "words\n"),
    (&["show", "", "log"], 2, "words\n"),
    (&["show", "-", "free"], 2, "words\n"),
    (&["Show", "IMG", "free"], 2, "words\n"),
    (&["check"], 2, "words\n"),
    (&["check", ""], 2, "words\n"),
    (&["check", "-IMG"], 2, "words\n"),
    (&["check", "IMG", "IMG"], 2, "words\n"),
    (&["mkfs", "IMG", UUID], 6, "disk\n"),
    (
        &["mkfs", "I", "{00000000-0000-4000-8000-00000000ABCD}"],
        6,
        "disk\n",
    ),
    (
        &["mkfs", "I", "0000000000004000800000000000abcd"],
        6,
        "disk\n",
    ),
    (
        &["mkfs", "I", "urn:uuid:00000000-0000-4000-8000-000000000001"],
        6,
        "disk\n",
    ),
    (&["show", "IMG", "free"], 6, "disk\n"),
    (&["show", "IMG", "files"], 6, "disk\n"),
    (&["show", "IMG", "owners"], 6, "disk\n"),
    (&["show", "IMG", "shared"], 6, "disk\n"),
    (&["check", "IMG"], 6, "disk\n"),
    (&["show", "IMG", "log"], 6, "disk\n"),
    (&["expect"], 0, ALL_FREE),
];

#[test]
fn takes_the_words_of_its_table(rt: HostRuntime) -> Result<(), Fail> {
    for (words, status, wanted) in WORDS {
        gives(
            &rt,
            words,
            no_disk(&rt)?,
            words,
            script(""),
            (status, wanted),
        )?;
    }
    Ok(())
}

/// Calls on a disk whose 4th call fails, and which stops after the 6th.
fn call(rt: &impl Abort, disk: &mut MemDisk) {
    let mut sector = [9u8; 512];
    assert!(rt; disk.write(3, &[1; 512]).is_ok() && disk.read(3, &mut sector).is_ok());
    assert_eq!(rt; &sector, &[1; 512]);
    assert!(rt; disk.sync().is_ok());
}

fn call_more(rt: &impl Abort, disk: &mut MemDisk) {
    assert!(rt; disk.write(3, &[2; 512]).is_err());
    assert!(rt; disk.write(3, &[2; 1024]).is_err());
    assert!(rt; disk.write(3, &[3; 512]).is_err());
    assert!(rt; disk.sync().is_err());
}

/// The calls that are done, but for those that fail.
const DONE: [Call; 4] = [
    Call::Write {
        number: 1,
        at: 3,
        from: 0,
        len: 512,
    },
    Call::Read { number: 2, at: 3 },
    Call::Sync { number: 3 },
    Call::Write {
        number: 6,
        at: 3,
        from: 512,
        len: 512,
    },
];

#[test]
fn keeps_calls_in_memory(rt: HostRuntime) -> Result<(), Fail> {
    let mut disk = blank(rt.alloc(), &[4], Some(6), 5, 1024)?;
    call(&rt, &mut disk);
    call_more(&rt, &mut disk);
    assert_eq!(rt; (disk.moment(), disk.faults()), (7, 4));
    assert_eq!(rt; disk.done.as_slice(), DONE.as_slice());
    assert!(rt; disk.image.get(1536) == Some(&1) && disk.synced.get(1536) == Some(&1));
    assert!(rt; disk.bytes.get(1023) == Some(&3));
    Ok(())
}

/// Each byte of a sector in memory is this one.
fn has_sector(rt: &impl Abort, disk: &mut MemDisk, at: u32, byte: u8) {
    let mut sector = [9; 512];
    assert!(rt; at < 71_744 && disk.read(at, &mut sector).is_ok());
    assert_eq!(rt; sector, [byte; 512]);
}

#[test]
fn crashes_as_is_picked(rt: HostRuntime) -> Result<(), Fail> {
    let mut disk = blank(rt.alloc(), &[], None, 16, 8_192)?;
    assert!(rt; disk.write(0, &[1; 1024]).is_ok() && disk.sync().is_ok());
    // In flight, with the picks old, half, new and none.
    assert!(rt; disk.write(0, &[2; 1024]).is_ok() && disk.write(2, &[3; 1536]).is_ok());
    assert!(rt; disk.write(5, &[4; 1024]).is_ok() && disk.write(7, &[5; 512]).is_ok());
    let mut left = disk.after_crash(&[Pick::Old, Pick::Half, Pick::New]);
    assert_eq!(rt; (left.moment(), left.faults()), (0, 0));
    for (at, byte) in [
        (0, 1),
        (1, 1),
        (2, 3),
        (3, 0),
        (4, 0),
        (5, 4),
        (6, 4),
        (7, 5),
    ] {
        has_sector(&rt, &mut left, at, byte);
    }
    Ok(())
}

fn file_disk(
    rt: &HostRuntime,
    path: &str,
    create: bool,
) -> Result<FileDisk<HostRuntime>, AllocError> {
    Ok(FileDisk::new(rt.clone()?, String::from_str(rt.alloc(), path)?, create))
}

/// Each byte of a sector is this one.
fn reads(rt: &impl Abort, disk: &mut FileDisk<HostRuntime>, at: u32, byte: u8) {
    let mut sector = [9; 512];
    assert!(rt; at < 71_744 && disk.read(at, &mut sector).is_ok());
    assert_eq!(rt; sector, [byte; 512]);
}

#[test]
fn reads_and_writes_a_file(rt: HostRuntime) -> Result<(), Fail> {
    let folder = env::temp_dir(&rt)?;
    let path = format!(in rt.alloc();
        "{}/xr_rows-{}",
        folder.display(),
        process::id(rt.process())
    )?;
    let mut missing = file_disk(&rt, path.as_str(), false)?;
    assert!(rt; missing.read(0, &mut [9u8; 512]).is_err());
    assert_eq!(rt; (missing.moment(), missing.faults()), (1, 1));

    let mut disk = file_disk(&rt, path.as_str(), true)?;
    assert!(rt; disk.write(2, &[7; 1024]).is_ok() && disk.write(65_537, &[5; 512]).is_ok());
    assert!(rt; disk.sync().is_ok());
    reads(&rt, &mut disk, 3, 7);
    reads(&rt, &mut disk, 65_537, 5);
    // Before what was written, 65,536 sectors before it, and past the end of the file.
    reads(&rt, &mut disk, 1, 0);
    reads(&rt, &mut disk, 71_743, 0);
    assert_eq!(rt; (disk.moment(), disk.faults()), (7, 0));

    // The superblock of so short a file is zeros.
    let words = ["show", path.as_str(), "log"];
    gives(&rt, &words, disk, &words, script(""), (7, "foreign 0 12\n"))?;
    fs::remove_file(&rt, path.as_str())?;
    Ok(())
}
