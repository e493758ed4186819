//! Rows of `check` and `show`: images with files that share blocks, and with one leaf that is wrong.

use crate::image::UUID;
use crate::log::sealed;
use crate::tests::{blank, gives, leaves, no_disk, script};
use std::alloc::{AllocError, Global};
use std::process::Abort;
use std::test::Fail;
use std::thread::Threads;
use uuid::Uuid;
use xr_base::crc32c_without;
use xr_base::geometry::{BLOCK_BYTES, BLOCK_SECTORS, BLOCKS, FIRST_GROUP_BLOCK};
use xr_base::layout::{
    BB_NUMRECS, LONG_BB_CRC, LONG_HEADER_BYTES, SHORT_BB_CRC, SHORT_HEADER_BYTES,
};
use xr_cmd::mkfs;
use xr_disk::{Disk, MemDisk};
use xr_headers::fresh_block;
use xr_record::{Head, Lsn};

/// What a leaf of a tree holds: the words of its records, each of four bytes.
#[derive(Clone, Copy)]
struct Leaf {
    block: u32,
    records: u16,
    words: &'static [u32],
}

/// The leaves of group 0, free runs by block first.
const FREE: Leaf = Leaf {
    block: 777,
    records: 1,
    words: &[516, 1532],
};

const SIZES: Leaf = Leaf { block: 778, ..FREE };

const OWNERS: Leaf = Leaf {
    block: 779,
    records: 2,
    words: &[512, 4, 0, 128, 0, 0, 513, 2, 0, 129, 0, 7],
};

const COUNTS: Leaf = Leaf {
    block: 780,
    records: 1,
    words: &[513, 2, 2],
};

/// File 0 maps four blocks, of which file 1 shares two.
const SHARED: [Leaf; 6] = [
    Leaf {
        block: 521,
        records: 1,
        words: &[0, 0, 0, 0x4000_0004],
    },
    Leaf {
        block: 529,
        records: 1,
        words: &[0, 0x0E00, 0, 0x4020_0002],
    },
    FREE,
    SIZES,
    OWNERS,
    COUNTS,
];

/// The same maps as a script, and what is printed of them.
const SHARED_SCRIPT: &str = "remap 0 0 4 512\nremap 1 7 2 513\n";

const PARTS: [(&str, &str); 4] = [
    ("files", "file 0 0 4 512\nfile 1 7 2 513\n"),
    ("owners", "owner 512 4 0 0\nowner 513 2 1 7\n"),
    ("shared", "shared 513 2 2\n"),
    (
        "free",
        "free 516 1532\nfree 2560 1536\nfree 4608 1536\nfree 6656 1536\n",
    ),
];

/// Another owner, a length that is one less in one of the free trees, a count of 3 where two own, and a block that is staged.
const CHANGED: [(Leaf, Leaf, &str); 5] = [
    (
        OWNERS,
        Leaf {
            words: &[512, 4, 0, 129, 0, 0, 513, 2, 0, 129, 0, 7],
            ..OWNERS
        },
        "differs owners group 0 key 512\n",
    ),
    (
        FREE,
        Leaf {
            words: &[516, 1531],
            ..FREE
        },
        "differs free group 0 key 516\n",
    ),
    (
        SIZES,
        Leaf {
            words: &[516, 1531],
            ..SIZES
        },
        "differs sizes group 0 key 516\n",
    ),
    (
        COUNTS,
        Leaf {
            words: &[513, 2, 3],
            ..COUNTS
        },
        "differs shared group 0 key 513\n",
    ),
    (COUNTS, STAGED_COUNT, "differs shared group 0 key 516\n"),
];

const STAGED_COUNT: Leaf = Leaf {
    records: 2,
    words: &[513, 2, 2, 0x8000_0204, 1, 1],
    ..COUNTS
};

/// The leaves of group 0 with block 516 staged.
const STAGED: [Leaf; 4] = [
    Leaf {
        words: &[517, 1531],
        ..FREE
    },
    Leaf {
        words: &[517, 1531],
        ..SIZES
    },
    Leaf {
        records: 3,
        words: &[
            512,
            4,
            0,
            128,
            0,
            0,
            513,
            2,
            0,
            129,
            0,
            7,
            516,
            1,
            0xFFFF_FFFF,
            0xFFFF_FFF7,
            0,
            0,
        ],
        ..OWNERS
    },
    STAGED_COUNT,
];

/// What is written so that file 0 alone maps blocks: group 0 then has one owner.
const ALONE: [Leaf; 3] = [
    Leaf {
        block: 529,
        records: 0,
        words: &[],
    },
    ONE_OWNER,
    Leaf {
        records: 0,
        words: &[],
        ..COUNTS
    },
];

const ONE_OWNER: Leaf = Leaf {
    records: 1,
    words: &[512, 4, 0, 128, 0, 0],
    ..OWNERS
};

/// The same with the lowest bit of the owner flipped.
const ANOTHER_OWNER: Leaf = Leaf {
    words: &[512, 4, 0, 129, 0, 0],
    ..ONE_OWNER
};

fn put(rt: &impl Abort, bytes: &mut [u8], at: usize, value: &[u8]) {
    assert!(rt; at <= bytes.len() && value.len() <= bytes.len() - at);
    bytes[at..at + value.len()].copy_from_slice(value);
}

/// Where the records of a leaf begin, and the place of its checksum.
fn places(block: u32) -> (usize, usize) {
    if block < FIRST_GROUP_BLOCK {
        (LONG_HEADER_BYTES, LONG_BB_CRC)
    } else {
        (SHORT_HEADER_BYTES, SHORT_BB_CRC)
    }
}

/// Writes a leaf over that of the fresh image.
fn write_leaf(rt: &impl Abort, disk: &mut MemDisk, uuid: &Uuid, leaf: &Leaf) {
    let mut bytes = [0; BLOCK_BYTES];
    assert!(rt; leaf.block < BLOCKS);
    fresh_block(leaf.block, uuid, 1, &mut bytes);
    let (first, crc) = places(leaf.block);
    put(rt, &mut bytes, BB_NUMRECS, &leaf.records.to_be_bytes());
    for (n, word) in leaf.words.iter().enumerate() {
        assert!(rt; n < 100 && first < 100);
        put(rt, &mut bytes, first + 4 * n, &word.to_be_bytes());
    }
    assert!(rt; crc < 100);
    let sum = crc32c_without(&bytes, crc);
    put(rt, &mut bytes, crc, &sum.to_le_bytes());
    assert!(rt; disk.write(leaf.block * BLOCK_SECTORS, &bytes).is_ok());
}

/// An image with files that share, on a disk of which these calls fail.
fn shared(rt: &impl Abort, alloc: Global, uuid: &Uuid, fails: &[u64]) -> Result<MemDisk, Fail> {
    let mut disk = blank(alloc, fails, None, 40_000, 40_000_000)?;
    assert!(rt; mkfs(&mut disk, uuid, 1).is_ok());
    for leaf in &SHARED {
        write_leaf(rt, &mut disk, uuid, leaf);
    }
    Ok(disk)
}

/// Each part is shown as it is printed of the same maps, and the image is sound.
#[test]
fn shared_blocks_are_shown(rt: HostRuntime) -> Result<(), Fail> {
    let uuid = Uuid::parse_str(UUID)?;
    let mut disk = shared(&rt, rt.alloc(), &uuid, &[])?;
    let mut all = String::new(rt.alloc());
    for (part, wanted) in PARTS {
        disk = leaves(&rt, disk, &["show", "IMG", part], (0, wanted))?;
        all.push_str(wanted)?;
    }
    leaves(&rt, disk, &["check", "IMG"], (0, "sound\n"))?;
    let input = script(SHARED_SCRIPT);
    let wanted = (0, all.as_str());
    gives(&rt, &["expect"], no_disk(&rt)?, &["expect"], input, wanted)?;
    Ok(())
}

#[test]
fn names_the_first_difference(rt: HostRuntime) -> Result<(), Fail> {
    let uuid = Uuid::parse_str(UUID)?;
    let mut disk = shared(&rt, rt.alloc(), &uuid, &[])?;
    for (right, wrong, wanted) in &CHANGED {
        write_leaf(&rt, &mut disk, &uuid, wrong);
        disk = leaves(&rt, disk, &["check", "IMG"], (1, *wanted))?;
        write_leaf(&rt, &mut disk, &uuid, right);
    }
    leaves(&rt, disk, &["check", "IMG"], (0, "sound\n"))?;
    Ok(())
}

#[test]
fn the_one_owner_is_compared(rt: HostRuntime) -> Result<(), Fail> {
    let uuid = Uuid::parse_str(UUID)?;
    let mut disk = shared(&rt, rt.alloc(), &uuid, &[])?;
    for leaf in &ALONE {
        write_leaf(&rt, &mut disk, &uuid, leaf);
    }
    disk = leaves(&rt, disk, &["check", "IMG"], (0, "sound\n"))?;
    write_leaf(&rt, &mut disk, &uuid, &ANOTHER_OWNER);
    let wanted = (1, "differs owners group 0 key 512\n");
    leaves(&rt, disk, &["check", "IMG"], wanted)?;
    Ok(())
}

#[test]
fn staged_blocks_have_lines_of_their_own(rt: HostRuntime) -> Result<(), Fail> {
    let uuid = Uuid::parse_str(UUID)?;
    let mut disk = shared(&rt, rt.alloc(), &uuid, &[])?;
    for leaf in &STAGED {
        write_leaf(&rt, &mut disk, &uuid, leaf);
    }
    for (part, wanted) in [
        (
            "owners",
            "owner 512 4 0 0\nowner 513 2 1 7\nowner 516 1 staging\n",
        ),
        ("shared", "shared 513 2 2\nstaging 516 1\n"),
        (
            "free",
            "free 517 1531\nfree 2560 1536\nfree 4608 1536\nfree 6656 1536\n",
        ),
    ] {
        disk = leaves(&rt, disk, &["show", "IMG", part], (0, wanted))?;
    }
    let wanted = (1, "differs owners group 0 key 516\n");
    leaves(&rt, disk, &["check", "IMG"], wanted)?;
    Ok(())
}

/// The commands that read the trees of an image.
const COMMANDS: [&[&str]; 5] = [
    &["check", "IMG"],
    &["show", "IMG", "files"],
    &["show", "IMG", "owners"],
    &["show", "IMG", "shared"],
    &["show", "IMG", "free"],
];

/// Each command that reads trees answers the same.
fn all_answer<R: Abort + Threads + Sync + AllocGlobal>(
    rt: &R,
    mut disk: MemDisk,
    wanted: (u8, &str),
) -> Result<MemDisk, AllocError> {
    for words in COMMANDS {
        disk = leaves(rt, disk, words, wanted)?;
    }
    Ok(disk)
}

/// No superblock, no log behind it, and blocks of zeros in the place of a file's core, a file's tree, a group's header and a group's
/// tree.
#[test]
fn foreign_blocks_are_named(rt: HostRuntime) -> Result<(), Fail> {
    let uuid = Uuid::parse_str(UUID)?;
    let mut block = [0; BLOCK_BYTES];
    fresh_block(0, &uuid, 1, &mut block);
    let mut disk = blank(rt.alloc(), &[], None, 40, 40_000)?;
    disk = all_answer(&rt, disk, (7, "foreign 0 12\n"))?;
    assert!(rt; disk.write(0, &block).is_ok());
    all_answer(&rt, disk, (7, "foreign 8 3\n"))?;

    let mut disk = shared(&rt, rt.alloc(), &uuid, &[])?;
    for (place, wanted) in [
        (6921, "foreign 6921 13\n"),
        (776, "foreign 776 12\n"),
        (529, "foreign 529 13\n"),
        (520, "foreign 520 12\n"),
    ] {
        assert!(rt; place < BLOCKS);
        assert!(rt; disk.write(place * BLOCK_SECTORS, &[0; BLOCK_BYTES]).is_ok());
        disk = all_answer(&rt, disk, (7, wanted))?;
    }
    Ok(())
}

/// A newer record that is no unmount goes before all that is wrong behind it.
#[test]
fn an_image_in_use_is_dirty(rt: HostRuntime) -> Result<(), Fail> {
    let uuid = Uuid::parse_str(UUID)?;
    let mut disk = shared(&rt, rt.alloc(), &uuid, &[])?;
    let lsn = Lsn {
        cycle: 1,
        sector: 2,
    };
    let head = Head {
        lsn,
        tail: lsn,
        prev: 0,
        ops: 1,
        len: 512,
        uuid,
    };
    let record = sealed(rt.alloc(), &head, &[7; 512])?;
    assert!(rt; record.len() == 1024);
    assert!(rt; disk.write(66, &record).is_ok());
    all_answer(&rt, disk, (10, "dirty 1:2\n"))?;
    Ok(())
}

/// Calls of `mkfs`, and a write for each leaf.
const FIRST_CALL: u64 = 8_978;

/// The superblock, the log, each file and each group.
const FAILING: [u64; 38] = [
    1, 2, 3, 4, 5, 6, 7, 8, 9, 10, 11, 12, 13, 14, 15, 16, 17, 18, 19, 20, 21, 22, 23, 24, 25, 26,
    27, 28, 29, 30, 31, 32, 33, 34, 35, 36, 37, 38,
];

#[test]
fn a_disk_that_fails_is_told(rt: HostRuntime) -> Result<(), Fail> {
    let uuid = Uuid::parse_str(UUID)?;
    let mut fails = [0; 76];
    let mut done = FIRST_CALL;
    for (place, call) in fails.iter_mut().zip(FAILING.iter().chain(FAILING.iter())) {
        assert!(rt; done < 20_000 && *call < 100);
        done += *call;
        *place = done;
    }
    let mut disk = shared(&rt, rt.alloc(), &uuid, &fails)?;
    for words in [&["check", "IMG"][..], &["show", "IMG", "files"][..]] {
        for _ in FAILING {
            disk = leaves(&rt, disk, words, (6, "disk\n"))?;
        }
    }
    assert_eq!(rt; (disk.moment(), disk.faults()), (done, 76));
    leaves(&rt, disk, &["check", "IMG"], (0, "sound\n"))?;
    Ok(())
}
