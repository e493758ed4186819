//! Files of a fresh image: rows of calls with the extents after each, cores that are refused, and changes that are dropped.
ghost use Rattle.std.specs.Prelude.{◌≡◌, ◌*◌, vec_len, IfOk};
ghost use Rattle.xr_base.specs.declared.geometry.TheConstants.{BLOCK_BYTES, FILE_BLOCKS};

use crate::{File, OpenFault, Piece};
use std::alloc::{AllocError, Global};
use std::process::Abort;
use std::test::Fail;
use uuid::Uuid;
use xr_base::geometry::{BLOCK_BYTES, FILE_BLOCKS, FIRST_FILE_BLOCK, OFFSETS};
use xr_base::{Addr, FileNo, Run, be32_at, crc32c_without, good_run};
use xr_headers::layout::{CORE_BYTES, CORE_CRC, CORE_ROOT_PLACE};
use xr_headers::{HeaderFault, fresh_block};
use xr_tree::{TreeFault, TreeKind};

const FILE_BYTES: usize = 8 * BLOCK_BYTES;

#[derive(Clone, Copy)]
enum Call {
    Maps { off: u32, at: u32, len: u32 },
    Unmaps { off: u32, len: u32 },
}

/// A call, and the extents after it by offset, first block and length.
type Row = (Call, &'static [(u32, u32, u32)]);

/// Extents that are joined in front, behind and on both sides, and one that is cut at its front, its end and its middle.
const ROWS: [Row; 9] = [
    (
        Call::Maps {
            off: 4,
            at: 2560,
            len: 2,
        },
        &[(4, 2560, 2)],
    ),
    (
        Call::Maps {
            off: 6,
            at: 2600,
            len: 1,
        },
        &[(4, 2560, 2), (6, 2600, 1)],
    ),
    (
        Call::Maps {
            off: 8,
            at: 2602,
            len: 2,
        },
        &[(4, 2560, 2), (6, 2600, 1), (8, 2602, 2)],
    ),
    (
        Call::Maps {
            off: 7,
            at: 2601,
            len: 1,
        },
        &[(4, 2560, 2), (6, 2600, 4)],
    ),
    (
        Call::Maps {
            off: 510,
            at: 8190,
            len: 2,
        },
        &[(4, 2560, 2), (6, 2600, 4), (510, 8190, 2)],
    ),
    (
        Call::Unmaps { off: 7, len: 1 },
        &[(4, 2560, 2), (6, 2600, 1), (8, 2602, 2), (510, 8190, 2)],
    ),
    (
        Call::Unmaps { off: 4, len: 1 },
        &[(5, 2561, 1), (6, 2600, 1), (8, 2602, 2), (510, 8190, 2)],
    ),
    (
        Call::Unmaps { off: 9, len: 1 },
        &[(5, 2561, 1), (6, 2600, 1), (8, 2602, 1), (510, 8190, 2)],
    ),
    (
        Call::Unmaps { off: 510, len: 2 },
        &[(5, 2561, 1), (6, 2600, 1), (8, 2602, 1)],
    ),
];

fn identifier() -> Uuid {
    Uuid::from_bytes(*b"the image's uuid")
}

fn put(rt: &impl Abort, bytes: &mut [u8], at: usize, value: &[u8]) {
    assert!(rt; at <= bytes.len() && value.len() <= bytes.len() - at);
    bytes[at..at + value.len()].copy_from_slice(value);
}

/// The blocks of file 0 in a fresh image.
fn fresh_blocks(rt: &impl Abort, alloc: Global) -> Result<Vec<u8>, AllocError> {
    let mut bytes = vec![in alloc; 0; FILE_BYTES]?;
    for n in 0..FILE_BLOCKS {
        let mut block = [0; BLOCK_BYTES];
        fresh_block(FIRST_FILE_BLOCK + n, &identifier(), 7, &mut block);
        put(rt, &mut bytes, n as usize * BLOCK_BYTES, &block);
    }
    Ok(bytes)
}

fn open(rt: &impl Abort, alloc: Global, blocks: Vec<u8>) -> Result<File, OpenFault> {
    assert!(rt; blocks.len() == FILE_BYTES);
    File::open(alloc, FileNo(0), &identifier(), blocks)
}

fn map(rt: &impl Abort, file: &mut File, off: u32, at: u32, len: u32) {
    let run = Run {
        start: Addr(at),
        len,
    };
    assert!(rt; good_run(&run) && off < OFFSETS && 0 < len && len <= OFFSETS - off);
    match file.lookup(off, len) {
        Piece::Hole { len: found } => {
            assert!(rt; found == len);
            file.map(off, &run);
        }
        Piece::Mapped { .. } => assert!(rt; false),
    }
}

fn unmap(rt: &impl Abort, file: &mut File, off: u32, len: u32) {
    assert!(rt; off < OFFSETS && 0 < len && len <= OFFSETS - off);
    match file.lookup(off, len) {
        Piece::Mapped { len: found, .. } => {
            assert!(rt; found == len);
            file.unmap(off, len);
        }
        Piece::Hole { .. } => assert!(rt; false),
    }
}

/// The file has these extents, each as long as it can be, and maps nothing else.
fn has(rt: &impl Abort, file: &File, extents: &[(u32, u32, u32)]) {
    let mut left: u32 = 0;
    for off in 0..OFFSETS {
        if let Piece::Mapped { .. } = file.lookup(off, 1) {
            left = left.wrapping_add(1);
        }
    }
    for (off, at, len) in extents {
        assert!(rt; *off < OFFSETS);
        let wanted = Piece::Mapped {
            at: Addr(*at),
            len: *len,
        };
        assert!(rt; file.lookup(*off, OFFSETS - *off) == wanted);
        left = left.wrapping_sub(*len);
    }
    assert!(rt; left == 0);
}

fn follow(rt: &impl Abort, file: &mut File, rows: &[Row]) {
    for (call, extents) in rows {
        match *call {
            Call::Maps { off, at, len } => map(rt, file, off, at, len),
            Call::Unmaps { off, len } => unmap(rt, file, off, len),
        }
        has(rt, file, extents);
    }
}

#[test]
fn extents_stay_as_long_as_they_can_be(rt: HostRuntime) -> Result<(), Fail> {
    let blocks = fresh_blocks(&rt, rt.alloc())?;
    match open(&rt, rt.alloc(), blocks) {
        Ok(mut file) => {
            has(&rt, &file, &[]);
            follow(&rt, &mut file, &ROWS);
        }
        Err(_) => assert!(rt; false),
    }
    Ok(())
}

fn core_sum(rt: &impl Abort, blocks: &[u8]) -> u32 {
    assert!(rt; CORE_BYTES <= blocks.len());
    crc32c_without(&blocks[0..CORE_BYTES], CORE_CRC)
}

/// The blocks of file 0 with another root, level and free mask in its core.
fn with_core(
    rt: &impl Abort,
    alloc: Global,
    root: u32,
    level: u32,
    free: u32,
) -> Result<Vec<u8>, AllocError> {
    let mut bytes = fresh_blocks(rt, alloc)?;
    put(rt, &mut bytes, CORE_ROOT_PLACE, &root.to_be_bytes());
    put(rt, &mut bytes, CORE_ROOT_PLACE + 4, &level.to_be_bytes());
    put(rt, &mut bytes, CORE_ROOT_PLACE + 8, &free.to_be_bytes());
    let sum = core_sum(rt, &bytes);
    put(rt, &mut bytes, CORE_CRC, &sum.to_le_bytes());
    Ok(bytes)
}

fn header(field: u32) -> OpenFault {
    OpenFault::Header(HeaderFault { block: 520, field })
}

fn tree(block: u32, kind: TreeKind) -> OpenFault {
    OpenFault::Tree(TreeFault { block, kind })
}

/// A root outside the pool, masks with a bit too many, a level that differs, a root and a tree's block that are free, and a
/// block of no tree that isn't.
#[test]
fn other_blocks_are_no_file(rt: HostRuntime) -> Result<(), Fail> {
    for (root, level, free, fault) in [
        (9, 0, 0xFC, header(32)),
        (1, 0, 0x1FC, header(40)),
        (1, 0, 0xFD, header(40)),
        (1, 1, 0xFC, tree(521, TreeKind::Header)),
        (1, 0, 0xFE, tree(521, TreeKind::Reuse)),
        (2, 0, 0xFC, tree(522, TreeKind::Reuse)),
        (1, 0, 0xF8, header(40)),
    ] {
        let blocks = with_core(&rt, rt.alloc(), root, level, free)?;
        match open(&rt, rt.alloc(), blocks) {
            Ok(_) => assert!(rt; false),
            Err(found) => assert!(rt; found == fault),
        }
    }
    Ok(())
}

/// The level that the changed core names.
fn new_level(rt: &impl Abort, file: &File) -> u32 {
    assert!(rt; file.changed() > 0);
    let (place, bytes) = file.change(0);
    assert!(rt; place == FIRST_FILE_BLOCK);
    be32_at(bytes, CORE_ROOT_PLACE + 4)
}

/// So many extents that the root splits.
fn fill(rt: &impl Abort, file: &mut File) {
    for n in 0..252 {
        map(rt, file, 8 + 2 * n, 2600 + n, 1);
    }
}

fn goes_back(rt: &impl Abort, file: &mut File) {
    map(rt, file, 4, 2560, 2);
    file.keep();
    assert!(rt; file.changed() == 0);
    fill(rt, file);
    assert!(rt; new_level(rt, file) == 1);
    file.drop_changes();
    assert!(rt; file.changed() == 0);
    has(rt, file, &[(4, 2560, 2)]);
    map(rt, file, 6, 2562, 1);
    has(rt, file, &[(4, 2560, 3)]);
    assert!(rt; file.changed() == 1);
    assert!(rt; file.change(0).0 == 521);
}

#[test]
fn dropped_changes_are_gone(rt: HostRuntime) -> Result<(), Fail> {
    let blocks = fresh_blocks(&rt, rt.alloc())?;
    match open(&rt, rt.alloc(), blocks) {
        Ok(mut file) => goes_back(&rt, &mut file),
        Err(_) => assert!(rt; false),
    }
    Ok(())
}
