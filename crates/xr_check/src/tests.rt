//! Groups of a fresh image, of which one has other leaves, held against maps.
ghost use Rattle.std.specs.Prelude.{◌≡◌, ◌*◌, ◌<◌, IfOk, vec_len};
ghost use Rattle.xr_base.specs.declared.geometry.TheConstants.{BLOCK_BYTES, FIRST_DATA_BLOCK, GROUPS};
ghost use Rattle.xr_check.specs.Verdicts.{AreAllGroups};

use crate::{Loaded, TreeName, Verdict, judge};
use std::alloc::{AllocError, Global};
use std::process::Abort;
use std::test::Fail;
use uuid::Uuid;
use xr_base::geometry::{
    BLOCK_BYTES, FIRST_DATA_BLOCK, FIRST_GROUP_BLOCK, GROUP_BLOCKS, GROUPS, OWN_COW,
};
use xr_base::layout::{BB_NUMRECS, SHORT_BB_CRC, SHORT_HEADER_BYTES};
use xr_base::{Addr, FileNo, GroupNo, NoMemory, crc32c_without};
use xr_group::Group;
use xr_headers::fresh_block;
use xr_maps::{Maps, Step, fits};

const GROUP_BYTES: usize = 512 * BLOCK_BYTES;

/// What the changed group holds, by first block, length and the rest of a record, and what the files map at their offset 0.
#[derive(Clone, Copy)]
struct Row {
    free: &'static [(u32, u32)],
    sizes: &'static [(u32, u32)],
    owners: &'static [(u32, u32, u64)],
    counts: &'static [(u32, u32, u32)],
    maps: &'static [(u32, u32, u32)],
    found: Option<(TreeName, u32)>,
}

/// The bit of a staged record.
const STAGED: u32 = 1 << 31;

const FRESH: Row = Row {
    free: &[(512, 1536)],
    sizes: &[(512, 1536)],
    owners: &[],
    counts: &[],
    maps: &[],
    found: None,
};

/// Four blocks of file 0, of which file 1 shares two.
const SHARED: Row = Row {
    free: &[(516, 1532)],
    sizes: &[(516, 1532)],
    owners: &[(512, 4, 128), (513, 2, 129)],
    counts: &[(513, 2, 2)],
    maps: &[(0, 512, 4), (1, 513, 2)],
    found: None,
};

/// What is right, and then another owner, a count that is too high, one that is missing, a staged block with and without its owner,
/// a free run that begins too late or ends too early, and runs that are missing or too many in the order of lengths.
const ROWS: [Row; 11] = [
    FRESH,
    SHARED,
    Row {
        owners: &[(512, 4, 129), (513, 2, 129)],
        found: Some((TreeName::Owners, 512)),
        ..SHARED
    },
    Row {
        counts: &[(513, 2, 3)],
        found: Some((TreeName::Shared, 513)),
        ..SHARED
    },
    Row {
        counts: &[],
        found: Some((TreeName::Shared, 513)),
        ..SHARED
    },
    Row {
        owners: &[(512, 4, 128), (513, 2, 129), (516, 1, OWN_COW)],
        counts: &[(513, 2, 2), (STAGED + 516, 1, 1)],
        found: Some((TreeName::Owners, 516)),
        ..SHARED
    },
    Row {
        counts: &[(513, 2, 2), (STAGED + 516, 1, 1)],
        found: Some((TreeName::Shared, 516)),
        ..SHARED
    },
    Row {
        free: &[(517, 1531)],
        found: Some((TreeName::Free, 516)),
        ..SHARED
    },
    Row {
        free: &[(512, 1535)],
        found: Some((TreeName::Free, 512)),
        ..FRESH
    },
    Row {
        sizes: &[],
        found: Some((TreeName::Sizes, 516)),
        ..SHARED
    },
    Row {
        sizes: &[(512, 1), (516, 1532)],
        found: Some((TreeName::Sizes, 512)),
        ..SHARED
    },
];

pub(crate) fn identifier() -> Uuid {
    Uuid::from_bytes(*b"the image's uuid")
}

pub(crate) fn put(rt: &impl Abort, bytes: &mut [u8], at: usize, value: &[u8]) {
    assert!(rt; at <= bytes.len() && value.len() <= bytes.len() - at);
    bytes[at..at + value.len()].copy_from_slice(value);
}

/// How many records a leaf has, and its checksum.
fn close(rt: &impl Abort, leaf: &mut [u8], records: usize) {
    assert!(rt; records < 100);
    put(rt, leaf, BB_NUMRECS, &(records as u16).to_be_bytes());
    assert!(rt; SHORT_BB_CRC + 4 <= leaf.len());
    let sum = crc32c_without(leaf, SHORT_BB_CRC);
    put(rt, leaf, SHORT_BB_CRC, &sum.to_le_bytes());
}

pub(crate) fn put_runs(rt: &impl Abort, leaf: &mut [u8], runs: &[(u32, u32)]) {
    put(rt, leaf, SHORT_HEADER_BYTES, &[0; 8]);
    for (n, (start, len)) in runs.iter().enumerate() {
        assert!(rt; n < 100);
        let at = SHORT_HEADER_BYTES + 8 * n;
        put(rt, leaf, at, &start.to_be_bytes());
        put(rt, leaf, at + 4, &len.to_be_bytes());
    }
    close(rt, leaf, runs.len());
}

fn put_owners(rt: &impl Abort, leaf: &mut [u8], owners: &[(u32, u32, u64)]) {
    for (n, (start, len, owner)) in owners.iter().enumerate() {
        assert!(rt; n < 100);
        let at = SHORT_HEADER_BYTES + 24 * n;
        put(rt, leaf, at, &start.to_be_bytes());
        put(rt, leaf, at + 4, &len.to_be_bytes());
        put(rt, leaf, at + 8, &owner.to_be_bytes());
    }
    close(rt, leaf, owners.len());
}

fn put_counts(rt: &impl Abort, leaf: &mut [u8], counts: &[(u32, u32, u32)]) {
    for (n, (start, len, count)) in counts.iter().enumerate() {
        assert!(rt; n < 100);
        let at = SHORT_HEADER_BYTES + 12 * n;
        put(rt, leaf, at, &start.to_be_bytes());
        put(rt, leaf, at + 4, &len.to_be_bytes());
        put(rt, leaf, at + 8, &count.to_be_bytes());
    }
    close(rt, leaf, counts.len());
}

fn fresh_blocks(rt: &impl Abort, alloc: Global, number: u32) -> Result<Vec<u8>, AllocError>
    requires { number < GROUPS }
    ensures { IfOk result (λ blocks. vec_len blocks ≡ FIRST_DATA_BLOCK * BLOCK_BYTES) }
{
    let mut bytes = vec![in alloc; 0; GROUP_BYTES]?;
    for n in 0..FIRST_DATA_BLOCK {
        let mut block = [0; BLOCK_BYTES];
        let place = FIRST_GROUP_BLOCK + GROUP_BLOCKS * number + n;
        fresh_block(place, &identifier(), 1, &mut block);
        put(rt, &mut bytes, BLOCK_BYTES * n as usize, &block);
    }
    Ok(bytes)
}

/// Writes what a row says over the leaves of a fresh group.
fn fill(rt: &impl Abort, blocks: &mut [u8], row: &Row) {
    assert!(rt; blocks.len() == GROUP_BYTES);
    put_runs(rt, &mut blocks[BLOCK_BYTES..2 * BLOCK_BYTES], row.free);
    put_runs(rt, &mut blocks[2 * BLOCK_BYTES..3 * BLOCK_BYTES], row.sizes);
    put_owners(
        rt,
        &mut blocks[3 * BLOCK_BYTES..4 * BLOCK_BYTES],
        row.owners,
    );
    put_counts(
        rt,
        &mut blocks[4 * BLOCK_BYTES..5 * BLOCK_BYTES],
        row.counts,
    );
}

/// A group that holds what a row says.
fn group(rt: &impl Abort, alloc: Global, number: u32, row: &Row) -> Result<Group, AllocError>
    requires { number < GROUPS }
    ensures { IfOk result (λ group. group.number ≡ number) }
{
    let mut blocks = fresh_blocks(rt, alloc, number)?;
    fill(rt, &mut blocks, row);
    match Group::open(alloc, GroupNo(number), &identifier(), blocks) {
        Ok(group) => Ok(group),
        Err(_) => {
            assert!(rt; false);
            Err(AllocError)
        }
    }
}

/// All groups, of which the first holds what a row says.
fn groups(rt: &impl Abort, alloc: Global, row: &Row) -> Result<Vec<Group>, AllocError>
    ensures { IfOk result (λ groups. AreAllGroups groups.items) }
{
    let mut groups = Vec::new(alloc);
    for number in 0..GROUPS {
        let held = if number == 0 { row } else { &FRESH };
        groups.push(group(rt, alloc, number, held)?)?;
    }
    Ok(groups)
}

fn maps_of(rt: &impl Abort, alloc: Global, mapped: &[(u32, u32, u32)]) -> Result<Maps, NoMemory> {
    let mut maps = Maps::new(alloc)?;
    for (file, at, len) in mapped {
        let step = Step::Remap {
            file: FileNo(*file),
            off: 0,
            len: *len,
            at: Addr(*at),
        };
        assert!(rt; fits(&step));
        maps.apply(&step);
    }
    Ok(maps)
}

fn verdict_of(found: Option<(TreeName, u32)>) -> Verdict {
    match found {
        Some((tree, key)) => Verdict::Differs {
            tree,
            group: GroupNo(0),
            key: Addr(key),
        },
        None => Verdict::Sound,
    }
}

fn judge_row(rt: &impl Abort, alloc: Global, row: &Row) -> Result<Verdict, NoMemory> {
    let maps = maps_of(rt, alloc, row.maps)?;
    let groups = groups(rt, alloc, row)?;
    judge(alloc, &Loaded { maps, groups })
}

#[test]
fn the_first_difference_is_named(rt: HostRuntime) -> Result<(), Fail> {
    for row in &ROWS {
        let verdict = judge_row(&rt, rt.alloc(), row)?;
        assert_eq!(rt; verdict, verdict_of(row.found));
    }
    Ok(())
}
