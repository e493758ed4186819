//! Group 0 of a fresh image: rows of calls with what the group holds after each, blocks that are refused, changes that are
//! dropped, and a group of many records.
ghost use Rattle.std.specs.Prelude.{◌≡◌, ℕ, ◌*◌, false, vec_len, IfOk};
ghost use Rattle.xr_base.specs.declared.geometry.TheConstants.{BLOCK_BYTES, FIRST_DATA_BLOCK};
ghost use Rattle.xr_group.specs.Sets.{IsPaired, has_pair};

use crate::checked::{are_paired, fill, has_no_owner, lower, raise, run_of, stage, unstage};
use crate::{Group, OpenFault};
use std::alloc::{AllocError, Global};
use std::process::Abort;
use std::test::Fail;
use uuid::Uuid;
use xr_base::geometry::{BLOCK_BYTES, FIRST_DATA_BLOCK, FIRST_GROUP_BLOCK, OWN_COW};
use xr_base::{Addr, GroupNo, Run, be32_at, crc32c_without};
use xr_headers::layout::{BLOCK_CRC, FREE_MAP_PLACE, LEVELS_PLACE, ROOTS_PLACE};
use xr_headers::{HeaderFault, fresh_block};
use xr_maps::{Counted, Rev};
use xr_tree::{TreeFault, TreeKind};

const GROUP_BYTES: usize = 512 * BLOCK_BYTES;

fn identifier() -> Uuid {
    Uuid::from_bytes(*b"the image's uuid")
}

fn put(rt: &impl Abort, bytes: &mut [u8], at: usize, value: &[u8]) {
    assert!(rt; at <= bytes.len() && value.len() <= bytes.len() - at);
    bytes[at..at + value.len()].copy_from_slice(value);
}

/// The blocks of group 0 in a fresh image.
fn fresh_blocks(rt: &impl Abort, alloc: Global) -> Result<Vec<u8>, AllocError> {
    let mut bytes = vec![in alloc; 0; GROUP_BYTES]?;
    for n in 0..FIRST_DATA_BLOCK {
        let mut block = [0; BLOCK_BYTES];
        fresh_block(FIRST_GROUP_BLOCK + n, &identifier(), 7, &mut block);
        put(rt, &mut bytes, n as usize * BLOCK_BYTES, &block);
    }
    Ok(bytes)
}

fn open(rt: &impl Abort, alloc: Global, blocks: Vec<u8>) -> Result<Group, OpenFault>
    ensures { IfOk result (λ group. group.number ≡ 0) }
{
    assert!(rt; blocks.len() == GROUP_BYTES);
    Group::open(alloc, GroupNo(0), &identifier(), blocks)
}

/// A record's start, length, owner and offset.
type Owned = (u32, u32, u64, u64);

/// The owners' records are these.
fn owns(rt: &impl Abort, group: &Group, records: &[Owned]) {
    assert!(rt; group.owner_records() as usize == records.len());
    let mut after = None;
    for (start, len, owner, off) in records {
        let next = group.next_owner(after);
        let run = Run {
            start: Addr(*start),
            len: *len,
        };
        let wanted = Rev {
            run,
            owner: *owner,
            off: *off,
        };
        assert!(rt; next == Some(wanted));
        after = next;
    }
    assert!(rt; group.next_owner(after).is_none());
}

/// The records of counts are these: a start, a length, a count, and whether it is staged.
fn counts(rt: &impl Abort, group: &Group, records: &[(u32, u32, u32, bool)]) {
    let mut after = None;
    for (start, len, count, staged) in records {
        let next = group.next_count(after);
        let run = Run {
            start: Addr(*start),
            len: *len,
        };
        let wanted = Counted {
            run,
            count: *count,
            staged: *staged,
        };
        assert!(rt; next == Some(wanted));
        after = next;
    }
    assert!(rt; group.next_count(after).is_none());
}

/// The free runs are these by their blocks, and these by their lengths.
fn frees(rt: &impl Abort, group: &Group, runs: &[(u32, u32)], sized: &[(u32, u32)])
    ensures { IsPaired group.now }
{
    let mut after = None;
    for (start, len) in runs {
        let next = group.next_free(after);
        let start = Addr(*start);
        assert!(rt; next == Some(Run { start, len: *len }));
        after = next;
    }
    assert!(rt; group.next_free(after).is_none());
    let mut after = None;
    for (start, len) in sized {
        let next = group.next_size(after);
        let start = Addr(*start);
        assert!(rt; next == Some(Run { start, len: *len }));
        after = next;
    }
    assert!(rt; group.next_size(after).is_none());
    are_paired(rt, group);
}

/// Two owners of a block, offsets that run on, and staged blocks; then the middle of a record goes.
fn give_and_take_owners(rt: &impl Abort, group: &mut Group)
    requires number { group.old.number ≡ 0 }
    requires none { (w o a : ℕ) → has_pair group.old w o a ≡ false }
    ensures { group.new.number ≡ 0 }
{
    owns(rt, group, &[]);
    let run = run_of(rt, group, 512, 4);
    assert!(rt; group.owner_records() < 9);
    group.add(&run, 128, 0);
    owns(rt, group, &[(512, 4, 128, 0)]);
    let run = run_of(rt, group, 514, 1);
    assert!(rt; group.has_none_of(&run, 129, 9) && !group.has_all_of(&run, 129, 9));
    assert!(rt; group.owner_records() < 9);
    group.add(&run, 129, 9);
    owns(rt, group, &[(512, 4, 128, 0), (514, 1, 129, 9)]);
    let run = run_of(rt, group, 516, 4);
    assert!(rt; group.owner_records() < 9);
    group.add(&run, 128, 4);
    owns(rt, group, &[(512, 8, 128, 0), (514, 1, 129, 9)]);
    let run = run_of(rt, group, 600, 2);
    assert!(rt; group.owner_records() < 9);
    group.add(&run, OWN_COW, 0);
    let run = run_of(rt, group, 513, 2);
    assert!(rt; group.has_all_of(&run, 128, 1) && !group.has_none_of(&run, 128, 1));
    assert!(rt; group.owner_records() < 9);
    group.remove(&run, 128, 1);
    owns(
        rt,
        group,
        &[
            (512, 1, 128, 0),
            (514, 1, 129, 9),
            (515, 5, 128, 3),
            (600, 2, OWN_COW, 0),
        ],
    );
}

/// The first part of a run: its length, its count, and whether it is staged.
fn first_part(rt: &impl Abort, group: &Group, start: u32, len: u32) -> (u32, u32, bool)
    requires { group.now.number ≡ 0 }
{
    let part = group.first_equal(&run_of(rt, group, start, len));
    (part.run.len, part.count, part.staged)
}

/// Counts go up, down to 1 and no further, and blocks are staged.
fn count_and_stage(rt: &impl Abort, group: &mut Group)
    requires { group.old.number ≡ 0 }
{
    counts(rt, group, &[]);
    raise(rt, group, 512, 4);
    counts(rt, group, &[(512, 4, 2, false)]);
    raise(rt, group, 513, 2);
    counts(
        rt,
        group,
        &[(512, 1, 2, false), (513, 2, 3, false), (515, 1, 2, false)],
    );
    assert!(rt; !lower(rt, group, 515, 1));
    assert!(rt; lower(rt, group, 515, 1));
    stage(rt, group, 516, 3);
    counts(
        rt,
        group,
        &[(512, 1, 2, false), (513, 2, 3, false), (516, 3, 1, true)],
    );
    assert!(rt; first_part(rt, group, 513, 4) == (2, 3, false));
    assert!(rt; first_part(rt, group, 515, 4) == (1, 1, false));
    assert!(rt; first_part(rt, group, 516, 4) == (3, 1, true));
    unstage(rt, group, 517, 1);
    counts(
        rt,
        group,
        &[
            (512, 1, 2, false),
            (513, 2, 3, false),
            (516, 1, 1, true),
            (518, 1, 1, true),
        ],
    );
}

/// Takes the first four blocks, which are free.
fn take_four(rt: &impl Abort, group: &mut Group)
    requires paired { IsPaired group.old }
    requires number { group.old.number ≡ 0 }
    ensures { group.new.number ≡ 0 }
{
    let taken = group.take_first(4);
    let run = run_of(rt, group, 512, 4);
    assert!(rt; taken == Some(run));
    frees(rt, group, &[(516, 1532)], &[(516, 1532)]);
    let middle = run_of(rt, group, 513, 1);
    assert!(rt; group.has_none_free(&middle));
    group.give(&middle);
    frees(
        rt,
        group,
        &[(513, 1), (516, 1532)],
        &[(513, 1), (516, 1532)],
    );
    let front = run_of(rt, group, 512, 2);
    assert!(rt; !group.has_none_free(&front));
    let front = run_of(rt, group, 512, 1);
    assert!(rt; group.has_none_free(&front));
    group.give(&front);
    let rest = run_of(rt, group, 514, 2);
    assert!(rt; group.has_none_free(&rest));
    group.give(&rest);
    frees(rt, group, &[(512, 1536)], &[(512, 1536)]);
}

/// Takes all blocks.
fn take_all(rt: &impl Abort, group: &mut Group)
    requires paired { IsPaired group.old }
    requires number { group.old.number ≡ 0 }
    ensures { group.new.number ≡ 0 }
{
    let taken = group.take_first(2000);
    let run = run_of(rt, group, 512, 1536);
    assert!(rt; taken == Some(run));
    frees(rt, group, &[], &[]);
    assert!(rt; group.take_first(1).is_none());
    group.give(&run);
    frees(rt, group, &[(512, 1536)], &[(512, 1536)]);
}

fn use_blocks(rt: &impl Abort, group: &mut Group)
    requires { group.old.number ≡ 0 }
    ensures { group.new.number ≡ 0 }
{
    frees(rt, group, &[(512, 1536)], &[(512, 1536)]);
    take_four(rt, group);
    are_paired(rt, group);
    take_all(rt, group);
}

#[test]
fn each_call_changes_what_it_says(rt: HostRuntime) -> Result<(), Fail> {
    let blocks = fresh_blocks(&rt, rt.alloc())?;
    match open(&rt, rt.alloc(), blocks) {
        Ok(mut group) => {
            assert!(rt; group.changed() == 0);
            use_blocks(&rt, &mut group);
            has_no_owner(&rt, &group);
            give_and_take_owners(&rt, &mut group);
            count_and_stage(&rt, &mut group);
        }
        Err(_) => assert!(rt; false),
    }
    Ok(())
}

fn header_sum(rt: &impl Abort, blocks: &[u8]) -> u32 {
    assert!(rt; BLOCK_BYTES <= blocks.len());
    crc32c_without(&blocks[0..BLOCK_BYTES], BLOCK_CRC)
}

/// The blocks of group 0 with another value in its header.
fn with_header(
    rt: &impl Abort,
    alloc: Global,
    at: usize,
    value: &[u8],
) -> Result<Vec<u8>, AllocError> {
    let mut bytes = fresh_blocks(rt, alloc)?;
    put(rt, &mut bytes, at, value);
    let sum = header_sum(rt, &bytes);
    put(rt, &mut bytes, BLOCK_CRC, &sum.to_le_bytes());
    Ok(bytes)
}

fn header(field: u32) -> OpenFault {
    OpenFault::Header(HeaderFault { block: 776, field })
}

fn tree(block: u32, kind: TreeKind) -> OpenFault {
    OpenFault::Tree(TreeFault { block, kind })
}

/// Roots outside the pool, a level that differs, a root of another tree, a block in two trees, the header's block and a tree's
/// that are free, and a block of no tree that isn't.
#[test]
fn other_blocks_are_no_group(rt: HostRuntime) -> Result<(), Fail> {
    for (at, value, fault) in [
        (ROOTS_PLACE + 8, &[0, 0, 2, 0][..], header(40)),
        (ROOTS_PLACE, &[0; 4], header(32)),
        (LEVELS_PLACE + 3, &[1], tree(777, TreeKind::Header)),
        (LEVELS_PLACE + 15, &[1], tree(780, TreeKind::Header)),
        (ROOTS_PLACE + 3, &[2], tree(778, TreeKind::Magic)),
        (ROOTS_PLACE + 7, &[1], tree(777, TreeKind::Reuse)),
        (FREE_MAP_PLACE, &[0xE1], header(64)),
        (FREE_MAP_PLACE, &[0xE2], tree(777, TreeKind::Reuse)),
        (FREE_MAP_PLACE, &[0xF0], tree(780, TreeKind::Reuse)),
        (FREE_MAP_PLACE, &[0xC0], header(64)),
    ] {
        let blocks = with_header(&rt, rt.alloc(), at, value)?;
        match open(&rt, rt.alloc(), blocks) {
            Ok(_) => assert!(rt; false),
            Err(found) => assert!(rt; found == fault),
        }
    }
    Ok(())
}

/// A word of the changed header.
fn new_word(rt: &impl Abort, group: &Group, at: usize) -> u32 {
    assert!(rt; group.changed() > 0 && at <= 124);
    let (place, bytes) = group.change(0);
    assert!(rt; place == FIRST_GROUP_BLOCK);
    be32_at(bytes, at)
}

/// A tree splits, and counts and free blocks change.
fn change_all(rt: &impl Abort, group: &mut Group)
    requires number { group.old.number ≡ 0 }
    requires none { (w o a : ℕ) → has_pair group.old w o a ≡ false }
    ensures { group.new.number ≡ 0 }
{
    fill(rt, group, 128, 1024);
    stage(rt, group, 600, 1);
    are_paired(rt, group);
    let _ = group.take_first(9);
    assert!(rt; group.owner_records() == 1024);
    assert!(rt; new_word(rt, group, LEVELS_PLACE + 8) == 1);
    assert!(rt; new_word(rt, group, ROOTS_PLACE + 8) != 3);
}

fn goes_back(rt: &impl Abort, group: &mut Group)
    requires { group.old.number ≡ 0 }
{
    raise(rt, group, 512, 1);
    assert!(rt; group.changed() == 1 && group.change(0).0 == 780);
    group.keep();
    assert!(rt; group.changed() == 0);
    has_no_owner(rt, group);
    change_all(rt, group);
    group.drop_changes();
    assert!(rt; group.changed() == 0);
    counts(rt, group, &[(512, 1, 2, false)]);
    frees(rt, group, &[(512, 1536)], &[(512, 1536)]);
    let run = run_of(rt, group, 512, 4);
    has_no_owner(rt, group);
    assert!(rt; group.owner_records() < 9);
    group.add(&run, 128, 0);
    owns(rt, group, &[(512, 4, 128, 0)]);
    assert!(rt; group.changed() == 1 && group.change(0).0 == 779);
}

#[test]
fn dropped_changes_are_gone(rt: HostRuntime) -> Result<(), Fail> {
    let blocks = fresh_blocks(&rt, rt.alloc())?;
    match open(&rt, rt.alloc(), blocks) {
        Ok(mut group) => goes_back(&rt, &mut group),
        Err(_) => assert!(rt; false),
    }
    Ok(())
}

/// The blocks with the changed ones of a group over them.
fn lay_over(rt: &impl Abort, group: &Group, blocks: &mut [u8]) {
    for i in 0..group.changed() {
        let (place, bytes) = group.change(i);
        assert!(rt; place >= FIRST_GROUP_BLOCK && place < 2000);
        put(
            rt,
            blocks,
            (place - FIRST_GROUP_BLOCK) as usize * BLOCK_BYTES,
            bytes,
        );
    }
}

/// Sixteen owners have 1,024 records each.
fn fill_all(rt: &impl Abort, group: &mut Group)
    requires number { group.old.number ≡ 0 }
    requires none { (w o a : ℕ) → has_pair group.old w o a ≡ false }
{
    for owner in 128..144 {
        fill(rt, group, owner, 1024);
    }
}

#[test]
fn a_group_of_many_records_is_one(rt: HostRuntime) -> Result<(), Fail> {
    let mut blocks = fresh_blocks(&rt, rt.alloc())?;
    let before = fresh_blocks(&rt, rt.alloc())?;
    match open(&rt, rt.alloc(), before) {
        Ok(mut group) => {
            has_no_owner(&rt, &group);
            fill_all(&rt, &mut group);
            lay_over(&rt, &group, &mut blocks);
        }
        Err(_) => assert!(rt; false),
    }
    match open(&rt, rt.alloc(), blocks) {
        Ok(group) => assert!(rt; group.owner_records() == 16_384),
        Err(_) => assert!(rt; false),
    }
    Ok(())
}
