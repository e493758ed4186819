//! Trees that grow from an empty leaf and shrink to one, record by record, and records that are written over others.

use crate::growth::{Family, Grown};
use crate::tests::{
    FILE_BLOCKS, FILE_FIRST, GROUP_BLOCKS, GROUP_FIRST, Numbered, crowded, empty, owned, put_leaf,
};
use std::alloc::{AllocError, Global};
use std::process::Abort;
use std::test::Fail;
use xr_kinds::{ByBlock, BySize, Mapping, Record, Reference, Reverse};
use xr_lookup::Reach;
use xr_pool::Overlay;
use xr_verify::Kept;

/// The header's block and the root's aren't free.
const FREE: [u8; 64] = [
    0xFC, 0xFF, 0xFF, 0xFF, 0xFF, 0xFF, 0xFF, 0xFF, 0xFF, 0xFF, 0xFF, 0xFF, 0xFF, 0xFF, 0xFF, 0xFF,
    0xFF, 0xFF, 0xFF, 0xFF, 0xFF, 0xFF, 0xFF, 0xFF, 0xFF, 0xFF, 0xFF, 0xFF, 0xFF, 0xFF, 0xFF, 0xFF,
    0xFF, 0xFF, 0xFF, 0xFF, 0xFF, 0xFF, 0xFF, 0xFF, 0xFF, 0xFF, 0xFF, 0xFF, 0xFF, 0xFF, 0xFF, 0xFF,
    0xFF, 0xFF, 0xFF, 0xFF, 0xFF, 0xFF, 0xFF, 0xFF, 0xFF, 0xFF, 0xFF, 0xFF, 0xFF, 0xFF, 0xFF, 0xFF,
];

/// How many records go in or out between two times that the tree is gone through.
const PART: usize = 100;

/// A pool with an empty leaf in block 1.
fn bare<R: Record>(rt: &impl Abort, alloc: Global, first: u32) -> Result<Overlay, AllocError> {
    let file = first == FILE_FIRST;
    let count = if file { FILE_BLOCKS } else { GROUP_BLOCKS };
    let mut blocks = empty(rt, alloc, first, count)?;
    let none: [R; 0] = [];
    put_leaf(rt, &mut blocks, 1, None, None, &none);
    let place = if file { FILE_FIRST } else { GROUP_FIRST };
    assert!(rt; blocks.bytes.len() == 4096 * count);
    Overlay::new(alloc, blocks.bytes, place, &FREE)
}

/// Puts records in.
fn fill<R: Family + Kept + Reach + PartialEq>(
    rt: &impl Abort,
    grown: &mut Grown<R>,
    records: &[R],
) {
    for i in 0..records.len() {
        if i % PART == 0 {
            assert!(rt; grown.stands());
        }
        assert!(rt; grown.put_in(records[i]));
    }
    assert!(rt; grown.stands());
}

/// Cuts records out.
fn drain<R: Family + Kept + Reach + PartialEq>(
    rt: &impl Abort,
    grown: &mut Grown<R>,
    records: &[R],
) {
    for i in 0..records.len() {
        if i % PART == 0 {
            assert!(rt; grown.stands());
        }
        assert!(rt; grown.take_out(&records[i]));
    }
    assert!(rt; grown.stands());
}

/// The tree has each of the records.
fn has_all<R: Family + Kept + Reach + PartialEq>(rt: &impl Abort, grown: &Grown<R>, records: &[R]) {
    for i in 0..records.len() {
        assert!(rt; grown.has(&records[i]));
    }
}

/// Records go in, and then out in another order, and leave an empty leaf.
fn come_and_go<R: Family + Kept + Reach + PartialEq>(
    rt: &impl Abort,
    alloc: Global,
    first: u32,
    records: &[R],
    out: &[R],
    level: u32,
) -> Result<(), AllocError> {
    let over = bare::<R>(rt, alloc, first)?;
    assert!(rt; !records.is_empty() && out.len() == records.len());
    match Grown::new(over, &records[0]) {
        Some(mut grown) => {
            let free = grown.free();
            fill(rt, &mut grown, records);
            assert_eq!(rt; grown.level(), level);
            has_all(rt, &grown, records);
            drain(rt, &mut grown, out);
            assert!(rt; grown.level() == 0 && grown.is_empty(&records[0]));
            assert_eq!(rt; grown.free(), free);
        }
        None => assert!(rt; false),
    }
    Ok(())
}

/// The place at which the i-th of some stands when each is so far after the one before it, going round.
fn dealt(rt: &impl Abort, i: u32, count: u32, step: u32) -> u32 {
    assert!(rt; i < count && count < 65536 && step < 65536);
    i * step % count
}

fn numbered<R: Numbered>(
    rt: &impl Abort,
    alloc: Global,
    count: u32,
    step: u32,
) -> Result<Vec<R>, AllocError> {
    let mut records = Vec::new(alloc);
    for i in 0..count {
        records.push(R::numbered(dealt(rt, i, count, step)))?;
    }
    Ok(records)
}

fn owners(
    rt: &impl Abort,
    alloc: Global,
    count: u32,
    step: u32,
) -> Result<Vec<Reverse>, AllocError> {
    let mut records = Vec::new(alloc);
    for i in 0..count {
        records.push(crowded(dealt(rt, i, count, step)))?;
    }
    Ok(records)
}

/// So many records come and go in a tree of two levels.
fn two_levels<R: Numbered + Family + Kept + Reach + PartialEq>(
    rt: &impl Abort,
    alloc: Global,
    first: u32,
    count: u32,
) -> Result<(), AllocError> {
    let records = numbered::<R>(rt, alloc, count, 7)?;
    let out = numbered::<R>(rt, alloc, count, 11)?;
    come_and_go(rt, alloc, first, &records, &out, 1)
}

#[test]
fn records_of_each_kind_come_and_go(rt: HostRuntime) -> Result<(), Fail> {
    let alloc = rt.alloc();
    two_levels::<ByBlock>(&rt, alloc, GROUP_FIRST, 751)?;
    two_levels::<BySize>(&rt, alloc, GROUP_FIRST, 751)?;
    two_levels::<Reference>(&rt, alloc, GROUP_FIRST, 751)?;
    two_levels::<Mapping>(&rt, alloc, FILE_FIRST, 499)?;
    // The second are as many owners as a tree may have.
    for (count, step, out_step, level) in [(751, 7, 11, 1), (34_304, 7919, 20_011, 2)] {
        let records = owners(&rt, alloc, count, step)?;
        let out = owners(&rt, alloc, count, out_step)?;
        come_and_go(&rt, alloc, GROUP_FIRST, &records, &out, level)?;
    }
    Ok(())
}

/// Records with numbers that rise or fall one by one go in or out. Then the tree has such a level, and so many blocks are
/// free.
#[derive(Clone, Copy)]
struct Step {
    goes_in: bool,
    number: u32,
    falling: bool,
    count: u32,
    level: u32,
    free: u64,
}

/// Steps, as their fields in order. A leaf has 168 records at most and 84 at least.
const STEPS: [[(bool, u32, bool, u32, u32, u64); 6]; 2] = [
    [
        (true, 10000, false, 168, 0, 510),
        // The root is split, and then the last leaf, in 84, 84 and 86.
        (true, 10168, false, 1, 1, 508),
        (true, 10169, false, 85, 1, 507),
        // The first leaf becomes one with the second, and in the end takes two from the last.
        (false, 10000, false, 1, 1, 508),
        (false, 10001, false, 85, 1, 508),
        // The two that are left become one, and the root goes.
        (false, 10086, false, 1, 0, 510),
    ],
    // The same at the other end.
    [
        (true, 10167, true, 168, 0, 510),
        (true, 9999, true, 1, 1, 508),
        (true, 9998, true, 85, 1, 507),
        (false, 10167, true, 1, 1, 508),
        (false, 10166, true, 85, 1, 508),
        (false, 10081, true, 1, 0, 510),
    ],
];

/// The records of a step.
fn records_of(rt: &impl Abort, alloc: Global, step: &Step) -> Result<Vec<Reverse>, AllocError> {
    let mut records = Vec::new(alloc);
    for i in 0..step.count {
        assert!(rt; step.number < 65536 && i < 65536);
        let number = if step.falling {
            step.number.saturating_sub(i)
        } else {
            step.number + i
        };
        records.push(crowded(number))?;
    }
    Ok(records)
}

fn go(
    rt: &impl Abort,
    alloc: Global,
    grown: &mut Grown<Reverse>,
    step: &Step,
) -> Result<(), AllocError> {
    let records = records_of(rt, alloc, step)?;
    if step.goes_in {
        fill(rt, grown, &records);
    } else {
        drain(rt, grown, &records);
    }
    assert_eq!(rt; (grown.level(), grown.free()), (step.level, step.free));
    Ok(())
}

fn walk(rt: &impl Abort, alloc: Global, steps: &[Step]) -> Result<(), AllocError> {
    let over = bare::<Reverse>(rt, alloc, GROUP_FIRST)?;
    match Grown::new(over, &crowded(0)) {
        Some(mut grown) => {
            for step in steps {
                go(rt, alloc, &mut grown, step)?;
            }
        }
        None => assert!(rt; false),
    }
    Ok(())
}

#[test]
fn leaves_split_share_and_merge_at_either_end(rt: HostRuntime) -> Result<(), Fail> {
    for row in STEPS {
        let steps = row.map(|(goes_in, number, falling, count, level, free)| Step {
            goes_in,
            number,
            falling,
            count,
            level,
            free,
        });
        walk(&rt, rt.alloc(), &steps)?;
    }
    Ok(())
}

/// What is written over the records of two leaves, one after the other: the start, length and owner of a record and of
/// the new one, and how many blocks change. The first leaf ends with (519, 1, 133), and the second begins with
/// (519, 1, 135).
const EXCHANGES: [((u32, u32, u64), (u32, u32, u64), usize); 8] = [
    // In the same place, and in another between the same two records: in the leaf alone.
    ((513, 1, 145), (513, 2, 145), 1),
    ((513, 2, 145), (513, 1, 146), 1),
    // The last record has the greatest high key, then another has it, and then the last one again.
    ((519, 1, 133), (519, 3, 133), 2),
    ((513, 1, 146), (513, 100, 146), 2),
    ((513, 100, 146), (513, 1, 144), 2),
    // The first record of each leaf gives its low key.
    ((519, 1, 135), (519, 1, 134), 2),
    ((519, 1, 134), (519, 1, 136), 2),
    ((512, 1, 128), (512, 1, 129), 2),
];

fn exchange(
    rt: &impl Abort,
    grown: &mut Grown<Reverse>,
    old: &Reverse,
    new: &Reverse,
    blocks: usize,
) {
    grown.keep();
    assert!(rt; grown.has(old) && !grown.has(new));
    assert!(rt; grown.exchange(old, *new));
    assert!(rt; grown.has(new) && !grown.has(old) && grown.stands());
    assert_eq!(rt; grown.changed(), blocks);
}

#[test]
fn a_record_is_written_over_another(rt: HostRuntime) -> Result<(), Fail> {
    let mut records = Vec::new(rt.alloc());
    for i in 0..169 {
        records.push(crowded(2 * i))?;
    }
    let over = bare::<Reverse>(&rt, rt.alloc(), GROUP_FIRST)?;
    match Grown::new(over, &crowded(0)) {
        Some(mut grown) => {
            fill(&rt, &mut grown, &records);
            for (old, new, blocks) in EXCHANGES {
                let old = owned(old.0, old.1, old.2, 0);
                let new = owned(new.0, new.1, new.2, 0);
                exchange(&rt, &mut grown, &old, &new, blocks);
            }
            assert_eq!(rt; grown.level(), 1);
        }
        None => assert!(rt; false),
    }
    Ok(())
}
