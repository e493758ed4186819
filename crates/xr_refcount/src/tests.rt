//! Counts and staged blocks of a group whose tree of records has one leaf.
ghost use Rattle.std.specs.Prelude.{◌≤◌, IfSome};
ghost use Rattle.xr_pool.specs.Overlay.{pool_size};
ghost use Rattle.xr_refcount.specs.Refcount.{IsRefcount};

use crate::checked::{lower, raise, stage, unstage};
use crate::refcount::Refcount;
use std::alloc::{AllocError, Global};
use std::process::Abort;
use std::test::Fail;
use xr_base::crc32c_without;
use xr_base::geometry::BLOCK_BYTES;
use xr_kinds::{Reference, Span};
use xr_pool::Overlay;
use xr_tree::Tree;

const FIRST: u32 = 776;

const POOL: usize = 512;

/// The blocks of the header and of the root aren't free.
const HEAD: [u8; 1] = [0xFC];

fn put(rt: &impl Abort, bytes: &mut [u8], at: usize, value: &[u8]) {
    assert!(rt; at <= bytes.len() && value.len() <= bytes.len() - at);
    bytes[at..at + value.len()].copy_from_slice(value);
}

/// The pool of a group in which no block has a record: block 1 is a leaf without any.
fn fresh(rt: &impl Abort, alloc: Global) -> Result<Overlay, AllocError> {
    let mut bytes = vec![in alloc; 0; BLOCK_BYTES * POOL]?;
    put(rt, &mut bytes, 16, b"the group's uuid");
    put(rt, &mut bytes, BLOCK_BYTES, &0x5233_4643_u32.to_be_bytes());
    put(rt, &mut bytes, BLOCK_BYTES + 8, &[0xFF; 8]);
    let sector = u64::from(FIRST + 1) * 8;
    put(rt, &mut bytes, BLOCK_BYTES + 16, &sector.to_be_bytes());
    put(rt, &mut bytes, BLOCK_BYTES + 32, b"the group's uuid");
    assert!(rt; bytes.len() == BLOCK_BYTES * POOL);
    let sum = crc32c_without(&bytes[BLOCK_BYTES..2 * BLOCK_BYTES], 52);
    put(rt, &mut bytes, BLOCK_BYTES + 52, &sum.to_le_bytes());
    let mut free = [0xFF; 64];
    put(rt, &mut free, 0, &HEAD);
    assert!(rt; bytes.len() == BLOCK_BYTES * POOL);
    Overlay::new(alloc, bytes, FIRST, &free)
}

fn open(over: &Overlay) -> Option<Refcount>
    requires { pool_size over.now ≤ 512 }
    ensures { IfSome result (λ counts. IsRefcount over.now counts) }
{
    let mut seen = [0; 64];
    match Tree::<Reference>::verify(over, 1, 0, &mut seen) {
        Ok(tree) => Some(Refcount { tree }),
        Err(_) => None,
    }
}

fn shared(start: u32, len: u32, count: u32) -> Reference {
    Reference {
        start,
        len,
        count,
        staged: false,
    }
}

fn staging(start: u32, len: u32) -> Reference {
    Reference {
        start,
        len,
        count: 1,
        staged: true,
    }
}

/// The records are these, in the order of the tree.
fn holds(rt: &impl Abort, over: &Overlay, counts: &Refcount, records: &[Reference])
    requires { IsRefcount over.now counts.now }
{
    let mut from = shared(0, 0, 0);
    for record in records {
        match counts.tree.at_least(over, &from) {
            Some(found) => {
                assert!(rt; found == *record && found.start < 2048);
                from = Reference {
                    start: found.start + 1,
                    ..found
                };
            }
            None => assert!(rt; false),
        }
    }
    assert!(rt; counts.tree.at_least(over, &from).is_none());
}

/// The first equal part of a run, as a record.
fn first_equal(rt: &impl Abort, over: &Overlay, counts: &Refcount, run: Span) -> Reference
    requires { IsRefcount over.now counts.now }
{
    assert!(rt; run.is_group_run());
    let part = counts.first_equal(over, run);
    Reference {
        start: part.run.start,
        len: part.run.len,
        count: part.count,
        staged: part.staged,
    }
}

/// Counts of blocks 512 to 515, and staged blocks after them.
fn count_and_stage(rt: &impl Abort, over: &mut Overlay, counts: &mut Refcount)
    requires { IsRefcount over.old counts.old }
    ensures { IsRefcount over.new counts.new }
{
    raise(rt, over, counts, 512, 4);
    holds(rt, over, counts, &[shared(512, 4, 2)]);
    assert!(rt; !lower(rt, over, counts, 513, 1));
    let rests = [shared(512, 1, 2), shared(514, 2, 2)];
    holds(rt, over, counts, &rests);
    let (start, len) = (512, 4);
    assert!(rt; first_equal(rt, over, counts, Span { start, len }) == shared(512, 1, 2));
    let start = 513;
    assert!(rt; first_equal(rt, over, counts, Span { start, len }) == shared(513, 1, 1));
    assert!(rt; lower(rt, over, counts, 513, 1));
    holds(rt, over, counts, &rests);
    stage(rt, over, counts, 516, 2);
    let [first, second] = rests;
    holds(rt, over, counts, &[first, second, staging(516, 2)]);
    let start = 516;
    assert!(rt; first_equal(rt, over, counts, Span { start, len }) == staging(516, 2));
    unstage(rt, over, counts, 517, 1);
    holds(rt, over, counts, &[first, second, staging(516, 1)]);
}

/// Records of one count and kind become one, and others stay beside each other.
fn join_and_part(rt: &impl Abort, over: &mut Overlay, counts: &mut Refcount)
    requires { IsRefcount over.old counts.old }
    ensures { IsRefcount over.new counts.new }
{
    raise(rt, over, counts, 600, 2);
    raise(rt, over, counts, 604, 2);
    holds(rt, over, counts, &[shared(600, 2, 2), shared(604, 2, 2)]);
    raise(rt, over, counts, 602, 2);
    holds(rt, over, counts, &[shared(600, 6, 2)]);
    raise(rt, over, counts, 602, 2);
    holds(
        rt,
        over,
        counts,
        &[shared(600, 2, 2), shared(602, 2, 3), shared(604, 2, 2)],
    );
    raise(rt, over, counts, 604, 2);
    holds(rt, over, counts, &[shared(600, 2, 2), shared(602, 4, 3)]);
    raise(rt, over, counts, 600, 2);
    assert!(rt; !lower(rt, over, counts, 600, 6));
    stage(rt, over, counts, 606, 1);
    stage(rt, over, counts, 608, 1);
    holds(
        rt,
        over,
        counts,
        &[shared(600, 6, 2), staging(606, 1), staging(608, 1)],
    );
    stage(rt, over, counts, 607, 1);
    holds(rt, over, counts, &[shared(600, 6, 2), staging(606, 3)]);
    assert!(rt; !lower(rt, over, counts, 601, 5));
    unstage(rt, over, counts, 606, 3);
    holds(rt, over, counts, &[shared(600, 1, 2)]);
    assert!(rt; !lower(rt, over, counts, 600, 1));
    holds(rt, over, counts, &[]);
}

#[test]
fn counts_go_up_and_down(rt: HostRuntime) -> Result<(), Fail> {
    let mut over = fresh(&rt, rt.alloc())?;
    assert!(rt; over.len() <= 512);
    match open(&over) {
        Some(mut counts) => count_and_stage(&rt, &mut over, &mut counts),
        None => assert!(rt; false),
    }
    Ok(())
}

#[test]
fn equal_runs_that_touch_are_one(rt: HostRuntime) -> Result<(), Fail> {
    let mut over = fresh(&rt, rt.alloc())?;
    assert!(rt; over.len() <= 512);
    match open(&over) {
        Some(mut counts) => join_and_part(&rt, &mut over, &mut counts),
        None => assert!(rt; false),
    }
    Ok(())
}
