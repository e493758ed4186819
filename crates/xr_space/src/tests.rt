//! The free blocks of a fresh group: one run, in a leaf of each tree.
ghost use Rattle.std.specs.Prelude.{◌≡◌, IfSome};
ghost use Rattle.xr_pool.specs.Overlay.{free_count};
ghost use Rattle.xr_space.specs.Space.{ArePaired, IsSpace};

use crate::space::Space;
use std::alloc::{AllocError, Global};
use std::process::Abort;
use std::test::Fail;
use xr_base::crc32c_without;
use xr_base::geometry::BLOCK_BYTES;
use xr_kinds::{ByBlock, BySize, Span};
use xr_pool::Overlay;
use xr_tree::Tree;

const FIRST: u32 = 776;

const POOL: usize = 512;

/// The blocks of the header and of the two roots aren't free.
const HEAD: [u8; 1] = [0xF8];

fn put(rt: &impl Abort, bytes: &mut [u8], at: usize, value: &[u8]) {
    assert!(rt; at <= bytes.len() && value.len() <= bytes.len() - at);
    bytes[at..at + value.len()].copy_from_slice(value);
}

/// Lays out a leaf whose only record is the run of all data blocks.
fn put_leaf(rt: &impl Abort, bytes: &mut [u8], number: u32, magic: u32) {
    assert!(rt; number < 8);
    let at = BLOCK_BYTES * number as usize;
    put(rt, bytes, at, &magic.to_be_bytes());
    put(rt, bytes, at + 6, &1_u16.to_be_bytes());
    put(rt, bytes, at + 8, &[0xFF; 8]);
    let sector = u64::from(FIRST + number) * 8;
    put(rt, bytes, at + 16, &sector.to_be_bytes());
    put(rt, bytes, at + 32, b"the group's uuid");
    put(rt, bytes, at + 56, &512_u32.to_be_bytes());
    put(rt, bytes, at + 60, &1536_u32.to_be_bytes());
    assert!(rt; at + BLOCK_BYTES <= bytes.len());
    let sum = crc32c_without(&bytes[at..at + BLOCK_BYTES], 52);
    put(rt, bytes, at + 52, &sum.to_le_bytes());
}

fn fresh(rt: &impl Abort, alloc: Global) -> Result<Overlay, AllocError> {
    let mut bytes = vec![in alloc; 0; BLOCK_BYTES * POOL]?;
    put(rt, &mut bytes, 16, b"the group's uuid");
    put_leaf(rt, &mut bytes, 1, 0x4142_3342);
    put_leaf(rt, &mut bytes, 2, 0x4142_3343);
    let mut free = [0xFF; 64];
    put(rt, &mut free, 0, &HEAD);
    assert!(rt; bytes.len() == BLOCK_BYTES * POOL);
    Overlay::new(alloc, bytes, FIRST, &free)
}

fn open(rt: &impl Abort, over: &Overlay) -> Option<Space>
    ensures { IfSome result (λ space. IsSpace over.now space) }
{
    let mut seen = [0; 64];
    assert!(rt; over.len() <= 512);
    let Ok(by_block) = Tree::<ByBlock>::verify(over, 1, 0, &mut seen) else {
        return None;
    };
    let Ok(by_size) = Tree::<BySize>::verify(over, 2, 0, &mut seen) else {
        return None;
    };
    Some(Space { by_block, by_size })
}

/// How many blocks of the pool are free.
fn free_blocks(over: &Overlay) -> u32
    ensures { result ≡ free_count over.now }
{
    let mut count = 0;
    for n in 0..over.len() {
        if n > 0 && over.is_free(n) {
            count += 1;
        }
    }
    count
}

/// The runs are these, in the order of their blocks, and both trees hold them.
fn holds(rt: &impl Abort, over: &Overlay, space: &Space, runs: &[(u32, u32)])
    requires { IsSpace over.now space.now }
    ensures { ArePaired over.now space.now }
{
    let mut start = 0;
    for run in runs {
        let from = ByBlock { start, len: 0 };
        match space.by_block.at_least(over, &from) {
            Some(found) => {
                assert!(rt; (found.start, found.len) == *run);
                assert!(rt; found.start < 2048);
                start = found.start + 1;
            }
            None => assert!(rt; false),
        }
    }
    let from = ByBlock { start, len: 0 };
    assert!(rt; space.by_block.at_least(over, &from).is_none());
    assert!(rt; space.paired(over));
}

/// Takes blocks, and tells the run that they are.
fn take(rt: &impl Abort, over: &mut Overlay, space: &mut Space, need: u32) -> Option<(u32, u32)>
    requires { IsSpace over.old space.old }
    ensures { IsSpace over.new space.new }
{
    assert!(rt; need > 0 && free_blocks(over) >= 2 && space.paired(over));
    match space.take_first(over, need) {
        Some(run) => Some((run.start, run.len)),
        None => None,
    }
}

/// Gives blocks that aren't free.
fn give(rt: &impl Abort, over: &mut Overlay, space: &mut Space, start: u32, len: u32)
    requires { IsSpace over.old space.old }
    ensures { IsSpace over.new space.new }
{
    let run = Span { start, len };
    assert!(rt; run.is_group_run() && free_blocks(over) >= 4 && space.paired(over));
    let record = ByBlock { start, len };
    assert!(rt; space.by_block.overlap(over, &record, None).is_none());
    space.give(over, run);
}

#[test]
fn blocks_that_are_given_back_become_one_run(rt: HostRuntime) -> Result<(), Fail> {
    let mut over = fresh(&rt, rt.alloc())?;
    match open(&rt, &over) {
        Some(mut space) => {
            holds(&rt, &over, &space, &[(512, 1536)]);
            assert_eq!(rt; take(&rt, &mut over, &mut space, 3), Some((512, 3)));
            holds(&rt, &over, &space, &[(515, 1533)]);
            give(&rt, &mut over, &mut space, 513, 1);
            holds(&rt, &over, &space, &[(513, 1), (515, 1533)]);
            give(&rt, &mut over, &mut space, 512, 1);
            holds(&rt, &over, &space, &[(512, 2), (515, 1533)]);
            give(&rt, &mut over, &mut space, 514, 1);
            holds(&rt, &over, &space, &[(512, 1536)]);
            assert_eq!(rt; take(&rt, &mut over, &mut space, 2000), Some((512, 1536)));
            holds(&rt, &over, &space, &[]);
            assert_eq!(rt; take(&rt, &mut over, &mut space, 1), None);
        }
        None => assert!(rt; false),
    }
    Ok(())
}
