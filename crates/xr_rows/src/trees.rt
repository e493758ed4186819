//! The trees of a fresh image's first group.

use std::alloc::{AllocError, Global};
use std::process::Abort;
use std::test::Fail;
use uuid::Uuid;
use xr_base::GroupNo;
use xr_base::geometry::BLOCK_BYTES;
use xr_headers::{GroupHead, HeaderFault, fresh_block, take_group};
use xr_tree::{ByBlock, BySize, Overlay, Reference, Reverse, Tree};

/// The first image block of group 0, and the number of its blocks that are no data.
const FIRST: u32 = 776;

const BLOCKS: u32 = 512;

fn fresh_group(rt: &impl Abort, alloc: Global, uuid: &Uuid) -> Result<Vec<u8>, AllocError> {
    let mut bytes = vec![in alloc; 0; BLOCK_BYTES * BLOCKS as usize]?;
    for n in 0..BLOCKS {
        let at = BLOCK_BYTES * n as usize;
        assert!(rt; at + BLOCK_BYTES <= bytes.len());
        fresh_block(FIRST + n, uuid, 1, &mut bytes[at..at + BLOCK_BYTES]);
    }
    Ok(bytes)
}

fn header_of(rt: &impl Abort, group: &[u8], uuid: &Uuid) -> Result<GroupHead, HeaderFault> {
    assert!(rt; group.len() >= BLOCK_BYTES);
    take_group(&group[..BLOCK_BYTES], GroupNo(0), uuid)
}

/// All four trees of a group open, over one map of marks, and the free ones hold one run.
fn open_trees(rt: &impl Abort, over: &Overlay, roots: [u32; 4]) {
    let mut seen = [0; 64];
    assert!(rt; over.len() <= 512);
    let (start, len) = (512, 1536);
    match Tree::<ByBlock>::verify(over, roots[0], 0, &mut seen) {
        Ok(tree) => {
            let run = ByBlock { start, len: 1 };
            assert!(rt;
                tree.root() == 1 && tree.at_least(over, &run) == Some(ByBlock { start, len })
            );
        }
        Err(_) => assert!(rt; false),
    }
    match Tree::<BySize>::verify(over, roots[1], 0, &mut seen) {
        Ok(tree) => {
            let run = BySize { start, len };
            assert!(rt; tree.root() == 2 && tree.at_most(over, &run) == Some(run));
        }
        Err(_) => assert!(rt; false),
    }
    assert!(rt; Tree::<Reverse>::verify(over, roots[2], 0, &mut seen).is_ok());
    assert!(rt; Tree::<Reference>::verify(over, roots[3], 0, &mut seen).is_ok());
    assert!(rt; seen[0] == 0x1E);
}

#[test]
fn the_trees_of_a_fresh_group_open(rt: HostRuntime) -> Result<(), Fail> {
    let alloc = rt.alloc();
    let uuid = Uuid::NAMESPACE_DNS;
    let bytes = fresh_group(&rt, alloc, &uuid)?;
    assert!(rt; bytes.len() == BLOCK_BYTES * BLOCKS as usize);
    match header_of(&rt, &bytes, &uuid) {
        Ok(header) => {
            let over = Overlay::new(alloc, bytes, FIRST, &header.free)?;
            assert!(rt; header.levels == [0; 4]);
            open_trees(&rt, &over, header.roots);
        }
        Err(_) => assert!(rt; false),
    }
    Ok(())
}
