//! A leaf and a node edited in each way, tested as blocks of a tree, with their items' bytes written out.

use crate::check::{check_leaf, check_node};
use crate::read::count_of;
use crate::siblings::{left_of, right_of};
use crate::{
    Header, build_leaf, build_node, gather_leaf, gather_node, insert_entry, insert_record,
    put_key_of_leaf, put_key_of_node, remove_entry, remove_record, replace_record, seal, set_key,
    set_left,
};
use std::process::Abort;
use std::test::Fail;
use xr_base::geometry::BLOCK_BYTES;
use xr_kinds::{ByBlock, Mapping, Record, Reverse};
use xr_pool::{Block, Overlay};

/// Two runs and two more, as the bytes of leaves.
const RUNS: &[u8] = b"\x00\x00\x02\x00\x00\x00\x00\x04\x00\x00\x02\x10\x00\x00\x00\x01";

const LATER_RUNS: &[u8] = b"\x00\x00\x03\x00\x00\x00\x00\x02\x00\x00\x03\x10\x00\x00\x00\x03";

/// Two keys of reverse records.
const KEYS: &[u8] =
    b"\x00\x00\x02\x00\x00\x00\x00\x00\x00\x00\x00\x80\x00\x00\x00\x00\x00\x00\x00\x00\x00\x00\x02\x09\x00\x00\x00\x00\x00\x00\x00\x81\x00\x00\x00\x00\x00\x00\x00\x05\x00\x00\x02\x04\x00\x00\x00\x00\x00\x00\x00\x80\x00\x00\x00\x00\x00\x00\x00\x04\x00\x00\x02\x07\x00\x00\x00\x00\x00\x00\x00\x80\x00\x00\x00\x00\x00\x00\x00\x07";

/// Another key of a node.
const OTHER_KEY: &[u8] =
    b"\x00\x00\x02\x20\x00\x00\x00\x00\x00\x00\x00\x80\x00\x00\x00\x00\x00\x00\x00\x20\x00\x00\x02\x28\x00\x00\x00\x00\x00\x00\x00\x80\x00\x00\x00\x00\x00\x00\x00\x28";

/// Block 1 of a pool is a leaf with these records.
fn is_leaf(rt: &impl Abort, over: &Overlay, block: &Block, records: &[u8]) {
    assert!(rt; over.len() == 8 && records.len() <= 64);
    assert!(rt; check_leaf::<ByBlock>(over, 1, 0, block).is_ok());
    assert!(rt;
        count_of(block) * 8 == records.len() && block[56..56 + records.len()] == records[..]
    );
}

/// Block 1 of a pool is a node with these keys and pointers.
fn is_node(rt: &impl Abort, over: &Overlay, block: &Block, keys: &[u8], pointers: &[u8]) {
    assert!(rt; over.len() == 8 && keys.len() <= 160 && pointers.len() <= 16);
    assert!(rt; check_node::<Reverse>(over, 1, 1, 0, block).is_ok());
    assert!(rt; count_of(block) * 4 == pointers.len() && block[56..56 + keys.len()] == keys[..]);
    assert!(rt; block[3696..3696 + pointers.len()] == pointers[..]);
}

fn leaf_of(rt: &impl Abort, over: &Overlay, records: &[u8]) -> Block {
    let mut block = [7; BLOCK_BYTES];
    assert!(rt; over.len() == 8 && records.len() <= 64);
    build_leaf::<ByBlock>(&mut block, &Header::new(over, 1, 0, None, Some(3)), records);
    seal::<ByBlock>(&mut block);
    block
}

fn node_of(rt: &impl Abort, over: &Overlay, keys: &[u8], pointers: &[u8]) -> Block {
    let mut block = [7; BLOCK_BYTES];
    assert!(rt; over.len() == 8 && keys.len() <= 160 && pointers.len() <= 16);
    build_node::<Reverse>(
        &mut block,
        &Header::new(over, 1, 1, None, None),
        keys,
        pointers,
    );
    seal::<Reverse>(&mut block);
    block
}

fn put(rt: &impl Abort, block: &mut Block, k: usize, start: u32, len: u32) {
    let run = ByBlock { start, len };
    assert!(rt; run.valid() && k <= count_of(block) && count_of(block) < 500);
    insert_record(block, k, &run);
}

fn bound(rt: &impl Abort, block: &mut Block, k: usize) {
    assert!(rt; k < count_of(block) && count_of(block) <= 500);
    remove_record::<ByBlock>(block, k);
}

fn set(rt: &impl Abort, block: &mut Block, k: usize, start: u32, len: u32) {
    let run = ByBlock { start, len };
    assert!(rt; run.valid() && k < count_of(block) && count_of(block) <= 500);
    replace_record(block, k, &run);
}

fn overlay(rt: &HostRuntime) -> Result<Overlay, Fail> {
    let alloc = rt.alloc();
    let base = vec![in alloc; 0; 8 * 4096]?;
    Ok(Overlay::new(alloc, base, 520, &[0xFC])?)
}

#[test]
fn records_are_inserted_removed_and_replaced(rt: HostRuntime) -> Result<(), Fail> {
    let over = overlay(&rt)?;
    let mut block = leaf_of(&rt, &over, RUNS);
    is_leaf(&rt, &over, &block, RUNS);
    put(&rt, &mut block, 1, 520, 2);
    seal::<ByBlock>(&mut block);
    is_leaf(
        &rt,
        &over,
        &block,
        b"\x00\x00\x02\x00\x00\x00\x00\x04\x00\x00\x02\x08\x00\x00\x00\x02\x00\x00\x02\x10\x00\x00\x00\x01",
    );
    // Two edits, and the checksum once.
    set(&rt, &mut block, 2, 531, 3);
    bound(&rt, &mut block, 0);
    seal::<ByBlock>(&mut block);
    is_leaf(
        &rt,
        &over,
        &block,
        b"\x00\x00\x02\x08\x00\x00\x00\x02\x00\x00\x02\x13\x00\x00\x00\x03",
    );
    Ok(())
}

fn insert_child(rt: &impl Abort, block: &mut Block, k: usize, key: &[u8], child: u32) {
    assert!(rt; key.len() == 40 && k <= count_of(block) && count_of(block) < 90);
    insert_entry::<Reverse>(block, k, key, child);
}

fn remove_child(rt: &impl Abort, block: &mut Block, k: usize) {
    assert!(rt; k < count_of(block) && count_of(block) <= 90);
    remove_entry::<Reverse>(block, k);
}

fn set_child_key(rt: &impl Abort, block: &mut Block, k: usize, key: &[u8]) {
    assert!(rt; key.len() == 40 && k < count_of(block) && count_of(block) <= 90);
    set_key::<Reverse>(block, k, key);
}

#[test]
fn children_are_inserted_removed_and_keyed(rt: HostRuntime) -> Result<(), Fail> {
    let over = overlay(&rt)?;
    let mut block = node_of(&rt, &over, KEYS, b"\x00\x00\x00\x02\x00\x00\x00\x03");
    insert_child(&rt, &mut block, 0, OTHER_KEY, 258);
    remove_child(&rt, &mut block, 2);
    set_child_key(&rt, &mut block, 0, &KEYS[40..]);
    insert_child(&rt, &mut block, 2, OTHER_KEY, 4);
    remove_child(&rt, &mut block, 0);
    insert_child(&rt, &mut block, 1, &KEYS[40..], 3);
    remove_child(&rt, &mut block, 2);
    seal::<Reverse>(&mut block);
    is_node(
        &rt,
        &over,
        &block,
        KEYS,
        b"\x00\x00\x00\x02\x00\x00\x00\x03",
    );
    Ok(())
}

#[test]
fn siblings_are_set(rt: HostRuntime) -> Result<(), Fail> {
    let over = overlay(&rt)?;
    let mut block = leaf_of(&rt, &over, RUNS);
    assert!(rt; left_of::<ByBlock>(&block).is_none() && right_of::<ByBlock>(&block) == Some(3));
    set_left::<ByBlock>(&mut block, Some(258));
    seal::<ByBlock>(&mut block);
    is_leaf(&rt, &over, &block, RUNS);
    assert!(rt; block[8..16] == b"\x00\x00\x01\x02\x00\x00\x00\x03"[..]);
    set_left::<Mapping>(&mut block, None);
    assert!(rt; block[8..16] == b"\xff\xff\xff\xff\xff\xff\xff\xff"[..]);
    Ok(())
}

fn gathered(
    rt: &impl Abort,
    over: &Overlay,
    one: &Block,
    other: &Block,
    from: usize,
    to: usize,
) -> Block {
    let mut block = [7; BLOCK_BYTES];
    let first = count_of(one);
    let second = count_of(other);
    assert!(rt; over.len() == 8 && from <= to && first <= 9 && second <= 9 && to <= first + second);
    gather_leaf::<ByBlock>(
        &mut block,
        &Header::new(over, 1, 0, None, None),
        one,
        other,
        from,
        to,
    );
    seal::<ByBlock>(&mut block);
    block
}

#[test]
fn leaves_are_gathered(rt: HostRuntime) -> Result<(), Fail> {
    let over = overlay(&rt)?;
    let one = leaf_of(&rt, &over, RUNS);
    let other = leaf_of(&rt, &over, LATER_RUNS);
    is_leaf(
        &rt,
        &over,
        &gathered(&rt, &over, &one, &one, 1, 2),
        &RUNS[8..],
    );
    is_leaf(
        &rt,
        &over,
        &gathered(&rt, &over, &one, &other, 1, 3),
        b"\x00\x00\x02\x10\x00\x00\x00\x01\x00\x00\x03\x00\x00\x00\x00\x02",
    );
    is_leaf(
        &rt,
        &over,
        &gathered(&rt, &over, &one, &other, 3, 4),
        &LATER_RUNS[8..],
    );
    is_leaf(
        &rt,
        &over,
        &gathered(&rt, &over, &one, &other, 0, 4),
        b"\x00\x00\x02\x00\x00\x00\x00\x04\x00\x00\x02\x10\x00\x00\x00\x01\x00\x00\x03\x00\x00\x00\x00\x02\x00\x00\x03\x10\x00\x00\x00\x03",
    );
    Ok(())
}

#[test]
fn nodes_are_gathered(rt: HostRuntime) -> Result<(), Fail> {
    let over = overlay(&rt)?;
    let one = node_of(&rt, &over, KEYS, b"\x00\x00\x00\x02\x00\x00\x00\x03");
    let other = node_of(&rt, &over, OTHER_KEY, b"\x00\x00\x00\x04");
    let mut block = [7; BLOCK_BYTES];
    assert!(rt; over.len() == 8 && count_of(&one) == 2 && count_of(&other) == 1);
    gather_node::<Reverse>(
        &mut block,
        &Header::new(&over, 1, 1, None, None),
        &other,
        &one,
        1,
        3,
    );
    seal::<Reverse>(&mut block);
    is_node(
        &rt,
        &over,
        &block,
        KEYS,
        b"\x00\x00\x00\x02\x00\x00\x00\x03",
    );
    Ok(())
}

/// The key of a node has the greatest high key of all its children.
#[test]
fn a_node_gives_a_key(rt: HostRuntime) -> Result<(), Fail> {
    let over = overlay(&rt)?;
    let block = node_of(&rt, &over, KEYS, b"\x00\x00\x00\x02\x00\x00\x00\x03");
    let mut key = [0; 40];
    assert!(rt; count_of(&block) == 2);
    put_key_of_node::<Reverse>(&block, &mut key);
    assert!(rt; key[..] == KEYS[..40]);
    Ok(())
}

/// The key of a leaf that was tested.
fn key_of_leaf(rt: &impl Abort, over: &Overlay, block: &Block, key: &mut [u8; 40]) {
    assert!(rt; over.len() == 8);
    assert!(rt; check_leaf::<Reverse>(over, 1, 1, block).is_ok());
    put_key_of_leaf::<Reverse>(block, key);
}

#[test]
fn a_leaf_gives_a_key(rt: HostRuntime) -> Result<(), Fail> {
    let over = overlay(&rt)?;
    let mut block = [7; BLOCK_BYTES];
    let mut key = [0; 40];
    assert!(rt; over.len() == 8);
    build_leaf::<Reverse>(
        &mut block,
        &Header::new(&over, 1, 0, None, None),
        b"\x00\x00\x02\x00\x00\x00\x00\x04\x00\x00\x00\x00\x00\x00\x00\x80\x00\x00\x00\x00\x00\x00\x00\x00\x00\x00\x02\x01\x00\x00\x00\x01\x00\x00\x00\x00\x00\x00\x00\x81\x00\x00\x00\x00\x00\x00\x00\x07",
    );
    seal::<Reverse>(&mut block);
    key_of_leaf(&rt, &over, &block, &mut key);
    assert!(rt;
        key[..]
            == b"\x00\x00\x02\x00\x00\x00\x00\x00\x00\x00\x00\x80\x00\x00\x00\x00\x00\x00\x00\x00\x00\x00\x02\x03\x00\x00\x00\x00\x00\x00\x00\x80\x00\x00\x00\x00\x00\x00\x00\x03"[..]
    );
    Ok(())
}
