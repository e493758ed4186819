//! An overlay whose changes are kept and dropped.

use crate::Overlay;
use std::process::Abort;
use std::test::Fail;

/// Takes the lowest free block of a file's pool, and writes to it.
fn write_to_new(rt: &impl Abort, over: &mut Overlay) {
    assert!(rt; over.take_block() == Some(2));
    assert!(rt; over.len() == 8);
    over.block_mut(2)[5] = 9;
    assert!(rt; over.changed() == 1);
    let (place, bytes) = over.change(0);
    assert!(rt; place == 522 && bytes.len() == 4096);
    assert!(rt; bytes[5] == 9 && over.free()[..] == [0xF8]);
}

#[test]
fn changes_are_dropped_and_kept(rt: HostRuntime) -> Result<(), Fail> {
    let alloc = rt.alloc();
    let base = vec![in alloc; 0; 8 * 4096]?;
    let mut over = Overlay::new(alloc, base, 520, &[0xFC])?;
    assert!(rt; over.owner() == 128 && over.changed() == 0);
    write_to_new(&rt, &mut over);
    over.drop_changes();
    assert!(rt; over.changed() == 0 && over.free()[..] == [0xFC]);
    assert!(rt; over.len() == 8);
    assert!(rt; over.block(2)[5] == 0 && over.sector(2) == 4176);
    write_to_new(&rt, &mut over);
    over.keep();
    over.drop_changes();
    assert!(rt; over.len() == 8);
    assert!(rt; over.block(2)[5] == 9 && !over.is_free(2));
    over.give_block(2);
    assert!(rt; over.changed() == 0 && over.free()[..] == [0xFC]);
    Ok(())
}

#[test]
fn blocks_are_taken_out_and_put_back(rt: HostRuntime) -> Result<(), Fail> {
    let alloc = rt.alloc();
    let base = vec![in alloc; 7; 8 * 4096]?;
    let mut over = Overlay::new(alloc, base, 520, &[0xFC])?;
    let taken = over.take();
    assert!(rt; over.len() == 0 && over.changed() == 0);
    over = taken;
    assert!(rt; over.len() == 8 && over.free()[..] == [0xFC]);
    assert!(rt; over.block(1)[0] == 7);
    Ok(())
}
