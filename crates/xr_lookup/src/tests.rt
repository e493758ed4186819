//! How far the records under a child of a node reach, for each kind of record.

use crate::reach::Reach;
use std::process::Abort;
use xr_kinds::{ByBlock, BySize, Mapping, Reference, Reverse};

/// The records under a child with these keys, the last of its node, reach from one number up to another.
fn last_reaches<R: Reach>(rt: &impl Abort, low: &[u8], high: &[u8], start: u32, end: u32) {
    assert!(rt; low.len() == R::LOW && high.len() == R::HIGH);
    let reach = R::reach(low, high, None);
    assert!(rt; reach.start == start && reach.end() == u64::from(end));
}

/// The same where another child comes next.
fn reaches<R: Reach>(rt: &impl Abort, low: &[u8], high: &[u8], next: &[u8], start: u32, end: u32) {
    assert!(rt; low.len() == R::LOW && high.len() == R::HIGH && next.len() == R::LOW);
    let reach = R::reach(low, high, Some(next));
    assert!(rt; reach.start == start && reach.end() == u64::from(end));
}

#[test]
fn free_runs_reach_up_to_the_next(rt: HostRuntime) {
    let low = b"\x00\x00\x02\x00\x00\x00\x00\x04";
    let next = b"\x00\x00\x02\x10\x00\x00\x00\x01";
    reaches::<ByBlock>(&rt, low, b"", next, 512, 528);
    last_reaches::<ByBlock>(&rt, low, b"", 512, 2048);
    reaches::<BySize>(&rt, low, b"", next, 0, 2048);
}

#[test]
fn reverse_records_reach_up_to_the_high_key(rt: HostRuntime) {
    last_reaches::<Reverse>(
        &rt,
        b"\x00\x00\x02\x00\x00\x00\x00\x00\x00\x00\x00\x80\x00\x00\x00\x00\x00\x00\x00\x00",
        b"\x00\x00\x02\x03\x00\x00\x00\x00\x00\x00\x00\x80\x00\x00\x00\x00\x00\x00\x00\x03",
        512,
        516,
    );
}

#[test]
fn reference_records_reach_up_to_the_next_of_their_kind(rt: HostRuntime) {
    let shared = b"\x00\x00\x02\x00";
    let more_shared = b"\x00\x00\x02\x10";
    let staged = b"\x80\x00\x02\x04";
    let more_staged = b"\x80\x00\x02\x14";
    reaches::<Reference>(&rt, shared, b"", more_shared, 512, 528);
    reaches::<Reference>(&rt, staged, b"", more_staged, 516, 532);
    last_reaches::<Reference>(&rt, staged, b"", 516, 2048);
    reaches::<Reference>(&rt, shared, b"", staged, 0, 2048);
}

#[test]
fn extents_reach_up_to_the_next(rt: HostRuntime) {
    let low = b"\x00\x00\x00\x00\x00\x00\x00\x04";
    let next = b"\x00\x00\x00\x00\x00\x00\x01\x00";
    reaches::<Mapping>(&rt, low, b"", next, 4, 256);
    last_reaches::<Mapping>(&rt, low, b"", 4, 512);
}
