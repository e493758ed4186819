//! The owners of an empty group: rows of calls, and the records after each.
ghost use Rattle.std.specs.Prelude.{◌≡◌, IfSome};
ghost use Rattle.xr_rmap.specs.Rmap.{IsRmap};

use crate::checked::{add, remove};
use crate::rmap::Rmap;
use std::alloc::{AllocError, Global};
use std::process::Abort;
use std::test::Fail;
use xr_base::crc32c_without;
use xr_base::geometry::{BLOCK_BYTES, OWN_COW};
use xr_kinds::{Record, Reverse};
use xr_pool::Overlay;
use xr_tree::Tree;

const FIRST: u32 = 776;

/// The blocks of the header and of the root aren't free.
const HEAD: u8 = 0xFC;

#[derive(Clone, Copy)]
enum Call {
    Adds,
    Removes,
}

/// A record's start, length, owner and offset.
type Owned = (u32, u32, u64, u64);

/// A call with the run, owner and offset of a record, and the records after it.
type Row = (Call, Owned, &'static [Owned]);

/// Joins on both sides, touching runs of another owner, at another offset, and with another owner's record between.
const ADDITIONS: [Row; 8] = [
    (Call::Adds, (512, 4, 128, 0), &[(512, 4, 128, 0)]),
    (
        Call::Adds,
        (514, 1, 129, 9),
        &[(512, 4, 128, 0), (514, 1, 129, 9)],
    ),
    (
        Call::Adds,
        (516, 4, 128, 4),
        &[(512, 8, 128, 0), (514, 1, 129, 9)],
    ),
    (
        Call::Adds,
        (520, 1, 129, 8),
        &[(512, 8, 128, 0), (514, 1, 129, 9), (520, 1, 129, 8)],
    ),
    (
        Call::Adds,
        (521, 1, 129, 10),
        &[
            (512, 8, 128, 0),
            (514, 1, 129, 9),
            (520, 1, 129, 8),
            (521, 1, 129, 10),
        ],
    ),
    (
        Call::Removes,
        (520, 1, 129, 8),
        &[(512, 8, 128, 0), (514, 1, 129, 9), (521, 1, 129, 10)],
    ),
    (
        Call::Adds,
        (523, 2, 129, 12),
        &[
            (512, 8, 128, 0),
            (514, 1, 129, 9),
            (521, 1, 129, 10),
            (523, 2, 129, 12),
        ],
    ),
    (
        Call::Adds,
        (522, 1, 129, 11),
        &[(512, 8, 128, 0), (514, 1, 129, 9), (521, 4, 129, 10)],
    ),
];

/// The front, the end, the middle and the whole of a record go.
const REMOVALS: [Row; 5] = [
    (Call::Adds, (512, 8, 128, 0), &[(512, 8, 128, 0)]),
    (Call::Removes, (512, 1, 128, 0), &[(513, 7, 128, 1)]),
    (Call::Removes, (519, 1, 128, 7), &[(513, 6, 128, 1)]),
    (
        Call::Removes,
        (515, 2, 128, 3),
        &[(513, 2, 128, 1), (517, 2, 128, 5)],
    ),
    (Call::Removes, (513, 2, 128, 1), &[(517, 2, 128, 5)]),
];

/// Staged blocks, and a block that is staged and that a file has twice.
const STAGED: [Row; 5] = [
    (Call::Adds, (600, 1, 128, 0), &[(600, 1, 128, 0)]),
    (
        Call::Adds,
        (600, 1, 128, 3),
        &[(600, 1, 128, 0), (600, 1, 128, 3)],
    ),
    (
        Call::Adds,
        (600, 2, OWN_COW, 0),
        &[(600, 1, 128, 0), (600, 1, 128, 3), (600, 2, OWN_COW, 0)],
    ),
    (
        Call::Adds,
        (602, 1, OWN_COW, 0),
        &[(600, 1, 128, 0), (600, 1, 128, 3), (600, 3, OWN_COW, 0)],
    ),
    (
        Call::Removes,
        (601, 1, OWN_COW, 0),
        &[
            (600, 1, 128, 0),
            (600, 1, 128, 3),
            (600, 1, OWN_COW, 0),
            (602, 1, OWN_COW, 0),
        ],
    ),
];

fn put(rt: &impl Abort, bytes: &mut [u8], at: usize, value: &[u8]) {
    assert!(rt; at <= bytes.len() && value.len() <= bytes.len() - at);
    bytes[at..at + value.len()].copy_from_slice(value);
}

/// A group with an empty leaf in block 1.
fn fresh(rt: &impl Abort, alloc: Global) -> Result<Overlay, AllocError> {
    let mut bytes = vec![in alloc; 0; 512 * BLOCK_BYTES]?;
    put(rt, &mut bytes, 16, b"the group's uuid");
    put(rt, &mut bytes, BLOCK_BYTES, &Reverse::MAGIC.to_be_bytes());
    put(rt, &mut bytes, BLOCK_BYTES + 8, &[0xFF; 8]);
    put(
        rt,
        &mut bytes,
        BLOCK_BYTES + 16,
        &(8 * u64::from(FIRST + 1)).to_be_bytes(),
    );
    put(rt, &mut bytes, BLOCK_BYTES + 32, b"the group's uuid");
    assert!(rt; 2 * BLOCK_BYTES <= bytes.len());
    let sum = crc32c_without(&bytes[BLOCK_BYTES..2 * BLOCK_BYTES], 52);
    put(rt, &mut bytes, BLOCK_BYTES + 52, &sum.to_le_bytes());
    let mut free = [0xFF; 64];
    free[0] = HEAD;
    assert!(rt; bytes.len() == 512 * BLOCK_BYTES);
    Overlay::new(alloc, bytes, FIRST, &free)
}

fn open(rt: &impl Abort, over: &Overlay) -> Option<Rmap>
    ensures { IfSome result (λ rmap. IsRmap over.now rmap) }
{
    let mut seen = [0; 64];
    assert!(rt; over.len() <= 512);
    match Tree::<Reverse>::verify(over, 1, 0, &mut seen) {
        Ok(tree) => Some(Rmap { tree }),
        Err(_) => None,
    }
}

fn owned(parts: &Owned) -> Reverse {
    let (start, len, owner, off) = *parts;
    Reverse {
        start,
        len,
        owner,
        off,
    }
}

/// The records are these.
fn holds(rt: &impl Abort, over: &Overlay, rmap: &Rmap, records: &[Owned])
    requires { IsRmap over.now rmap.now }
{
    assert!(rt; rmap.count(over) as usize == records.len());
    let mut after = None;
    for parts in records {
        let next = rmap.next_owner(over, after);
        assert!(rt; next == Some(owned(parts)));
        after = next;
    }
    assert!(rt; rmap.next_owner(over, after).is_none());
}

fn does(over: &mut Overlay, rmap: &mut Rmap, call: Call, r: &Reverse) -> bool
    requires { IsRmap over.old rmap.old }
    ensures { IsRmap over.new rmap.new }
{
    match call {
        Call::Adds => add(over, rmap, r),
        Call::Removes => remove(over, rmap, r),
    }
}

fn follow(rt: &impl Abort, alloc: Global, rows: &[Row]) -> Result<(), AllocError> {
    let mut over = fresh(rt, alloc)?;
    match open(rt, &over) {
        Some(mut rmap) => {
            for (call, parts, records) in rows {
                assert!(rt; does(&mut over, &mut rmap, *call, &owned(parts)));
                holds(rt, &over, &rmap, records);
            }
        }
        None => assert!(rt; false),
    }
    Ok(())
}

#[test]
fn records_stay_as_long_as_they_can_be(rt: HostRuntime) -> Result<(), Fail> {
    for rows in [&ADDITIONS[..], &REMOVALS[..], &STAGED[..]] {
        follow(&rt, rt.alloc(), rows)?;
    }
    Ok(())
}
