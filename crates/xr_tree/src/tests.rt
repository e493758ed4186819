//! Trees laid out by hand, whole and with each rule broken. The first block is the header's or the core's, the root stands
//! in block 1, and two leaves in blocks 2 and 3.

use crate::tree::Tree;
use std::alloc::{AllocError, Global};
use std::process::Abort;
use std::test::Fail;
use xr_base::crc32c_without;
use xr_base::geometry::{BLOCK_BYTES, OWN_COW};
use xr_block::fault::{TreeFault, TreeKind};
use xr_kinds::{ByBlock, BySize, Mapping, Record, Reference, Reverse};
use xr_lookup::Reach;
use xr_pool::Overlay;
use xr_verify::Kept;

pub(crate) const GROUP_BLOCKS: usize = 512;

pub(crate) const FILE_BLOCKS: usize = 8;

/// The first image blocks of group 0 and of file 3, and the inode number of the file.
pub(crate) const GROUP_FIRST: u32 = 776;

pub(crate) const FILE_FIRST: u32 = 544;

const INODE: u64 = 131;

/// The first four blocks aren't free.
const FREE: [u8; 64] = [
    0xF0, 0xFF, 0xFF, 0xFF, 0xFF, 0xFF, 0xFF, 0xFF, 0xFF, 0xFF, 0xFF, 0xFF, 0xFF, 0xFF, 0xFF, 0xFF,
    0xFF, 0xFF, 0xFF, 0xFF, 0xFF, 0xFF, 0xFF, 0xFF, 0xFF, 0xFF, 0xFF, 0xFF, 0xFF, 0xFF, 0xFF, 0xFF,
    0xFF, 0xFF, 0xFF, 0xFF, 0xFF, 0xFF, 0xFF, 0xFF, 0xFF, 0xFF, 0xFF, 0xFF, 0xFF, 0xFF, 0xFF, 0xFF,
    0xFF, 0xFF, 0xFF, 0xFF, 0xFF, 0xFF, 0xFF, 0xFF, 0xFF, 0xFF, 0xFF, 0xFF, 0xFF, 0xFF, 0xFF, 0xFF,
];

/// The greatest number of bytes of a record and of a key.
const MOST_BYTES: usize = 24;

/// Blocks that are being laid out, by the image block of the first of them.
#[derive(Drop)]
pub(crate) struct Blocks {
    first: u32,
    pub bytes: Vec<u8>,
}

/// A block of a tree, but for its items.
#[derive(Clone, Copy)]
struct Laid {
    number: usize,
    level: u16,
    count: usize,
    left: Option<u32>,
    right: Option<u32>,
}

fn put(rt: &impl Abort, bytes: &mut [u8], at: usize, value: &[u8]) {
    assert!(rt; at <= bytes.len() && value.len() <= bytes.len() - at);
    bytes[at..at + value.len()].copy_from_slice(value);
}

/// Writes a pointer, with all bits set where there is none.
fn put_pointer<R: Record>(rt: &impl Abort, bytes: &mut [u8], at: usize, pointer: Option<u32>) {
    assert!(rt; at < 1 << 32);
    let low = pointer.unwrap_or(u32::MAX).to_be_bytes();
    if R::LONG {
        let high: [u8; 4] = if pointer.is_some() { [0; 4] } else { [0xFF; 4] };
        put(rt, bytes, at, &high);
        put(rt, bytes, at + 4, &low);
    } else {
        put(rt, bytes, at, &low);
    }
}

/// Writes a block's checksum.
fn sum_up<R: Record>(rt: &impl Abort, blocks: &mut Blocks, number: usize) {
    assert!(rt; number < GROUP_BLOCKS);
    let at = BLOCK_BYTES * number;
    assert!(rt; at <= blocks.bytes.len() && BLOCK_BYTES <= blocks.bytes.len() - at);
    let place = if R::LONG { 64 } else { 52 };
    let sum = crc32c_without(&blocks.bytes[at..at + BLOCK_BYTES], place);
    put(rt, &mut blocks.bytes, at + place, &sum.to_le_bytes());
}

/// Writes a block's header.
fn put_header<R: Record>(rt: &impl Abort, blocks: &mut Blocks, laid: Laid) {
    let width = if R::LONG { 8 } else { 4 };
    assert!(rt; laid.number < GROUP_BLOCKS && laid.count < 1024);
    let bytes = &mut blocks.bytes;
    let at = BLOCK_BYTES * laid.number;
    put(rt, bytes, at, &R::MAGIC.to_be_bytes());
    put(rt, bytes, at + 4, &laid.level.to_be_bytes());
    put(rt, bytes, at + 6, &(laid.count as u16).to_be_bytes());
    put_pointer::<R>(rt, bytes, at + 8, laid.left);
    put_pointer::<R>(rt, bytes, at + 8 + width, laid.right);
    let sector = (u64::from(blocks.first) + laid.number as u64) * 8;
    put(rt, bytes, at + 8 + 2 * width, &sector.to_be_bytes());
    put(rt, bytes, at + 24 + 2 * width, b"the tree's image");
    if R::LONG {
        put(rt, bytes, at + 40 + 2 * width, &INODE.to_be_bytes());
    }
}

fn insert_record<R: Record>(rt: &impl Abort, bytes: &mut [u8], at: usize, record: &R) {
    let mut out = [0; MOST_BYTES];
    assert!(rt; record.valid() && R::SIZE <= MOST_BYTES);
    record.put(&mut out[..R::SIZE]);
    put(rt, bytes, at, &out[..R::SIZE]);
}

/// Lays out a leaf.
pub(crate) fn put_leaf<R: Record>(
    rt: &impl Abort,
    blocks: &mut Blocks,
    number: usize,
    left: Option<u32>,
    right: Option<u32>,
    records: &[R],
) {
    let laid = Laid {
        number,
        level: 0,
        count: records.len(),
        left,
        right,
    };
    put_header::<R>(rt, blocks, laid);
    let header = if R::LONG { 72 } else { 56 };
    assert!(rt; number < GROUP_BLOCKS && records.len() <= 512 && R::SIZE <= MOST_BYTES);
    for i in 0..records.len() {
        let at = BLOCK_BYTES * number + header + R::SIZE * i;
        insert_record(rt, &mut blocks.bytes, at, &records[i]);
    }
    sum_up::<R>(rt, blocks, number);
}

/// Writes the key of a leaf at a place: the low key of its first record, and the greatest high key, here that of its last.
fn put_key<R: Record>(rt: &impl Abort, bytes: &mut [u8], at: usize, records: &[R]) {
    let mut out = [0; MOST_BYTES];
    assert!(rt; !records.is_empty() && R::LOW <= MOST_BYTES && R::HIGH <= MOST_BYTES);
    assert!(rt; at < 1 << 32);
    let first = &records[0];
    let last = &records[records.len() - 1];
    assert!(rt; first.valid() && last.valid());
    first.put_low(&mut out[..R::LOW]);
    put(rt, bytes, at, &out[..R::LOW]);
    last.put_high(&mut out[..R::HIGH]);
    put(rt, bytes, at + R::LOW, &out[..R::HIGH]);
}

/// Lays out two leaves and the root above them.
fn put_tree<R: Record>(rt: &impl Abort, blocks: &mut Blocks, one: &[R], two: &[R]) {
    put_leaf(rt, blocks, 2, None, Some(3), one);
    put_leaf(rt, blocks, 3, Some(2), None, two);
    let laid = Laid {
        number: 1,
        level: 1,
        count: 2,
        left: None,
        right: None,
    };
    put_header::<R>(rt, blocks, laid);
    let (width, header) = if R::LONG { (8, 72) } else { (4, 56) };
    assert!(rt; R::LOW <= MOST_BYTES && R::HIGH <= MOST_BYTES && R::NODE_MAX < 1024);
    let keys = BLOCK_BYTES + header;
    put_key(rt, &mut blocks.bytes, keys, one);
    put_key(rt, &mut blocks.bytes, keys + R::LOW + R::HIGH, two);
    let pointers = keys + (R::LOW + R::HIGH) * R::NODE_MAX as usize;
    put_pointer::<R>(rt, &mut blocks.bytes, pointers, Some(2));
    put_pointer::<R>(rt, &mut blocks.bytes, pointers + width, Some(3));
    sum_up::<R>(rt, blocks, 1);
}

/// Blocks of zeros, but for the identifier in the first.
pub(crate) fn empty(
    rt: &impl Abort,
    alloc: Global,
    first: u32,
    count: usize,
) -> Result<Blocks, AllocError> {
    assert!(rt; count <= GROUP_BLOCKS);
    let mut bytes = vec![in alloc; 0; BLOCK_BYTES * count]?;
    put(rt, &mut bytes, 16, b"the tree's image");
    Ok(Blocks { first, bytes })
}

fn overlay(rt: &impl Abort, alloc: Global, blocks: Blocks) -> Result<Overlay, AllocError> {
    let Blocks { first, bytes } = blocks;
    if first == FILE_FIRST {
        assert!(rt; bytes.len() == BLOCK_BYTES * FILE_BLOCKS);
        Overlay::new(alloc, bytes, FILE_FIRST, &FREE)
    } else {
        assert!(rt; bytes.len() == BLOCK_BYTES * GROUP_BLOCKS);
        Overlay::new(alloc, bytes, GROUP_FIRST, &FREE)
    }
}

/// The blocks of a group none of which is free.
fn full(rt: &impl Abort, alloc: Global, blocks: Blocks) -> Result<Overlay, AllocError> {
    assert!(rt; blocks.bytes.len() == BLOCK_BYTES * GROUP_BLOCKS);
    Overlay::new(alloc, blocks.bytes, GROUP_FIRST, &[0; 64])
}

/// What `verify` answers for the tree with a root.
fn verified<R: Kept + Reach>(
    rt: &impl Abort,
    over: &Overlay,
    root: u32,
    level: u32,
) -> Result<Tree<R>, TreeFault> {
    let mut seen = [0; 64];
    assert!(rt; over.len() <= 512);
    Tree::<R>::verify(over, root, level, &mut seen)
}

/// A tree has so many records, and answers lookups for one of them that comes after another.
fn finds<R: Kept + Reach + PartialEq>(
    rt: &impl Abort,
    over: &Overlay,
    level: u32,
    count: usize,
    before: &R,
    record: &R,
) {
    let mut seen = [0; 64];
    assert!(rt; over.len() <= 512);
    match Tree::<R>::verify(over, 1, level, &mut seen) {
        Ok(tree) => {
            assert!(rt; tree.root() == 1 && tree.level() == level);
            assert!(rt; tree.count(over) as usize == count);
            assert!(rt; tree.at_most(over, record) == Some(*record));
            assert!(rt; tree.at_least(over, before) == Some(*before));
            assert!(rt; record.valid());
            assert!(rt; tree.overlap(over, record, None) == Some(*record));
            assert!(rt; tree.overlap(over, record, Some(*record)).is_none());
        }
        Err(_) => assert!(rt; false),
    }
}

/// A tree of one block and one of two levels are trees, have all records, and answer lookups.
fn stands<R: Kept + Reach + PartialEq>(
    rt: &impl Abort,
    alloc: Global,
    first: u32,
    one: &[R],
    two: &[R],
) -> Result<(), AllocError> {
    let count = if first == FILE_FIRST {
        FILE_BLOCKS
    } else {
        GROUP_BLOCKS
    };
    assert!(rt; one.len() > 1 && two.len() > 1);
    assert!(rt; one.len() < 512 && two.len() < 512);
    let mut blocks = empty(rt, alloc, first, count)?;
    put_leaf(rt, &mut blocks, 1, None, None, one);
    let over = overlay(rt, alloc, blocks)?;
    finds(rt, &over, 0, one.len(), &one[0], &one[1]);

    let mut blocks = empty(rt, alloc, first, count)?;
    put_tree(rt, &mut blocks, one, two);
    let over = overlay(rt, alloc, blocks)?;
    finds(rt, &over, 1, one.len() + two.len(), &two[0], &two[1]);
    Ok(())
}

/// A kind of record with one for each number, none of which touches the next.
pub(crate) trait Numbered: Drop {
    fn numbered(i: u32) -> Self;
}

impl Numbered for ByBlock {
    fn numbered(i: u32) -> ByBlock {
        ByBlock {
            start: 512 + 2 * (i % 1024),
            len: 1,
        }
    }
}

impl Numbered for BySize {
    fn numbered(i: u32) -> BySize {
        BySize {
            start: 512 + 2 * (i % 1024),
            len: 1,
        }
    }
}

impl Numbered for Reverse {
    fn numbered(i: u32) -> Reverse {
        Reverse {
            start: 512 + 2 * (i % 1024),
            len: 1,
            owner: 128,
            off: 2 * u64::from(i % 1024),
        }
    }
}

impl Numbered for Reference {
    fn numbered(i: u32) -> Reference {
        Reference {
            start: 512 + 2 * (i % 1024),
            len: 1,
            count: 2,
            staged: false,
        }
    }
}

impl Numbered for Mapping {
    fn numbered(i: u32) -> Mapping {
        Mapping {
            off: i,
            at: 512 + 2 * (i % 1024),
            len: 1,
        }
    }
}

fn every<R: Numbered>(
    rt: &impl Abort,
    alloc: Global,
    first: u32,
    count: u32,
) -> Result<Vec<R>, AllocError> {
    assert!(rt; first < 512 && count < 512);
    let mut records = Vec::new(alloc);
    for i in first..first + count {
        records.push(R::numbered(i))?;
    }
    Ok(records)
}

/// A tree whose first leaf has so many records, and whose second so many.
fn stand<R: Numbered + Kept + Reach + PartialEq>(
    rt: &impl Abort,
    alloc: Global,
    first: u32,
    one: u32,
    two: u32,
) -> Result<(), AllocError> {
    let left = every::<R>(rt, alloc, 0, one)?;
    let right = every::<R>(rt, alloc, one, two)?;
    stands(rt, alloc, first, &left, &right)
}

#[test]
fn trees_of_each_kind_stand(rt: HostRuntime) -> Result<(), Fail> {
    let alloc = rt.alloc();
    stand::<ByBlock>(&rt, alloc, GROUP_FIRST, 300, 252)?;
    stand::<BySize>(&rt, alloc, GROUP_FIRST, 300, 252)?;
    stand::<Reverse>(&rt, alloc, GROUP_FIRST, 100, 84)?;
    stand::<Reference>(&rt, alloc, GROUP_FIRST, 200, 168)?;
    stand::<Mapping>(&rt, alloc, FILE_FIRST, 125, 125)?;
    Ok(())
}

/// Leaves by themselves: whether their records may stand together.
fn leaf_fault<R: Kept + Reach>(
    rt: &impl Abort,
    alloc: Global,
    records: &[R],
) -> Result<Option<TreeFault>, AllocError> {
    let mut blocks = empty(rt, alloc, GROUP_FIRST, GROUP_BLOCKS)?;
    put_leaf(rt, &mut blocks, 1, None, None, records);
    let over = overlay(rt, alloc, blocks)?;
    Ok(verified::<R>(rt, &over, 1, 0).err())
}

const MERGE: Option<TreeFault> = Some(TreeFault {
    block: 777,
    kind: TreeKind::Merge,
});

pub(crate) fn owned(start: u32, len: u32, owner: u64, off: u64) -> Reverse {
    Reverse {
        start,
        len,
        owner,
        off,
    }
}

#[test]
fn owners_that_disagree_far_apart_are_refused(rt: HostRuntime) -> Result<(), Fail> {
    let alloc = rt.alloc();
    let first = owned(512, 4, 128, 0);
    let between = owned(514, 1, 129, 9);
    let on = [first, between, owned(516, 4, 128, 4)];
    assert_eq!(rt; leaf_fault(&rt, alloc, &on)?, MERGE);
    let apart = [first, between, owned(516, 4, 128, 5)];
    assert_eq!(rt; leaf_fault(&rt, alloc, &apart)?, None);
    let staged = [owned(600, 2, OWN_COW, 0), owned(602, 2, OWN_COW, 0)];
    assert_eq!(rt; leaf_fault(&rt, alloc, &staged)?, MERGE);
    Ok(())
}

fn counted(start: u32, len: u32, count: u32, staged: bool) -> Reference {
    Reference {
        start,
        len,
        count,
        staged,
    }
}

#[test]
fn runs_that_disagree_far_apart_are_refused(rt: HostRuntime) -> Result<(), Fail> {
    let alloc = rt.alloc();
    let runs = [(512, 1), (700, 1), (513, 2)].map(|(start, len)| BySize { start, len });
    assert_eq!(rt; leaf_fault(&rt, alloc, &runs)?, MERGE);
    let counts = [
        counted(512, 4, 2, false),
        counted(600, 1, 2, false),
        counted(514, 1, 1, true),
    ];
    assert_eq!(rt; leaf_fault(&rt, alloc, &counts)?, MERGE);
    Ok(())
}

/// A byte of a tree of owners that is changed, with its block, whether the checksum is set right again, and the refusal.
const BROKEN: [(usize, usize, u8, bool, u32, TreeKind); 22] = [
    (1, 0, 0, true, 777, TreeKind::Magic),
    (2, 100, 0xFF, false, 778, TreeKind::Checksum),
    (2, 5, 1, true, 778, TreeKind::Header),
    (2, 31, 1, true, 778, TreeKind::Header),
    (3, 23, 1, true, 779, TreeKind::Header),
    (3, 32, 0xEE, true, 779, TreeKind::Header),
    (2, 51, 9, true, 778, TreeKind::Header),
    (1, 7, 1, true, 777, TreeKind::Count),
    (2, 7, 83, true, 778, TreeKind::Count),
    (2, 7, 169, true, 778, TreeKind::Count),
    // The length of the first record, and a byte after the last one.
    (2, 63, 0, true, 778, TreeKind::Field),
    (3, 56 + 24 * 100, 1, true, 779, TreeKind::Field),
    // The first record begins after the second, or goes on to it.
    (2, 59, 4, true, 778, TreeKind::Order),
    (2, 63, 2, true, 778, TreeKind::Merge),
    // The key of the second leaf, and the high key of the first.
    (1, 99, 1, true, 779, TreeKind::Key),
    (1, 79, 1, true, 778, TreeKind::Key),
    (2, 15, 4, true, 779, TreeKind::Sibling),
    (3, 11, 1, true, 779, TreeKind::Sibling),
    (3, 12, 0, true, 779, TreeKind::Sibling),
    // The second child is past the pool, the first one again, or the root.
    (1, 3702, 2, true, 777, TreeKind::Range),
    (1, 3703, 2, true, 778, TreeKind::Reuse),
    (1, 3703, 1, true, 777, TreeKind::Reuse),
];

fn change(rt: &impl Abort, blocks: &mut Blocks, number: usize, place: usize, value: u8) {
    assert!(rt; number < GROUP_BLOCKS && place < BLOCK_BYTES);
    put(
        rt,
        &mut blocks.bytes,
        BLOCK_BYTES * number + place,
        &[value],
    );
}

#[test]
fn a_broken_rule_is_refused(rt: HostRuntime) -> Result<(), Fail> {
    let alloc = rt.alloc();
    let one = every::<Reverse>(&rt, alloc, 0, 100)?;
    let two = every::<Reverse>(&rt, alloc, 100, 100)?;
    for (number, place, value, again, block, kind) in BROKEN {
        let mut blocks = empty(&rt, alloc, GROUP_FIRST, GROUP_BLOCKS)?;
        put_tree(&rt, &mut blocks, &one, &two);
        change(&rt, &mut blocks, number, place, value);
        if again {
            sum_up::<Reverse>(&rt, &mut blocks, number);
        }
        let over = overlay(&rt, alloc, blocks)?;
        assert_eq!(rt;
            verified::<Reverse>(&rt, &over, 1, 1).err(),
            Some(TreeFault { block, kind })
        );
    }
    Ok(())
}

#[test]
fn a_root_is_a_block_of_the_pool_that_is_not_free(rt: HostRuntime) -> Result<(), Fail> {
    let alloc = rt.alloc();
    let blocks = empty(&rt, alloc, GROUP_FIRST, GROUP_BLOCKS)?;
    let over = overlay(&rt, alloc, blocks)?;
    for (root, block, kind) in [
        (0, 776, TreeKind::Range),
        (512, 776, TreeKind::Range),
        (4, 780, TreeKind::Reuse),
        (1, 777, TreeKind::Magic),
    ] {
        assert_eq!(rt;
            verified::<Reverse>(&rt, &over, root, 0).err(),
            Some(TreeFault { block, kind })
        );
    }
    Ok(())
}

/// Records of a leaf, and of a node over leaves, in a tree with more records than it may have.
const LEAF_RECORDS: usize = 165;

const NODE_RECORDS: usize = 70 * LEAF_RECORDS;

/// The records under the k-th child, where each has so many but the last.
fn part<'a>(rt: &impl Abort, records: &'a [Reverse], k: usize, each: usize) -> &'a [Reverse] {
    assert!(rt; k < 256 && each <= NODE_RECORDS && k * each <= records.len());
    let rest = &records[k * each..];
    &rest[..rest.len().min(each)]
}

/// The siblings of the k-th of some blocks that stand one after the other.
fn beside(rt: &impl Abort, number: u32, k: usize, count: usize) -> (Option<u32>, Option<u32>) {
    assert!(rt; k < 256);
    (
        if k == 0 { None } else { number.checked_sub(1) },
        if k + 1 < count {
            number.checked_add(1)
        } else {
            None
        },
    )
}

/// Lays out a node over blocks that stand one after the other.
fn put_node(
    rt: &impl Abort,
    blocks: &mut Blocks,
    laid: Laid,
    child: u32,
    records: &[Reverse],
    each: usize,
) {
    put_header::<Reverse>(rt, blocks, laid);
    assert!(rt; laid.number < GROUP_BLOCKS && laid.count <= 91 && child < 512);
    let keys = BLOCK_BYTES * laid.number + 56;
    for k in 0..laid.count {
        let records = part(rt, records, k, each);
        put_key(rt, &mut blocks.bytes, keys + 40 * k, records);
        let pointer = Some(child + k as u32);
        put_pointer::<Reverse>(rt, &mut blocks.bytes, keys + 40 * 91 + 4 * k, pointer);
    }
    sum_up::<Reverse>(rt, blocks, laid.number);
}

/// Lays out leaves from a block on, and gives their number.
fn put_leaves(rt: &impl Abort, blocks: &mut Blocks, from: u32, records: &[Reverse]) -> usize {
    assert!(rt; from < 512 && records.len() < 65536);
    let count = records.len().div_ceil(LEAF_RECORDS);
    for k in 0..count {
        let number = from + k as u32;
        let (left, right) = beside(rt, number, k, count);
        let records = part(rt, records, k, LEAF_RECORDS);
        put_leaf(rt, blocks, number as usize, left, right, records);
    }
    count
}

/// A tree of owners of three levels: the root in block 1, three nodes after it, and then the leaves.
fn put_three_levels(rt: &impl Abort, blocks: &mut Blocks, records: &[Reverse]) {
    put_leaves(rt, blocks, 5, records);
    for j in 0..3 {
        let number = 2 + j as u32;
        let (left, right) = beside(rt, number, j, 3);
        let records = part(rt, records, j, NODE_RECORDS);
        let laid = Laid {
            number: number as usize,
            level: 1,
            count: records.len().div_ceil(LEAF_RECORDS),
            left,
            right,
        };
        put_node(rt, blocks, laid, 5 + 70 * j as u32, records, LEAF_RECORDS);
    }
    let laid = Laid {
        number: 1,
        level: 2,
        count: 3,
        left: None,
        right: None,
    };
    put_node(rt, blocks, laid, 2, records, NODE_RECORDS);
}

/// A record for each number, in their order: 23 files share each block.
pub(crate) fn crowded(i: u32) -> Reverse {
    owned(512 + i / 23, 1, u64::from(128 + i % 23), 0)
}

/// So many records of a tree of owners.
fn crowd(rt: &impl Abort, alloc: Global, count: u32) -> Result<Vec<Reverse>, AllocError> {
    assert!(rt; count < 65536);
    let mut records = Vec::new(alloc);
    for i in 0..count {
        records.push(crowded(i))?;
    }
    Ok(records)
}

#[test]
fn a_tree_of_owners_has_a_bound(rt: HostRuntime) -> Result<(), Fail> {
    let alloc = rt.alloc();
    for (count, fault) in [(34_304, None), (34_305, Some((776 + 212, TreeKind::Bound)))] {
        let records = crowd(&rt, alloc, count)?;
        let mut blocks = empty(&rt, alloc, GROUP_FIRST, GROUP_BLOCKS)?;
        put_three_levels(&rt, &mut blocks, &records);
        let over = full(&rt, alloc, blocks)?;
        assert_eq!(rt;
            verified::<Reverse>(&rt, &over, 1, 2).err(),
            fault.map(|(block, kind)| TreeFault { block, kind })
        );
    }
    Ok(())
}
