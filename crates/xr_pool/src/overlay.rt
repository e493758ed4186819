//! The blocks of a group or a file in two images: as they are, and as they were last kept.
ghost use Rattle.std.specs.Prelude.{◌≡◌, ℕ, ◌+◌, ◌*◌, ◌/◌, ◌%◌, ◌<◌, ◌≤◌, ◌↔◌, true, false, length, vec_len, slice_index, IsNone, IfSome, IfOk};
ghost use Rattle.std.specs.Borrow.{sem};
ghost use Rattle.xr_base.specs.Image.{block_of, part};
ghost use Rattle.xr_pool.specs.Overlay.{AreBlocks, AreWhole, IsBlock, IsPool, all_dropped, all_kept, block_at, blocks_in, changed_blocks};
ghost use Rattle.xr_pool.specs.Overlay.{emptied, is_free, opened, owner_of, pool_size, sector_at, with_given, with_taken};
ghost use Rattle.xr_pool.specs.Lending.{LendsBlock};

use crate::bits::{clear_bit, first_bit, has_bit, set_bit};
use crate::marks::{copy_marked, count_marks, place_of_mark};
use std::alloc::Global;
use std::marker::Model;
use std::mem;
use xr_base::NoMemory;
use xr_base::geometry::{
    BLOCK_BYTES, BLOCK_SECTORS, FILE_BLOCKS, FIRST_FILE_BLOCK, FIRST_GROUP_BLOCK, FIRST_INODE,
    GROUP_BLOCKS, SECTOR_BYTES, UUID_BYTES,
};

/// A block of the image.
pub type Block = [u8; BLOCK_BYTES];

const UUID_PLACE: usize = 16;

/// The blocks of a group or of a file, with the map of those that are free, as they are now and as they were last kept.
/// Block 0 is the group's header or the file's core, and the others are the pool of its trees.
#[derive(Drop)]
pub struct Overlay {
    kept: Vec<Block>,
    current: Vec<Block>,
    changed: Vec<bool>,
    kept_free: Vec<u8>,
    free: Vec<u8>,
    first: u32,
    owner: u64,
    uuid: [u8; UUID_BYTES],
}

impl Model for Overlay {
    ghost use Rattle.xr_pool.specs.Overlay.{AreBlocks, Blocks};

    ghost Value = { Blocks };

    ghost view = { λ o. record {
      kept = o.kept.items;
      current = o.current.items;
      changed = o.changed.items;
      kept_free = o.kept_free.items;
      free = o.free.items;
      first = o.first;
      owner = o.owner;
      uuid = o.uuid;
    } };

    ghost invariant = { λ o. AreBlocks (record {
      kept = o.kept.items;
      current = o.current.items;
      changed = o.changed.items;
      kept_free = o.kept_free.items;
      free = o.free.items;
      first = o.first;
      owner = o.owner;
      uuid = o.uuid;
    }) };
}

fn block_in(bytes: &[u8], n: usize) -> Block
    requires { BLOCK_BYTES * (n + 1) ≤ length bytes.now }
    ensures { result ≡ block_of bytes.now n }
{
    let mut block = [0; BLOCK_BYTES];
    block.copy_from_slice(&bytes[BLOCK_BYTES * n..BLOCK_BYTES * (n + 1)]);
    block
}

fn blocks_of_bytes(alloc: Global, bytes: &[u8]) -> Result<Vec<Block>, NoMemory>
    ensures { IfOk result (λ blocks. blocks.items ≡ blocks_in (length bytes.now / BLOCK_BYTES) bytes.now) }
{
    let count = bytes.len() / BLOCK_BYTES;
    let mut blocks = Vec::with_capacity(alloc, count)?;
    for n in 0..count {
        blocks.push(block_in(bytes, n))?;
    }
    Ok(blocks)
}

fn uuid_in(bytes: &[u8]) -> [u8; UUID_BYTES]
    requires { UUID_PLACE + UUID_BYTES ≤ length bytes.now }
    ensures { result ≡ part UUID_PLACE UUID_BYTES bytes.now }
{
    let mut uuid = [0; UUID_BYTES];
    uuid.copy_from_slice(&bytes[UUID_PLACE..UUID_PLACE + UUID_BYTES]);
    uuid
}

/// Whose the blocks from an image block on are: a group, by its number, or a file, by its inode number.
fn owner_from(first: u32) -> u64
    requires { FIRST_FILE_BLOCK ≤ first }
    ensures { result ≡ owner_of first }
{
    if first < FIRST_GROUP_BLOCK {
        FIRST_INODE + u64::from((first - FIRST_FILE_BLOCK) / FILE_BLOCKS)
    } else {
        u64::from((first - FIRST_GROUP_BLOCK) / GROUP_BLOCKS)
    }
}

fn is_whole(bytes: &Block)
    ensures { IsBlock bytes.now }
{
    let _first = bytes[0];
}

fn is_identifier(bytes: &[u8; UUID_BYTES])
    ensures { length bytes.now ≡ UUID_BYTES }
{}

/// Does nothing: the type says of each block that it is one, and this says it of all.
fn are_whole(blocks: &[Block])
    ensures { AreWhole blocks.now }
{
    for block in blocks {
        is_whole(block);
    }
}

impl Overlay {
    /// The blocks of a group, its header and its pool, or all blocks of a file, one after the other. `first` is the image
    /// block of the first of them, and `free` the map of those that are free, with a bit for each. All room that the
    /// overlay will ever need is taken here: two images of the blocks, two maps and a mark for each block.
    pub fn new(alloc: Global, base: Vec<u8>, first: u32, free: &[u8]) -> Result<Overlay, NoMemory>
        requires place { IsPool first (vec_len base) }
        requires room { vec_len base ≤ BLOCK_BYTES * 8 * length free.now }
        ensures { IfOk result (λ made. made ≡ opened first base.items free.now) }
    {
        let kept = blocks_of_bytes(alloc, &base)?;
        let current = Vec::from_slice(alloc, &kept)?;
        Ok(Overlay {
            changed: vec![in alloc; false; kept.len()]?,
            kept_free: Vec::from_slice(alloc, free)?,
            free: Vec::from_slice(alloc, free)?,
            first,
            owner: owner_from(first),
            uuid: uuid_in(&base),
            kept,
            current,
        })
    }

    /// The map of free blocks: bit `n % 8` of byte `n / 8`, the lowest first, is set exactly where block `n` is free.
    pub fn free(&self) -> &[u8]
        ensures { result.now ≡ self.now.free }
    {
        &self.free
    }

    /// Makes what the blocks are now what they go back to.
    pub fn keep(&mut self)
        ensures { self.new ≡ all_kept self.old }
    {
        copy_marked(&self.current, &mut self.kept, &mut self.changed);
        self.kept_free.copy_from_slice(&self.free);
    }

    /// Forgets all changes since the blocks were last kept.
    pub fn drop_changes(&mut self)
        ensures { self.new ≡ all_dropped self.old }
    {
        copy_marked(&self.kept, &mut self.current, &mut self.changed);
        self.free.copy_from_slice(&self.kept_free);
    }

    /// How many blocks were written since they were last kept.
    pub fn changed(&self) -> usize
        ensures { result ≡ length (changed_blocks self.now) }
    {
        count_marks(&self.changed)
    }

    /// A changed block: its image block and its bytes, as they are now. `i` is its place among the changed ones, in rising
    /// order.
    pub fn change(&self, i: usize) -> (u32, &[u8])
        requires { i < length (changed_blocks self.now) }
        ensures place { result.0 ≡ self.now.first + slice_index (changed_blocks self.now) i }
        ensures within { slice_index (changed_blocks self.now) i < pool_size self.now }
        ensures bytes { result.1.now ≡ block_at self.now (slice_index (changed_blocks self.now) i) }
        ensures whole { IsBlock result.1.now }
    {
        let n = place_of_mark(&self.changed, i);
        let block = &self.current[n];
        is_whole(block);
        (self.first + n as u32, block)
    }

    /// How many blocks there are, block 0 among them.
    pub fn len(&self) -> u32
        ensures { result ≡ pool_size self.now }
    {
        self.current.len() as u32
    }

    /// The group's number, or the file's inode number.
    pub fn owner(&self) -> u64
        ensures { result ≡ self.now.owner }
    {
        self.owner
    }

    /// The image's identifier.
    pub fn uuid(&self) -> &[u8; UUID_BYTES]
        ensures { result.now ≡ self.now.uuid }
    {
        &self.uuid
    }
}

/// What those need who build trees in the pool. Who calls one of these may break a tree: contracts of trees say what each of
/// their calls leaves, and nothing else should write a block or change the free map.
impl Overlay {
    /// Takes the blocks out, and leaves an overlay of none: for one who holds them as another value while they change, and
    /// puts them back. No memory is taken.
    pub fn take(&mut self) -> Overlay
        ensures taken { result ≡ self.old }
        ensures none { self.new ≡ emptied self.old }
    {
        let alloc = *self.kept.allocator();
        let none = Overlay {
            kept: Vec::new(alloc),
            current: Vec::new(alloc),
            changed: Vec::new(alloc),
            kept_free: Vec::new(alloc),
            free: Vec::new(alloc),
            first: self.first,
            owner: self.owner,
            uuid: self.uuid,
        };
        mem::replace(self, none)
    }

    /// The image block of a block.
    pub fn place(&self, n: u32) -> u32
        requires { n ≤ pool_size self.now }
        ensures { result ≡ self.now.first + n }
    {
        self.first + n
    }

    /// Does nothing: what is known of any overlay's blocks, for a proof.
    pub fn has_blocks(&self)
        ensures image { AreBlocks self.now }
        ensures blocks { AreWhole self.now.current }
        ensures identified { length self.now.uuid ≡ UUID_BYTES }
    {
        are_whole(&self.current);
        is_identifier(&self.uuid);
    }

    /// The first sector of a block, counted from the image's first.
    pub fn sector(&self, n: u32) -> u64
        requires { n < pool_size self.now }
        ensures { result ≡ sector_at self.now n }
    {
        u64::from(self.first + n) * u64::from(BLOCK_SECTORS)
    }

    /// A block as it is now.
    pub fn block(&self, n: u32) -> &Block
        requires { n < pool_size self.now }
        ensures { result.now ≡ block_at self.now n }
    {
        &self.current[n as usize]
    }

    /// A block to be changed.
    pub fn block_mut(&mut self, n: u32) -> &mut Block
        requires { n < pool_size self.old }
        ensures* writes_back { sem 𝓛 (LendsBlock self.entry n result) }
        ensures value { result.now ≡ block_at self.old n }
    {
        self.changed[n as usize] = true;
        &mut self.current[n as usize]
    }

    /// Whether the block belongs to no tree.
    pub fn is_free(&self, n: u32) -> bool
        requires { n < pool_size self.now }
        ensures { result ≡ is_free self.now n }
    {
        has_bit(&self.free, n as usize)
    }

    /// Takes the lowest free block of the pool, if there is one.
    pub fn take_block(&mut self) -> Option<u32>
        ensures none { IsNone result ↔ ((n : ℕ) → 1 ≤ n → n < pool_size self.old → is_free self.old n ≡ false) }
        ensures same { IsNone result → self.new ≡ self.old }
        ensures taken { IfSome result (λ n. self.new ≡ with_taken self.old n) }
        ensures within { IfSome result (λ n. (1 ≤ n) × (n < pool_size self.old)) }
        ensures was_free { IfSome result (λ n. is_free self.old n ≡ true) }
        ensures first { IfSome result (λ n. (k : ℕ) → 1 ≤ k → k < n → is_free self.old k ≡ false) }
    {
        let n = first_bit(&self.free, 1, self.current.len())?;
        clear_bit(&mut self.free, n);
        Some(n as u32)
    }

    /// Makes a block free.
    pub fn give_block(&mut self, n: u32)
        requires { n < pool_size self.old }
        ensures { self.new ≡ with_given self.old n }
    {
        set_bit(&mut self.free, n as usize);
    }
}
