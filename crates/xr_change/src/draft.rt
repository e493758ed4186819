//! The blocks of a pool while a change of a tree edits them. Their checksums are written when the change is finished, so
//! each block that it edited is sealed once, however often that was.
ghost use Rattle.std.specs.Prelude.{◌≡◌, ℕ, ◌<◌, ◌≤◌, [], List, true};
ghost use Rattle.std.specs.Borrow.{sem};
ghost use Rattle.arrayvec.specs.ArrayVec.{array_vec_len};
ghost use Rattle.xr_pool.specs.Overlay.{block_at, free_count, is_free, pool_size, with_block, with_given, with_taken, AreKnown};
ghost use Rattle.xr_block.specs.Tree.{site_of};
ghost use Rattle.xr_change.specs.Draft.{AreEdited, ReadsAs, all_sealed};
ghost use Rattle.xr_change.specs.Lending.{lends_block};
ghost use Rattle.xr_block.specs.Edits.{IsHeader, sealed};

use arrayvec::ArrayVec;
use std::marker::{Model, PhantomData};
use xr_block::{Header, seal};
use xr_kinds::Record;
use xr_pool::{Block, Overlay};

/// How many blocks a change edits at most: three a level and one more. No pool has room for a tree of 16 levels.
const EDITED_MAX: usize = 49;

/// The blocks that were edited, each once.
type Edited = ArrayVec<u32, EDITED_MAX>;

/// An overlay whose edited blocks have no checksum yet. A contract sees the blocks as they are with their checksums.
#[derive(Drop)]
pub(crate) struct Draft<R: Record> {
    over: Overlay,
    edited: Edited,
    kind: PhantomData<R>,
}

impl<R: Record> Model for Draft<R> {
    ghost use Rattle.xr_pool.specs.Overlay.{Blocks};
    ghost use Rattle.xr_change.specs.Draft.{AreEdited, all_sealed};

    ghost Value = { Blocks };

    ghost view = { λ d. all_sealed R.form d.edited.items d.over };

    ghost invariant = { λ d. AreEdited d.over d.edited.items };
}

/// Writes the checksum of each edited block. None is edited then.
fn seal_all<R: Record>(over: &mut Overlay, edited: &mut Edited)
    requires { AreEdited over.old edited.old.items }
    ensures sealed { over.new ≡ all_sealed R.form edited.old.items over.old }
    ensures none { edited.new.items ≡ [] }
{
    while let Some(n) = edited.pop() {
        over.has_blocks();
        seal::<R>(over.block_mut(n));
    }
}

/// Sees to room for one more block. Where there is none, the checksums are written now; no tree comes to that.
fn make_room<R: Record>(over: &mut Overlay, edited: &mut Edited)
    requires { AreEdited over.old edited.old.items }
    ensures edited { AreEdited over.new edited.new.items }
    ensures same { all_sealed R.form edited.new.items over.new ≡ all_sealed R.form edited.old.items over.old }
    ensures pool { pool_size over.new ≡ pool_size over.old }
    ensures room { array_vec_len edited.new < EDITED_MAX }
{
    if edited.is_full() {
        seal_all::<R>(over, edited);
    }
}

/// Notes that a block is to be edited, if it wasn't yet.
fn note<R: Record>(over: &mut Overlay, edited: &mut Edited, n: u32)
    requires edited { AreEdited over.old edited.old.items }
    requires within { n < pool_size over.old }
    ensures within { n < pool_size over.new }
    ensures reads { ReadsAs R.form (block_at over.new n) (block_at (all_sealed R.form edited.old.items over.old) n) }
    ensures noted { (w : List ℕ) → AreEdited (with_block over.new n w) edited.new.items }
    ensures lent { (w : List ℕ) → all_sealed R.form edited.new.items (with_block over.new n w)
        ≡ with_block (all_sealed R.form edited.old.items over.old) n (sealed R.form w) }
{
    over.has_blocks();
    if edited.contains(&n) {
        return;
    }
    make_room::<R>(over, edited);
    over.has_blocks();
    edited.push(n);
}

impl<R: Record> Draft<R> {
    /// A draft of some blocks.
    pub(crate) fn of(over: Overlay) -> Draft<R>
        ensures { result ≡ over }
    {
        Draft {
            over,
            edited: ArrayVec::new(),
            kind: PhantomData,
        }
    }

    /// The blocks, each with its checksum.
    pub(crate) fn finish(self) -> Overlay
        ensures { result ≡ self }
    {
        let Draft {
            mut over,
            mut edited,
            ..
        } = self;
        seal_all::<R>(&mut over, &mut edited);
        over
    }

    /// Does nothing: what is known of any overlay, for a proof.
    pub(crate) fn is_known(&self)
        ensures { AreKnown self.now }
    {
        self.over.has_blocks();
    }

    /// The header of a block of the pool.
    pub(crate) fn header(&self, n: u32, level: u32, left: Option<u32>, right: Option<u32>) -> Header
        requires { n < pool_size self.now }
        ensures { IsHeader result (site_of self.now) (record { number = n; level = level; left = left; right = right }) }
    {
        Header::new(&self.over, n, level, left, right)
    }

    /// A block as it is, which may have no checksum.
    pub(crate) fn block(&self, n: u32) -> &Block
        requires { n < pool_size self.now }
        ensures { ReadsAs R.form result.now (block_at self.now n) }
    {
        self.over.has_blocks();
        self.over.block(n)
    }

    /// A block to be edited.
    pub(crate) fn block_mut(&mut self, n: u32) -> &mut Block
        requires { n < pool_size self.old }
        ensures* writes_back { sem 𝓛 (lends_block R.row R.Record self.entry n result) }
        ensures value { ReadsAs R.form result.now (block_at self.old n) }
    {
        note::<R>(&mut self.over, &mut self.edited, n);
        self.over.block_mut(n)
    }

    /// Takes the lowest block that is free.
    pub(crate) fn take_free(&mut self) -> u32
        requires { 1 ≤ free_count self.old }
        ensures taken { self.new ≡ with_taken self.old result }
        ensures within { (1 ≤ result) × (result < pool_size self.old) }
        ensures was_free { is_free self.old result ≡ true }
    {
        match self.over.take_block() {
            Some(n) => n,
            None => unreachable!(),
        }
    }

    /// Makes a block free.
    pub(crate) fn give_block(&mut self, n: u32)
        requires { n < pool_size self.old }
        ensures { self.new ≡ with_given self.old n }
    {
        self.over.give_block(n);
    }
}
