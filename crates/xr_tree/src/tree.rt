//! A tree, by its root.
ghost use Rattle.std.specs.Prelude.{◌≡◌, ℕ, ◌+◌, ◌*◌, ◌≤◌, ◌↔◌, true, false, length, IsOk, IfErr, IfOk, IsTrue};
ghost use Rattle.std.specs.List.{All, Contains};
ghost use Rattle.xr_block.specs.Tree.{AreRecords};
ghost use Rattle.xr_block.specs.Trees.{IsOwnTree, IsTree, Marks, blocks_of_tree, records_of_tree};
ghost use Rattle.xr_change.specs.Calls.{ChangesTree, blocks_for};
ghost use Rattle.xr_change.specs.Sets.{inserted, removed, replaced};
ghost use Rattle.xr_lookup.specs.Lookup.{FindsGreatest, FindsLeast, from, overlaps, up_to};
ghost use Rattle.xr_pool.specs.Bits.{has_bit};
ghost use Rattle.xr_pool.specs.Overlay.{free_count, pool_size};
ghost use Rattle.xr_verify.specs.Refusals.{RefusesTree};

use std::marker::{Model, PhantomData};
use xr_block::Root;
use xr_block::fault::TreeFault;
use xr_change::{insert_into_tree, remove_from_tree, replace_in_tree};
use xr_kinds::Record;
use xr_lookup::{Reach, at_least, at_most, count, overlap};
use xr_pool::Overlay;
use xr_verify::{Kept, verify};

/// A tree of records of one kind, which stands in the blocks of an overlay. A contract sees its root.
#[derive(Clone, Copy)]
pub struct Tree<R: Record> {
    root: Root,
    kind: PhantomData<R>,
}

impl<R: Record> Model for Tree<R> {
    ghost use Rattle.xr_block.specs.declared.root.Root as at;

    ghost Value = { at.Root };

    ghost view = { λ t. t.root };

    ghost inverse = { λ r. record { root = r; kind = record {} } };
}

impl<R: Record> Tree<R> {
    /// The pool block of the root.
    pub fn root(&self) -> u32
        ensures { result ≡ self.now.block }
    {
        self.root.block
    }

    /// How many levels there are below the root.
    pub fn level(&self) -> u32
        ensures { result ≡ self.now.level }
    {
        self.root.level
    }
}

impl<R: Kept> Tree<R> {
    /// The tree below a root, if the blocks there are one and none of them is marked in `seen`, which has a bit for each
    /// block of the pool: bit `n % 8` of byte `n / 8`, the lowest first, for block `n`. The tree's blocks are marked there.
    /// A refusal names the image block that breaks a rule first, as the blocks are visited: each before its children, and
    /// these from left to right. Its kind is that of the first rule that this block breaks. A pointer to no block of the
    /// pool is a fault of the block that holds it, and a root that is none of the pool a fault of block 0. After a refusal
    /// `seen` may hold any marks.
    pub fn verify(
        over: &Overlay,
        root: u32,
        level: u32,
        seen: &mut [u8],
    ) -> Result<Tree<R>, TreeFault>
        requires { pool_size over.now ≤ 8 * length seen.old }
        ensures right { IsOk result ↔ IsOwnTree R.form over.now (record { block = root; level = level }) seen.old }
        ensures refused { IfErr result (RefusesTree R.form over.now (record { block = root; level = level }) seen.old) }
        ensures tree { IfOk result (λ tree. tree ≡ record { block = root; level = level }) }
        ensures long { length seen.new ≡ length seen.old }
        ensures marked { IfOk result (λ tree. Marks seen.old (blocks_of_tree R.form over.now tree) seen.new) }
    {
        let root = Root { block: root, level };
        verify::<R>(over, root, seen)?;
        Ok(Tree {
            root,
            kind: PhantomData,
        })
    }
}

impl<R: Reach> Tree<R> {
    /// The greatest record that isn't above another.
    pub fn at_most(&self, over: &Overlay, r: &R) -> Option<R>
        requires { IsTree R.form over.now self.now }
        ensures { FindsGreatest R.form (records_of_tree R.form over.now self.now) (up_to R.form r.now) result }
    {
        at_most(over, self.root, r)
    }

    /// The least record that isn't below another.
    pub fn at_least(&self, over: &Overlay, r: &R) -> Option<R>
        requires { IsTree R.form over.now self.now }
        ensures { FindsLeast R.form (records_of_tree R.form over.now self.now) (from R.form r.now) result }
    {
        at_least(over, self.root, r)
    }

    /// The first record, in the order of the tree, that meets a valid one. Where a record is given to go on after, it is
    /// the first after that.
    pub fn overlap(&self, over: &Overlay, with: &R, after: Option<R>) -> Option<R>
        requires tree { IsTree R.form over.now self.now }
        requires valid { IsTrue (R.form.is_valid with.now) }
        ensures { FindsLeast R.form (records_of_tree R.form over.now self.now) (overlaps R.form with.now after) result }
    {
        overlap(over, self.root, with, after)
    }
}

impl<R: Record> Tree<R> {
    /// How many records there are. Each leaf is passed once, and nothing is looked up.
    pub fn count(&self, over: &Overlay) -> u32
        requires { IsTree R.form over.now self.now }
        ensures { result ≡ length (records_of_tree R.form over.now self.now) }
    {
        count::<R>(over, self.root)
    }

    /// Puts a record into the tree. It may not be there, and the records keep their rules with it. For each full block on
    /// the path to its leaf, and for a full root once more, the pool has a free block. At most three blocks for each level
    /// and one more become changed ones.
    pub fn insert(&mut self, over: &mut Overlay, r: R)
        requires tree { IsTree R.form over.old self.old }
        requires rules { AreRecords R.form (inserted R.form.order r (records_of_tree R.form over.old self.old)) }
        requires room { blocks_for R.form over.old self.old r ≤ free_count over.old }
        ensures step { ChangesTree R.form over.old self.old over.new self.new (inserted R.form.order r) }
        ensures room { free_count over.old ≤ free_count over.new + blocks_for R.form over.old self.old r }
    {
        self.root = insert_into_tree(over, self.root, &r);
    }

    /// Removes a record from the tree, where it has to be. At most three blocks for each level and one more become changed
    /// ones.
    pub fn remove(&mut self, over: &mut Overlay, r: &R)
        requires tree { IsTree R.form over.old self.old }
        requires held { Contains (records_of_tree R.form over.old self.old) r.now }
        ensures step { ChangesTree R.form over.old self.old over.new self.new (removed R.form.order r.now) }
        ensures room { free_count over.old ≤ free_count over.new }
    {
        self.root = remove_from_tree(over, self.root, r);
    }

    /// Writes a record over another one of the tree, in whose place of the order it stands. The records keep their rules
    /// with it. At most three blocks for each level and one more become changed ones.
    pub fn replace(&mut self, over: &mut Overlay, old: &R, new: R)
        requires tree { IsTree R.form over.old self.old }
        requires held { Contains (records_of_tree R.form over.old self.old) old.now }
        requires rules { AreRecords R.form (replaced R.form.order old.now new (records_of_tree R.form over.old self.old)) }
        ensures step { ChangesTree R.form over.old self.old over.new self.new (replaced R.form.order old.now new) }
        ensures same { self.new ≡ self.old }
        ensures room { free_count over.new ≡ free_count over.old }
    {
        replace_in_tree(over, self.root, old, &new);
    }
}
