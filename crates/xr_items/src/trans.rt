//! A transaction that is being made: the blocks that it changes, the works that it asks for, and the ones that it ends.
ghost use Rattle.std.specs.Prelude.{◌≡◌, ◌+◌, ◌<◌, [], ◌∷◌, ◌++◌, IfOk, length};
ghost use Rattle.xr_base.specs.declared.geometry.TheConstants.{BLOCK_BYTES};
ghost use Rattle.xr_items.specs.declared.layout.TheConstants.{TRANS_BLOCKS, TRANS_WORKS, TRANS_SLOTS};
ghost use Rattle.xr_items.specs.Transactions.{no_trans, IsTrans, IsLogged, IsNotAmong, logged};
ghost use Rattle.xr_items.specs.Valid.{IsWork};

use crate::layout::{TRANS_BLOCKS, TRANS_SLOTS, TRANS_WORKS};
use crate::work::Work;
use std::alloc::Global;
use std::marker::Model;
use xr_base::NoMemory;
use xr_base::geometry::BLOCK_BYTES;

/// A block that a transaction changes, by its number in the image, and what it changes it to.
#[derive(Drop)]
pub struct Logged {
    pub block: u32,
    pub image: [u8; BLOCK_BYTES],
}

/// The slots that a log's table gave to the new works of a transaction, in their order: the first `count`.
#[derive(Clone, Copy, Debug, PartialEq, Eq)]
pub struct Placed {
    pub slots: [u8; TRANS_WORKS],
    pub count: u8,
}

/// A transaction, with room for `TRANS_BLOCKS` blocks, `TRANS_WORKS` new works and `TRANS_SLOTS` done slots. All memory
/// is taken by `new`.
#[derive(Drop)]
pub struct Trans {
    blocks: Vec<Logged>,
    works: Vec<Work>,
    done: Vec<u8>,
}

impl Model for Trans {
    ghost use Rattle.xr_items.specs.TransFields.{HasCapacity, trans_of};
    ghost use Rattle.xr_items.specs.Transactions.{TransView, IsTrans};

    ghost Value = { TransView };

    ghost view = { λ t. trans_of t.blocks t.works t.done };

    ghost invariant = { λ t. IsTrans (trans_of t.blocks t.works t.done) × HasCapacity t.blocks t.works t.done };
}

fn whole_block(image: &[u8]) -> [u8; BLOCK_BYTES]
    requires { length image.now ≡ BLOCK_BYTES }
    ensures { result ≡ image.now }
{
    <[u8; BLOCK_BYTES]>::try_from(image).unwrap()
}

impl Trans {
    /// An empty transaction.
    pub fn new(alloc: Global) -> Result<Trans, NoMemory>
        ensures { IfOk result (λ trans. trans ≡ no_trans) }
    {
        Ok(Trans {
            blocks: Vec::with_capacity(alloc, TRANS_BLOCKS)?,
            works: Vec::with_capacity(alloc, TRANS_WORKS)?,
            done: Vec::with_capacity(alloc, TRANS_SLOTS)?,
        })
    }

    /// Makes the transaction empty.
    pub fn clear(&mut self)
        ensures { self.new ≡ no_trans }
    {
        self.blocks.clear();
        self.works.clear();
        self.done.clear();
    }

    /// Adds a block of the image, which is a file's core or one that a buffer item may name, with its new bytes.
    pub fn add_block(&mut self, block: u32, image: &[u8])
        requires room { length self.old.blocks < TRANS_BLOCKS }
        requires whole { length image.now ≡ BLOCK_BYTES }
        requires absent { IsNotAmong block self.old.blocks }
        requires logged { IsLogged (logged block image.now) }
        ensures { self.new ≡ record self.old { blocks = self.old.blocks ++ logged block image.now ∷ [] } }
    {
        let image = whole_block(image);
        self.blocks.push(Logged { block, image }).unwrap();
    }

    /// Adds a new work.
    pub fn add_work(&mut self, work: Work)
        requires room { length self.old.works < TRANS_WORKS }
        requires valid { IsWork work }
        ensures { self.new ≡ record self.old { works = self.old.works ++ work ∷ [] } }
    {
        self.works.push(work).unwrap();
    }

    /// Adds the slot of a work that is done.
    pub fn add_done(&mut self, slot: u8)
        requires { length self.old.done < TRANS_SLOTS }
        ensures { self.new ≡ record self.old { done = self.old.done ++ slot ∷ [] } }
    {
        self.done.push(slot).unwrap();
    }

    /// The changed blocks, in the order in which they were added.
    pub fn blocks(&self) -> &[Logged]
        ensures list { result.now ≡ self.now.blocks }
        ensures valid { IsTrans self.now }
    {
        &self.blocks
    }

    /// The new works, in the order in which they were added.
    pub fn works(&self) -> &[Work]
        ensures list { result.now ≡ self.now.works }
        ensures valid { IsTrans self.now }
    {
        &self.works
    }

    /// The slots of the works that are done, in the order in which they were added.
    pub fn done(&self) -> &[u8]
        ensures list { result.now ≡ self.now.done }
        ensures valid { IsTrans self.now }
    {
        &self.done
    }
}
