//! A file: its core and the tree of its extents, as they are now and as they were last kept.
ghost use Rattle.std.specs.Prelude.{◌≡◌, ℕ, ◌+◌, ◌*◌, ◌<◌, ◌≤◌, length, slice_index, slice_index_or};
ghost use Rattle.std.specs.Prelude.{vec_len, IfErr, IfOk, []};
ghost use Rattle.xr_base.specs.Address.{IsGoodRun};
ghost use Rattle.xr_base.specs.declared.address.Addr.{Addr};
ghost use Rattle.xr_base.specs.declared.geometry.TheConstants.{BLOCK_BYTES, FILES, FILE_BLOCKS, OFFSETS};
ghost use Rattle.xr_bmap.specs.File.{AreFileStates, ChangesFile, IsFile, PunchesFile, RemapsFile, first_of_file, slot_of_file};
ghost use Rattle.xr_bmap.specs.OpenFile.{RefusesFile, opened_file};
ghost use Rattle.xr_bmap.specs.Slots.{IsHole, IsMappedRun, IsPieceAt};
ghost use Rattle.xr_bmap.specs.declared.piece.Piece.TheVariants.{Mapped};
ghost use Rattle.xr_open.specs.PoolState.{dropped_to_kept, kept_now};
ghost use Rattle.xr_pool.specs.Overlay.{blocks_in};

use crate::bmap::Bmap;
use crate::open::{open_core, open_tree};
use crate::parts::{map_in, unmap_in};
use crate::piece::Piece;
use std::alloc::Global;
use std::marker::Model;
use uuid::Uuid;
use xr_base::{FileNo, Run};
use xr_kinds::Mapping;
use xr_open::OpenFault;
use xr_pool::Overlay;
use xr_tree::Tree;

/// A file: which blocks its offsets map, kept or dropped whole. All memory that it needs is taken when it is opened.
#[derive(Drop)]
pub struct File {
    number: FileNo,
    uuid: Uuid,
    over: Overlay,
    bmap: Bmap,
    kept: Tree<Mapping>,
}

impl Model for File {
    ghost use Rattle.xr_bmap.specs.File.{FileState};
    ghost use Rattle.xr_bmap.specs.Parts.{AreFileParts, file_state_of};

    ghost Value = { FileState };

    ghost view = { λ f. file_state_of f.number.0 f.uuid f.over };

    ghost invariant = { λ f. AreFileParts f.number.0 f.uuid f.over f.bmap.tree f.kept };
}

impl File {
    /// The file whose blocks these are, the core's first. A header fault names the first wrong field of the core, or else,
    /// after the tree was found right, the free mask of a core that doesn't part the pool with the tree.
    pub fn open(
        alloc: Global,
        file: FileNo,
        uuid: &Uuid,
        blocks: Vec<u8>,
    ) -> Result<File, OpenFault>
        requires room { vec_len blocks ≡ FILE_BLOCKS * BLOCK_BYTES }
        requires known { file.0 < FILES }
        ensures opened { IfOk result (λ f. f ≡ opened_file file.0 uuid.now blocks.items) }
        ensures right { IfOk result (λ _. IsFile file.0 uuid.now (blocks_in FILE_BLOCKS blocks.items)) }
        ensures refused { IfErr result (RefusesFile file.0 uuid.now (blocks_in FILE_BLOCKS blocks.items)) }
    {
        let (over, core) = open_core(alloc, file, uuid, blocks)?;
        let tree = open_tree(&over, &core)?;
        over.has_blocks();
        Ok(File {
            number: file,
            uuid: *uuid,
            over,
            bmap: Bmap { tree },
            kept: tree,
        })
    }

    /// Does nothing: what is so of every file, for a proof.
    pub fn is_file(&self)
        ensures { AreFileStates self.now }
    {
        self.over.has_blocks();
    }

    /// The offsets from one on that are mapped alike, at most `max` of them.
    pub fn lookup(&self, off: u32, max: u32) -> Piece
        requires some { 1 ≤ max }
        requires within { off + max ≤ OFFSETS }
        ensures piece { IsPieceAt (slot_of_file self.now) off max result }
        ensures good { (at : Addr) (len : ℕ) → result ≡ Mapped at len → IsGoodRun (record { start = at; len = len }) }
    {
        self.bmap.lookup(&self.over, off, max)
    }

    /// Maps the blocks of a run at the offsets from one on, which have to be a hole.
    pub fn map(&mut self, off: u32, run: &Run)
        requires good { IsGoodRun run.now }
        requires within { off + run.now.len ≤ OFFSETS }
        requires hole { IsHole (slot_of_file self.old) off run.now.len }
        ensures mapped { RemapsFile off run.now.len run.now.start self.old self.new }
        ensures change { ChangesFile self.old self.new }
    {
        map_in(
            &mut self.over,
            &mut self.bmap,
            self.number,
            &self.uuid,
            off,
            run,
        );
    }

    /// Unmaps so many offsets from one on, at least one, which have to be a part of one extent.
    pub fn unmap(&mut self, off: u32, len: u32)
        requires mapped { IsMappedRun (slot_of_file self.old) off len }
        ensures unmapped { PunchesFile off len self.old self.new }
        ensures change { ChangesFile self.old self.new }
    {
        unmap_in(
            &mut self.over,
            &mut self.bmap,
            self.number,
            &self.uuid,
            off,
            len,
        );
    }

    /// Makes what the file is now what it goes back to.
    pub fn keep(&mut self)
        ensures { self.new ≡ kept_now self.old }
    {
        self.over.has_blocks();
        self.over.keep();
        self.kept = self.bmap.tree;
    }

    /// Forgets all changes since the file was last kept.
    pub fn drop_changes(&mut self)
        ensures { self.new ≡ dropped_to_kept self.old }
    {
        self.over.drop_changes();
        self.bmap = Bmap { tree: self.kept };
    }

    /// How many blocks may have changed since they were last kept, the core among them.
    pub fn changed(&self) -> usize
        ensures { result ≡ length self.now.changed }
    {
        self.over.changed()
    }

    /// A changed block: its image block and its bytes, as they are now. `i` is its place among the changed ones, in rising
    /// order.
    pub fn change(&self, i: usize) -> (u32, &[u8])
        requires { i < length self.now.changed }
        ensures place { result.0 ≡ first_of_file self.now.number + slice_index self.now.changed i }
        ensures whole { length result.1.now ≡ BLOCK_BYTES }
        ensures bytes { result.1.now ≡ slice_index_or self.now.blocks (slice_index self.now.changed i) [] }
    {
        self.over.change(i)
    }
}
