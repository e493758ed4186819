//! A group: its header and its trees, as they are now and as they were last kept.
ghost use Rattle.std.specs.Prelude.{◌≡◌, ◌*◌, ◌+◌, ◌<◌, ◌≤◌, ◌==◌, ℕ, ◌↔◌, not, true};
ghost use Rattle.std.specs.Prelude.{false, IsTrue, length, slice_index, slice_index_or, vec_len, IfErr, IfOk, IfSome, IsNone, []};
ghost use Rattle.xr_base.specs.declared.geometry.TheConstants.{BLOCK_BYTES, FIRST_DATA_BLOCK, GROUPS};
ghost use Rattle.xr_group.specs.Group.{AreGroups, ChangesGroup, IsGroup, IsRunOf, first_of_group, records_now};
ghost use Rattle.xr_group.specs.Next.{IsCountedBefore, IsNextOf, IsShorter, StartsBefore, counteds_now, frees_now, revs_now, sizes_now};
ghost use Rattle.xr_group.specs.OpenGroup.{RefusesGroup, opened_group};
ghost use Rattle.xr_group.specs.Sets.{AddsPairs, AreCountedIn, AreOwnedAlikeIn, AreStagedIn, HasNoPairOf, HasPairsOf};
ghost use Rattle.xr_group.specs.Sets.{GivesFree, HasNoFreeOf, IsFirstFree, IsFirstPart, IsPaired, LowersCounts, RaisesCounts, RemovesPairs};
ghost use Rattle.xr_group.specs.Sets.{StagesAddresses, TakesFree, UnstagesAddresses, has_free, owner_count_in, group_span};
ghost use Rattle.xr_group.specs.Trees.{counts_part, free_part, owners_part};
ghost use Rattle.xr_kinds.specs.Reverse.{is_good_owner, reverse_form};
ghost use Rattle.xr_maps.specs.Records.{IsBefore};
ghost use Rattle.xr_open.specs.PoolState.{dropped_to_kept, kept_now};
ghost use Rattle.xr_pool.specs.Overlay.{blocks_in};
ghost use Rattle.xr_rmap.specs.Rmap.{owned_run};

use crate::changes::{add_in, remove_in};
use crate::counts::{first_equal_in, lower_in, raise_in, stage_in, unstage_in};
use crate::next::{next_count_in, next_free_in, next_owner_in, next_size_in};
use crate::open::{open_head, open_trees};
use crate::runs::group_span;
use crate::space::{give_in, has_none_free_in, take_run};
use crate::trees::Trees;
use std::alloc::Global;
use std::marker::Model;
use uuid::Uuid;
use xr_base::{GroupNo, Run};
use xr_maps::{Counted, Rev};
use xr_open::OpenFault;
use xr_pool::Overlay;
use xr_refcount::Lowered;

/// A group: who owns its data blocks and how many do, which are free and which are staged, kept or dropped whole. All memory that
/// it needs is taken when it is opened.
#[derive(Drop)]
pub struct Group {
    over: Overlay,
    trees: Trees,
    kept: Trees,
}

impl Model for Group {
    ghost use Rattle.xr_group.specs.Group.{GroupState};
    ghost use Rattle.xr_group.specs.Parts.{AreGroupParts, group_state_of};

    ghost Value = { GroupState };

    ghost view = { λ g. group_state_of g.over };

    ghost invariant = { λ g. AreGroupParts g.over g.trees g.kept };
}

impl Group {
    /// The group whose blocks these are, the header's first. A header fault names the first wrong field of the header, or else,
    /// after the trees were found right, the free map of a header that doesn't part the pool with them.
    pub fn open(
        alloc: Global,
        group: GroupNo,
        uuid: &Uuid,
        blocks: Vec<u8>,
    ) -> Result<Group, OpenFault>
        requires room { vec_len blocks ≡ FIRST_DATA_BLOCK * BLOCK_BYTES }
        requires known { group.0 < GROUPS }
        ensures opened { IfOk result (λ g. g ≡ opened_group group.0 uuid.now blocks.items) }
        ensures right { IfOk result (λ _. IsGroup group.0 uuid.now (blocks_in FIRST_DATA_BLOCK blocks.items)) }
        ensures refused { IfErr result (RefusesGroup group.0 uuid.now (blocks_in FIRST_DATA_BLOCK blocks.items)) }
    {
        let (over, head) = open_head(alloc, group, uuid, blocks)?;
        let trees = open_trees(&over, &head)?;
        let kept = trees;
        over.has_blocks();
        Ok(Group { over, trees, kept })
    }

    /// Does nothing: what is so of every group, for a proof.
    pub fn is_group(&self)
        ensures { AreGroups self.now }
    {
        self.over.has_blocks();
    }

    /// Whether an owner has no block of a run at its offset, which are told as for `add`.
    pub fn has_none_of(&self, run: &Run, owner: u64, off: u64) -> bool
        requires run { IsRunOf self.now run.now }
        requires owner { is_good_owner (owned_run (group_span run.now) owner off) ≡ true }
        ensures { IsTrue result ↔ HasNoPairOf self.now run.now owner off }
    {
        let blocks = group_span(run);
        self.trees.rmap.has_none_of(&self.over, blocks, owner, off)
    }

    /// Whether the owner has each.
    pub fn has_all_of(&self, run: &Run, owner: u64, off: u64) -> bool
        requires run { IsRunOf self.now run.now }
        requires owner { is_good_owner (owned_run (group_span run.now) owner off) ≡ true }
        ensures { IsTrue result ↔ HasPairsOf self.now run.now owner off }
    {
        let blocks = group_span(run);
        self.trees.rmap.has_all_of(&self.over, blocks, owner, off)
    }

    /// Gives the blocks of a run to an owner, the first of them at an offset and the others at those that follow, or all at the
    /// offset 0 if they are staged. None of these pairs may be there.
    pub fn add(&mut self, run: &Run, owner: u64, off: u64)
        requires run { IsRunOf self.old run.now }
        requires owner { is_good_owner (owned_run (group_span run.now) owner off) ≡ true }
        requires alone { HasNoPairOf self.old run.now owner off }
        requires few { length (records_now self.old).reverse < reverse_form.most }
        ensures added { AddsPairs run.now owner off self.old self.new }
        ensures change { ChangesGroup owners_part 21 self.old self.new }
    {
        add_in(&mut self.over, &mut self.trees, group_span(run), owner, off);
    }

    /// Takes the blocks of a run from an owner, at the offsets as above. All these pairs have to be there.
    pub fn remove(&mut self, run: &Run, owner: u64, off: u64)
        requires run { IsRunOf self.old run.now }
        requires owner { is_good_owner (owned_run (group_span run.now) owner off) ≡ true }
        requires held { HasPairsOf self.old run.now owner off }
        requires few { length (records_now self.old).reverse < reverse_form.most }
        ensures removed { RemovesPairs run.now owner off self.old self.new }
        ensures change { ChangesGroup owners_part 21 self.old self.new }
    {
        remove_in(&mut self.over, &mut self.trees, group_span(run), owner, off);
    }

    /// The longest part at the front of a run whose blocks have one number of owners, and of which all are staged or none is.
    pub fn first_equal(&self, run: &Run) -> Counted
        requires { IsRunOf self.now run.now }
        ensures { IsFirstPart self.now run.now result }
    {
        first_equal_in(&self.over, &self.trees, run)
    }

    /// Makes each count of a run one greater. The blocks have one count, which is below 32,768, and none is staged.
    pub fn raise_run(&mut self, run: &Run)
        requires run { IsRunOf self.old run.now }
        requires alike { AreOwnedAlikeIn self.old run.now }
        requires below { owner_count_in self.old run.now.start.0 < 32768 }
        ensures raised { RaisesCounts run.now self.old self.new }
        ensures change { ChangesGroup counts_part 22 self.old self.new }
    {
        raise_in(&mut self.over, &mut self.trees, group_span(run));
    }

    /// Makes each count of a run one less. The blocks have one count, and none is staged. Where that is 1, they lose their only
    /// owner and are freed, and nothing changes.
    pub fn lower_run(&mut self, run: &Run) -> Lowered
        requires run { IsRunOf self.old run.now }
        requires alike { AreOwnedAlikeIn self.old run.now }
        ensures freed { result.freed ≡ (owner_count_in self.old run.now.start.0 == 1) }
        ensures changed { result.changed ≡ not result.freed }
        ensures same { IsTrue result.freed → self.new ≡ self.old }
        ensures lowered { IsTrue result.changed → LowersCounts run.now self.old self.new }
        ensures change { ChangesGroup counts_part 22 self.old self.new }
    {
        lower_in(&mut self.over, &mut self.trees, group_span(run))
    }

    /// Makes the blocks of a run staged ones. Each has the count 1, and none is staged.
    pub fn stage(&mut self, run: &Run)
        requires run { IsRunOf self.old run.now }
        requires alone { AreCountedIn self.old run.now 1 false }
        ensures staged { StagesAddresses run.now self.old self.new }
        ensures change { ChangesGroup counts_part 15 self.old self.new }
    {
        stage_in(&mut self.over, &mut self.trees, group_span(run));
    }

    /// Makes the blocks of a run, all of which are staged, blocks without a record.
    pub fn unstage(&mut self, run: &Run)
        requires run { IsRunOf self.old run.now }
        requires staged { AreStagedIn self.old run.now }
        ensures unstaged { UnstagesAddresses run.now self.old self.new }
        ensures change { ChangesGroup counts_part 15 self.old self.new }
    {
        unstage_in(&mut self.over, &mut self.trees, group_span(run));
    }

    /// Whether both trees of free runs hold the same runs.
    pub fn paired(&self) -> bool
        ensures { IsTrue result ↔ IsPaired self.now }
    {
        self.trees.space.paired(&self.over)
    }

    /// Whether no block of a run is free.
    pub fn has_none_free(&self, run: &Run) -> bool
        requires { IsRunOf self.now run.now }
        ensures { IsTrue result ↔ HasNoFreeOf self.now run.now }
    {
        has_none_free_in(&self.over, &self.trees, group_span(run))
    }

    /// Takes the first free blocks, as many as are needed or as stand together. None where no block is free, and then nothing
    /// changes.
    pub fn take_first(&mut self, need: u32) -> Option<Run>
        requires paired { IsPaired self.old }
        requires some { 1 ≤ need }
        ensures none { IsNone result ↔ ((a : ℕ) → has_free self.old a ≡ false) }
        ensures same { IsNone result → self.new ≡ self.old }
        ensures first { IfSome result (λ run. IsFirstFree self.old need run) }
        ensures taken { IfSome result (λ run. TakesFree run self.old self.new) }
        ensures paired { IsPaired self.new }
        ensures change { ChangesGroup free_part 22 self.old self.new }
    {
        take_run(&mut self.over, &mut self.trees, need)
    }

    /// Makes a run free, none of whose blocks may be.
    pub fn give(&mut self, run: &Run)
        requires run { IsRunOf self.old run.now }
        requires paired { IsPaired self.old }
        requires taken { HasNoFreeOf self.old run.now }
        ensures given { GivesFree run.now self.old self.new }
        ensures paired { IsPaired self.new }
        ensures change { ChangesGroup free_part 36 self.old self.new }
    {
        give_in(&mut self.over, &mut self.trees, group_span(run));
    }

    /// The first free run after another, by their blocks, or the first of all. The other need not be there, nor be a run of
    /// this group.
    pub fn next_free(&self, after: Option<Run>) -> Option<Run>
        ensures { IsNextOf StartsBefore (frees_now self.now) after result }
    {
        next_free_in(&self.over, &self.trees, after)
    }

    /// The first free run after another, by their lengths and then their blocks, or the first of all.
    pub fn next_size(&self, after: Option<Run>) -> Option<Run>
        ensures { IsNextOf IsShorter (sizes_now self.now) after result }
    {
        next_size_in(&self.over, &self.trees, after)
    }

    /// The first record of owners after another, by its block, its owner and its offset, or the first of all.
    pub fn next_owner(&self, after: Option<Rev>) -> Option<Rev>
        ensures { IsNextOf IsBefore (revs_now self.now) after result }
    {
        next_owner_in(&self.over, &self.trees, after)
    }

    /// The first record of counts after another, by their blocks and the staged ones behind all others, or the first of all.
    pub fn next_count(&self, after: Option<Counted>) -> Option<Counted>
        ensures { IsNextOf IsCountedBefore (counteds_now self.now) after result }
    {
        next_count_in(&self.over, &self.trees, after)
    }

    /// How many records the owners make.
    pub fn owner_records(&self) -> u32
        ensures { result ≡ length (records_now self.now).reverse }
    {
        self.trees.rmap.count(&self.over)
    }

    /// Makes what the group is now what it goes back to.
    pub fn keep(&mut self)
        ensures { self.new ≡ kept_now self.old }
    {
        self.over.has_blocks();
        self.over.keep();
        self.kept = self.trees;
    }

    /// Forgets all changes since the group was last kept.
    pub fn drop_changes(&mut self)
        ensures { self.new ≡ dropped_to_kept self.old }
    {
        self.over.drop_changes();
        self.trees = self.kept;
    }

    /// How many blocks may have changed since they were last kept, the header among them.
    pub fn changed(&self) -> usize
        ensures { result ≡ length self.now.changed }
    {
        self.over.changed()
    }

    /// A changed block: its image block and its bytes, as they are now. `i` is its place among the changed ones, in rising
    /// order.
    pub fn change(&self, i: usize) -> (u32, &[u8])
        requires { i < length self.now.changed }
        ensures place { result.0 ≡ first_of_group self.now.number + slice_index self.now.changed i }
        ensures whole { length result.1.now ≡ BLOCK_BYTES }
        ensures bytes { result.1.now ≡ slice_index_or self.now.blocks (slice_index self.now.changed i) [] }
    {
        self.over.change(i)
    }
}
