//! Whether the first work of a chain can be rolled, by what the file or the group holds.
ghost use Rattle.std.specs.Prelude.{◌≡◌, ℕ, ◌+◌, ◌↔◌, ◌≤◌, false, true, IsTrue, List};
ghost use Rattle.xr_balance.specs.Ready.{IsReadyIn};
ghost use Rattle.xr_base.specs.declared.address.FileNo.{FileNo};
ghost use Rattle.xr_base.specs.declared.geometry.TheConstants.{OFFSETS};
ghost use Rattle.xr_bmap.specs.File.{FileState, slot_of_file};
ghost use Rattle.xr_bmap.specs.Slots.{IsHole};
ghost use Rattle.xr_chain.specs.ChainView.{OfFirst, file_at, first_need, group_at, need_of};
ghost use Rattle.xr_chain.specs.CommittedBlocks.{IsListed, committed_of, owner_records_of};
ghost use Rattle.xr_chain.specs.Readiness.{AreCountedBelow, IsFileReady, IsGroupReady, IsMappedTo};
ghost use Rattle.xr_group.specs.Group.{GroupState, IsRunOf};
ghost use Rattle.xr_group.specs.Sets.{HasNoFreeOf};
ghost use Rattle.xr_items.specs.Valid.{IsWork};
ghost use Rattle.xr_items.specs.declared.work.Work.TheVariants as works;

use crate::chain::{Chain, Need};
use crate::counted::{all_counted, none_counted};
use xr_base::Run;
use xr_bmap::{File, Piece};
use xr_group::Group;
use xr_items::{CountKind, MapKind, OwnKind, Work};
use xr_kinds::{Record, Reverse};

/// A work on owners is done where their tree has at most so many records, since a change of one run leaves at most two more.
const OWNER_RECORDS: u32 = <Reverse as Record>::MOST - 2;

/// The count of owners that can't rise.
const LAST_COUNT: u32 = 32_768;

/// Whether the offsets of a run, from one on, map nothing.
fn is_hole(file: &File, off: u32, run: &Run) -> bool
    requires some { 1 ≤ run.now.len }
    requires within { off + run.now.len ≤ OFFSETS }
    ensures { IsTrue result ↔ IsHole (slot_of_file file.now) off run.now.len }
{
    match file.lookup(off, run.len) {
        Piece::Hole { len } => len == run.len,
        Piece::Mapped { .. } => false,
    }
}

/// Whether they map its blocks.
fn is_mapped(file: &File, off: u32, run: &Run) -> bool
    requires some { 1 ≤ run.now.len }
    requires within { off + run.now.len ≤ OFFSETS }
    ensures { IsTrue result ↔ IsMappedTo file.now off run.now }
{
    let piece = file.lookup(off, run.len);
    piece
        == Piece::Mapped {
            at: run.start,
            len: run.len,
        }
}

fn map_is_ready(file: &File, kind: MapKind, off: u32, run: &Run) -> bool
    requires some { 1 ≤ run.now.len }
    requires within { off + run.now.len ≤ OFFSETS }
    ensures { (number : FileNo) → IsTrue result ↔ IsFileReady file.now (works.Map kind number off run.now) }
{
    match kind {
        MapKind::Map => is_hole(file, off, run),
        MapKind::Unmap => is_mapped(file, off, run),
    }
}

fn file_is_ready(file: &File, work: &Work) -> bool
    requires { IsWork work.now }
    ensures { IsTrue result ↔ IsFileReady file.now work.now }
{
    match *work {
        Work::Map { kind, off, run, .. } => map_is_ready(file, kind, off, &run),
        _ => true,
    }
}

/// Whether no block of a run is free, and none is staged, and the count of each is below the limit, where there is one.
fn owned_below(group: &Group, run: &Run, limit: Option<u32>) -> bool
    requires { IsRunOf group.now run.now }
    ensures { IsTrue result ↔ (HasNoFreeOf group.now run.now × AreCountedBelow group.now run.now false limit) }
{
    group.has_none_free(run) && all_counted(group, run, false, limit)
}

fn count_is_ready(group: &Group, kind: CountKind, run: &Run) -> bool
    requires { IsRunOf group.now run.now }
    ensures { IsTrue result ↔ IsGroupReady group.now (works.Count kind run.now) }
{
    match kind {
        CountKind::Increase => owned_below(group, run, Some(LAST_COUNT)),
        CountKind::Decrease => owned_below(group, run, None),
        CountKind::AllocCow => group.has_none_free(run) && none_counted(group, run),
        CountKind::FreeCow => all_counted(group, run, true, None),
    }
}

fn owner_is_ready(group: &Group, kind: OwnKind, owner: u64, off: u64, run: &Run) -> bool
    requires run { IsRunOf group.now run.now }
    requires valid { IsWork (works.Own kind owner off run.now) }
    ensures { IsTrue result ↔ IsGroupReady group.now (works.Own kind owner off run.now) }
{
    let has_room = group.owner_records() <= OWNER_RECORDS;
    match kind {
        OwnKind::MapShared | OwnKind::Alloc => group.has_none_of(run, owner, off) && has_room,
        OwnKind::UnmapShared | OwnKind::Free => group.has_all_of(run, owner, off) && has_room,
    }
}

fn group_is_ready(group: &Group, work: &Work) -> bool
    requires valid { IsWork work.now }
    requires need { need_of work.now ≡ Need.Group (group_at group.now.number) }
    ensures { IsTrue result ↔ IsGroupReady group.now work.now }
{
    match *work {
        Work::Own {
            kind,
            owner,
            off,
            run,
        } => owner_is_ready(group, kind, owner, off, &run),
        Work::Count { kind, run } => count_is_ready(group, kind, &run),
        Work::Free { run } => group.has_none_free(&run),
        _ => true,
    }
}

impl Chain {
    /// Whether the file that the chain needs has what its first work does: the run where it unmaps it, a hole where it maps one.
    pub fn ready_map(&self, file: &File) -> bool
        requires need { first_need self.now.works ≡ Need.File (file_at file.now.number) }
        ensures ready { IsTrue result ↔ OfFirst (IsFileReady file.now) self.now.works }
        ensures balance { (files : List FileState) (groups : List GroupState) → IsListed files file.now
            → IsTrue result ↔ OfFirst (IsReadyIn (committed_of files groups) (owner_records_of groups)) self.now.works }
    {
        file.is_file();
        match self.works() {
            [work, ..] => file_is_ready(file, work),
            [] => true,
        }
    }

    /// Whether the group that the chain needs has what its first work does: the owners that it takes and none that it adds, blocks
    /// that aren't free, the staged ones that it unstages and no others, counts that can rise, and room in the tree of owners.
    pub fn ready_group(&self, group: &Group) -> bool
        requires need { first_need self.now.works ≡ Need.Group (group_at group.now.number) }
        ensures ready { IsTrue result ↔ OfFirst (IsGroupReady group.now) self.now.works }
        ensures balance { (files : List FileState) (groups : List GroupState) → IsListed groups group.now
            → IsTrue result ↔ OfFirst (IsReadyIn (committed_of files groups) (owner_records_of groups)) self.now.works }
    {
        match self.works() {
            [work, ..] => group_is_ready(group, work),
            [] => true,
        }
    }
}
