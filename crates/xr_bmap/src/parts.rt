//! Changes of a file in its overlay and tree: the core follows.
ghost use Rattle.std.specs.Prelude.{◌≡◌, ◌+◌, ◌^◌, ◌<◌, ◌≤◌, length};
ghost use Rattle.xr_base.specs.Address.{IsGoodRun};
ghost use Rattle.xr_base.specs.declared.geometry.TheConstants.{FILES, OFFSETS};
ghost use Rattle.xr_bmap.specs.Bmap.{PunchesIn, RemapsIn, slot_in};
ghost use Rattle.xr_bmap.specs.Parts.{ChangesFileParts, CoreWritten, HasFile, HasOldCore, core_of};
ghost use Rattle.xr_bmap.specs.Slots.{IsHole, IsMappedRun};

use crate::bmap::Bmap;
use uuid::Uuid;
use xr_base::geometry::FIRST_INODE;
use xr_base::{FileNo, Run};
use xr_headers::{Core, put_core};
use xr_pool::Overlay;

/// The core of a tree and its pool.
fn core_of(over: &Overlay, bmap: &Bmap, number: FileNo, uuid: &Uuid) -> Core
    requires map { length over.now.free ≡ 1 }
    requires known { number.0 < FILES }
    ensures is { result ≡ core_of number.0 uuid.now over.now bmap.now.tree }
    ensures byte { result.free < 256 }
    ensures level { result.level < 2 ^ 32 }
{
    Core {
        ino: FIRST_INODE + u64::from(number.0),
        uuid: *uuid,
        root: bmap.tree.root(),
        level: bmap.tree.level(),
        free: u32::from(over.free()[0]),
    }
}

/// Writes the core where it isn't the one that its block holds.
fn write_core(over: &mut Overlay, bmap: &Bmap, number: FileNo, uuid: &Uuid, before: &Core)
    requires file { HasOldCore number.0 uuid.now over.old bmap.now.tree before.now }
    ensures file { HasFile number.0 uuid.now over.new bmap.now.tree }
    ensures written { CoreWritten over.old over.new bmap.now.tree }
{
    let core = core_of(over, bmap, number, uuid);
    if core != *before {
        put_core(&core, over.block_mut(0));
    }
}

/// Maps the blocks of a run at the offsets from one on.
pub(crate) fn map_in(
    over: &mut Overlay,
    bmap: &mut Bmap,
    number: FileNo,
    uuid: &Uuid,
    off: u32,
    run: &Run,
)
    requires file { HasFile number.0 uuid.now over.old bmap.old.tree }
    requires known { number.0 < FILES }
    requires good { IsGoodRun run.now }
    requires within { off + run.now.len ≤ OFFSETS }
    requires hole { IsHole (slot_in over.old bmap.old) off run.now.len }
    ensures file { HasFile number.0 uuid.now over.new bmap.new.tree }
    ensures mapped { RemapsIn off run.now.len run.now.start over.old bmap.old over.new bmap.new }
    ensures change { ChangesFileParts over.old bmap.old.tree over.new }
{
    let before = core_of(over, bmap, number, uuid);
    bmap.map(over, off, run);
    over.has_blocks();
    write_core(over, bmap, number, uuid, &before);
}

/// Unmaps so many offsets from one on.
pub(crate) fn unmap_in(
    over: &mut Overlay,
    bmap: &mut Bmap,
    number: FileNo,
    uuid: &Uuid,
    off: u32,
    len: u32,
)
    requires file { HasFile number.0 uuid.now over.old bmap.old.tree }
    requires known { number.0 < FILES }
    requires mapped { IsMappedRun (slot_in over.old bmap.old) off len }
    ensures file { HasFile number.0 uuid.now over.new bmap.new.tree }
    ensures unmapped { PunchesIn off len over.old bmap.old over.new bmap.new }
    ensures change { ChangesFileParts over.old bmap.old.tree over.new }
{
    let before = core_of(over, bmap, number, uuid);
    bmap.unmap(over, off, len);
    over.has_blocks();
    write_core(over, bmap, number, uuid, &before);
}
