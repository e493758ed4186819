//! The header of a group, as its trees and its pool are now.
ghost use Rattle.std.specs.Prelude.{◌≡◌, ◌<◌, length};
ghost use Rattle.xr_base.specs.declared.geometry.TheConstants.{GROUPS};
ghost use Rattle.xr_group.specs.Parts.{HasGroup, HasOldHead, WritesHead, head_of};
ghost use Rattle.xr_headers.specs.Headers.{AreWords};
ghost use Rattle.xr_headers.specs.declared.layout.TheConstants.{FREE_MAP_BYTES};

use crate::trees::Trees;
use uuid::Uuid;
use xr_base::GroupNo;
use xr_headers::layout::FREE_MAP_BYTES;
use xr_headers::{GroupHead, put_group};
use xr_pool::Overlay;

/// The header of some trees and their pool.
pub(crate) fn head_of(over: &Overlay, trees: &Trees) -> GroupHead
    requires map { length over.now.free ≡ FREE_MAP_BYTES }
    requires known { over.now.owner < GROUPS }
    ensures is { result ≡ head_of over.now trees.now }
    ensures levels { AreWords result.levels }
{
    let mut free = [0; FREE_MAP_BYTES];
    free.copy_from_slice(over.free());
    let Trees {
        space,
        rmap,
        counts,
    } = trees;
    GroupHead {
        group: GroupNo(over.owner() as u32),
        uuid: Uuid::from_bytes(*over.uuid()),
        roots: [
            space.by_block.root(),
            space.by_size.root(),
            rmap.tree.root(),
            counts.tree.root(),
        ],
        levels: [
            space.by_block.level(),
            space.by_size.level(),
            rmap.tree.level(),
            counts.tree.level(),
        ],
        free,
    }
}

/// Writes the header where it isn't the one that its block holds.
pub(crate) fn write_head(over: &mut Overlay, trees: &Trees, before: &GroupHead)
    requires group { HasOldHead over.old trees.now before.now }
    ensures group { HasGroup over.new trees.now }
    ensures written { WritesHead over.old over.new trees.now }
    ensures same { head_of over.old trees.now ≡ before.now → over.new ≡ over.old }
{
    let head = head_of(over, trees);
    if head != *before {
        put_group(&head, over.block_mut(0));
    }
}
