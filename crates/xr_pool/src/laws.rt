//! What is so of every overlay: which of its blocks are told as changed, and how many of its pool are free.
ghost use Rattle.xr_pool.specs.Overlay.{ChangedAreMarked};
ghost use Rattle.xr_pool.specs.Room.{LeavesRoom};
ghost use Rattle.xr_pool.specs.RoomLaws.{leaves_room};

/// The changed blocks of an overlay are those that are marked.
pub fn changed_are_marked()
    ensures { ChangedAreMarked }
{}

/// Each block of a pool, but block 0, is used or free. So where some blocks hold all that are used, there are as many free
/// ones at least as the others.
pub fn used_blocks_leave_room()
    ensures { LeavesRoom }
{}
