//! What marks say of the blocks that were marked, when a root is a tree by itself, and what a pool's blocks are that are kept.
ghost use Rattle.xr_kinds.specs.Mapping.{mapping_form};
ghost use Rattle.xr_open.specs.LeafTrees.{FreshRootsAreLeaves, LeafRootsAreTrees};
ghost use Rattle.xr_open.specs.Marked.{MarksAddUp, MarksAreUsed, ZerosMarkNone};
ghost use Rattle.xr_open.specs.PoolState.{EvenMapsKeepBlockZero, FirstBlockIsFront, MarkedAreBelow, PartsOfFrontStay, RootsAreUsed, UnmarkedAreKept};

/// Marks that are added tree by tree are those of all their blocks, and tell whether these are all of a pool that is used.
pub fn marks_are_of_blocks()
    ensures none { ZerosMarkNone }
    ensures more { MarksAddUp }
    ensures used { MarksAreUsed }
{}

/// A leaf of extents that is a root is a tree of these. The one block of a fresh file's tree is such a leaf, with no extents.
pub fn leaves_are_trees()
    ensures trees { LeafRootsAreTrees mapping_form }
    ensures fresh { FreshRootsAreLeaves }
{}

/// Blocks that aren't marked as changed are as they were kept, and those that are marked are blocks of the pool.
pub fn unmarked_are_kept()
    ensures kept { UnmarkedAreKept }
    ensures below { MarkedAreBelow }
{}

/// The first block is the front of the bytes, a map that is even there leaves that block out, and a root isn't free.
pub fn fronts_are_read()
    ensures first { FirstBlockIsFront }
    ensures part { PartsOfFrontStay }
    ensures own_block { EvenMapsKeepBlockZero }
    ensures root { RootsAreUsed mapping_form }
{}
