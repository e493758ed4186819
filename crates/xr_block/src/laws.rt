//! What a change of one tree means for the others in the same blocks, and for a later change.
ghost use Rattle.xr_block.specs.Frame.{FollowEachOther, OthersStay};
ghost use Rattle.xr_block.specs.SharedPool.{ChangesBlockZero, HoldInAnyOrder, PartsAreBeside, StaysBesideBlockZero, StaysParted};
ghost use Rattle.xr_block.specs.SharedPool.{StaysPartedBesideBlockZero, WidenToOthers};

use xr_kinds::Record;

/// A tree stays as it is, with its records and its blocks, where another tree is changed that shares no block with it.
pub fn other_trees_stay<R: Record>()
    ensures { OthersStay R.form }
{}

/// Two changes of a tree, one after the other, are one change of it.
pub fn changes_follow()
    ensures { FollowEachOther }
{}

/// A change of a tree is a change of it together with others that it leaves alone, in whatever order their blocks are
/// listed.
pub fn changes_widen()
    ensures others { WidenToOthers }
    ensures order { HoldInAnyOrder }
{}

/// Block 0 is of no tree: whatever is written to it, each tree stays as it is.
pub fn block_zero_is_of_no_tree<R: Record>()
    ensures frame { ChangesBlockZero }
    ensures trees { StaysBesideBlockZero R.form }
{}

/// A pool that is parted among trees stays so where one of them is changed, and where block 0 is written.
pub fn pool_stays_parted()
    ensures beside { PartsAreBeside }
    ensures change { StaysParted }
    ensures block_zero { StaysPartedBesideBlockZero }
{}
