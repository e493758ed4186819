//! What a change elsewhere in the pool means for a group's free blocks.
ghost use Rattle.xr_space.specs.SpaceFrame.{SpaceStaysBeside};

/// The free blocks of a group stay as they are, and so do their trees, where blocks are changed that these don't have.
pub fn free_blocks_stay()
    ensures { SpaceStaysBeside }
{}
