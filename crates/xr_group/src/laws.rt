//! What the refusal of some blocks means, what a fresh group holds, and what the records of a group tell.
ghost use Rattle.xr_group.specs.FreshGroup.{FreshGroupsAreFree};
ghost use Rattle.xr_group.specs.OpenGroup.{RefusedAreNoGroups};
ghost use Rattle.xr_group.specs.RecordLists.{CountsFollowFromMaps, FreeFollowFromMaps, OwnersFollowFromMaps};
ghost use Rattle.xr_group.specs.ToldRecords.{GroupsTellRecords, OwnersAreNoMoreThanPairs, SizesAreFree};

/// Blocks that are refused as a group, and not for want of memory, are none: `open` answers Ok exactly for those that are one.
pub fn refused_are_no_groups()
    ensures { RefusedAreNoGroups }
{}

/// The blocks of each group of a fresh image are a group whose data blocks are all free: none has an owner or is staged.
pub fn fresh_groups_are_free()
    ensures { FreshGroupsAreFree }
{}

/// The records of owners of a group, without those of staged blocks, are those that are defined from the file maps, where its
/// pairs with files are those of the maps. They are all records where no block is staged.
pub fn owners_follow_from_maps()
    ensures { OwnersFollowFromMaps }
{}

/// The records of counts of a group, without those of staged blocks, are those that are defined from the file maps, where its
/// blocks have as many owners as the maps say.
pub fn counts_follow_from_maps()
    ensures { CountsFollowFromMaps }
{}

/// The free runs of a group are those that are defined from the file maps, where its free blocks are those that no file maps.
pub fn free_follow_from_maps()
    ensures { FreeFollowFromMaps }
{}

/// The records of a group tell what its sets hold, and those of each tree rise in its order. Where both trees of free runs hold the
/// same runs, so do their lists, and there are no more records of owners than pairs.
pub fn groups_tell_records()
    ensures told { GroupsTellRecords }
    ensures sizes { SizesAreFree }
    ensures few { OwnersAreNoMoreThanPairs }
{}
