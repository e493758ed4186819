//! How large the trees of each kind get, by the rules on their records, and that their pools always have room for an
//! insertion.
ghost use Rattle.xr_kinds.specs.FreeRuns.{block_form, size_form};
ghost use Rattle.xr_kinds.specs.Mapping.{mapping_form};
ghost use Rattle.xr_kinds.specs.Reference.{reference_form};
ghost use Rattle.xr_kinds.specs.Reverse.{reverse_form};
ghost use Rattle.xr_tree.specs.Bounds.{AreSmallTrees};
ghost use Rattle.xr_tree.specs.Room.{FilesHaveRoom, GroupsHaveRoom};
ghost use Rattle.xr_tree.specs.RoomLaws.{files_have_room, groups_have_room};
ghost use Rattle.xr_tree.specs.SmallTreeLaws.{by_block_trees, by_size_trees, mapping_trees, reference_trees, reverse_trees};

/// A group's tree of free runs by block, of which there are at most 768 that don't touch, has at most 4 blocks and one level
/// of nodes, and an insertion takes at most 2 blocks.
pub fn by_block_tree_is_small()
    ensures { AreSmallTrees block_form 4 1 2 }
{}

/// The same of its tree of free runs by size.
pub fn by_size_tree_is_small()
    ensures { AreSmallTrees size_form 4 1 2 }
{}

/// A group's tree of owners, which has at most 34,304 records, has at most 420 blocks and two levels of nodes, and an
/// insertion takes at most 3 blocks.
pub fn reverse_tree_is_small()
    ensures { AreSmallTrees reverse_form 420 2 3 }
{}

/// A group's tree of counts, of which there is at most one for each data block, has at most 10 blocks and one level of
/// nodes, and an insertion takes at most 2 blocks.
pub fn reference_tree_is_small()
    ensures { AreSmallTrees reference_form 10 1 2 }
{}

/// A file's tree of extents, of which there is at most one for each offset, has at most 5 blocks and one level of nodes, and
/// an insertion takes at most 2 blocks.
pub fn mapping_tree_is_small()
    ensures { AreSmallTrees mapping_form 5 1 2 }
{}

/// Where the four trees of a group have all blocks of its pool that aren't free, 73 blocks at least are free, so that there is
/// room for an insertion into each of the trees.
pub fn group_trees_leave_room()
    ensures { GroupsHaveRoom }
{}

/// Where the tree of a file has all blocks of its pool that aren't free, 2 blocks at least are free, so that there is room
/// for an insertion.
pub fn file_tree_leaves_room()
    ensures { FilesHaveRoom }
{}
