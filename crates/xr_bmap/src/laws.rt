//! What is so of files by their blocks alone: which extents they have, what they map, and which blocks are none.
ghost use Rattle.xr_bmap.specs.ExtentLists.{ExtentsFollowFromMap};
ghost use Rattle.xr_bmap.specs.FreshFile.{FreshFilesAreEmpty};
ghost use Rattle.xr_bmap.specs.MappedBlocks.{MappedBlocksAreData};
ghost use Rattle.xr_bmap.specs.OpenFile.{RefusedAreNoFiles};
ghost use Rattle.xr_bmap.specs.Pieces.{PiecesSayWhatIsThere};

/// The extents of a file are the longest runs of its map, in their order.
pub fn extents_follow_from_map()
    ensures { ExtentsFollowFromMap }
{}

/// What a file maps at an offset is a data block, and it maps nothing past the last offset.
pub fn mapped_blocks_are_data()
    ensures { MappedBlocksAreData }
{}

/// Blocks that are refused as a file, and not for want of memory, are none: `open` answers Ok exactly for those that are one.
pub fn refused_are_no_files()
    ensures { RefusedAreNoFiles }
{}

/// The blocks of each file of a fresh image are a file that maps nothing.
pub fn fresh_files_are_empty()
    ensures { FreshFilesAreEmpty }
{}

/// A piece that is a hole lets its offsets be mapped, and one that is mapped lets them be unmapped.
pub fn pieces_say_what_is_there()
    ensures { PiecesSayWhatIsThere }
{}
