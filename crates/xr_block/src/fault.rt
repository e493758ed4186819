//! Why the blocks below a root are no tree, and which block shows it.
use thiserror::Error;

/// What is wrong with a block, in the order in which a block is tested. See "XFS Algorithms and Data Structures, 3rd
/// edition, Short Format B+tree Blocks" and "Long Format B+tree Blocks".
#[derive(Clone, Copy, Debug, PartialEq, Eq)]
pub enum TreeKind {
    /// The block names a child that isn't in the pool. For a root it is the block that names the root.
    Range,
    /// The block is free, or belongs to a tree already.
    Reuse,
    Magic,
    Checksum,
    /// The level, the log sequence number, the identifier, the owner or the block's own number.
    Header,
    /// There are too few items, or too many.
    Count,
    /// A record isn't valid, or a byte after the items isn't zero.
    Field,
    /// A record isn't greater than the one before it.
    Order,
    /// A record can't stand in one tree with one before it.
    Merge,
    /// The parent's key of this block isn't the one that it has.
    Key,
    /// The block isn't linked to its siblings in its level.
    Sibling,
    /// With this leaf there are too many records in the tree.
    Bound,
}

/// The image block that shows that some blocks are no tree, and what is wrong with it.
#[derive(Clone, Copy, Debug, PartialEq, Eq, Error)]
#[error("block {block} is no block of its tree: {kind:?}")]
pub struct TreeFault {
    pub block: u32,
    pub kind: TreeKind,
}
