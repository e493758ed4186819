//! What is found where the trees of the groups are held against the file maps.

use xr_base::{Addr, GroupNo};

/// One of the four trees of a group, in the order in which they are judged.
#[derive(Clone, Copy, Debug, PartialEq, Eq)]
pub enum TreeName {
    /// The records of owners.
    Owners,
    /// The records of counts, staged ones among them.
    Shared,
    /// The free runs by block.
    Free,
    /// The free runs by length.
    Sizes,
}

/// Whether the trees of all groups hold the records that are defined from the file maps.
#[derive(Clone, Copy, Debug, PartialEq, Eq)]
pub enum Verdict {
    Sound,
    /// The first group with a tree that doesn't, the first such tree of it, and the start of the lesser record at the first place
    /// where the two lists differ.
    Differs {
        tree: TreeName,
        group: GroupNo,
        key: Addr,
    },
}
