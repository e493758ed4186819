//! Trees over blocks: whether blocks are one, and what it holds.
#![tactic(auto)]

mod bounds;
#[cfg(test)]
mod change_tests;
#[cfg(test)]
mod growth;
#[cfg(test)]
mod tests;
mod tree;

pub use bounds::{
    by_block_tree_is_small, by_size_tree_is_small, file_tree_leaves_room, group_trees_leave_room,
    mapping_tree_is_small, reference_tree_is_small, reverse_tree_is_small,
};
pub use tree::Tree;
pub use xr_block::fault::{TreeFault, TreeKind};
pub use xr_block::{changes_follow, other_trees_stay};
pub use xr_kinds::{ByBlock, BySize, Mapping, Record, Reference, Reverse};
pub use xr_lookup::Reach;
pub use xr_pool::{Overlay, used_blocks_leave_room};
pub use xr_verify::Kept;
