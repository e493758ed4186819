//! One block of a tree: its layout, how it is read, checked, searched and edited. And what blocks are a tree, with the frame
//! that lets several trees share a pool. An edit leaves the checksum as it was, and a new block has none: `seal` writes it,
//! once all edits of a block are done.
#![tactic(auto)]

pub mod bound;
pub mod check;
mod edit_leaf;
mod edit_node;
pub mod fault;
mod header;
mod items;
pub mod key;
mod laws;
mod put_key;
pub mod read;
mod root;
pub mod search;
pub mod siblings;
#[cfg(test)]
mod tests;

pub use edit_leaf::{build_leaf, gather_leaf, insert_record, remove_record, replace_record};
pub use edit_node::{build_node, gather_node, insert_entry, remove_entry, set_key};
pub use header::{Header, put_number, seal, set_left};
pub use laws::{
    block_zero_is_of_no_tree, changes_follow, changes_widen, other_trees_stay, pool_stays_parted,
};
pub use put_key::{put_key_of_leaf, put_key_of_node};
pub use root::Root;
