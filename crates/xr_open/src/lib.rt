//! What opening a file and opening a group share: why blocks are refused, whether some marks have all of a pool that is used, that
//! a root that is a leaf is a tree, and the value of a pool whose blocks are kept or dropped.
#![tactic(auto)]

mod fault;
mod laws;
mod marked;

pub use fault::OpenFault;
pub use laws::{fronts_are_read, leaves_are_trees, marks_are_of_blocks, unmarked_are_kept};
pub use marked::are_all_marked;
