//! The printed texts of file maps, of the trees of groups, and of logs.
#![tactic(auto)]

mod log_text;
mod map_text;
mod record_text;
mod tree_text;

pub use log_text::{push_entries, push_heads, push_pending};
pub use map_text::{maps_text, push_files};
pub use tree_text::{PrintedTree, push_trees};
pub use xr_check::{CountTree, FreeTree, OwnerTree};
