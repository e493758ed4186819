//! Changes of trees: a record more, one less, or one in the place of another.
#![tactic(auto)]

mod draft;
mod insert;
mod laws;
mod path;
mod rebalance;
mod remove;
mod replace;
mod root;
mod write;

pub use insert::insert_into_tree;
pub use laws::{changes_are_steps, records_change_as_sets, records_keep_rules, tree_steps_follow};
pub use remove::remove_from_tree;
pub use replace::replace_in_tree;
