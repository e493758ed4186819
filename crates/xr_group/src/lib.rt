//! A group: the blocks of its header and of four trees in one pool, seen as sets over the data blocks of the group: which are free,
//! who owns them, how many own each, and which are staged. A group is kept or dropped whole.
#![tactic(auto)]

mod changes;
#[cfg(test)]
mod checked;
mod counts;
mod group;
mod head;
mod laws;
mod next;
mod open;
mod runs;
mod space;
#[cfg(test)]
mod tests;
mod trees;

pub use group::Group;
pub use laws::{
    counts_follow_from_maps, free_follow_from_maps, fresh_groups_are_free, groups_tell_records,
    owners_follow_from_maps, refused_are_no_groups,
};
pub use xr_open::OpenFault;
