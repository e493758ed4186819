//! Who owns the blocks of a group: which file has a block, and at which offset, and which blocks are staged.
#![tactic(auto)]

mod changes;
#[cfg(test)]
mod checked;
mod laws;
mod lookups;
mod pairs;
mod rmap;
#[cfg(test)]
mod tests;

pub use laws::records_follow_from_pairs;
pub use rmap::Rmap;
