//! The free blocks of a group, in two trees: by their places, and by the lengths of their runs.
#![tactic(auto)]

mod changes;
mod laws;
mod pairing;
mod space;
#[cfg(test)]
mod tests;

pub use laws::free_blocks_stay;
pub use space::Space;
