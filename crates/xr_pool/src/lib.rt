//! The pool of blocks that trees stand in: the blocks of a group or a file in two images, which of them are free, and which
//! were changed.
#![tactic(auto)]

pub mod bits;
mod laws;
mod marks;
mod overlay;
#[cfg(test)]
mod tests;

pub use laws::{changed_are_marked, used_blocks_leave_room};
pub use overlay::{Block, Overlay};
