//! The records of the five kinds of trees: what one is as bytes, in what order they stand, and which may stand in one tree.
#![tactic(auto)]

mod free_runs;
mod mapping;
mod record;
mod reference;
mod reverse;
mod span;
#[cfg(test)]
mod tests;

pub use free_runs::{ByBlock, BySize};
pub use mapping::Mapping;
pub use record::Record;
pub use reference::{Reference, STAGED};
pub use reverse::Reverse;
pub use span::Span;
