//! How many own each block of a group, and which blocks are staged, in one tree of records.
#![tactic(auto)]

mod changes;
#[cfg(test)]
mod checked;
mod laws;
mod lookups;
mod refcount;
#[cfg(test)]
mod tests;

pub use laws::{counts_are_of_records, counts_determine_records};
pub use refcount::{CountedSpan, Lowered, Refcount};
