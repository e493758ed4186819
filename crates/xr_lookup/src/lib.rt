//! Lookups in trees, each on one path from the root down to the leaves, and how many records a tree has.
#![tactic(auto)]

mod counting;
mod lookup;
mod reach;
mod steps;
#[cfg(test)]
mod tests;

pub use counting::count;
pub use lookup::{at_least, at_most, overlap};
pub use reach::Reach;
