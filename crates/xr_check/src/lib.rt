//! Whether the trees of the groups of an image hold the records that are defined from its file maps.
#![tactic(auto)]

mod fault;
mod judging;
mod laws;
mod loaded;
mod loading;
#[cfg(test)]
mod loading_tests;
#[cfg(test)]
mod tests;
mod trees;
mod verdict;
mod walk;

pub use fault::{Broken, CheckFault};
pub use judging::judge;
pub use laws::{images_have_one_verdict, load_refusals_are_exact, verdicts_are_determined};
pub use loaded::Loaded;
pub use loading::{check, load};
pub use trees::{CountTree, FreeTree, OwnerTree};
pub use verdict::{TreeName, Verdict};
pub use walk::GroupTree;
