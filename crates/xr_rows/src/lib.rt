//! Tests that cross crates: worked rows over the objects in memory.
#![tactic(auto)]

#[cfg(test)]
mod base;
#[cfg(test)]
mod check;
#[cfg(test)]
mod expect;
#[cfg(test)]
mod image;
#[cfg(test)]
mod log;
#[cfg(test)]
mod tests;
#[cfg(test)]
mod trees;
