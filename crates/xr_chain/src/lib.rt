//! Chains: each event over real files and groups, one work at a time. An event changes what is committed as the balance says, and
//! puts just what it changes, asks for and ends into its transaction. No call takes memory.
#![tactic(auto)]

mod begin;
mod chain;
mod changed;
mod counted;
mod exchange;
mod first;
mod group_work;
mod laws;
mod parts;
mod ready;
mod roll_group;
mod roll_map;
mod roll_swap;
mod staging;
#[cfg(test)]
mod tests;
#[cfg(test)]
mod worked;
mod works;

pub use chain::{CHAIN_WORKS, Chain, Need};
pub use laws::{
    chains_have_room, changes_are_logged, committed_is_told, first_rows_are_given,
    owner_records_are_few, readiness_is_told,
};
pub use staging::Staged;
