//! The items of the log's transactions: what is to be done, what was done, and which blocks a transaction changes. Each
//! item has exactly one form as bytes.
#![tactic(auto)]

mod bodies;
mod fields;
mod item;
mod laws;
pub mod layout;
mod reading;
mod rules;
#[cfg(test)]
mod tests;
mod trans;
mod work;
mod writing;

pub use item::{DoneOf, Item, ItemFault, follows};
pub use laws::item_limits;
pub use reading::take;
pub use trans::{Logged, Placed, Trans};
pub use work::{CountKind, MapKind, OwnKind, Work};
pub use writing::put;
