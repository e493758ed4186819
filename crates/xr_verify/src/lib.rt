//! Whether the blocks below a root are a tree.
#![tactic(auto)]

mod enter;
mod ledger;
mod ledger_last;
mod ledger_reference;
mod ledger_reverse;
mod ledger_size;
mod links;
mod passed;
mod run_bits;
mod visit;

pub use ledger::{Kept, Ledger};
pub use visit::verify;
