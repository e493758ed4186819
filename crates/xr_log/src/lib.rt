//! The log over a disk: transactions are gathered in memory, and written as records, one after another.
#![tactic(auto)]

mod committing;
mod entering;
mod fault;
mod forcing;
mod held;
mod laws;
mod laying;
mod layout;
mod log;
mod next_head;
mod packing;
mod pushing;
mod resume;
mod slots;
mod transaction;
mod writing;

pub use fault::LogFault;
pub use held::{Held, Log};
pub use laws::the_one_state_is_left;
pub use layout::room_is_fixed;
