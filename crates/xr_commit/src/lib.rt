//! The log over a disk. So far: the live stream, which are the records from the head's tail to the head and what they say,
//! the items of its transactions, and which intents are pending.
#![tactic(auto)]

mod bodies;
mod chain;
mod check_items;
mod fault;
mod head;
mod homes;
mod items;
mod laws;
mod layout;
mod live_stream;
mod log_ends;
mod opening;
mod operations;
mod pending;
#[cfg(test)]
mod pending_tests;
mod read_live;
mod reserve;
#[cfg(test)]
mod tests;

pub use fault::ScanFault;
pub use items::{items_of, items_of_each};
pub use laws::images_have_one_live_stream;
pub use layout::{LOG_BYTES, layout_is_fixed};
pub use live_stream::{Live, live_in};
pub use log_ends::{LogEnd, log_end};
pub use pending::{Pending, pending_works};
pub use read_live::{live, read_log, read_uuid};
