//! The records of the log as bytes, and the stream of operations that their bodies hold.
#![tactic(auto)]

mod bytes;
mod entry;
mod fault;
mod head;
mod header;
mod laws;
pub mod layout;
mod operation;
mod packer;
mod reader;
mod reader_fields;
mod rules;
mod sealing;
#[cfg(test)]
mod tests;
mod unsealing;
mod words;

pub use entry::{Entry, Regions};
pub use fault::FeedFault;
pub use head::{Head, Lsn, NO_RECORD_BEFORE, lsn_order};
pub use laws::{operation_limits, streams_are_read_in_one_way};
pub use packer::{Packer, pushes_are_operations};
pub use reader::Reader;
pub use rules::OpKind;
pub use sealing::seal;
pub use unsealing::{SealFault, unseal};
