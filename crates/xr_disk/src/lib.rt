//! The outside: where bytes come from and where they go, in memory and over std's io.
#![tactic(auto)]

mod call;
mod disk;
mod file;
mod memory;
mod picks;
mod plan;
mod sink;
mod source;
mod standard;

pub use call::Call;
pub use disk::Disk;
pub use file::FileDisk;
pub use memory::MemDisk;
pub use picks::Pick;
pub use sink::{MemSink, Sink};
pub use source::{MemSource, Source};
pub use standard::{StdSink, StdSource};
