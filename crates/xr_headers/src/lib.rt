//! The headers of an image, each exactly as long as the block that it stands in, and the blocks of a fresh image.
#![tactic(auto)]

mod codec;
mod file_core;
mod fresh;
mod fresh_leaves;
mod fresh_log;
mod group_head;
mod laws;
pub mod layout;
mod superblock;
#[cfg(test)]
mod tests;

pub use codec::HeaderFault;
pub use file_core::{Core, put_core, take_core, take_core_bytes};
pub use fresh::fresh_block;
pub use group_head::{GroupHead, put_group, take_group};
pub use laws::header_limits;
pub use superblock::{Super, put_super, take_super};
