//! The words that every layer speaks: block addresses, files, groups, runs, and how calls fail.
#![tactic(auto)]

mod address;
mod checksum;
mod failure;
mod fields;
pub mod geometry;
pub mod layout;
mod tables;

pub use address::{Addr, FileNo, GroupNo, Run, good_run, group_of, is_data};
pub use checksum::{crc32c, crc32c_without};
pub use failure::{Fault, NoMemory};
pub use fields::{be16_at, be32_at, be64_at, le16_at, le32_at, le64_at};
