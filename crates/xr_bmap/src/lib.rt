//! A file: its core and the tree of its extents, seen as a map from offsets to addresses.
#![tactic(auto)]

mod bmap;
mod changes;
mod file;
mod laws;
mod lookups;
mod open;
mod parts;
mod piece;
#[cfg(test)]
mod tests;

pub use file::File;
pub use laws::{
    extents_follow_from_map, fresh_files_are_empty, mapped_blocks_are_data,
    pieces_say_what_is_there, refused_are_no_files,
};
pub use piece::Piece;
pub use xr_open::OpenFault;
