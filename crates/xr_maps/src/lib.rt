//! The plain file maps: what each mapping step does to them, and the records that are defined from them.
#![tactic(auto)]

mod counts;
mod exchange;
mod file_maps;
mod laws;
mod owners;
mod records;
mod steps;
mod tables;

pub use file_maps::Maps;
pub use laws::{records_are_determined, steps_are_balances};
pub use records::{Counted, Extent, Rev};
pub use steps::{Step, fits};
