//! The commands of the program: what they read, what they do, and what they print.
#![tactic(auto)]

mod answer_text;
mod check;
mod command_line;
mod expect;
mod failure;
mod fields;
mod make_fresh;
mod program;
mod script;
mod show;
mod show_log;
mod streams;

pub use make_fresh::mkfs;
pub use program::{Ended, limits_are_fixed, without_memory, xreflink};
pub use script::{MAX_BYTES, MAX_LINES, ScriptFault, parse_steps};
