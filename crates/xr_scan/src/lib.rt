//! What an image holds: the blocks that a log keeps and the pending works, by the image's live stream.
#![tactic(auto)]

mod blocks;
mod homes;
mod laws;
pub mod layout;
mod next_id;
mod replay;
mod scanned;
mod scanning;
#[cfg(test)]
mod tests;

pub use laws::{
    clean_images_hold_their_blocks, fresh_images_hold_their_blocks, images_hold_one_state,
    live_records_are_placed, live_streams_log_items, refusals_are_exact, replays_go_on,
    scans_tell_states, whole_writes_make_no_false_record,
};
pub use layout::layout_is_fixed;
pub use replay::lay_block;
pub use scanned::Scanned;
pub use scanning::scan;
