//! What the trees hold and what the log still owes, as values alone: in each state that a crash may leave both together are the
//! maps, and each event keeps that.
#![tactic(auto)]

mod laws;

pub use laws::{
    chains_move_on, exchanges_are_balances, few_blocks_wait, first_commits_keep_the_balance,
    first_works_are_ready, fresh_image_is_settled, idle_lanes_are_apart, maps_are_determined,
    pieces_are_determined, rolls_come_to_an_end, rolls_keep_the_balance, rows_are_chains,
    stagings_keep_the_balance,
};
