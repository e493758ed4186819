//! Entering a transaction into what is held in memory: its blocks, its works in place of those that are done, and its number.
ghost use Rattle.std.specs.Prelude.{◌≡◌, ◌+◌, ◌<◌, ◌≤◌, ◌^◌, length, take, vec_capacity, vec_len};
ghost use Rattle.xr_items.specs.declared.layout.TheConstants.{IDS, TRANS_WORKS};
ghost use Rattle.xr_scan.specs.declared.layout.TheConstants.{MOST_PENDING};
ghost use Rattle.xr_scan.specs.Replaying.{AreCopies};
ghost use Rattle.xr_log.specs.Calls.{MayCommit};
ghost use Rattle.xr_log.specs.Entering.{Enters, HasSlots, Lays, MayLay, table_after};
ghost use Rattle.xr_log.specs.Held.{placings_of};
ghost use Rattle.xr_log.specs.Slots.{AreApartSlots, slots_in};

use crate::held::{Held, Slotted};
use crate::slots::{end_works, place_works};
use xr_items::{Logged, Placed, Trans};
use xr_scan::lay_block;

/// Lays the images of blocks over their copies.
fn lay_blocks(changed: &[Logged], copies: &mut [u8], dirty: &mut [bool])
    requires may { MayLay changed.now }
    requires copies { AreCopies copies.old dirty.old }
    ensures { Lays changed.now copies.old dirty.old copies.new dirty.new }
{
    for logged in changed {
        lay_block(&logged.image, logged.block, copies, dirty);
    }
}

/// Puts the new works of a transaction into the table, in place of those that are done, and gives their slots.
fn enter_works(table: &mut Vec<Slotted>, trans: &Trans, next: u64) -> Placed
    requires may { HasSlots table.old.items trans.now }
    requires fits { MOST_PENDING ≤ vec_capacity table.old }
    requires ids { next + length trans.now.works ≤ IDS }
    ensures count { result.count ≡ length trans.now.works }
    ensures long { length (take result.count result.slots) ≡ length trans.now.works }
    ensures table { table.new.items ≡ table_after trans.now table.old.items next result }
    ensures apart { AreApartSlots (slots_in table.old.items) → AreApartSlots (slots_in table.new.items) }
    ensures few { vec_len table.new ≤ MOST_PENDING }
    ensures fits { MOST_PENDING ≤ vec_capacity table.new }
{
    end_works(table, trans.done());
    place_works(table, trans.works(), next)
}

/// Enters a transaction with this number, all of which was pushed, and gives the slots of its works.
pub(crate) fn enter(held: &mut Held, trans: &Trans, tid: u32) -> Placed
    requires may { MayCommit held.old.uuid (placings_of held.old) trans.now }
    requires ids { held.old.next + length trans.now.works ≤ IDS }
    ensures { Enters trans.now held.old held.new result }
{
    let Held {
        blocks,
        dirty,
        table,
        next,
        ..
    } = held;
    lay_blocks(trans.blocks(), blocks, dirty);
    let placed = enter_works(table, trans, *next);
    *next += trans.works().len() as u64;
    held.tid = tid;
    placed
}
