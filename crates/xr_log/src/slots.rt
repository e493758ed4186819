//! The slots of pending works: each work has one of its own, by which callers name it.
ghost use Rattle.std.specs.Prelude.{◌≡◌, ◌==◌, ◌<◌, ◌≤◌, ◌+◌, ◌^◌, ◌++◌, ◌∷◌, [], not, false, length, take, vec_capacity, vec_len};
ghost use Rattle.std.specs.List.{filter, list_any};
ghost use Rattle.xr_scan.specs.declared.layout.TheConstants.{MOST_PENDING};
ghost use Rattle.xr_items.specs.declared.layout.TheConstants.{TRANS_WORKS};
ghost use Rattle.xr_log.specs.PlacedWorks.{entries_of};
ghost use Rattle.xr_log.specs.Slots.{AreApartSlots, slots_in};

use crate::held::Slotted;
use xr_items::layout::TRANS_WORKS;
use xr_items::{Placed, Work};

/// Whether a work of the table has the slot.
fn is_taken(table: &[Slotted], slot: u8) -> bool
    ensures { result ≡ list_any (λ s. s.slot == slot) table.now }
{
    table.iter().any(|entry| entry.slot == slot)
}

/// The least slot that no work of the table has.
fn free_slot(table: &[Slotted]) -> u8
    requires { length table.now < MOST_PENDING }
    ensures free { list_any (λ s. s.slot == result) table.now ≡ false }
    ensures within { result < MOST_PENDING }
{
    for slot in 0..128 {
        if !is_taken(table, slot) {
            return slot;
        }
    }
    unreachable!()
}

/// Whether the slot is one of these.
fn is_among(slots: &[u8], slot: u8) -> bool
    ensures { result ≡ list_any (λ other. other == slot) slots.now }
{
    slots.contains(&slot)
}

/// Takes the works in these slots out of the table.
pub(crate) fn end_works(table: &mut Vec<Slotted>, done: &[u8])
    ensures table { table.new.items ≡ filter (λ s. not (list_any (λ slot. slot == s.slot) done.now)) table.old.items }
    ensures fewer { vec_len table.new ≤ vec_len table.old }
    ensures capacity { vec_capacity table.new ≡ vec_capacity table.old }
{
    table.retain(|entry| !is_among(done, entry.slot));
}

/// Puts a new work with this id into the least slot that is free, and gives that.
fn place_work(table: &mut Vec<Slotted>, id: u64, work: Work) -> u8
    requires few { vec_len table.old < MOST_PENDING }
    requires fits { MOST_PENDING ≤ vec_capacity table.old }
    ensures table { table.new.items ≡ table.old.items ++ record { id = id; slot = result; work = work } ∷ [] }
    ensures free { list_any (λ s. s.slot == result) table.old.items ≡ false }
    ensures len { vec_len table.new ≡ vec_len table.old + 1 }
    ensures fits { vec_capacity table.old ≤ vec_capacity table.new }
{
    let slot = free_slot(table);
    table.push(Slotted { id, slot, work }).unwrap();
    slot
}

/// Puts new works into the table, with ids from one on, and gives their slots.
pub(crate) fn place_works(table: &mut Vec<Slotted>, works: &[Work], next: u64) -> Placed
    requires few { vec_len table.old + length works.now ≤ MOST_PENDING }
    requires fits { MOST_PENDING ≤ vec_capacity table.old }
    requires most { length works.now ≤ TRANS_WORKS }
    requires ids { next + length works.now < 2 ^ 64 }
    ensures count { result.count ≡ length works.now }
    ensures table { table.new.items ≡ table.old.items ++ entries_of next (take result.count result.slots) works.now }
    ensures apart { AreApartSlots (slots_in table.old.items) → AreApartSlots (slots_in table.new.items) }
    ensures len { vec_len table.new ≡ vec_len table.old + length works.now }
    ensures fits { vec_capacity table.old ≤ vec_capacity table.new }
{
    let mut slots = [0; TRANS_WORKS];
    for i in 0..works.len() {
        slots[i] = place_work(table, next + i as u64, works[i]);
    }
    Placed {
        slots,
        count: works.len() as u8,
    }
}
