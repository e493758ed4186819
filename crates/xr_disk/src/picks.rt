//! Crashes of a disk in memory, where what becomes of each write is picked by hand.
ghost use Rattle.std.specs.Prelude.{◌≡◌, ℕ, ◌+◌, ◌<◌, ◌≤◌, length, drop, get_or, vec_len, [], None};
ghost use Rattle.xr_disk.specs.declared.call.Call.{Call};
ghost use Rattle.xr_disk.specs.MemoryDisk.{BeginsWith, events_in};
ghost use Rattle.xr_disk.specs.Picks.{AreCovered, FitsIn, MayLeaveImage, laid, picked, with_pick};

use crate::MemDisk;
use crate::call::Call;
use crate::memory::overlay;
use xr_base::geometry::SECTOR_BYTES;

/// What a crash makes of a write that no sync has covered.
#[derive(Clone, Copy, Debug, PartialEq, Eq)]
pub enum Pick {
    /// It is wholly done.
    New,
    /// The first half of its sectors is, rounded down.
    Half,
    /// It isn't done at all.
    Old,
}

impl MemDisk {
    /// The disk after a crash now, at rest, with all the room that this one has. Picks go to the writes since the last
    /// sync, the oldest first, the one with which the power went among them. A write without a pick is wholly done.
    pub fn after_crash(self, picks: &[Pick]) -> MemDisk
        ensures image { result.image.items ≡ picked self.first.items (events_in self) picks.now }
        ensures left { MayLeaveImage self.first.items (events_in self) result.image.items }
        ensures begins { BeginsWith result.image.items [] None self.room_calls self.room_bytes result }
    {
        let MemDisk {
            mut image,
            mut synced,
            mut first,
            mut done,
            mut bytes,
            mut fails,
            room_calls,
            room_bytes,
            ..
        } = self;
        let covered = calls_covered(&done);
        lay_writes(&mut synced, &done, &bytes, covered, picks);
        image.copy_from_slice(&synced);
        first.copy_from_slice(&synced);
        done.clear();
        bytes.clear();
        fails.clear();
        MemDisk {
            image,
            synced,
            first,
            done,
            bytes,
            fails,
            stop: None,
            calls: 0,
            faults: 0,
            room_calls,
            room_bytes,
        }
    }
}

/// How many calls were made up to the last sync, with it.
fn calls_covered(done: &[Call]) -> usize
    ensures { AreCovered done.now result }
{
    let mut covered = 0;
    for i in 0..done.len() {
        if let Call::Sync { .. } = done[i] {
            covered = i + 1;
        }
    }
    covered
}

/// Puts the bytes of the calls from number `covered` on into the image, as they are picked.
fn lay_writes(image: &mut Vec<u8>, done: &[Call], bytes: &[u8], covered: usize, picks: &[Pick])
    requires covered { covered ≤ length done.now }
    requires fits { (i : ℕ) (call : Call) → i < length done.now → FitsIn (length bytes.now) (vec_len image.old) (get_or done.now i call) }
    ensures laid { image.new.items ≡ laid bytes.now picks.now (drop covered done.now) 0 image.old.items }
    ensures long { vec_len image.new ≡ vec_len image.old }
{
    let mut writes = 0;
    for i in covered..done.len() {
        if let Call::Write { at, from, len, .. } = done[i] {
            let pick = picks.get(writes).copied().unwrap_or(Pick::New);
            let from = from as usize;
            let at = SECTOR_BYTES * at as usize;
            lay_pick(image, at, &bytes[from..from + len as usize], pick);
            writes += 1;
        }
    }
}

/// Puts of some bytes what is picked into their place.
fn lay_pick(image: &mut Vec<u8>, at: usize, bytes: &[u8], pick: Pick)
    requires { at + length bytes.now ≤ vec_len image.old }
    ensures { image.new.items ≡ with_pick pick at bytes.now image.old.items }
{
    match pick {
        Pick::New => overlay(image, at, bytes),
        Pick::Half => {
            let half = bytes.len() / SECTOR_BYTES / 2;
            overlay(image, at, &bytes[..SECTOR_BYTES * half]);
        }
        Pick::Old => {}
    }
}
