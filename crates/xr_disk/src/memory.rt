//! A disk in memory. It keeps its calls, so that a crash may leave all that the rules of a disk allow.
ghost use Rattle.std.specs.Prelude.{◌≡◌, ◌+◌, ◌*◌, ◌≤◌, ◌<◌, ◌^◌, ◌↔◌, [], ◌∷◌, ◌++◌, length, vec_len, vec_capacity};
ghost use Rattle.std.specs.Prelude.{IsTrue, IsErr, OnOk, OnErr, IfOk};
ghost use Rattle.std.specs.List.{list_all};
ghost use Rattle.xr_base.specs.Image.{part, overlaid};
ghost use Rattle.xr_base.specs.declared.geometry.TheConstants.{SECTOR_BYTES, SECTORS};
ghost use Rattle.xr_disk.specs.Crash.{IsSectorRange};
ghost use Rattle.xr_disk.specs.Disk.{IsAtRest, IsSame, IsCall, MayTear, CoversNoMore, Overlays};
ghost use Rattle.xr_disk.specs.Events.{has_bytes, events_of, IsFate, IsHistory};
ghost use Rattle.xr_disk.specs.Plan.{next_count};
ghost use Rattle.xr_disk.specs.Seen.{WasSeen};
ghost use Rattle.xr_disk.specs.declared.call.Call.TheVariants.{Read, Write, Sync};
ghost use Rattle.xr_disk.specs.EventLaws.{seen_may_stay, left_now, since_now, since_narrows, left_sized};

use crate::Disk;
use crate::call::{Call, Fate, fate_of_next};
use std::alloc::Global;
use xr_base::geometry::SECTOR_BYTES;
use xr_base::{Fault, NoMemory};

/// A disk in memory, which fails where it is told to. The first call is number 1. A call that fails changes nothing but
/// the clock and the count of faults, save that the write with number `stop` is in flight from then on.
#[derive(Drop)]
pub struct MemDisk {
    /// What reads give.
    pub image: Vec<u8>,
    /// The image at the last sync that succeeded.
    pub synced: Vec<u8>,
    /// The image at the beginning.
    pub first: Vec<u8>,
    /// The calls that succeeded, and the write with number `stop`.
    pub done: Vec<Call>,
    /// The bytes of the writes in `done`, one after another.
    pub bytes: Vec<u8>,
    /// The numbers of calls that fail.
    pub fails: Vec<u64>,
    /// The number of the call from which on all fail.
    pub stop: Option<u64>,
    /// The clock.
    pub calls: u64,
    /// How many calls failed.
    pub faults: u64,
    /// How many calls can be kept.
    pub room_calls: usize,
    /// How many bytes of writes can be kept.
    pub room_bytes: usize,
    ghost long: { vec_len image ≡ SECTOR_BYTES * SECTORS },
    ghost synced_long: { vec_len synced ≡ SECTOR_BYTES * SECTORS },
    ghost calls_kept: { vec_len done ≤ room_calls },
    ghost calls_fit: { room_calls ≤ vec_capacity done },
    ghost bytes_kept: { vec_len bytes ≤ room_bytes },
    ghost bytes_fit: { room_bytes ≤ vec_capacity bytes },
    ghost within: { IsTrue (list_all (has_bytes (length bytes.items)) done.items) },
    ghost history: { IsHistory first.items image.items synced.items (events_of done.items bytes.items stop) calls },
}

impl MemDisk {
    ghost use Rattle.xr_disk.specs.MemoryDisk.{BeginsWith};

    /// A disk with this image, of `SECTORS` sectors, whose calls with the numbers in `fails` fail, and all from number
    /// `stop` on. The room that it needs is taken here: for so many calls and so many bytes of writes, and for two more
    /// copies of the image.
    pub fn new(
        alloc: Global,
        image: Vec<u8>,
        fails: Vec<u64>,
        stop: Option<u64>,
        room_calls: u32,
        room_bytes: u64,
    ) -> Result<MemDisk, NoMemory>
        requires { vec_len image ≡ SECTOR_BYTES * SECTORS }
        ensures { IfOk result (BeginsWith image.items fails.items stop room_calls room_bytes) }
    {
        let synced = image.clone()?;
        let first = image.clone()?;
        Ok(MemDisk {
            image,
            synced,
            first,
            done: Vec::with_capacity(alloc, room_calls as usize)?,
            bytes: Vec::with_capacity(alloc, room_bytes as usize)?,
            fails,
            stop,
            calls: 0,
            faults: 0,
            room_calls: room_calls as usize,
            room_bytes: room_bytes as usize,
        })
    }
}

impl Disk for MemDisk {
    ghost use Rattle.xr_disk.specs.MemoryCalls.{NextCallFails, NextWriteStops, HasCallRoom, HasWriteRoom};
    ghost use Rattle.xr_disk.specs.MemoryCalls.{AddsCall, KeepsContents, AddsWrite, ChangesOnlyCounts};
    ghost use Rattle.xr_disk.specs.MemoryDisk.{disk_view, events_in, KeepsPlan};

    ghost view = { λ d. disk_view d };

    ghost seen_may_stay = { λ d s seen. seen_may_stay d.first.items d.image.items d.synced.items s (events_in d) d.calls d.history seen };

    ghost counts_now = { λ d t c within left. left_now d.first.items (events_in d) t c left };

    ghost only_now = { λ d c left. since_now d.first.items (events_in d) d.calls c d.history.numbered left };

    ghost narrows = { λ d t u c earlier left. since_narrows d.first.items (events_in d) t u c earlier left };

    ghost sized = { λ d c left. left_sized d.first.items (events_in d) c d.history.size d.history.within left };

    fn read(&mut self, at: u32, out: &mut [u8]) -> Result<(), Fault>
        requires { IsSectorRange at (length out.old) }
        ensures bytes { OnOk result (WasSeen (disk_view self.old).seen (λ s. out.new ≡ part (SECTOR_BYTES * at) (length out.old) s)) }
        ensures same { IsSame (disk_view self.old) (disk_view self.new) }
        ensures call { IsCall (disk_view self.old) (disk_view self.new) result }

        // Exactly when it fails, and what each outcome leaves.
        ensures fault { IsErr result ↔ NextCallFails self.old (HasCallRoom self.old) }
        ensures kept { OnOk result (AddsCall self.old self.new (Read (self.old.calls + 1) at)) }
        ensures contents { KeepsContents self.old self.new }
        ensures only_counts { OnErr result (ChangesOnlyCounts self.old self.new) }
        ensures plan { KeepsPlan self.old self.new }
    {
        let fits = self.done.len() < self.room_calls;
        match begin(&mut self.calls, &self.fails, self.stop, fits) {
            Fate::Succeeds => {
                keep(
                    &mut self.done,
                    Call::Read {
                        number: self.calls,
                        at,
                    },
                );
                let from = SECTOR_BYTES * at as usize;
                out.copy_from_slice(&self.image[from..from + out.len()]);
                Ok(())
            }
            Fate::Fails | Fate::Stops => Err(count(&mut self.faults)),
        }
    }

    fn write(&mut self, at: u32, bytes: &[u8]) -> Result<(), Fault>
        requires { IsSectorRange at (length bytes.now) }
        ensures written { OnOk result (Overlays (SECTOR_BYTES * at) bytes.now (disk_view self.old) (disk_view self.new)) }
        ensures torn { MayTear (SECTOR_BYTES * at) bytes.now (disk_view self.old) (disk_view self.new) }
        ensures call { IsCall (disk_view self.old) (disk_view self.new) result }

        // Exactly when it fails, and what each outcome leaves.
        ensures fault { IsErr result ↔ NextCallFails self.old (HasWriteRoom self.old (length bytes.now)) }
        ensures kept { OnOk result (AddsWrite self.old self.new at bytes.now) }
        ensures landed { OnOk result (self.new.image.items ≡ overlaid (SECTOR_BYTES * at) bytes.now self.old.image.items) }
        ensures unread { OnErr result (self.new.image.items ≡ self.old.image.items) }
        ensures counted { OnErr result (self.new.faults ≡ next_count self.old.faults) }

        // The write with which the power goes is in flight from then on.
        ensures stopped { NextWriteStops self.old (length bytes.now) → AddsWrite self.old self.new at bytes.now }
        ensures only_counts { OnErr result ((¬ NextWriteStops self.old (length bytes.now)) → ChangesOnlyCounts self.old self.new) }
        ensures plan { KeepsPlan self.old self.new }
    {
        let fits = has_room(
            self.room_calls - self.done.len(),
            self.room_bytes - self.bytes.len(),
            bytes.len(),
        );
        match begin(&mut self.calls, &self.fails, self.stop, fits) {
            Fate::Succeeds => {
                keep_write(&mut self.done, &mut self.bytes, self.calls, at, bytes);
                overlay(&mut self.image, SECTOR_BYTES * at as usize, bytes);
                Ok(())
            }
            Fate::Stops => {
                keep_write(&mut self.done, &mut self.bytes, self.calls, at, bytes);
                Err(count(&mut self.faults))
            }
            Fate::Fails => Err(count(&mut self.faults)),
        }
    }

    fn sync(&mut self) -> Result<(), Fault>
        ensures durable { OnOk result (WasSeen (disk_view self.old).seen (λ s. IsAtRest s (disk_view self.new))) }
        ensures seen { OnOk result ((disk_view self.new).seen ≡ (disk_view self.old).seen) }
        ensures failed { OnErr result (CoversNoMore (disk_view self.old) (disk_view self.new)) }
        ensures call { IsCall (disk_view self.old) (disk_view self.new) result }

        // Exactly when it fails, and what each outcome leaves.
        ensures fault { IsErr result ↔ NextCallFails self.old (HasCallRoom self.old) }
        ensures kept { OnOk result (AddsCall self.old self.new (Sync (self.old.calls + 1))) }
        ensures covered { OnOk result (self.new.synced.items ≡ self.old.image.items) }
        ensures image { self.new.image.items ≡ self.old.image.items }
        ensures bytes { self.new.bytes.items ≡ self.old.bytes.items }
        ensures only_counts { OnErr result (ChangesOnlyCounts self.old self.new) }
        ensures plan { KeepsPlan self.old self.new }
    {
        let fits = self.done.len() < self.room_calls;
        match begin(&mut self.calls, &self.fails, self.stop, fits) {
            Fate::Succeeds => {
                keep(&mut self.done, Call::Sync { number: self.calls });
                self.synced.copy_from_slice(&self.image);
                Ok(())
            }
            Fate::Stops | Fate::Fails => Err(count(&mut self.faults)),
        }
    }

    fn moment(&self) -> u64 {
        self.calls
    }

    fn faults(&self) -> u64 {
        self.faults
    }
}

/// Counts a call, and answers what becomes of it, where `fits` says that it can be kept.
fn begin(calls: &mut u64, fails: &[u64], stop: Option<u64>, fits: bool) -> Fate
    ensures fate { IsFate calls.old fails.now stop (IsTrue fits) result }
    ensures clock { calls.new ≡ next_count calls.old }
    ensures kept { calls.old ≤ calls.new }
{
    let fate = fate_of_next(*calls, fails, stop, fits);
    *calls = calls.saturating_add(1);
    fate
}

/// Whether one more write can be kept, where there is room for so many calls and bytes.
fn has_room(calls: usize, bytes: usize, len: usize) -> bool
    ensures { IsTrue result ↔ ((0 < calls) × (len ≤ bytes)) }
{
    calls > 0 && len <= bytes
}

/// Counts a fault.
fn count(faults: &mut u64) -> Fault
    ensures counted { faults.new ≡ next_count faults.old }
    ensures kept { faults.old ≤ faults.new }
{
    *faults = faults.saturating_add(1);
    Fault
}

/// Keeps a call, for which there is room.
fn keep(done: &mut Vec<Call>, call: Call)
    requires { vec_len done.old < vec_capacity done.old }
    ensures items { done.new.items ≡ done.old.items ++ call ∷ [] }
    ensures room { vec_capacity done.old ≤ vec_capacity done.new }
{
    match done.push(call) {
        Ok(()) => {}
        // The room was taken at the start.
        Err(_) => unreachable!(),
    }
}

/// Keeps a write with its bytes, for which there is room.
fn keep_write(done: &mut Vec<Call>, kept: &mut Vec<u8>, number: u64, at: u32, bytes: &[u8])
    requires call { vec_len done.old < vec_capacity done.old }
    requires bytes { vec_len kept.old + length bytes.now ≤ vec_capacity kept.old }
    requires len { length bytes.now < 2 ^ 32 }
    ensures calls { done.new.items ≡ done.old.items ++ Write number at (length kept.old.items) (length bytes.now) ∷ [] }
    ensures bytes { kept.new.items ≡ kept.old.items ++ bytes.now }
    ensures call_room { vec_capacity done.old ≤ vec_capacity done.new }
    ensures byte_room { vec_capacity kept.old ≤ vec_capacity kept.new }
{
    let from = kept.len() as u64;
    match kept.extend_from_slice(bytes) {
        Ok(()) => keep(
            done,
            Call::Write {
                number,
                at,
                from,
                len: bytes.len() as u32,
            },
        ),
        // The room was taken at the start.
        Err(_) => unreachable!(),
    }
}

/// Puts bytes into their place.
pub(crate) fn overlay(image: &mut Vec<u8>, at: usize, bytes: &[u8])
    requires { at + length bytes.now ≤ vec_len image.old }
    ensures { image.new.items ≡ overlaid at bytes.now image.old.items }
{
    image[at..at + bytes.len()].copy_from_slice(bytes);
}
