//! Scanning an image: its live stream is read, and replayed over the blocks at home.
ghost use Rattle.std.specs.Prelude.{◌≡◌, ◌+◌, ◌-◌, ◌≤◌, ◌<◌, ◌↔◌, ℕ, [], ◌∷◌, true, false, List, length, get_or, vec_len, IfOk, IfErr};
ghost use Rattle.xr_base.specs.Fields.{AreBytes};
ghost use Rattle.xr_base.specs.declared.geometry.TheConstants.{GROUPS};
ghost use Rattle.xr_disk.specs.Disk.{OnlyReads};
ghost use Rattle.xr_disk.specs.Seen.{WasSeen};
ghost use Rattle.xr_record.specs.declared.entry.Entry.TheVariants.{Unmount};
ghost use Rattle.xr_record.specs.declared.head.Head.{Head};
ghost use Rattle.xr_commit.specs.declared.fault.ScanFault.TheVariants.{NoMemory};
ghost use Rattle.xr_commit.specs.DiskFaults.{WasCounted};
ghost use Rattle.xr_commit.specs.ItemsOf.{EntriesHaveItems, items_in};
ghost use Rattle.xr_commit.specs.LogRecords.{log_of};
ghost use Rattle.xr_commit.specs.LoggedItems.{Logged};
ghost use Rattle.xr_commit.specs.Refusals.{IsReadable, OrNoMemory, OrOutside};
ghost use Rattle.xr_scan.specs.Replayed.{is_logged, replayed};
ghost use Rattle.xr_scan.specs.Replaying.{IsStateBlock, LogEach};
ghost use Rattle.xr_scan.specs.Scan.{IsNeverRefused, IsNeverScanned, PreventsScan};
ghost use Rattle.xr_scan.specs.Scanned.{IsScanned, copy_number, copy_of};
ghost use Rattle.xr_scan.specs.Scanning.{HasItems, IsFoundIn, IsScannedIn, OwesTooMuch, WasFound};
ghost use Rattle.xr_scan.specs.declared.layout.TheConstants.{STATE_BLOCKS, STATE_BYTES};

use crate::homes::read_homes;
use crate::layout::{MOST_PENDING, STATE_BLOCKS};
use crate::next_id::next_id;
use crate::replay::replay;
use crate::scanned::Scanned;
use std::alloc::{AllocError, Global};
use xr_base::geometry::FIRST_LOG_BLOCK;
use xr_commit::{Live, Pending, ScanFault, items_of_each, live, pending_works};
use xr_disk::Disk;
use xr_items::Item;
use xr_record::{Entry, Head};

/// The live stream of an image, with the items of its transactions.
#[derive(Drop)]
struct LiveItems {
    live: Live,
    /// The items of each entry.
    items: Vec<Vec<Item>>,
    /// The intents that no later item ends.
    pending: Vec<Pending>,
}

/// The items of a live stream.
fn find_items(alloc: Global, live: Live) -> Result<LiveItems, ScanFault>
    requires { EntriesHaveItems live.entries.items }
    ensures found { IfOk result HasItems }
    ensures live { IfOk result (λ found. found.live ≡ live) }
    ensures debt { IfErr result (OrNoMemory (OwesTooMuch live.entries.items)) }
{
    let items = items_of_each(alloc, &live.entries)?;
    let pending = pending_works(alloc, &items)?;
    if pending.len() > MOST_PENDING {
        return Err(ScanFault::Debt {
            block: FIRST_LOG_BLOCK,
        });
    }
    Ok(LiveItems {
        live,
        items,
        pending,
    })
}

/// Reads the live stream of an image and its items.
fn read_live_items<D: Disk>(alloc: Global, disk: &mut D) -> Result<LiveItems, ScanFault>
    ensures found { IfOk result (WasFound (D.view disk.old).seen) }
    ensures bytes { IfOk result (λ _. WasSeen (D.view disk.old).seen (λ image. AreBytes (log_of image))) }
    ensures refused { IfErr result (OrOutside (λ fault. WasSeen (D.view disk.old).seen (λ image. PreventsScan image fault))) }
    ensures never { IfErr result (OrOutside (λ _. WasSeen (D.view disk.old).seen IsNeverScanned)) }
    ensures readable { IfErr result (OrOutside (λ _. WasSeen (D.view disk.old).seen IsReadable)) }
    ensures reads { OnlyReads (D.view disk.old) (D.view disk.new) }
    ensures clock { (D.view disk.new).moment ≤ (D.view disk.old).moment + 2 }
    ensures kept { (D.view disk.old).faults ≤ (D.view disk.new).faults }
    ensures cause { IfErr result (WasCounted (D.view disk.old).faults (D.view disk.new).faults) }
{
    let live = live(alloc, disk)?;
    find_items(alloc, live)
}

/// The header of the newest record, which is the last one.
fn newest(heads: &[Head]) -> Head
    requires { 0 < length heads.now }
    ensures { (d : Head) → result ≡ get_or heads.now (length heads.now - 1) d }
{
    heads[heads.len() - 1]
}

/// Whether the newest record is an unmount. It is then alone, since it is its own tail.
fn is_clean(live: &Live) -> bool
    ensures { (result ≡ true) ↔ ((length live.now.heads.items ≡ 1) × (live.now.entries.items ≡ Unmount ∷ [])) }
{
    live.heads.len() == 1 && matches!(live.entries.as_slice(), [Entry::Unmount])
}

/// The blocks of a state as a live stream leaves them.
#[derive(Drop)]
struct Copies {
    blocks: Vec<u8>,
    dirty: Vec<bool>,
}

/// Replays the items of all entries over the blocks at home.
fn replay_over(
    alloc: Global,
    entries: &[Entry],
    items: &[Vec<Item>],
    homes: Vec<u8>,
) -> Result<Copies, AllocError>
    requires long { vec_len homes ≡ STATE_BYTES }
    requires log { (ls : List Logged) × LogEach entries.now (items_in items.now) ls }
    ensures long { IfOk result (λ copies. vec_len copies.blocks ≡ STATE_BYTES) }
    ensures each { IfOk result (λ copies. vec_len copies.dirty ≡ STATE_BLOCKS) }
    ensures blocks { IfOk result (λ copies. (ls : List Logged) → LogEach entries.now (items_in items.now) ls → (block : ℕ) → IsStateBlock block
        → copy_of copies.blocks.items block ≡ replayed block (copy_of homes.items block) ls) }
    ensures dirty { IfOk result (λ copies. (ls : List Logged) → LogEach entries.now (items_in items.now) ls → (block : ℕ) → IsStateBlock block
        → get_or copies.dirty.items (copy_number block) false ≡ is_logged block ls) }
{
    let mut blocks = homes;
    let mut dirty = vec![in alloc; false; STATE_BLOCKS]?;
    replay(entries, items, &mut blocks, &mut dirty);
    Ok(Copies { blocks, dirty })
}

/// What a live stream makes of the blocks at home.
fn scan_over(alloc: Global, found: LiveItems, homes: Vec<u8>) -> Result<Scanned, AllocError>
    requires long { vec_len homes ≡ STATE_BYTES }
    requires found { (log : List ℕ) × IsFoundIn log found }
    ensures uuid { IfOk result (λ scanned. scanned.uuid ≡ found.live.uuid) }
    ensures scanned { IfOk result (λ scanned. (log : List ℕ) → IsFoundIn log found → IsScannedIn log homes.items scanned) }
{
    let live = found.live;
    let copies = replay_over(alloc, &live.entries, &found.items, homes)?;
    let last = newest(&live.heads);
    let clean = is_clean(&live);
    let next = next_id(&found.items);
    Ok(Scanned {
        uuid: live.uuid,
        head: last.lsn,
        clean,
        next,
        pending: found.pending,
        last,
        ends_open: live.ends_open,
        blocks: copies.blocks,
        dirty: copies.dirty,
    })
}

/// Scans the image that a disk reads. Refusals come in this order: those of its live stream, and then too many pending
/// intents; want of memory and a fault of the disk at any time. The disk is only read: the superblock, the log, and each
/// block of a state, each once.
pub fn scan<D: Disk>(alloc: Global, disk: &mut D) -> Result<Scanned, ScanFault>
    ensures scanned { IfOk result (λ scanned. WasSeen (D.view disk.old).seen (λ image. IsScanned image scanned)) }
    ensures taken { IfOk result (λ _. WasSeen (D.view disk.old).seen IsNeverRefused) }
    ensures some { IfOk result (λ scanned. (image : List ℕ) × IsScanned image scanned) }
    ensures refused { IfErr result (OrOutside (λ fault. WasSeen (D.view disk.old).seen (λ image. PreventsScan image fault))) }
    ensures never { IfErr result (OrOutside (λ _. WasSeen (D.view disk.old).seen IsNeverScanned)) }
    ensures readable { IfErr result (OrOutside (λ _. WasSeen (D.view disk.old).seen IsReadable)) }
    ensures reads { OnlyReads (D.view disk.old) (D.view disk.new) }
    ensures clock { (D.view disk.new).moment ≤ (D.view disk.old).moment + 3 + GROUPS }
    ensures kept { (D.view disk.old).faults ≤ (D.view disk.new).faults }
    ensures cause { IfErr result (WasCounted (D.view disk.old).faults (D.view disk.new).faults) }
{
    let found = read_live_items(alloc, disk)?;
    let homes = read_homes(alloc, disk)?;
    Ok(scan_over(alloc, found, homes)?)
}
