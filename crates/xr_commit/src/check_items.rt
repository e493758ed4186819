//! The items of the live stream, tested in log order once all operations are right.
ghost use Rattle.std.specs.Prelude.{◌≡◌, ◌+◌, ◌^◌, ◌<◌, ◌≤◌, ℕ, List, [], ◌∷◌, true, IfOk, IfErr, OnOk, MatchResult, length, drop};
ghost use Rattle.xr_base.specs.declared.geometry.TheConstants.{FILES, FIRST_INODE};
ghost use Rattle.xr_headers.specs.declared.layout.TheConstants.{CORE_BYTES};
ghost use Rattle.xr_items.specs.Items.{following, item_bytes};
ghost use Rattle.xr_items.specs.Valid.{IsItem};
ghost use Rattle.xr_record.specs.Stream.{are_items};
ghost use Rattle.xr_commit.specs.Entries.{HasEntries};
ghost use Rattle.xr_commit.specs.ItemsOf.{region_count};
ghost use Rattle.xr_commit.specs.LogRecords.{AreHeadersOf, OfRecords};
ghost use Rattle.xr_commit.specs.BadItems.{BreaksItems, IsBadFollower, IsBadItem, IsBadRegion, IsNoCoreOf, refusal_at};
ghost use Rattle.xr_commit.specs.GoodItems.{RegionsAreGood, EntriesAreGood, IsCoreOf, IsFollowed, Rises, last_after};
ghost use Rattle.xr_commit.specs.RegionHomes.{regions_in};
ghost use Rattle.xr_commit.specs.CheckItems.{IsBadEntry, IsNextBad, IsNextGood, HasWholeItems};

use crate::fault::ScanFault;
use crate::homes::block_of_region;
use crate::layout::{LOG_BYTES, MOST_RECORD_BYTES};
use uuid::Uuid;
use xr_base::FileNo;
use xr_base::geometry::FIRST_INODE;
use xr_headers::layout::CORE_BYTES;
use xr_headers::take_core_bytes;
use xr_items::layout::ID_PLACE;
use xr_items::{Item, ItemFault, follows, take};
use xr_record::{Entry, Head, Regions};

/// The first region of a transaction that breaks a rule, counted from 0, and which rule that is.
#[derive(Clone, Copy, Debug, PartialEq, Eq)]
struct BadRegion {
    region: usize,
    fault: ItemFault,
}

/// The refusal of a log whose first wrong region begins in this block.
fn refusal_at(fault: ItemFault, block: u32) -> ScanFault
    ensures { result ≡ refusal_at fault block }
{
    match fault {
        ItemFault::ItemType { .. } => ScanFault::ItemType { block },
        ItemFault::Size { .. } => ScanFault::Size { block },
        ItemFault::Field { .. } => ScanFault::Field { block },
    }
}

/// Checks that a region is the core of the file with that inode number.
fn check_core(region: &[u8], ino: u64, uuid: &Uuid) -> Result<(), ItemFault>
    requires whole { length region.now ≡ CORE_BYTES }
    requires first { FIRST_INODE ≤ ino }
    requires last { ino < FIRST_INODE + FILES }
    ensures { MatchResult result (λ _. IsCoreOf uuid.now ino region.now) (IsNoCoreOf uuid.now ino region.now) }
{
    let file = FileNo((ino - FIRST_INODE) as u32);
    match take_core_bytes(region, file, uuid) {
        Ok(_) => Ok(()),
        Err(place) => Err(ItemFault::Field { place }),
    }
}

/// Checks the format region of the next item, where `last` is the id of the last intent before it, or 0.
fn check_format(region: &[u8], last: u64) -> Result<Item, ItemFault>
    ensures good { IfOk result (λ item. IsItem item × (region.now ≡ item_bytes item) × Rises last item) }
    ensures bad { IfErr result (IsBadItem last region.now) }
{
    let item = take(region)?;
    match item {
        Item::Begin { id, .. } if id <= last => Err(ItemFault::Field { place: ID_PLACE }),
        _ => Ok(item),
    }
}

/// Checks the region that follows an item.
fn check_follower(uuid: &Uuid, item: &Item, region: &[u8]) -> Result<(), ItemFault>
    requires valid { IsItem item.now }
    requires follows { 0 < following item.now }
    ensures { MatchResult result (λ _. IsFollowed uuid.now item.now region.now) (IsBadFollower uuid.now item.now region.now) }
{
    if region.len() != follows(item) {
        return Err(ItemFault::Size { place: 0 });
    }
    match item {
        Item::Inode { ino } => check_core(region, *ino, uuid),
        _ => Ok(()),
    }
}

/// Checks the item that begins at a region, with the region that follows it.
fn check_item(uuid: &Uuid, regions: &Regions, at: usize, last: u64) -> Result<Item, BadRegion>
    requires within { at < length regions.now }
    requires small { length regions.now < 2 ^ 64 }
    requires parted { are_items (drop at regions.now) ≡ true }
    ensures good { IfOk result (IsNextGood uuid.now last (drop at regions.now)) }
    ensures bad { IfErr result (λ bad. (n : ℕ) × (bad.region ≡ at + n) × IsNextBad uuid.now last (drop at regions.now) n bad.fault) }
{
    let item = match check_format(regions.at(at), last) {
        Ok(item) => item,
        Err(fault) => return Err(BadRegion { region: at, fault }),
    };
    if follows(&item) == 0 {
        return Ok(item);
    }
    match check_follower(uuid, &item, regions.at(at + 1)) {
        Ok(()) => Ok(item),
        Err(fault) => Err(BadRegion {
            region: at + 1,
            fault,
        }),
    }
}

/// The id of the last intent after an item.
fn last_after(last: u64, item: &Item) -> u64
    ensures { result ≡ last_after last item.now }
{
    match item {
        Item::Begin { id, .. } => *id,
        _ => last,
    }
}

/// How many regions an item has.
pub fn regions_of(item: &Item) -> usize
    ensures { result ≡ region_count item.now }
{
    if follows(item) == 0 { 1 } else { 2 }
}

/// Checks the regions of a transaction, and gives the id of the last intent.
fn check_regions(uuid: &Uuid, regions: &Regions, last: u64) -> Result<u64, BadRegion>
    requires { are_items regions.now ≡ true }
    ensures good { IfOk result (RegionsAreGood uuid.now last regions.now) }
    ensures bad { IfErr result (λ bad. IsBadRegion uuid.now last regions.now bad.region bad.fault) }
{
    let mut latest = last;
    let mut at = 0;
    while at < regions.len() {
        let item = check_item(uuid, regions, at, latest)?;
        latest = last_after(latest, &item);
        at += regions_of(&item);
    }
    Ok(latest)
}

/// Checks the items of an entry, and gives the id of the last intent.
fn check_entry(uuid: &Uuid, entry: &Entry, last: u64) -> Result<u64, BadRegion>
    requires { HasWholeItems entry.now }
    ensures good { IfOk result (EntriesAreGood uuid.now last (entry.now ∷ [])) }
    ensures bad { IfErr result (λ bad. IsBadEntry uuid.now last entry.now bad.region bad.fault) }
{
    match entry {
        Entry::Trans { regions, .. } => check_regions(uuid, regions, last),
        Entry::Unmount => Ok(last),
    }
}

/// How many regions an entry has.
fn regions_in(entry: &Entry) -> usize
    ensures { result ≡ regions_in (entry.now ∷ []) }
{
    match entry {
        Entry::Trans { regions, .. } => regions.len(),
        Entry::Unmount => 0,
    }
}

/// A number of regions and some more. It is wider than any list is long, so that no sum of them is too great.
fn more_regions(before: u128, more: usize) -> u128
    requires { before < 2 ^ 127 }
    ensures { result ≡ before + more }
{
    before + more as u128
}

/// Checks all items, in log order.
pub fn check_items(
    uuid: &Uuid,
    log: &[u8],
    heads: &[Head],
    entries: &[Entry],
    scratch: &mut [u8],
) -> Result<(), ScanFault>
    requires log { length log.now ≡ LOG_BYTES }
    requires scratch { length scratch.old ≡ MOST_RECORD_BYTES }
    requires records { AreHeadersOf log.now heads.now }
    requires said { OfRecords log.now heads.now (λ records. HasEntries records entries.now) }
    ensures good { OnOk result ((last : ℕ) × EntriesAreGood uuid.now 0 entries.now last) }
    ensures bad { IfErr result (λ fault. OfRecords log.now heads.now (λ records. BreaksItems uuid.now records fault)) }
{
    let mut last = 0;
    let mut before = 0;
    for entry in entries {
        match check_entry(uuid, entry, last) {
            Ok(id) => last = id,
            Err(bad) => {
                let block = block_of_region(log, heads, more_regions(before, bad.region), scratch);
                return Err(refusal_at(bad.fault, block));
            }
        }
        before = more_regions(before, regions_in(entry));
    }
    Ok(())
}
