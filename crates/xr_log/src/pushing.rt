//! How a transaction is pushed: the operation that begins it, its header, the regions of its items, and the operation that ends
//! it. So all records that it fills are written before it ends.
ghost use Rattle.std.specs.Prelude.{◌≡◌, ◌==◌, ◌<◌, ◌≤◌, ◌+◌, ◌*◌, ◌∷◌, [], if◌then◌else◌, List, None, All, length, take};
ghost use Rattle.std.specs.List.{AllByRecursion, flat_map};
ghost use Rattle.xr_base.specs.declared.geometry.TheConstants.{BLOCK_BYTES};
ghost use Rattle.xr_base.specs.declared.layout.TheConstants.{MAX_BODY_BYTES};
ghost use Rattle.xr_items.specs.Items.{following, item_bytes};
ghost use Rattle.xr_items.specs.Valid.{IsItem};
ghost use Rattle.xr_items.specs.declared.trans.Logged.{Logged as Changed};
ghost use Rattle.xr_record.specs.Rules.{AtEntry, AtRegion};
ghost use Rattle.xr_record.specs.declared.layout.TheConstants.{TRANSACTION_HEADER_BYTES};
ghost use Rattle.xr_commit.specs.ItemsOf.{region_count};
ghost use Rattle.xr_commit.specs.LoggedItems.{Logged as LoggedItem, logged_regions};
ghost use Rattle.xr_scan.specs.LoggedEntries.{IsWholeItem};
ghost use Rattle.xr_log.specs.Filling.{HasSpaceFor, fill_of, filled_by, filled_region, filled_regions, filled_whole};
ghost use Rattle.xr_log.specs.TransactionItems.{image_at, logged_in, logged_of};
ghost use Rattle.xr_log.specs.TransactionPushes.{IsPush, PushesItems, PushesRegions, PushesTransaction, region_after};
ghost use Rattle.xr_log.specs.declared.transaction.Planned.{Planned};
ghost use Rattle.xr_log.specs.declared.transaction.TheConstants.{TRANS_ITEMS};

use crate::fault::LogFault;
use crate::held::Held;
use crate::packing::{
    Fill, filled_region, filled_whole, push_commit, push_header, push_region, push_start,
};
use crate::transaction::Planned;
use xr_disk::Disk;
use xr_items::layout::LONGEST_REGION;
use xr_items::{Item, Logged, follows, put};
use xr_record::layout::TRANSACTION_HEADER_BYTES;

/// How many regions an item has.
fn region_count(item: &Item) -> u32
    ensures { result ≡ region_count item.now }
{
    if follows(item) == 0 { 1 } else { 2 }
}

/// How many its items have.
fn regions_in(plan: &[Planned]) -> u32
    requires { length plan.now ≤ TRANS_ITEMS }
    ensures { (blocks : List Changed) → result ≡ length (flat_map logged_regions (logged_in blocks plan.now)) }
{
    let mut count = 0;
    for planned in plan {
        count += region_count(&planned.item);
    }
    count
}

/// After the region that follows an item's first one.
fn filled_after(item: &Item, fill: Fill) -> Fill
    requires len { fill.len ≤ MAX_BODY_BYTES }
    requires records { fill.records < 1000 }
    ensures is { result ≡ (if following item.now == 0 then fill else filled_region (following item.now) fill) }
    ensures len { result.len ≤ MAX_BODY_BYTES }
    ensures records { result.records ≤ fill.records + 1 }
{
    let more = follows(item);
    if more == 0 {
        fill
    } else {
        filled_region(more, fill)
    }
}

/// After the regions of an item.
fn filled_item(item: &Item, fill: Fill) -> Fill
    requires valid { IsItem item.now }
    requires len { fill.len ≤ MAX_BODY_BYTES }
    requires records { fill.records < 900 }
    ensures is { (l : LoggedItem) → l.item ≡ item.now → length l.bytes ≡ following item.now
        → result ≡ filled_regions (logged_regions l) fill }
    ensures len { result.len ≤ MAX_BODY_BYTES }
    ensures records { result.records ≤ fill.records + 2 }
{
    let mut region = [0; LONGEST_REGION];
    let len = put(item, &mut region);
    filled_after(item, filled_region(len, fill))
}

/// After the regions of items, where whole images follow those that log blocks.
fn filled_items(plan: &[Planned], mut fill: Fill) -> Fill
    requires most { length plan.now ≤ TRANS_ITEMS }
    requires items { All (λ p. IsItem p.item) plan.now }
    requires len { fill.len ≤ MAX_BODY_BYTES }
    requires records { fill.records < 100 }
    ensures is { (blocks : List Changed) → AllByRecursion IsWholeItem (logged_in blocks plan.now)
        → result ≡ filled_regions (flat_map logged_regions (logged_in blocks plan.now)) fill }
    ensures len { result.len ≤ MAX_BODY_BYTES }
    ensures records { result.records < 500 }
{
    for planned in plan {
        fill = filled_item(&planned.item, fill);
    }
    fill
}

/// How many records a transaction of these items fills, and how long the body is that grows then.
pub(crate) fn filled(plan: &[Planned], fill: Fill) -> Fill
    requires most { length plan.now ≤ TRANS_ITEMS }
    requires items { All (λ p. IsItem p.item) plan.now }
    requires len { fill.len ≤ MAX_BODY_BYTES }
    requires records { fill.records ≤ 1 }
    ensures { (blocks : List Changed) → AllByRecursion IsWholeItem (logged_in blocks plan.now)
        → result ≡ filled_by (logged_in blocks plan.now) fill }
{
    let front = filled_whole(TRANSACTION_HEADER_BYTES, filled_whole(0, fill));
    filled_whole(0, filled_items(plan, front))
}

/// Pushes the first region of an item.
fn push_format<D: Disk>(
    disk: &mut D,
    held: &mut Held,
    tid: u32,
    item: &Item,
) -> Result<(), LogFault>
    requires up { held.old.down ≡ None }
    requires valid { IsItem item.now }
    requires space { HasSpaceFor held.old (filled_regions (item_bytes item.now ∷ []) (fill_of held.old)) }
    ensures { PushesRegions (D.view disk.old) (D.view disk.new) held.old held.new tid (item_bytes item.now ∷ []) result }
{
    let mut region = [0; LONGEST_REGION];
    let len = put(item, &mut region);
    push_region(disk, held, tid, &region[..len])
}

/// The front of a block's bytes.
fn image_front(blocks: &[Logged], block: usize, len: usize) -> &[u8]
    requires within { block < length blocks.now }
    requires most { len ≤ BLOCK_BYTES }
    ensures { result.now ≡ take len (image_at blocks.now block) }
{
    &blocks[block].image[..len]
}

/// Pushes the region that follows it, where one does.
fn push_after<D: Disk>(
    disk: &mut D,
    held: &mut Held,
    tid: u32,
    planned: &Planned,
    blocks: &[Logged],
) -> Result<(), LogFault>
    requires up { held.old.down ≡ None }
    requires whole { IsWholeItem (logged_of blocks.now planned.now) }
    requires space { HasSpaceFor held.old (filled_regions (region_after (logged_of blocks.now planned.now)) (fill_of held.old)) }
    ensures { PushesRegions (D.view disk.old) (D.view disk.new) held.old held.new tid (region_after (logged_of blocks.now planned.now)) result }
{
    let more = follows(&planned.item);
    if more == 0 {
        Ok(())
    } else {
        push_region(disk, held, tid, image_front(blocks, planned.block, more))
    }
}

/// Pushes the regions of an item.
fn push_item<D: Disk>(
    disk: &mut D,
    held: &mut Held,
    tid: u32,
    planned: &Planned,
    blocks: &[Logged],
) -> Result<(), LogFault>
    requires up { held.old.down ≡ None }
    requires whole { IsWholeItem (logged_of blocks.now planned.now) }
    requires space { HasSpaceFor held.old (filled_regions (logged_regions (logged_of blocks.now planned.now)) (fill_of held.old)) }
    ensures { PushesRegions (D.view disk.old) (D.view disk.new) held.old held.new tid (logged_regions (logged_of blocks.now planned.now)) result }
{
    push_format(disk, held, tid, &planned.item)?;
    push_after(disk, held, tid, planned, blocks)
}

/// Pushes the regions of items, one after another.
fn push_items<D: Disk>(
    disk: &mut D,
    held: &mut Held,
    tid: u32,
    plan: &[Planned],
    blocks: &[Logged],
) -> Result<(), LogFault>
    requires up { held.old.down ≡ None }
    requires whole { AllByRecursion IsWholeItem (logged_in blocks.now plan.now) }
    requires space { HasSpaceFor held.old (filled_regions (flat_map logged_regions (logged_in blocks.now plan.now)) (fill_of held.old)) }
    ensures { PushesItems (D.view disk.old) (D.view disk.new) held.old held.new tid (logged_in blocks.now plan.now) result }
{
    for planned in plan {
        push_item(disk, held, tid, planned, blocks)?;
    }
    Ok(())
}

/// Pushes what comes before the regions of a transaction.
fn push_front_of<D: Disk>(
    disk: &mut D,
    held: &mut Held,
    tid: u32,
    count: u32,
) -> Result<(), LogFault>
    requires up { held.old.down ≡ None }
    requires space { HasSpaceFor held.old (filled_whole TRANSACTION_HEADER_BYTES (filled_whole 0 (fill_of held.old))) }
    ensures { IsPush (D.view disk.old) (D.view disk.new) held.old held.new AtEntry (AtRegion tid count [])
        (filled_whole TRANSACTION_HEADER_BYTES (filled_whole 0 (fill_of held.old))) result }
{
    push_start(disk, held, tid)?;
    push_header(disk, held, tid, count)
}

/// Pushes a whole transaction with this number.
pub(crate) fn push_transaction<D: Disk>(
    disk: &mut D,
    held: &mut Held,
    tid: u32,
    plan: &[Planned],
    blocks: &[Logged],
) -> Result<(), LogFault>
    requires up { held.old.down ≡ None }
    requires most { length plan.now ≤ TRANS_ITEMS }
    requires whole { AllByRecursion IsWholeItem (logged_in blocks.now plan.now) }
    requires space { HasSpaceFor held.old (filled_by (logged_in blocks.now plan.now) (fill_of held.old)) }
    ensures pushes { PushesTransaction (D.view disk.old) (D.view disk.new) held.old held.new (logged_in blocks.now plan.now) result }
{
    push_front_of(disk, held, tid, regions_in(plan))?;
    push_items(disk, held, tid, plan, blocks)?;
    push_commit(disk, held, tid)
}
