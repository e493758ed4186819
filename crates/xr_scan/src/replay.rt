//! Laying the images that a live stream logs over the blocks at home.
ghost use Rattle.std.specs.Prelude.{◌≡◌, ◌*◌, ◌^◌, ◌<◌, ◌≤◌, ◌∷◌, [], true, List, length, set, MatchOption};
ghost use Rattle.xr_base.specs.Image.{overlaid};
ghost use Rattle.xr_base.specs.declared.geometry.TheConstants.{BLOCK_BYTES};
ghost use Rattle.xr_headers.specs.Padded.{zero_padded};
ghost use Rattle.xr_items.specs.Valid.{IsItem};
ghost use Rattle.xr_commit.specs.ItemsOf.{items_in, region_count};
ghost use Rattle.xr_commit.specs.LoggedItems.{Logged};
ghost use Rattle.xr_scan.specs.LoggedEntries.{Logs, logged_items};
ghost use Rattle.xr_scan.specs.Replaying.{AreCopies, IsNextLogged, IsStateBlock, LogEach, LogsEntry, LogsItems, LogsNone, LogsOnly, Replays};
ghost use Rattle.xr_scan.specs.Scanned.{copy_number};
ghost use Rattle.xr_scan.specs.declared.layout.TheConstants.{STATE_BLOCKS};

use xr_base::geometry::{
    BLOCK_BYTES, BLOCK_SECTORS, FILE_BLOCKS, FILES, FIRST_DATA_BLOCK, FIRST_FILE_BLOCK,
    FIRST_GROUP_BLOCK, FIRST_INODE, GROUP_BLOCKS,
};
use xr_items::Item;
use xr_record::{Entry, Regions};

/// The number of a block among those of a state: the files' blocks come first, and then the groups'.
fn copy_number(block: u32) -> usize
    requires { IsStateBlock block }
    ensures number { result ≡ copy_number block }
    ensures within { result < STATE_BLOCKS }
{
    if block < FIRST_GROUP_BLOCK {
        return (block - FIRST_FILE_BLOCK) as usize;
    }
    let behind = block - FIRST_GROUP_BLOCK;
    (FILES * FILE_BLOCKS
        + FIRST_DATA_BLOCK * (behind / GROUP_BLOCKS)
        + behind % GROUP_BLOCKS) as usize
}

/// The image block that an item logs, where it logs one.
fn logged_block(item: &Item) -> Option<u32>
    requires { IsItem item.now }
    ensures { MatchOption result (LogsNone item.now) (LogsOnly item.now) }
{
    match item {
        Item::Buf { sector } => Some((sector / BLOCK_SECTORS as u64) as u32),
        Item::Inode { ino } => Some(FIRST_FILE_BLOCK + FILE_BLOCKS * (ino - FIRST_INODE) as u32),
        Item::Begin { .. } | Item::Done { .. } => None,
    }
}

/// Makes all bytes zero.
fn clear(out: &mut [u8])
    ensures { out.new ≡ zero_padded (length out.old) [] }
{
    for byte in out.iter_mut() {
        *byte = 0;
    }
}

/// Puts an image into a block, with zeros after it.
fn lay_image(image: &[u8], block: &mut [u8])
    requires { length image.now ≤ length block.old }
    ensures { block.new ≡ zero_padded (length block.old) image.now }
{
    let (front, rest) = block.split_at_mut(image.len());
    front.copy_from_slice(image);
    clear(rest);
}

/// Lays an image over the copy of its block, with zeros after it, and marks the block as logged.
pub fn lay_block(image: &[u8], block: u32, blocks: &mut [u8], dirty: &mut [bool])
    requires known { IsStateBlock block }
    requires fits { length image.now ≤ BLOCK_BYTES }
    requires copies { AreCopies blocks.old dirty.old }
    ensures blocks { blocks.new ≡ overlaid (BLOCK_BYTES * copy_number block) (zero_padded BLOCK_BYTES image.now) blocks.old }
    ensures dirty { dirty.new ≡ set dirty.old (copy_number block) true }
{
    let number = copy_number(block);
    let from = BLOCK_BYTES * number;
    lay_image(image, &mut blocks[from..from + BLOCK_BYTES]);
    dirty[number] = true;
}

/// Replays the item whose regions begin at a place, and gives how many they are.
fn replay_item(
    regions: &Regions,
    at: usize,
    item: &Item,
    blocks: &mut [u8],
    dirty: &mut [bool],
) -> usize
    requires small { length regions.now < 2 ^ 64 }
    requires here { (l : Logged) × IsNextLogged regions.now at item.now l }
    requires copies { AreCopies blocks.old dirty.old }
    ensures count { result ≡ region_count item.now }
    ensures replays { (l : Logged) → IsNextLogged regions.now at item.now l → Replays (l ∷ []) blocks.old dirty.old blocks.new dirty.new }
{
    let Some(block) = logged_block(item) else {
        return 1;
    };
    lay_block(regions.at(at + 1), block, blocks, dirty);
    2
}

/// Replays the items of a transaction, one after another.
fn replay_items(regions: &Regions, items: &[Item], blocks: &mut [u8], dirty: &mut [bool])
    requires logs { LogsItems regions.now items.now }
    requires copies { AreCopies blocks.old dirty.old }
    ensures { (ls : List Logged) → Logs regions.now ls → items.now ≡ logged_items ls → Replays ls blocks.old dirty.old blocks.new dirty.new }
{
    // Places are below this count, and so in range.
    let _count = regions.len();
    let mut at = 0;
    for item in items {
        at += replay_item(regions, at, item, blocks, dirty);
    }
}

/// Replays the items of an entry.
fn replay_entry(entry: &Entry, items: &[Item], blocks: &mut [u8], dirty: &mut [bool])
    requires logs { (ls : List Logged) × LogsEntry entry.now items.now ls }
    requires copies { AreCopies blocks.old dirty.old }
    ensures { (ls : List Logged) → LogsEntry entry.now items.now ls → Replays ls blocks.old dirty.old blocks.new dirty.new }
{
    if let Entry::Trans { regions, .. } = entry {
        replay_items(regions, items, blocks, dirty);
    }
}

/// Replays the items of all entries, in log order.
pub fn replay(entries: &[Entry], items: &[Vec<Item>], blocks: &mut [u8], dirty: &mut [bool])
    requires log { (ls : List Logged) × LogEach entries.now (items_in items.now) ls }
    requires copies { AreCopies blocks.old dirty.old }
    ensures { (ls : List Logged) → LogEach entries.now (items_in items.now) ls → Replays ls blocks.old dirty.old blocks.new dirty.new }
{
    for i in 0..entries.len() {
        replay_entry(&entries[i], &items[i], blocks, dirty);
    }
}
