//! The items of the transactions of a log whose regions were tested.
ghost use Rattle.std.specs.Prelude.{◌≡◌, List, IfOk, length};
ghost use Rattle.xr_commit.specs.ItemsOf.{EntryHasItems, EntriesHaveItems, RegionsHaveItems, items_in};
ghost use Rattle.xr_commit.specs.LoggedItems.{AreItemsOf, AreItemsOfEach, IsEntryOf};
ghost use Rattle.xr_items.specs.Items.{item_bytes};
ghost use Rattle.xr_items.specs.Valid.{IsItem};
ghost use Rattle.xr_items.specs.declared.item.Item.{Item};

use crate::check_items::regions_of;
use std::alloc::{AllocError, Global};
use xr_items::{Item, take};
use xr_record::{Entry, Regions};

/// The item with these bytes.
fn item_at(region: &[u8]) -> Item
    requires { (item : Item) × IsItem item × (region.now ≡ item_bytes item) }
    ensures { (item : Item) → IsItem item → region.now ≡ item_bytes item → result ≡ item }
{
    match take(region) {
        Ok(item) => item,
        Err(_) => unreachable!(),
    }
}

/// The items of a transaction, by its regions.
pub fn items_of(alloc: Global, regions: &Regions) -> Result<Vec<Item>, AllocError>
    requires { RegionsHaveItems regions.now }
    ensures are { IfOk result (λ found. AreItemsOf regions.now found.items) }
    ensures only { IfOk result (λ found. (items : List Item) → AreItemsOf regions.now items → found.items ≡ items) }
{
    let mut items = Vec::new(alloc);
    let mut at = 0;
    while at < regions.len() {
        let item = item_at(regions.at(at));
        items.push(item)?;
        at += regions_of(&item);
    }
    Ok(items)
}

/// The items of an entry.
fn entry_items(alloc: Global, entry: &Entry) -> Result<Vec<Item>, AllocError>
    requires { EntryHasItems entry.now }
    ensures are { IfOk result (λ found. IsEntryOf entry.now found.items) }
    ensures only { IfOk result (λ found. (items : List Item) → IsEntryOf entry.now items → found.items ≡ items) }
{
    match entry {
        Entry::Trans { regions, .. } => items_of(alloc, regions),
        Entry::Unmount => Ok(Vec::new(alloc)),
    }
}

/// The items of each entry.
pub fn items_of_each(alloc: Global, entries: &[Entry]) -> Result<Vec<Vec<Item>>, AllocError>
    requires { EntriesHaveItems entries.now }
    ensures number { IfOk result (λ found. length found.items ≡ length entries.now) }
    ensures are { IfOk result (λ found. AreItemsOfEach entries.now (items_in found.items)) }
    ensures only { IfOk result (λ found. (items : List (List Item)) → AreItemsOfEach entries.now items → items_in found.items ≡ items) }
{
    let mut lists = Vec::new(alloc);
    for entry in entries {
        lists.push(entry_items(alloc, entry)?)?;
    }
    Ok(lists)
}
