//! The next id that an intent may have.
ghost use Rattle.std.specs.Prelude.{◌≡◌, ◌≤◌, ◌∷◌, ◌++◌, List, max};
ghost use Rattle.std.specs.List.{AllByRecursion};
ghost use Rattle.xr_items.specs.declared.item.Item.{Item};
ghost use Rattle.xr_items.specs.Valid.{IsItem};
ghost use Rattle.xr_commit.specs.Pending.{joined_items};
ghost use Rattle.xr_scan.specs.NextId.{next_id};

use xr_items::Item;

/// The next id, where so far it was `next` and this item is one more.
fn next_after(next: u64, item: &Item) -> u64
    requires { IsItem item.now }
    ensures next { (later : List Item) → max next (next_id (item.now ∷ later)) ≡ max result (next_id later) }
    ensures up { next ≤ result }
{
    match *item {
        Item::Begin { id, .. } | Item::Done { id, .. } => next.max(id + 1),
        Item::Buf { .. } | Item::Inode { .. } => next,
    }
}

/// The next id, where so far it was `next` and these items are more.
fn next_in(next: u64, items: &[Item]) -> u64
    requires { AllByRecursion IsItem items.now }
    ensures next { (later : List Item) → max next (next_id (items.now ++ later)) ≡ max result (next_id later) }
    ensures up { next ≤ result }
{
    let mut found = next;
    for item in items {
        found = next_after(found, item);
    }
    found
}

/// One more than the greatest id that an item names, intents and done items alike, or 1.
pub fn next_id(lists: &[Vec<Item>]) -> u64
    requires { AllByRecursion IsItem (joined_items lists.now) }
    ensures { result ≡ next_id (joined_items lists.now) }
{
    let mut next = 1;
    for list in lists {
        next = next_in(next, list);
    }
    next
}
