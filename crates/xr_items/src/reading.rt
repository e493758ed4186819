//! Items read from their format regions.
ghost use Rattle.std.specs.Prelude.{◌≡◌, ◌↔◌, MatchResult, IfOk, Ok, Err};
ghost use Rattle.xr_items.specs.FirstBroken.{RefusesItem, IsItemFramed};
ghost use Rattle.xr_items.specs.Items.{item_bytes};
ghost use Rattle.xr_items.specs.Valid.{IsItem};

use crate::bodies::take_body;
use crate::item::{Item, ItemFault, ItemKind};
use crate::layout::{EXTENTS_PLACE, REGIONS_PLACE};
use xr_base::le16_at;

/// The kind of item, by a type, a length and a number of regions that go together.
fn take_kind(region: &[u8]) -> Result<ItemKind, ItemFault>
    ensures { MatchResult result (λ kind. IsItemFramed kind region.now) (RefusesItem region.now) }
{
    let unknown = ItemFault::ItemType { place: 0 };
    if region.len() < EXTENTS_PLACE {
        return Err(unknown);
    }
    let kind = ItemKind::of_code(le16_at(region, 0)).ok_or(unknown)?;
    if region.len() != kind.length() {
        return Err(ItemFault::Size { place: 0 });
    }
    if le16_at(region, REGIONS_PLACE) != kind.regions() {
        return Err(ItemFault::Size {
            place: REGIONS_PLACE,
        });
    }
    Ok(kind)
}

/// Reads the format region of an item, which has to be exactly what `put` writes of a valid one. A type that no item
/// has, or fewer than 4 bytes, is refused first; then another length, and then another number of regions, than items
/// of the type have; then the first field that breaks a rule. A rule on two fields is that of the later one.
pub fn take(region: &[u8]) -> Result<Item, ItemFault>
    ensures ok { IfOk result (λ item. IsItem item × (region.now ≡ item_bytes item)) }
    ensures complete { (item : Item) → IsItem item → region.now ≡ item_bytes item → result ≡ Ok item }
    ensures refused { (fault : ItemFault) → (result ≡ Err fault) ↔ RefusesItem region.now fault }
{
    let kind = take_kind(region)?;
    match take_body(kind, region) {
        Ok(item) => Ok(item),
        Err(place) => Err(ItemFault::Field { place }),
    }
}
