//! The key that a block gives to its parent.
ghost use Rattle.std.specs.Prelude.{◌≡◌, ◌<◌, ◌≤◌, length};
ghost use Rattle.xr_kinds.specs.Form.{key_size};
ghost use Rattle.xr_block.specs.Rows.{key_of_entries, key_of_records};
ghost use Rattle.xr_block.specs.TreeBlock.{count_in, entries_in, records_in};
ghost use Rattle.xr_block.specs.Checks.{HoldsRecords};

use crate::key::{KEY_ROOM, greatest_high, key_fits, put_greatest};
use crate::read::{checked_record, low_key_at};
use xr_kinds::Record;
use xr_pool::Block;

/// Writes the key of a leaf: the low key of its first record, and the greatest high key of all.
pub fn put_key_of_leaf<R: Record>(block: &Block, out: &mut [u8])
    requires tested { HoldsRecords R.form block.now }
    requires some { 0 < count_in block.now }
    requires long { length out.old ≡ key_size R.form }
    ensures { out.new ≡ key_of_records R.form (records_in R.form block.now) }
{
    key_fits::<R>();
    let mut room = [0; KEY_ROOM];
    let (low, high) = out.split_at_mut(R::LOW);
    checked_record::<R>(block, 0).put_low(low);
    put_greatest::<R>(block, &mut room[..R::HIGH], high);
}

/// Writes the key of a node, of the keys that it has.
pub fn put_key_of_node<R: Record>(block: &Block, out: &mut [u8])
    requires some { 0 < count_in block.now }
    requires few { count_in block.now ≤ R.form.node_max }
    requires long { length out.old ≡ key_size R.form }
    ensures { out.new ≡ key_of_entries R.form (entries_in R.form block.now) }
{
    let (low, high) = out.split_at_mut(R::LOW);
    low.copy_from_slice(low_key_at::<R>(block, 0));
    high.copy_from_slice(greatest_high::<R>(block));
}
