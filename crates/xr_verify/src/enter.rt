//! A block of a tree by itself: whether it may be entered, and whether it gives the key that its parent names.
ghost use Rattle.std.specs.Prelude.{◌≡◌, ℕ, ◌+◌, ◌*◌, ◌<◌, ◌≤◌, ◌↔◌, [], ◌∷◌, false, length, IsOk, IsTrue, IfErr, IfSome};
ghost use Rattle.xr_pool.specs.Bits.{has_bit};
ghost use Rattle.xr_kinds.specs.Form.{key_size};
ghost use Rattle.xr_pool.specs.Overlay.{block_at, is_free, pool_size};
ghost use Rattle.xr_block.specs.Rows.{key_held};
ghost use Rattle.xr_block.specs.Tree.{tree_held};
ghost use Rattle.xr_block.specs.declared.fault.TreeKind.TheVariants.{Reuse};
ghost use Rattle.xr_verify.specs.Refusals.{RefusesBlock, RefusesOpening};
ghost use Rattle.xr_verify.specs.Visits.{AreMarked, IsUnvisited, IsChecked};

use xr_block::check::{check_leaf, check_node};
use xr_block::fault::TreeKind;
use xr_block::key::{is_key_of_leaf, is_key_of_node};
use xr_block::read::count_of;
use xr_kinds::Record;
use xr_pool::Overlay;
use xr_pool::bits::{has_bit, set_bit};

/// Marks a block, if it is neither free nor marked.
fn mark(over: &Overlay, n: u32, seen: &mut [u8]) -> Result<(), TreeKind>
    requires within { n < pool_size over.now }
    requires room { pool_size over.now ≤ 8 * length seen.old }
    ensures open { IsOk result ↔ IsUnvisited over.now n seen.old }
    ensures refused { IfErr result (λ kind. kind ≡ Reuse) }
    ensures marked { IsOk result → AreMarked seen.old (n ∷ []) seen.new }
    ensures long { length seen.new ≡ length seen.old }
{
    if over.is_free(n) || has_bit(seen, n as usize) {
        return Err(TreeKind::Reuse);
    }
    set_bit(seen, n as usize);
    Ok(())
}

/// Tests a block by itself.
fn check_block<R: Record>(over: &Overlay, n: u32, level: u32, least: usize) -> Result<(), TreeKind>
    requires within { n < pool_size over.now }
    ensures tests { IsOk result ↔ IsChecked R.form over.now least level n }
    ensures refused { IfErr result (RefusesBlock R.form over.now least level n) }
{
    let block = over.block(n);
    if level == 0 {
        check_leaf::<R>(over, n, least, block)
    } else {
        check_node::<R>(over, n, level, least, block)
    }
}

/// Whether a tested block has a key.
fn has_key<R: Record>(over: &Overlay, n: u32, level: u32, key: &[u8]) -> bool
    requires within { n < pool_size over.now }
    requires tested { (least : ℕ) × IsChecked R.form over.now least level n }
    requires long { length key.now ≡ key_size R.form }
    ensures { IsTrue result ↔ key.now ≡ key_held R.form (tree_held R.form over.now) level n }
{
    let block = over.block(n);
    if count_of(block) == 0 {
        false
    } else if level == 0 {
        is_key_of_leaf::<R>(block, key)
    } else {
        is_key_of_node::<R>(block, key)
    }
}

/// Whether a tested block has the key that its parent gives, if it has a parent.
pub(crate) fn is_named<R: Record>(over: &Overlay, n: u32, level: u32, key: Option<&[u8]>) -> bool
    requires within { n < pool_size over.now }
    requires tested { (least : ℕ) × IsChecked R.form over.now least level n }
    requires long { IfSome key (λ k. length k.now ≡ key_size R.form) }
    ensures { IsTrue result ↔ IfSome key.entry (λ k. k.now ≡ key_held R.form (tree_held R.form over.now) level n) }
{
    match key {
        Some(key) => has_key::<R>(over, n, level, key),
        None => true,
    }
}

/// Marks a block and tests it by itself.
pub(crate) fn open<R: Record>(
    over: &Overlay,
    n: u32,
    level: u32,
    least: usize,
    seen: &mut [u8],
) -> Result<(), TreeKind>
    requires within { n < pool_size over.now }
    requires room { pool_size over.now ≤ 8 * length seen.old }
    ensures tests { IsOk result ↔ (IsUnvisited over.now n seen.old × IsChecked R.form over.now least level n) }
    ensures refused { IfErr result (RefusesOpening R.form over.now least level n seen.old) }
    ensures marked { IsOk result → AreMarked seen.old (n ∷ []) seen.new }
    ensures long { length seen.new ≡ length seen.old }
{
    mark(over, n, seen)?;
    check_block::<R>(over, n, level, least)
}
