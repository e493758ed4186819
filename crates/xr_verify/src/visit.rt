//! Whether the blocks below a root are a tree. Each block is visited before its children, from left to right, and each is
//! tested before its pointers are followed. No memory is taken: the ledger of the records stands on the stack.
ghost use Rattle.std.specs.Prelude.{◌≡◌, ℕ, ◌+◌, ◌*◌, ◌-◌, ◌<◌, ◌≤◌, ◌==◌, ◌&&◌, ◌↔◌, ◌++◌};
ghost use Rattle.std.specs.Prelude.{[], ◌∷◌, true, false, None, length, List, IsOk, Err, IfErr, IfOk, IfSome};
ghost use Rattle.std.specs.List.{All, Contains};
ghost use Rattle.xr_pool.specs.Bits.{has_bit};
ghost use Rattle.xr_kinds.specs.Form.{key_size};
ghost use Rattle.xr_block.specs.NodeEntries.{key_in};
ghost use Rattle.xr_pool.specs.Overlay.{block_at, pool_size};
ghost use Rattle.xr_verify.specs.Passed.{IsPast};
ghost use Rattle.xr_block.specs.Rows.{min_records, key_held};
ghost use Rattle.xr_block.specs.Tree.{AreRecords, IsTreeIn, blocks_of, least_of_root, records_of, tree_blocks, tree_held};
ghost use Rattle.xr_block.specs.TreeBlock.{count_in, records_in};
ghost use Rattle.xr_verify.specs.Refusals.{RefusesBelow, RefusesChildren, RefusesLeafAfter, RefusesNodeAfter};
ghost use Rattle.xr_verify.specs.Refusals.{RefusesPlace, RefusesPointer, RefusesTree};
ghost use Rattle.xr_verify.specs.Visits.{AreMarked, AreNamedFrom, AreSound, IsEntered, IsLinked, children};
ghost use Rattle.xr_verify.specs.Visits.{last_below, HasChildren, IsChecked, IsKeyOf};
ghost use Rattle.xr_block.specs.Trees.{IsOwnTree, Marks, blocks_of_tree};

use crate::enter::{is_named, open};
use crate::ledger::{Kept, Ledger};
use crate::links::{is_linked, last_child};
use crate::passed::Passed;
use xr_block::Root;
use xr_block::fault::{TreeFault, TreeKind};
use xr_block::read::{child_at, count_of, key_at, record_count};
use xr_kinds::Record;
use xr_pool::{Block, Overlay};

/// A block that is to be visited, with the least number of its items, the block that was visited before it in its level, and
/// whether it is the last of its level.
#[derive(Clone, Copy)]
pub(crate) struct Spot {
    number: u32,
    least: usize,
    left: Option<u64>,
    last: bool,
}

/// Whether an open block has the key that its parent gives, and is linked to its siblings.
fn check_place<R: Record>(
    over: &Overlay,
    level: u32,
    spot: Spot,
    key: Option<&[u8]>,
) -> Result<(), TreeKind>
    requires within { spot.number < pool_size over.now }
    requires tested { (least : ℕ) × IsChecked R.form over.now least level spot.number }
    requires long { IfSome key (λ k. length k.now ≡ key_size R.form) }
    ensures right { IsOk result
        ↔ (IsKeyOf R.form over.now level spot.number key.entry × IsLinked R.form over.now spot.left spot.last spot.number) }
    ensures refused { IfErr result
        (RefusesPlace R.form over.now spot.left spot.last spot.number (IsKeyOf R.form over.now level spot.number key.entry)) }
{
    if !is_named::<R>(over, spot.number, level, key) {
        Err(TreeKind::Key)
    } else if !is_linked::<R>(over, spot.left, spot.last, spot.number) {
        Err(TreeKind::Sibling)
    } else {
        Ok(())
    }
}

/// Visits a leaf: passes its records, if the leaf and they keep all rules.
fn enter_leaf<R: Record, L: Ledger<R>>(
    over: &Overlay,
    spot: Spot,
    key: Option<&[u8]>,
    passed: &mut Passed<R, L>,
    seen: &mut [u8],
) -> Result<(), TreeKind>
    requires from { 1 ≤ spot.number }
    requires within { spot.number < pool_size over.now }
    requires room { pool_size over.now ≤ 8 * length seen.old }
    requires long { IfSome key (λ k. length k.now ≡ key_size R.form) }
    ensures rules { (noted : List R) → IsPast R.form L.notes passed.old noted
        → (IsOk result ↔ (IsEntered R.form over.now spot.least 0 spot.left spot.last spot.number seen.old
        × IsKeyOf R.form over.now 0 spot.number key.entry × AreRecords R.form (noted ++ records_in R.form (block_at over.now spot.number)))) }
    ensures refused { (noted : List R) → IsPast R.form L.notes passed.old noted
        → IfErr result (RefusesLeafAfter R.form over.now spot.least spot.left spot.last spot.number
        (IsKeyOf R.form over.now 0 spot.number key.entry) seen.old noted) }
    ensures past { (noted : List R) → IsPast R.form L.notes passed.old noted → IsOk result
        → IsPast R.form L.notes passed.new (noted ++ records_in R.form (block_at over.now spot.number)) }
    ensures marked { IsOk result → AreMarked seen.old (spot.number ∷ []) seen.new }
    ensures long { length seen.new ≡ length seen.old }
{
    open::<R>(over, spot.number, 0, spot.least, seen)?;
    let block = over.block(spot.number);
    passed.pass(block)?;
    check_place::<R>(over, 0, spot, key)?;
    passed.take_room(record_count::<R>(block))
}

/// Visits a node, without the blocks below it.
fn enter_node<R: Record>(
    over: &Overlay,
    level: u32,
    spot: Spot,
    key: Option<&[u8]>,
    seen: &mut [u8],
) -> Result<(), TreeKind>
    requires from { 1 ≤ spot.number }
    requires within { spot.number < pool_size over.now }
    requires room { pool_size over.now ≤ 8 * length seen.old }
    requires long { IfSome key (λ k. length k.now ≡ key_size R.form) }
    ensures rules { IsOk result ↔ (IsEntered R.form over.now spot.least level spot.left spot.last spot.number seen.old
        × IsKeyOf R.form over.now level spot.number key.entry) }
    ensures refused { IfErr result
        (RefusesNodeAfter R.form over.now spot.least level spot.left spot.last spot.number
        (IsKeyOf R.form over.now level spot.number key.entry) seen.old) }
    ensures marked { IsOk result → AreMarked seen.old (spot.number ∷ []) seen.new }
    ensures long { length seen.new ≡ length seen.old }
{
    open::<R>(over, spot.number, level, spot.least, seen)?;
    check_place::<R>(over, level, spot, key)
}

/// What is wrong with a block, with the image block that shows it.
fn at_block(over: &Overlay, n: u32, tested: Result<(), TreeKind>) -> Result<(), TreeFault>
    requires { n < pool_size over.now }
    ensures same { IsOk result ↔ IsOk tested }
    ensures named { IfErr tested (λ kind. result ≡ Err (record { block = over.now.first + n; kind = kind })) }
{
    match tested {
        Ok(()) => Ok(()),
        Err(kind) => Err(TreeFault {
            block: over.place(n),
            kind,
        }),
    }
}

/// The block that a pointer names, if it is one of the pool. Another is the fault of the block that holds the pointer.
fn in_pool(over: &Overlay, n: u32, pointer: u64) -> Result<u32, TreeFault>
    requires { n ≤ pool_size over.now }
    ensures within { IsOk result ↔ (1 ≤ pointer) × (pointer < pool_size over.now) }
    ensures refused { IfErr result (RefusesPointer over.now n pointer) }
    ensures value { IfOk result (λ number. number ≡ pointer) }
    ensures from { IfOk result (λ number. 1 ≤ number) }
    ensures below { IfOk result (λ number. number < pool_size over.now) }
{
    if pointer > 0 && pointer < u64::from(over.len()) {
        Ok(pointer as u32)
    } else {
        Err(TreeFault {
            block: over.place(n),
            kind: TreeKind::Range,
        })
    }
}

/// The least number of items of a block that has a parent.
#[tactic(auto, unfolding(xr_block::specs::Rows::min_records))]
fn least_below<R: Record>(level: u32) -> usize
    ensures value { result ≡ min_records R.form level }
    ensures some { HasChildren result level }
{
    if level == 0 {
        R::LEAF_MAX as usize / 2
    } else {
        R::NODE_MAX as usize / 2
    }
}

/// Whether the child at a place is the last of its level.
fn is_last(last: bool, k: usize, count: usize) -> bool
    requires { k < count }
    ensures { result ≡ (k + 1 == count && last) }
{
    k + 1 == count && last
}

/// The key that a node gives to a child.
fn child_key<R: Record>(block: &Block, k: usize) -> &[u8]
    requires { k < R.NODE_MAX }
    ensures value { result.now ≡ key_in R.form k block.now }
    ensures long { length result.now ≡ key_size R.form }
{
    key_at::<R>(block, k)
}

/// Visits the blocks below a node, which stand at a level.
#[cycle(visiting)]
fn visit_children<R: Record, L: Ledger<R>>(
    over: &Overlay,
    level: u32,
    node: Spot,
    passed: &mut Passed<R, L>,
    seen: &mut [u8],
) -> Result<(), TreeFault>
    requires within { node.number < pool_size over.now }
    requires few { count_in (block_at over.now node.number) ≤ R.form.node_max }
    requires room { pool_size over.now ≤ 8 * length seen.old }
    ensures rules { (noted : List R) → IsPast R.form L.notes passed.old noted
        → (IsOk result
        ↔ (AreSound R.form over.now (min_records R.form level) level (last_below R.form over.now node.left) node.last
        (children R.form over.now node.number) seen.old noted × AreNamedFrom R.form over.now level node.number 0)) }
    ensures refused { (noted : List R) → IsPast R.form L.notes passed.old noted
        → IfErr result (RefusesChildren R.form over.now level node.number node.left node.last seen.old noted) }
    ensures past { (noted : List R) → IsPast R.form L.notes passed.old noted → IsOk result
        → IsPast R.form L.notes passed.new (noted ++ records_of R.form over.now level (children R.form over.now node.number)) }
    ensures marked { IsOk result → AreMarked seen.old (blocks_of R.form over.now level (children R.form over.now node.number)) seen.new }
    ensures long { length seen.new ≡ length seen.old }
{
    let block = over.block(node.number);
    let count = count_of(block);
    let mut left = last_child::<R>(over, node.left);
    for k in 0..count {
        let number = in_pool(over, node.number, child_at::<R>(block, k))?;
        let child = Spot {
            number,
            least: least_below::<R>(level),
            left,
            last: is_last(node.last, k, count),
        };
        visit(
            over,
            level,
            child,
            Some(child_key::<R>(block, k)),
            passed,
            seen,
        )?;
        left = Some(u64::from(number));
    }
    Ok(())
}

/// Visits a block of a level and all that is below it.
#[cycle(visiting)]
fn visit<R: Record, L: Ledger<R>>(
    over: &Overlay,
    level: u32,
    spot: Spot,
    key: Option<&[u8]>,
    passed: &mut Passed<R, L>,
    seen: &mut [u8],
) -> Result<(), TreeFault>
    requires from { 1 ≤ spot.number }
    requires within { spot.number < pool_size over.now }
    requires some { HasChildren spot.least level }
    requires room { pool_size over.now ≤ 8 * length seen.old }
    requires long { IfSome key (λ k. length k.now ≡ key_size R.form) }
    ensures rules { (noted : List R) → IsPast R.form L.notes passed.old noted
        → (IsOk result ↔ (AreSound R.form over.now spot.least level spot.left spot.last (spot.number ∷ []) seen.old noted
        × IsKeyOf R.form over.now level spot.number key.entry)) }
    ensures refused { (noted : List R) → IsPast R.form L.notes passed.old noted
        → IfErr result (RefusesBelow R.form over.now level spot.least spot.left spot.last spot.number
        (IsKeyOf R.form over.now level spot.number key.entry) seen.old noted) }
    ensures past { (noted : List R) → IsPast R.form L.notes passed.old noted → IsOk result
        → IsPast R.form L.notes passed.new (noted ++ records_of R.form over.now level (spot.number ∷ [])) }
    ensures marked { IsOk result → AreMarked seen.old (blocks_of R.form over.now level (spot.number ∷ [])) seen.new }
    ensures long { length seen.new ≡ length seen.old }
{
    if level == 0 {
        let entered = enter_leaf(over, spot, key, passed, seen);
        at_block(over, spot.number, entered)
    } else {
        let entered = enter_node::<R>(over, level, spot, key, seen);
        at_block(over, spot.number, entered)?;
        visit_children(over, level - 1, spot, passed, seen)
    }
}

/// Where a root stands: it has no siblings, and two children at least if it is a node.
fn root_spot(root: u32, level: u32) -> Spot
    ensures number { result.number ≡ root }
    ensures least { result.least ≡ least_of_root level }
    ensures left { result.left ≡ None }
    ensures last { result.last ≡ true }
    ensures some { HasChildren result.least level }
{
    Spot {
        number: root,
        least: if level == 0 { 0 } else { 2 },
        left: None,
        last: true,
    }
}

/// Visits a root and all that is below it.
fn visit_root<R: Kept>(over: &Overlay, root: Root, seen: &mut [u8]) -> Result<(), TreeFault>
    requires { pool_size over.now ≤ 8 * length seen.old }
    ensures right { IsOk result ↔ IsOwnTree R.form over.now root seen.old }
    ensures refused { IfErr result (RefusesTree R.form over.now root seen.old) }
    ensures marked { IsOk result → AreMarked seen.old (blocks_of_tree R.form over.now root) seen.new }
    ensures long { length seen.new ≡ length seen.old }
{
    over.has_blocks();
    in_pool(over, 0, u64::from(root.block))?;
    let mut passed = Passed::<R, R::Ledger>::new();
    let spot = root_spot(root.block, root.level);
    visit(over, root.level, spot, None, &mut passed, seen)
}

/// Ok where the blocks below a root are a tree and none of them is marked in `seen`, which has a bit for each block of the
/// pool: bit `n % 8` of byte `n / 8`, the lowest first, for block `n`. The tree's blocks are marked there. A refusal names the
/// first block that breaks a rule, as they are visited, and the first rule that it breaks. After it `seen` may hold any marks.
pub fn verify<R: Kept>(over: &Overlay, root: Root, seen: &mut [u8]) -> Result<(), TreeFault>
    requires { pool_size over.now ≤ 8 * length seen.old }
    ensures right { IsOk result ↔ IsOwnTree R.form over.now root seen.old }
    ensures refused { IfErr result (RefusesTree R.form over.now root seen.old) }
    ensures long { length seen.new ≡ length seen.old }
    ensures marked { IsOk result → Marks seen.old (blocks_of_tree R.form over.now root) seen.new }
{
    visit_root::<R>(over, root, seen)
}
