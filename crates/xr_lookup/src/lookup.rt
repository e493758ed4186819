//! Lookups in a tree, each on one path from the root down to the leaves.
ghost use Rattle.std.specs.Prelude.{◌≡◌, ◌+◌, ◌<◌, None, false, IsTrue, length, slice_index_or, reverse};
ghost use Rattle.std.specs.List.{find, slice_get};
ghost use Rattle.xr_block.specs.Bounds.{IsPlaceOf, entry_is_before, is_before};
ghost use Rattle.xr_lookup.specs.Lookup.{FindsGreatest, FindsLeast, bound_after, from, is_wanted, overlaps, up_to};
ghost use Rattle.xr_pool.specs.Overlay.{block_at};
ghost use Rattle.xr_block.specs.Tree.{tree_records};
ghost use Rattle.xr_block.specs.TreeBlock.{Entry, entries_in, records_in};
ghost use Rattle.xr_block.specs.Under.{IsUnder};
ghost use Rattle.xr_block.specs.Trees.{IsTree, records_of_tree};

use crate::reach::Reach;
use crate::steps::{
    child_count, child_of, children_before, reach_of, record_count, record_of, records_before,
};
use xr_block::Root;
use xr_block::bound::Bound;
use xr_kinds::Record;
use xr_pool::Overlay;

/// What is looked for from a place of the order on: any record, or one that meets another.
#[derive(Clone, Copy)]
pub(crate) struct Wanted<R> {
    from: Bound<R>,
    meeting: Option<R>,
}

impl<R: Record> Wanted<R> {
    fn takes(&self, other: &R) -> bool
        ensures { result ≡ is_wanted R.form self.now other.now }
    {
        let meets = match &self.meeting {
            None => true,
            Some(r) => other.meets(r),
        };
        meets && !self.from.passes(other)
    }
}

/// The last record of a leaf before a place of the order.
fn last_in_leaf<R: Record>(over: &Overlay, n: u32, bound: &Bound<R>) -> Option<R>
    requires { IsUnder R.form over.now 0 n }
    ensures { result ≡ find (is_before R.form bound.now) (reverse (tree_records R.form over.now n 0)) }
{
    let k = records_before(over, n, bound).checked_sub(1)?;
    record_of(over, n, k)
}

/// The last record under a block before a place of the order.
fn last_before<R: Record>(over: &Overlay, n: u32, level: u32, bound: &Bound<R>) -> Option<R>
    requires { IsUnder R.form over.now level n }
    ensures { result ≡ find (is_before R.form bound.now) (reverse (tree_records R.form over.now n level)) }
{
    if level == 0 {
        return last_in_leaf(over, n, bound);
    }
    let k = children_before(over, n, level - 1, bound).checked_sub(1)?;
    last_before(over, child_of::<R>(over, n, level - 1, k), level - 1, bound)
}

/// The place after a record, if one is given.
fn bound_after<R: Record>(after: Option<R>) -> Bound<R>
    ensures { result ≡ bound_after after }
{
    match after {
        None => Bound::Start,
        Some(r) => Bound::After(r),
    }
}

/// The first record of a leaf that is wanted.
fn first_in_leaf<R: Record>(over: &Overlay, n: u32, wanted: &Wanted<R>) -> Option<R>
    requires { IsUnder R.form over.now 0 n }
    ensures { result ≡ find (is_wanted R.form wanted.now) (tree_records R.form over.now n 0) }
{
    for k in records_before(over, n, &wanted.from)..record_count::<R>(over, n) {
        let record = record_of(over, n, k)?;
        if wanted.takes(&record) {
            return Some(record);
        }
    }
    None
}

/// Whether a record that is wanted may stand under a child of a node, whose level is given.
fn may_hold<R: Reach>(over: &Overlay, n: u32, level: u32, k: usize, wanted: &Wanted<R>) -> bool
    requires node { IsUnder R.form over.now (level + 1) n }
    requires within { k < length (entries_in R.form (block_at over.now n)) }
    ensures { result ≡ false → (d : Entry) → (let e = slice_index_or (entries_in R.form (block_at over.now n)) k d in
        None ≡ find (is_wanted R.form wanted.now) (tree_records R.form over.now e.child level)) }
{
    match &wanted.meeting {
        None => true,
        Some(r) => reach_of::<R>(over, n, level, k).meets(r.run()),
    }
}

/// The first record under a block that is wanted.
fn first_from<R: Reach>(over: &Overlay, n: u32, level: u32, wanted: &Wanted<R>) -> Option<R>
    requires { IsUnder R.form over.now level n }
    ensures { result ≡ find (is_wanted R.form wanted.now) (tree_records R.form over.now n level) }
{
    if level == 0 {
        return first_in_leaf(over, n, wanted);
    }
    let start = children_before(over, n, level - 1, &wanted.from).saturating_sub(1);
    for k in start..child_count::<R>(over, n, level - 1) {
        if !may_hold(over, n, level - 1, k, wanted) {
            continue;
        }
        let child = child_of::<R>(over, n, level - 1, k);
        let found = first_from(over, child, level - 1, wanted);
        if found.is_some() {
            return found;
        }
    }
    None
}

/// The greatest record of a tree that isn't above another.
pub fn at_most<R: Reach>(over: &Overlay, root: Root, r: &R) -> Option<R>
    requires { IsTree R.form over.now root }
    ensures { FindsGreatest R.form (records_of_tree R.form over.now root) (up_to R.form r.now) result }
{
    last_before(over, root.block, root.level, &Bound::After(*r))
}

/// The least record of a tree that isn't below another.
pub fn at_least<R: Reach>(over: &Overlay, root: Root, r: &R) -> Option<R>
    requires { IsTree R.form over.now root }
    ensures { FindsLeast R.form (records_of_tree R.form over.now root) (from R.form r.now) result }
{
    let wanted = Wanted {
        from: Bound::Before(*r),
        meeting: None,
    };
    first_from(over, root.block, root.level, &wanted)
}

/// The first record of a tree, in its order, that meets a valid one. Where a record is given to go on after, it is the
/// first after that.
pub fn overlap<R: Reach>(over: &Overlay, root: Root, with: &R, after: Option<R>) -> Option<R>
    requires tree { IsTree R.form over.now root }
    requires valid { IsTrue (R.form.is_valid with.now) }
    ensures { FindsLeast R.form (records_of_tree R.form over.now root) (overlaps R.form with.now after) result }
{
    let overlapping = Wanted {
        from: bound_after(after),
        meeting: Some(*with),
    };
    first_from(over, root.block, root.level, &overlapping)
}
