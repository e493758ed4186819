//! A record in the place of another. No block has another number of items then, so keys alone are updated.
ghost use Rattle.std.specs.Prelude.{◌≡◌, ◌+◌, ◌*◌, ◌≤◌, [], ◌∷◌, IsTrue, ◌<◌};
ghost use Rattle.std.specs.List.{Contains};
ghost use Rattle.xr_pool.specs.Overlay.{free_count};
ghost use Rattle.xr_block.specs.Tree.{AreRecords, records_of};
ghost use Rattle.xr_change.specs.Sets.{replaced};
ghost use Rattle.xr_change.specs.Paths.{HasSome, IsInTree, child_of, item_count};
ghost use Rattle.xr_change.specs.Changes.{HasPath, Replaces};
ghost use Rattle.xr_change.specs.Calls.{ChangesTree};
ghost use Rattle.xr_block.specs.Trees.{IsTree, records_of_tree};

use crate::draft::Draft;
use crate::path::{PathStep, child_block, path_index};
use crate::write::update_key;
use xr_block::bound::Bound;
use xr_block::search::record_place;
use xr_block::{Root, replace_record};
use xr_kinds::Record;
use xr_pool::Overlay;

/// Writes a record over another one of a tree, in whose place of the order it stands.
pub fn replace_in_tree<R: Record>(over: &mut Overlay, root: Root, old: &R, new: &R)
    requires tree { IsTree R.form over.old root }
    requires held { Contains (records_of_tree R.form over.old root) old.now }
    requires rules { AreRecords R.form (replaced R.form.order old.now new.now (records_of_tree R.form over.old root)) }
    ensures step { ChangesTree R.form over.old root over.new root (replaced R.form.order old.now new.now) }
    ensures room { free_count over.new ≡ free_count over.old }
{
    let mut draft = Draft::of(over.take());
    replace_in_draft(&mut draft, root, old, new);
    *over = draft.finish();
}

/// Writes a record over another one of a tree, in whose place of the order it stands.
#[tactic(auto, using(crate::proofs::WholeTreeLemmas::root_here))]
fn replace_in_draft<R: Record>(draft: &mut Draft<R>, root: Root, old: &R, new: &R)
    requires tree { IsTree R.form draft.old root }
    requires held { Contains (records_of_tree R.form draft.old root) old.now }
    requires rules { AreRecords R.form (replaced R.form.order old.now new.now (records_of_tree R.form draft.old root)) }
    ensures step { ChangesTree R.form draft.old root draft.new root (replaced R.form.order old.now new.now) }
    ensures room { free_count draft.new ≡ free_count draft.old }
{
    replace_below(draft, root.block, root.level, old, new);
}

/// The child of a node under which a record stands. The level is that of the children.
fn step_down<R: Record>(draft: &Draft<R>, n: u32, level: u32, r: &R) -> PathStep
    requires here { IsInTree R.form draft.now (level + 1) n }
    requires some { 1 ≤ item_count R.form draft.now (level + 1) n }
    requires held { Contains (records_of R.form draft.now (level + 1) (n ∷ [])) r.now }
    ensures path { (new : R) → HasPath R.form draft.now draft.now 0 level n result.place (replaced R.form.order r.now new) }
    ensures child { result.child ≡ child_of R.form draft.now n result.place }
    ensures here { IsInTree R.form draft.now level result.child }
    ensures some { HasSome R.form draft.now level result.child }
    ensures held { Contains (records_of R.form draft.now level (result.child ∷ [])) r.now }
{
    let place = path_index(draft, n, level, r);
    let child = child_block::<R>(draft, n, level, place);
    PathStep { place, child }
}

/// Writes a record over another one under a block.
pub(crate) fn replace_below<R: Record>(draft: &mut Draft<R>, n: u32, level: u32, old: &R, new: &R)
    requires here { IsInTree R.form draft.old level n }
    requires some { HasSome R.form draft.old level n }
    requires held { Contains (records_of R.form draft.old level (n ∷ [])) old.now }
    requires valid { IsTrue (R.form.is_valid new.now) }
    ensures { Replaces R.form draft.old draft.new level n old.now new.now }
{
    if level == 0 {
        replace_in_leaf(draft, n, old, new);
        return;
    }
    let below = level - 1;
    let step = step_down(draft, n, below, old);
    draft.is_known();
    replace_below(draft, step.child, below, old, new);
    update_key::<R>(draft, n, below, step.place, step.child);
}

/// Writes a record over another one of a leaf.
pub(crate) fn replace_in_leaf<R: Record>(draft: &mut Draft<R>, n: u32, old: &R, new: &R)
    requires here { IsInTree R.form draft.old 0 n }
    requires held { Contains (records_of R.form draft.old 0 (n ∷ [])) old.now }
    requires valid { IsTrue (R.form.is_valid new.now) }
    ensures { Replaces R.form draft.old draft.new 0 n old.now new.now }
{
    draft.is_known();
    let k = record_place(draft.block(n), &Bound::Before(*old));
    replace_record(draft.block_mut(n), k, new);
}
