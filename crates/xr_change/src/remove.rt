//! A record less in a tree: on the path down blocks that have no more than the least number of items are given some of a
//! sibling or joined with it, and on the path back keys are updated.
ghost use Rattle.std.specs.Prelude.{◌≡◌, ◌+◌, ◌*◌, ◌≤◌, [], ◌∷◌, ◌<◌};
ghost use Rattle.std.specs.List.{Contains};
ghost use Rattle.xr_pool.specs.Overlay.{free_count};
ghost use Rattle.xr_block.specs.Tree.{records_of};
ghost use Rattle.xr_change.specs.Sets.{removed};
ghost use Rattle.xr_change.specs.Paths.{HasTwo, IsInTree, child_of, item_count};
ghost use Rattle.xr_change.specs.Changes.{HasPathWithSurplus, Removes};
ghost use Rattle.xr_change.specs.Calls.{ChangesTree};
ghost use Rattle.xr_block.specs.Trees.{IsTree, records_of_tree};

use crate::draft::Draft;
use crate::path::{PathStep, child_block, path_with_surplus};
use crate::root::shrink_root;
use crate::write::update_key;
use xr_block::bound::Bound;
use xr_block::search::record_place;
use xr_block::{Root, remove_record};
use xr_kinds::Record;
use xr_pool::Overlay;

/// Cuts a record out of a tree. Gives the root, which is another block where the old one had one child left.
pub fn remove_from_tree<R: Record>(over: &mut Overlay, root: Root, r: &R) -> Root
    requires tree { IsTree R.form over.old root }
    requires held { Contains (records_of_tree R.form over.old root) r.now }
    ensures step { ChangesTree R.form over.old root over.new result (removed R.form.order r.now) }
    ensures room { free_count over.old ≤ free_count over.new }
{
    let mut draft = Draft::of(over.take());
    let top = remove_in_draft(&mut draft, root, r);
    *over = draft.finish();
    top
}

/// Cuts a record out of a tree. Gives the root, which is another block where the old one had one child left.
#[tactic(auto, using(crate::proofs::WholeTreeLemmas::root_here))]
fn remove_in_draft<R: Record>(draft: &mut Draft<R>, root: Root, r: &R) -> Root
    requires tree { IsTree R.form draft.old root }
    requires held { Contains (records_of_tree R.form draft.old root) r.now }
    ensures step { ChangesTree R.form draft.old root draft.new result (removed R.form.order r.now) }
    ensures room { free_count draft.old ≤ free_count draft.new }
{
    remove_below(draft, root.block, root.level, r);
    shrink_root::<R>(draft, root)
}

/// The child of a node under which a record stands, with an item more than it needs. The level is that of the children.
fn step_down<R: Record>(draft: &mut Draft<R>, n: u32, level: u32, r: &R) -> PathStep
    requires here { IsInTree R.form draft.old (level + 1) n }
    requires two { 2 ≤ item_count R.form draft.old (level + 1) n }
    requires held { Contains (records_of R.form draft.old (level + 1) (n ∷ [])) r.now }
    ensures path { HasPathWithSurplus R.form draft.old draft.new level n r.now result.place }
    ensures child { result.child ≡ child_of R.form draft.new n result.place }
    ensures here { IsInTree R.form draft.new level result.child }
    ensures two { HasTwo R.form draft.new level result.child }
    ensures held { Contains (records_of R.form draft.new level (result.child ∷ [])) r.now }
{
    let place = path_with_surplus(draft, n, level, r);
    let child = child_block::<R>(draft, n, level, place);
    PathStep { place, child }
}

/// Cuts a record out from under a block that may have an item less.
pub(crate) fn remove_below<R: Record>(draft: &mut Draft<R>, n: u32, level: u32, r: &R)
    requires here { IsInTree R.form draft.old level n }
    requires two { HasTwo R.form draft.old level n }
    requires held { Contains (records_of R.form draft.old level (n ∷ [])) r.now }
    ensures { Removes R.form draft.old draft.new level n r.now }
{
    if level == 0 {
        remove_from_leaf(draft, n, r);
        return;
    }
    let below = level - 1;
    let step = step_down(draft, n, below, r);
    draft.is_known();
    remove_below(draft, step.child, below, r);
    update_key::<R>(draft, n, below, step.place, step.child);
}

/// Cuts a record out of a leaf.
pub(crate) fn remove_from_leaf<R: Record>(draft: &mut Draft<R>, n: u32, r: &R)
    requires here { IsInTree R.form draft.old 0 n }
    requires held { Contains (records_of R.form draft.old 0 (n ∷ [])) r.now }
    ensures { Removes R.form draft.old draft.new 0 n r.now }
{
    draft.is_known();
    let k = record_place(draft.block(n), &Bound::Before(*r));
    remove_record::<R>(draft.block_mut(n), k);
}
