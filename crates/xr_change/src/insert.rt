//! A record more in a tree: on the path down full blocks are split, and on the path back keys are updated.
ghost use Rattle.std.specs.Prelude.{◌≡◌, ◌+◌, ◌*◌, ◌≤◌, ◌<◌, IsTrue};
ghost use Rattle.xr_pool.specs.Overlay.{free_count};
ghost use Rattle.xr_block.specs.Tree.{AreRecords};
ghost use Rattle.xr_change.specs.Sets.{inserted};
ghost use Rattle.xr_change.specs.Paths.{item_count, max_records, HasSome, IsInTree, child_of, full_on_path};
ghost use Rattle.xr_change.specs.Changes.{HasPathWithRoom, Inserts};
ghost use Rattle.xr_change.specs.Calls.{ChangesTree, blocks_for};
ghost use Rattle.xr_block.specs.Trees.{IsTree, records_of_tree};

use crate::draft::Draft;
use crate::path::{PathStep, child_block, is_full, path_with_room};
use crate::root::grow_root;
use crate::write::update_key;
use xr_block::bound::Bound;
use xr_block::search::record_place;
use xr_block::{Root, insert_record};
use xr_kinds::Record;
use xr_pool::Overlay;

/// Puts a record into a tree. Gives the root, which is a new block where the old one was full.
pub fn insert_into_tree<R: Record>(over: &mut Overlay, root: Root, r: &R) -> Root
    requires tree { IsTree R.form over.old root }
    requires rules { AreRecords R.form (inserted R.form.order r.now (records_of_tree R.form over.old root)) }
    requires room { blocks_for R.form over.old root r.now ≤ free_count over.old }
    ensures step { ChangesTree R.form over.old root over.new result (inserted R.form.order r.now) }
    ensures room { free_count over.old ≤ free_count over.new + blocks_for R.form over.old root r.now }
{
    let mut draft = Draft::of(over.take());
    let top = insert_in_draft(&mut draft, root, r);
    *over = draft.finish();
    top
}

/// Puts a record into a tree. Gives the root, which is a new block where the old one was full.
#[tactic(auto, using(crate::proofs::WholeTreeLemmas::root_here))]
fn insert_in_draft<R: Record>(draft: &mut Draft<R>, root: Root, r: &R) -> Root
    requires tree { IsTree R.form draft.old root }
    requires rules { AreRecords R.form (inserted R.form.order r.now (records_of_tree R.form draft.old root)) }
    requires room { blocks_for R.form draft.old root r.now ≤ free_count draft.old }
    ensures step { ChangesTree R.form draft.old root draft.new result (inserted R.form.order r.now) }
    ensures room { free_count draft.old ≤ free_count draft.new + blocks_for R.form draft.old root r.now }
{
    if !is_full::<R>(draft, root.block, root.level) {
        insert_below(draft, root.block, root.level, r);
        return root;
    }
    let top = grow_root::<R>(draft, root, r);
    insert_below(draft, top.block, top.level, r);
    top
}

/// The child of a node under which a record belongs, with room for one item more. The level is that of the children.
fn step_down<R: Record>(draft: &mut Draft<R>, n: u32, level: u32, r: &R) -> PathStep
    requires here { IsInTree R.form draft.old (level + 1) n }
    requires some { 1 ≤ item_count R.form draft.old (level + 1) n }
    requires room { item_count R.form draft.old (level + 1) n < R.form.node_max }
    requires free { full_on_path R.form draft.old (level + 1) n r.now ≤ free_count draft.old }
    ensures path { HasPathWithRoom R.form draft.old draft.new level n r.now result.place }
    ensures child { result.child ≡ child_of R.form draft.new n result.place }
    ensures here { IsInTree R.form draft.new level result.child }
    ensures some { HasSome R.form draft.new level result.child }
    ensures room { item_count R.form draft.new level result.child < max_records R.form level }
    ensures free { full_on_path R.form draft.new level result.child r.now ≤ free_count draft.new }
{
    let place = path_with_room(draft, n, level, r);
    let child = child_block::<R>(draft, n, level, place);
    PathStep { place, child }
}

/// Puts a record under a block that isn't full.
pub(crate) fn insert_below<R: Record>(draft: &mut Draft<R>, n: u32, level: u32, r: &R)
    requires here { IsInTree R.form draft.old level n }
    requires some { HasSome R.form draft.old level n }
    requires room { item_count R.form draft.old level n < max_records R.form level }
    requires free { full_on_path R.form draft.old level n r.now ≤ free_count draft.old }
    requires valid { IsTrue (R.form.is_valid r.now) }
    ensures { Inserts R.form draft.old draft.new level n r.now }
{
    if level == 0 {
        insert_in_leaf(draft, n, r);
        return;
    }
    let below = level - 1;
    let step = step_down(draft, n, below, r);
    draft.is_known();
    insert_below(draft, step.child, below, r);
    update_key::<R>(draft, n, below, step.place, step.child);
}

/// Puts a record into a leaf that isn't full.
pub(crate) fn insert_in_leaf<R: Record>(draft: &mut Draft<R>, n: u32, r: &R)
    requires here { IsInTree R.form draft.old 0 n }
    requires room { item_count R.form draft.old 0 n < R.form.leaf_max }
    requires valid { IsTrue (R.form.is_valid r.now) }
    ensures { Inserts R.form draft.old draft.new 0 n r.now }
{
    draft.is_known();
    let k = record_place(draft.block(n), &Bound::Before(*r));
    insert_record(draft.block_mut(n), k, r);
}
