//! The owners of a group's blocks, and how some of them come and go.
ghost use Rattle.std.specs.Prelude.{◌≡◌, ◌<◌, ◌≤◌, true, length};
ghost use Rattle.xr_change.specs.TreeSteps.{IsTreeStep};
ghost use Rattle.xr_kinds.specs.Reverse.{is_reverse, reverse_form};
ghost use Rattle.xr_lookup.specs.Lookup.{FindsLeast, is_after};
ghost use Rattle.xr_pool.specs.Overlay.{free_count};
ghost use Rattle.xr_rmap.specs.Rmap.{GainsPairsOf, HasAllOf, HasNoneOf, IsRmap, LosesPairsOf, owned_run, owner_records};

use xr_base::geometry::{FIRST_DATA_BLOCK, GROUP_BLOCKS, OWN_COW};
use xr_kinds::{Reverse, Span};
use xr_pool::Overlay;
use xr_tree::Tree;

/// The owners of the blocks of a group: a set of pairs of a block with an owner and the owner's offset. The owner is a file,
/// by its inode number, or `OWN_COW`, at the offset 0, for a staged block. A block may have many owners, and an owner a
/// block at many offsets.
#[derive(Clone, Copy)]
pub struct Rmap {
    pub tree: Tree<Reverse>,
}

impl Rmap {
    /// How many records the pairs make.
    pub fn count(&self, over: &Overlay) -> u32
        requires { IsRmap over.now self.now }
        ensures { result ≡ length (owner_records over.now self.now) }
    {
        self.tree.count(over)
    }

    /// The first record in the order of the tree, or the first after another, which need not be there.
    pub fn next_owner(&self, over: &Overlay, after: Option<Reverse>) -> Option<Reverse>
        requires { IsRmap over.now self.now }
        ensures { FindsLeast reverse_form (owner_records over.now self.now) (is_after reverse_form after) result }
    {
        let all = Reverse {
            start: FIRST_DATA_BLOCK,
            len: GROUP_BLOCKS - FIRST_DATA_BLOCK,
            owner: OWN_COW,
            off: 0,
        };
        self.tree.overlap(over, &all, after)
    }

    /// Gives the blocks of a run to an owner, the first of them at an offset and the others at those that follow, or all at
    /// the offset 0 if they are staged. None of these pairs may be there. At most three blocks of the pool go to the tree,
    /// and the overlay has at most 20 changed blocks more: there are up to two changes of the tree, of ten blocks each.
    pub fn add(&mut self, over: &mut Overlay, run: Span, owner: u64, off: u64)
        requires tree { IsRmap over.old self.old }
        requires good { is_reverse (owned_run run owner off) ≡ true }
        requires alone { HasNoneOf over.old self.old (owned_run run owner off) }
        requires few { length (owner_records over.old self.old) < reverse_form.most }
        requires room { 3 ≤ free_count over.old }
        ensures step { IsTreeStep reverse_form over.old self.old.tree over.new self.new.tree 3 20 }
        ensures added { GainsPairsOf (owned_run run owner off) over.old self.old over.new self.new }
    {
        let new = Reverse {
            start: run.start,
            len: run.len,
            owner,
            off,
        };
        let left = self.left_of(over, &new);
        match self.right_of(over, &new) {
            None => self.join(over, new, left),
            Some(next) => {
                self.cut(over, &next);
                let wider = Reverse {
                    len: new.len + next.len,
                    ..new
                };
                self.join(over, wider, left);
            }
        }
    }

    /// Takes the blocks of a run from an owner, at the offsets as above. All these pairs have to be there. At most three
    /// blocks of the pool go to the tree, since two records may be left of one, and the overlay has at most 20 changed
    /// blocks more.
    pub fn remove(&mut self, over: &mut Overlay, run: Span, owner: u64, off: u64)
        requires tree { IsRmap over.old self.old }
        requires good { is_reverse (owned_run run owner off) ≡ true }
        requires held { HasAllOf over.old self.old (owned_run run owner off) }
        requires few { length (owner_records over.old self.old) < reverse_form.most }
        requires room { 3 ≤ free_count over.old }
        ensures step { IsTreeStep reverse_form over.old self.old.tree over.new self.new.tree 3 20 }
        ensures removed { LosesPairsOf (owned_run run owner off) over.old self.old over.new self.new }
    {
        let gone = Reverse {
            start: run.start,
            len: run.len,
            owner,
            off,
        };
        let Some(whole) = self.holder_of(over, owner, off, run.start) else {
            unreachable!();
        };
        self.carve(over, &whole, &gone);
    }
}
