//! A tree that records of a family come into and go out of. It keeps what a change of the tree asks for: the tree is
//! one, its records may stand together, and so many blocks are free.
ghost use Rattle.std.specs.Prelude.{◌≡◌, ℕ, ◌≤◌, Bool, false, IfSome, IsTrue};
ghost use Rattle.std.specs.List.{All};
ghost use Rattle.std.specs.Ordering.{is_eq};
ghost use Rattle.xr_pool.specs.Overlay.{free_count};
ghost use Rattle.xr_tree.specs.Growth.{IsBeside, IsGrown, MayCome};
ghost use Rattle.xr_block.specs.Trees.{IsTree, records_of_tree};

use crate::{ByBlock, BySize, Kept, Mapping, Overlay, Reach, Record, Reference, Reverse, Tree};
use std::cmp::Ordering;
use std::marker::Model;
use xr_base::geometry::OWN_COW;

/// A kind of record with a family: any two records of it may stand in one tree, unless they have one place in the
/// order.
pub(crate) trait Family: Record {
    ghost use Rattle.xr_tree.specs.Growth.{IsFamily};

    ghost family: { Self → Bool };

    /// Whether the record is one of the family.
    fn is_member(&self) -> bool
        ensures { result ≡ family self.now };

    ghost agrees: { IsFamily Self.form family };
}

impl Family for ByBlock {
    ghost use Rattle.xr_tree.specs.FamilyLaws.{blocks_family, is_even_block};

    ghost family = { λ r. is_even_block r.start r.len };

    ghost agrees = { blocks_family };

    fn is_member(&self) -> bool {
        self.start % 2 == 0 && self.len == 1
    }
}

impl Family for BySize {
    ghost use Rattle.xr_tree.specs.FamilyLaws.{is_even_block, sizes_family};

    ghost family = { λ r. is_even_block r.start r.len };

    ghost agrees = { sizes_family };

    fn is_member(&self) -> bool {
        self.start % 2 == 0 && self.len == 1
    }
}

impl Family for Reference {
    ghost use Rattle.std.specs.Prelude.{◌&&◌, not};
    ghost use Rattle.xr_tree.specs.FamilyLaws.{counts_family, is_even_block};

    ghost family = { λ r. is_even_block r.start r.len && not r.staged };

    ghost agrees = { counts_family };

    fn is_member(&self) -> bool {
        self.start % 2 == 0 && self.len == 1 && !self.staged
    }
}

impl Family for Mapping {
    ghost use Rattle.xr_tree.specs.FamilyLaws.{extents_family, is_even_block};

    ghost family = { λ r. is_even_block r.at r.len };

    ghost agrees = { extents_family };

    fn is_member(&self) -> bool {
        self.at % 2 == 0 && self.len == 1
    }
}

impl Family for Reverse {
    ghost use Rattle.std.specs.Prelude.{◌==◌, ◌&&◌, not};
    ghost use Rattle.xr_base.specs.declared.geometry.TheConstants.{OWN_COW};
    ghost use Rattle.xr_tree.specs.FamilyLaws.{owners_family};

    ghost family = { λ r. (r.off == 0) && not (r.owner == OWN_COW) };

    ghost agrees = { owners_family };

    fn is_member(&self) -> bool {
        self.off == 0 && self.owner != OWN_COW
    }
}

/// How many blocks of the pool are free.
fn free_blocks(over: &Overlay) -> u64
    ensures { result ≡ free_count over.now }
{
    let mut count = 0;
    for n in 0..over.len() {
        if n > 0 && over.is_free(n) {
            count += 1;
        }
    }
    count
}

/// So many blocks are free at least. They are counted where fewer are known than are wanted.
fn spare(over: &Overlay, known: u64, wanted: u64) -> u64
    requires { known ≤ free_count over.now }
    ensures { result ≤ free_count over.now }
{
    if known < wanted {
        free_blocks(over)
    } else {
        known
    }
}

/// Whether the tree has no record, neither up to one nor from it on.
fn is_empty<R: Family + Reach>(over: &Overlay, tree: &Tree<R>, any: &R) -> bool
    requires { IsTree R.form over.now tree.now }
    ensures { IsTrue result → IsGrown R.form R.family over.now tree.now.block tree.now.level 0 0 }
{
    tree.at_most(over, any).is_none() && tree.at_least(over, any).is_none()
}

/// Whether no record has the place of this one.
fn misses<R: Reach>(over: &Overlay, tree: &Tree<R>, r: &R) -> bool
    requires { IsTree R.form over.now tree.now }
    ensures { IsTrue result → All (λ x. is_eq (R.form.order x r.now) ≡ false) (records_of_tree R.form over.now tree.now) }
{
    match tree.at_most(over, r) {
        Some(found) => found.compare(r) != Ordering::Equal,
        None => true,
    }
}

/// Whether a record may be put in.
fn may_come<R: Family + Reach>(over: &Overlay, tree: &Tree<R>, r: &R) -> bool
    requires { IsTree R.form over.now tree.now }
    ensures { IsTrue result → MayCome R.form R.family (records_of_tree R.form over.now tree.now) r.now }
{
    r.valid() && r.is_member() && misses(over, tree, r)
}

/// A record in whose place another may stand: the one before that place, if it is the one that is meant, or the one
/// after.
fn beside<R: Reach + PartialEq>(over: &Overlay, tree: &Tree<R>, old: &R, new: &R) -> Option<R>
    requires { IsTree R.form over.now tree.now }
    ensures { IfSome result (λ x. IsBeside R.form (records_of_tree R.form over.now tree.now) x new.now) }
{
    match tree.at_most(over, new) {
        Some(found) if found == *old => Some(found),
        _ => tree.at_least(over, new),
    }
}

/// A tree that has only records of a family, in block 1 at first, with the blocks that it stands in.
#[derive(Drop)]
pub(crate) struct Grown<R: Family> {
    over: Overlay,
    tree: Tree<R>,
    /// How many records went in so far.
    count: u32,
    /// So many blocks are free at least.
    spare: u64,
}

impl<R: Family> Model for Grown<R> {
    ghost Value = { ℕ };

    ghost view = { λ g. g.count };

    ghost invariant = { λ g. IsGrown R.form R.family g.over g.tree.block g.tree.level g.count g.spare };
}

impl<R: Family + Kept + Reach + PartialEq> Grown<R> {
    /// The tree of an empty leaf in block 1. None if there is no such leaf.
    pub(crate) fn new(over: Overlay, any: &R) -> Option<Grown<R>> {
        let mut seen = [0; 64];
        if over.len() > 512 {
            return None;
        }
        let Ok(tree) = Tree::<R>::verify(&over, 1, 0, &mut seen) else {
            return None;
        };
        if !is_empty(&over, &tree, any) {
            return None;
        }
        Some(Grown {
            over,
            tree,
            count: 0,
            spare: 0,
        })
    }

    /// How many levels there are below the root.
    pub(crate) fn level(&self) -> u32 {
        self.tree.level()
    }

    /// How many blocks of the pool are free.
    pub(crate) fn free(&self) -> u64 {
        free_blocks(&self.over)
    }

    /// Whether the blocks are a tree when they are gone through anew.
    pub(crate) fn stands(&self) -> bool {
        let mut seen = [0; 64];
        let (root, level) = (self.tree.root(), self.tree.level());
        self.over.len() <= 512 && Tree::<R>::verify(&self.over, root, level, &mut seen).is_ok()
    }

    /// Whether the tree has a record.
    pub(crate) fn has(&self, r: &R) -> bool {
        self.tree.at_most(&self.over, r) == Some(*r)
    }

    /// Whether the tree has no record.
    pub(crate) fn is_empty(&self, any: &R) -> bool {
        is_empty(&self.over, &self.tree, any)
    }

    /// Makes what the blocks are now what `changed` compares with. Free blocks are counted when some are needed next.
    pub(crate) fn keep(&mut self) {
        self.over.keep();
        self.spare = 0;
    }

    /// How many blocks were written since they were last kept.
    pub(crate) fn changed(&self) -> usize {
        self.over.changed()
    }

    /// Puts a record in. False, and nothing changes, where it isn't of the family, its place is taken, or there is no
    /// room.
    pub(crate) fn put_in(&mut self, r: R) -> bool {
        let wanted = u64::from(self.tree.level()) + 2;
        let known = spare(&self.over, self.spare, wanted);
        let comes = may_come(&self.over, &self.tree, &r);
        if comes && known >= wanted && self.count < R::MOST {
            self.tree.insert(&mut self.over, r);
            self.count += 1;
            self.spare = known - wanted;
            true
        } else {
            false
        }
    }

    /// Cuts a record out. False, and nothing changes, where it isn't there.
    pub(crate) fn take_out(&mut self, r: &R) -> bool {
        match self.tree.at_least(&self.over, r) {
            Some(found) if found == *r => {
                self.tree.remove(&mut self.over, &found);
                true
            }
            _ => false,
        }
    }

    /// Writes a record over another one. False, and nothing changes, where that isn't there, the new one isn't of the
    /// family, or a third record stands between the two places.
    pub(crate) fn exchange(&mut self, old: &R, new: R) -> bool {
        match beside(&self.over, &self.tree, old, &new) {
            Some(found) if found == *old && new.valid() && new.is_member() => {
                self.tree.replace(&mut self.over, &found, new);
                true
            }
            _ => false,
        }
    }
}
