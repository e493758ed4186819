//! Changes of a group in its overlay and trees: each changes one part of the pool, and the header follows.
ghost use Rattle.std.specs.Prelude.{◌≡◌, ◌<◌, true, length};
ghost use Rattle.xr_group.specs.Parts.{ChangesParts, HasGroup};
ghost use Rattle.xr_group.specs.Trees.{owners_part};
ghost use Rattle.xr_kinds.specs.Reverse.{is_reverse, reverse_form};
ghost use Rattle.xr_rmap.specs.Rmap.{GainsPairsOf, HasAllOf, HasNoneOf, LosesPairsOf, owned_run, owner_records};

use crate::head::{head_of, write_head};
use crate::trees::Trees;
use xr_kinds::Span;
use xr_pool::Overlay;

/// Gives the blocks of a run to an owner.
pub(crate) fn add_in(over: &mut Overlay, trees: &mut Trees, run: Span, owner: u64, off: u64)
    requires group { HasGroup over.old trees.old }
    requires good { is_reverse (owned_run run owner off) ≡ true }
    requires alone { HasNoneOf over.old trees.old.rmap (owned_run run owner off) }
    requires few { length (owner_records over.old trees.old.rmap) < reverse_form.most }
    ensures group { HasGroup over.new trees.new }
    ensures change { ChangesParts owners_part 21 over.old trees.old over.new trees.new }
    ensures added { GainsPairsOf (owned_run run owner off) over.old trees.old.rmap over.new trees.new.rmap }
{
    let before = head_of(over, trees);
    trees.rmap.add(over, run, owner, off);
    over.has_blocks();
    write_head(over, trees, &before);
}

/// Takes the blocks of a run from an owner.
pub(crate) fn remove_in(over: &mut Overlay, trees: &mut Trees, run: Span, owner: u64, off: u64)
    requires group { HasGroup over.old trees.old }
    requires good { is_reverse (owned_run run owner off) ≡ true }
    requires held { HasAllOf over.old trees.old.rmap (owned_run run owner off) }
    requires few { length (owner_records over.old trees.old.rmap) < reverse_form.most }
    ensures group { HasGroup over.new trees.new }
    ensures change { ChangesParts owners_part 21 over.old trees.old over.new trees.new }
    ensures removed { LosesPairsOf (owned_run run owner off) over.old trees.old.rmap over.new trees.new.rmap }
{
    let before = head_of(over, trees);
    trees.rmap.remove(over, run, owner, off);
    over.has_blocks();
    write_head(over, trees, &before);
}
