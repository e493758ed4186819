//! The free blocks of a group in its overlay and trees: whether a run has some, and changes, in which both trees of free runs change
//! and the header follows.
ghost use Rattle.std.specs.Prelude.{◌≡◌, ◌≤◌, ◌↔◌, ◌⊎◌, ℕ, true, false, IsNone, IsTrue, IfSome};
ghost use Rattle.xr_group.specs.Parts.{ChangesParts, HasGroup, LosesFreeRun, group_state_of};
ghost use Rattle.xr_group.specs.Sets.{IsFirstFree, IsPaired, TakesFree, has_free};
ghost use Rattle.xr_group.specs.Trees.{free_part};
ghost use Rattle.xr_kinds.specs.Spans.{IsIn, is_group_run};
ghost use Rattle.xr_space.specs.Space.{ArePaired, IsFreeBlock, IsFrontOfLowest};

use crate::head::{head_of, write_head};
use crate::runs::run_at;
use crate::trees::Trees;
use xr_base::Run;
use xr_kinds::{ByBlock, Span};
use xr_pool::Overlay;

/// Whether no block of a run is free.
pub(crate) fn has_none_free_in(over: &Overlay, trees: &Trees, run: Span) -> bool
    requires group { HasGroup over.now trees.now }
    requires good { is_group_run run ≡ true }
    ensures { IsTrue result ↔ ((n : ℕ) → IsIn run n → ¬ (IsFreeBlock over.now trees.now.space n)) }
{
    let tree = &trees.space.by_block;
    tree.overlap(over, &ByBlock::from(run), None).is_none()
}

/// Takes the first free blocks, as many as are needed or as the first free run has.
pub(crate) fn take_in(over: &mut Overlay, trees: &mut Trees, need: u32) -> Option<Span>
    requires group { HasGroup over.old trees.old }
    requires paired { ArePaired over.old trees.old.space }
    requires some { 1 ≤ need }
    ensures group { HasGroup over.new trees.new }
    ensures change { ChangesParts free_part 22 over.old trees.old over.new trees.new }
    ensures paired { ArePaired over.new trees.new.space }
    ensures none { IsNone result ↔ ((n : ℕ) → ¬ (IsFreeBlock over.old trees.old.space n)) }
    ensures same { IsNone result → over.new ≡ over.old }
    ensures good { IfSome result (λ run. is_group_run run ≡ true) }
    ensures front { IfSome result (λ run. IsFrontOfLowest over.old trees.old.space need run) }
    ensures taken { IfSome result (λ run. LosesFreeRun run over.old trees.old over.new trees.new) }
{
    let before = head_of(over, trees);
    let run = trees.space.take_first(over, need);
    over.has_blocks();
    write_head(over, trees, &before);
    run
}

/// The same run, by addresses.
pub(crate) fn take_run(over: &mut Overlay, trees: &mut Trees, need: u32) -> Option<Run>
    requires group { HasGroup over.old trees.old }
    requires paired { IsPaired (group_state_of over.old) }
    requires some { 1 ≤ need }
    ensures group { HasGroup over.new trees.new }
    ensures change { ChangesParts free_part 22 over.old trees.old over.new trees.new }
    ensures paired { IsPaired (group_state_of over.new) }
    ensures none { IsNone result ↔ ((a : ℕ) → has_free (group_state_of over.old) a ≡ false) }
    ensures same { IsNone result → over.new ≡ over.old }
    ensures first { IfSome result (λ run. IsFirstFree (group_state_of over.old) need run) }
    ensures taken { IfSome result (λ run. TakesFree run (group_state_of over.old) (group_state_of over.new)) }
{
    match take_in(over, trees, need) {
        Some(run) => Some(run_at(over, run)),
        None => None,
    }
}

/// Makes a run free.
pub(crate) fn give_in(over: &mut Overlay, trees: &mut Trees, run: Span)
    requires group { HasGroup over.old trees.old }
    requires paired { ArePaired over.old trees.old.space }
    requires good { is_group_run run ≡ true }
    requires taken { (n : ℕ) → IsIn run n → ¬ (IsFreeBlock over.old trees.old.space n) }
    ensures group { HasGroup over.new trees.new }
    ensures change { ChangesParts free_part 36 over.old trees.old over.new trees.new }
    ensures paired { ArePaired over.new trees.new.space }
    ensures given { (n : ℕ) → IsFreeBlock over.new trees.new.space n ↔ (IsFreeBlock over.old trees.old.space n ⊎ IsIn run n) }
{
    let before = head_of(over, trees);
    trees.space.give(over, run);
    over.has_blocks();
    write_head(over, trees, &before);
}
