//! Changes of the counts and the staged blocks of a group in its overlay and trees: the header follows.
ghost use Rattle.std.specs.Prelude.{◌≡◌, ◌<◌, ◌==◌, ℕ, not, true, false, IsTrue};
ghost use Rattle.xr_group.specs.Group.{IsRunOf};
ghost use Rattle.xr_group.specs.Parts.{ChangesParts, HasGroup, group_state_of, references_of};
ghost use Rattle.xr_group.specs.Sets.{IsFirstPart};
ghost use Rattle.xr_group.specs.Trees.{counts_part};
ghost use Rattle.xr_kinds.specs.Spans.{IsIn, is_group_run};
ghost use Rattle.xr_refcount.specs.Calls.{Lowers, Raises, StagesRun, UnstagesRun};
ghost use Rattle.xr_refcount.specs.Counts.{AreOwnedAlike, AreCountedAs, count_at, is_staged_at};

use crate::head::{head_of, write_head};
use crate::runs::group_span;
use crate::trees::Trees;
use xr_base::Run;
use xr_kinds::Span;
use xr_maps::Counted;
use xr_pool::Overlay;
use xr_refcount::Lowered;

/// The longest part at the front of a run whose blocks have one number of owners, and of which all are staged or none is.
pub(crate) fn first_equal_in(over: &Overlay, trees: &Trees, run: &Run) -> Counted
    requires group { HasGroup over.now trees.now }
    requires run { IsRunOf (group_state_of over.now) run.now }
    ensures { IsFirstPart (group_state_of over.now) run.now result }
{
    let part = trees.counts.first_equal(over, group_span(run));
    Counted {
        run: Run {
            start: run.start,
            len: part.run.len,
        },
        count: part.count,
        staged: part.staged,
    }
}

/// Makes each count of a run one greater.
pub(crate) fn raise_in(over: &mut Overlay, trees: &mut Trees, run: Span)
    requires group { HasGroup over.old trees.old }
    requires good { is_group_run run ≡ true }
    requires alike { AreOwnedAlike (references_of over.old trees.old) run }
    requires below { count_at (references_of over.old trees.old) run.start < 32768 }
    ensures group { HasGroup over.new trees.new }
    ensures change { ChangesParts counts_part 22 over.old trees.old over.new trees.new }
    ensures raised { Raises (references_of over.old trees.old) run (references_of over.new trees.new) }
{
    let before = head_of(over, trees);
    trees.counts.raise_run(over, run);
    over.has_blocks();
    write_head(over, trees, &before);
}

/// Makes each count of a run one less.
pub(crate) fn lower_in(over: &mut Overlay, trees: &mut Trees, run: Span) -> Lowered
    requires group { HasGroup over.old trees.old }
    requires good { is_group_run run ≡ true }
    requires alike { AreOwnedAlike (references_of over.old trees.old) run }
    ensures group { HasGroup over.new trees.new }
    ensures change { ChangesParts counts_part 22 over.old trees.old over.new trees.new }
    ensures freed { result.freed ≡ (count_at (references_of over.old trees.old) run.start == 1) }
    ensures changed { result.changed ≡ not result.freed }
    ensures same { IsTrue result.freed → over.new ≡ over.old }
    ensures lowered { IsTrue result.changed → Lowers (references_of over.old trees.old) run (references_of over.new trees.new) }
{
    let before = head_of(over, trees);
    let lowered = trees.counts.lower_run(over, run);
    over.has_blocks();
    write_head(over, trees, &before);
    lowered
}

/// Makes the blocks of a run staged ones.
pub(crate) fn stage_in(over: &mut Overlay, trees: &mut Trees, run: Span)
    requires group { HasGroup over.old trees.old }
    requires good { is_group_run run ≡ true }
    requires alone { AreCountedAs (references_of over.old trees.old) run 1 false }
    ensures group { HasGroup over.new trees.new }
    ensures change { ChangesParts counts_part 15 over.old trees.old over.new trees.new }
    ensures staged { StagesRun (references_of over.old trees.old) run (references_of over.new trees.new) }
{
    let before = head_of(over, trees);
    trees.counts.stage(over, run);
    over.has_blocks();
    write_head(over, trees, &before);
}

/// Makes the blocks of a run, all of which are staged, blocks without a record.
pub(crate) fn unstage_in(over: &mut Overlay, trees: &mut Trees, run: Span)
    requires group { HasGroup over.old trees.old }
    requires good { is_group_run run ≡ true }
    requires staged { (n : ℕ) → IsIn run n → is_staged_at (references_of over.old trees.old) n ≡ true }
    ensures group { HasGroup over.new trees.new }
    ensures change { ChangesParts counts_part 15 over.old trees.old over.new trees.new }
    ensures unstaged { UnstagesRun (references_of over.old trees.old) run (references_of over.new trees.new) }
{
    let before = head_of(over, trees);
    trees.counts.unstage(over, run);
    over.has_blocks();
    write_head(over, trees, &before);
}
