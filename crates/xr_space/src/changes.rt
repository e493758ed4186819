//! Changes of one run in both trees of the free blocks.
ghost use Rattle.std.specs.Prelude.{◌≡◌, ◌≢◌, ◌≤◌, true, false};
ghost use Rattle.xr_kinds.specs.declared.span.Span.{Span};
ghost use Rattle.xr_pool.specs.Overlay.{free_count};
ghost use Rattle.xr_kinds.specs.Spans.{apart, is_group_run};
ghost use Rattle.xr_change.specs.Sets.{Gains, Loses, Swaps};
ghost use Rattle.xr_space.specs.Space.{ArePaired, IsFreeRun, IsRunBySize, IsSpace, IsStep, block_records, size_records};

use crate::space::Space;
use xr_kinds::{ByBlock, BySize, Span};
use xr_pool::Overlay;

impl Space {
    fn insert_by_block(&mut self, over: &mut Overlay, run: Span)
        requires space { IsSpace over.old self.old }
        requires good { is_group_run run ≡ true }
        requires fits { (other : Span) → IsFreeRun over.old self.old other → apart other run ≡ true }
        requires room { 2 ≤ free_count over.old }
        ensures step { IsStep over.old self.old over.new self.new 2 7 }
        ensures set { Gains (IsFreeRun over.old self.old) run (IsFreeRun over.new self.new) }
        ensures sizes { size_records over.new self.new ≡ size_records over.old self.old }
    {
        self.by_block.insert(over, ByBlock::from(run));
    }

    fn remove_by_block(&mut self, over: &mut Overlay, run: Span)
        requires space { IsSpace over.old self.old }
        requires held { IsFreeRun over.old self.old run }
        ensures step { IsStep over.old self.old over.new self.new 0 7 }
        ensures set { Loses (IsFreeRun over.old self.old) run (IsFreeRun over.new self.new) }
        ensures sizes { size_records over.new self.new ≡ size_records over.old self.old }
    {
        self.by_block.remove(over, &ByBlock::from(run));
    }

    fn replace_by_block(&mut self, over: &mut Overlay, old: Span, new: Span)
        requires space { IsSpace over.old self.old }
        requires held { IsFreeRun over.old self.old old }
        requires good { is_group_run new ≡ true }
        requires fits { (other : Span) → IsFreeRun over.old self.old other → other ≢ old → apart other new ≡ true }
        requires near { apart old new ≡ false }
        ensures step { IsStep over.old self.old over.new self.new 0 7 }
        ensures set { Swaps (IsFreeRun over.old self.old) old new (IsFreeRun over.new self.new) }
        ensures sizes { size_records over.new self.new ≡ size_records over.old self.old }
    {
        self.by_block
            .replace(over, &ByBlock::from(old), ByBlock::from(new));
    }

    fn insert_by_size(&mut self, over: &mut Overlay, run: Span)
        requires space { IsSpace over.old self.old }
        requires good { is_group_run run ≡ true }
        requires fits { (other : Span) → IsRunBySize over.old self.old other → apart other run ≡ true }
        requires room { 2 ≤ free_count over.old }
        ensures step { IsStep over.old self.old over.new self.new 2 7 }
        ensures set { Gains (IsRunBySize over.old self.old) run (IsRunBySize over.new self.new) }
        ensures blocks { block_records over.new self.new ≡ block_records over.old self.old }
    {
        self.by_size.insert(over, BySize::from(run));
    }

    fn remove_by_size(&mut self, over: &mut Overlay, run: Span)
        requires space { IsSpace over.old self.old }
        requires held { IsRunBySize over.old self.old run }
        ensures step { IsStep over.old self.old over.new self.new 0 7 }
        ensures set { Loses (IsRunBySize over.old self.old) run (IsRunBySize over.new self.new) }
        ensures blocks { block_records over.new self.new ≡ block_records over.old self.old }
    {
        self.by_size.remove(over, &BySize::from(run));
    }

    /// Adds a run that stands apart from all others.
    pub(crate) fn add_run(&mut self, over: &mut Overlay, run: Span)
        requires space { IsSpace over.old self.old }
        requires paired { ArePaired over.old self.old }
        requires good { is_group_run run ≡ true }
        requires fits { (other : Span) → IsFreeRun over.old self.old other → apart other run ≡ true }
        requires room { 4 ≤ free_count over.old }
        ensures step { IsStep over.old self.old over.new self.new 4 14 }
        ensures paired { ArePaired over.new self.new }
        ensures set { Gains (IsFreeRun over.old self.old) run (IsFreeRun over.new self.new) }
    {
        self.insert_by_block(over, run);
        self.insert_by_size(over, run);
    }

    /// Takes a run out.
    pub(crate) fn drop_run(&mut self, over: &mut Overlay, run: Span)
        requires space { IsSpace over.old self.old }
        requires paired { ArePaired over.old self.old }
        requires held { IsFreeRun over.old self.old run }
        ensures step { IsStep over.old self.old over.new self.new 0 14 }
        ensures paired { ArePaired over.new self.new }
        ensures set { Loses (IsFreeRun over.old self.old) run (IsFreeRun over.new self.new) }
    {
        self.remove_by_block(over, run);
        self.remove_by_size(over, run);
    }

    /// Puts a run in the place of another that it meets or touches. It stands apart from all others.
    pub(crate) fn swap_run(&mut self, over: &mut Overlay, old: Span, new: Span)
        requires space { IsSpace over.old self.old }
        requires paired { ArePaired over.old self.old }
        requires held { IsFreeRun over.old self.old old }
        requires good { is_group_run new ≡ true }
        requires fits { (other : Span) → IsFreeRun over.old self.old other → other ≢ old → apart other new ≡ true }
        requires near { apart old new ≡ false }
        requires room { 2 ≤ free_count over.old }
        ensures step { IsStep over.old self.old over.new self.new 2 21 }
        ensures paired { ArePaired over.new self.new }
        ensures set { Swaps (IsFreeRun over.old self.old) old new (IsFreeRun over.new self.new) }
    {
        self.replace_by_block(over, old, new);
        self.remove_by_size(over, old);
        self.insert_by_size(over, new);
    }
}
