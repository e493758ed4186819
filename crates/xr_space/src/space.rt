//! The free blocks of a group, and how some of them are taken and given back.
ghost use Rattle.std.specs.Prelude.{◌≡◌, ◌≢◌, ℕ, ◌+◌, ◌≤◌, ◌↔◌, ◌⊎◌, true, length, IsNone, IfSome};
ghost use Rattle.xr_kinds.specs.declared.span.Span.{Span};
ghost use Rattle.xr_block.specs.Frame.{ChangesOnly};
ghost use Rattle.xr_pool.specs.Overlay.{changed_blocks, free_count};
ghost use Rattle.xr_kinds.specs.Spans.{IsIn, end_of, is_group_run, touch};
ghost use Rattle.xr_space.specs.Space.{ArePaired, IsFreeBlock, IsFreeRun, IsLoose, IsSpace, IsStep, space_blocks, IsLowest, IsFrontOfLowest};

use xr_kinds::{ByBlock, BySize, Span};
use xr_pool::Overlay;
use xr_tree::Tree;

/// The runs of free blocks of a group, in the order of their blocks and in that of their lengths.
#[derive(Clone, Copy)]
pub struct Space {
    pub by_block: Tree<ByBlock>,
    pub by_size: Tree<BySize>,
}

impl Space {
    /// The free run with the lowest start.
    fn first_run(&self, over: &Overlay) -> Option<Span>
        requires { IsSpace over.now self.now }
        ensures none { IsNone result → (run : Span) → ¬ (IsFreeRun over.now self.now run) }
        ensures first { IfSome result (λ run. IsLowest over.now self.now run) }
    {
        let first = self.by_block.at_least(over, &ByBlock { start: 0, len: 0 })?;
        Some(first.span())
    }

    /// The free run that ends where a run begins.
    fn left_of(&self, over: &Overlay, run: Span) -> Option<Span>
        requires { IsSpace over.now self.now }
        ensures none { IsNone result → (other : Span) → IsFreeRun over.now self.now other → end_of other ≢ run.start }
        ensures some { IfSome result (λ other. IsFreeRun over.now self.now other × (end_of other ≡ run.start)) }
    {
        let start = run.start;
        let last = self.by_block.at_most(over, &ByBlock { start, len: 0 })?;
        let found = last.span();
        if found.end() == u64::from(run.start) {
            Some(found)
        } else {
            None
        }
    }

    /// The free run that begins where a run ends.
    fn right_of(&self, over: &Overlay, run: Span) -> Option<Span>
        requires space { IsSpace over.now self.now }
        requires good { is_group_run run ≡ true }
        ensures none { IsNone result → (other : Span) → IsFreeRun over.now self.now other → other.start ≢ end_of run }
        ensures some { IfSome result (λ other. IsFreeRun over.now self.now other × (other.start ≡ end_of run)) }
    {
        let end = run.start + run.len;
        let next = self
            .by_block
            .at_least(over, &ByBlock { start: end, len: 0 })?;
        if next.start == end {
            Some(next.span())
        } else {
            None
        }
    }

    /// Takes the front of the first free run.
    fn take_front(&mut self, over: &mut Overlay, whole: Span, need: u32) -> Span
        requires space { IsSpace over.old self.old }
        requires paired { ArePaired over.old self.old }
        requires first { IsLowest over.old self.old whole }
        requires some { 1 ≤ need }
        requires room { 2 ≤ free_count over.old }
        ensures step { IsStep over.old self.old over.new self.new 2 21 }
        ensures paired { ArePaired over.new self.new }
        ensures good { is_group_run result ≡ true }
        ensures front { IsFrontOfLowest over.old self.old need result }
        ensures taken { (n : ℕ) → IsFreeBlock over.new self.new n ↔ (IsFreeBlock over.old self.old n × ¬ (IsIn result n)) }
    {
        let len = need.min(whole.len);
        if len == whole.len {
            self.drop_run(over, whole);
        } else {
            let rest = Span {
                start: whole.start + len,
                len: whole.len - len,
            };
            self.swap_run(over, whole, rest);
        }
        Span {
            start: whole.start,
            len,
        }
    }

    /// Takes the first blocks of the free run with the lowest start: as many as are needed, or all that it has. None
    /// exactly where no block is free. Where one is, at most two blocks of the pool go to the trees, and the overlay has at
    /// most 21 changed blocks more: there are up to three changes of a tree, of seven blocks each.
    pub fn take_first(&mut self, over: &mut Overlay, need: u32) -> Option<Span>
        requires space { IsSpace over.old self.old }
        requires paired { ArePaired over.old self.old }
        requires some { 1 ≤ need }
        requires room { 2 ≤ free_count over.old }
        ensures space { IsSpace over.new self.new }
        ensures paired { ArePaired over.new self.new }
        ensures none { IsNone result ↔ ((n : ℕ) → ¬ (IsFreeBlock over.old self.old n)) }
        ensures same_blocks { IsNone result → over.new ≡ over.old }
        ensures same_trees { IsNone result → self.new ≡ self.old }
        ensures good { IfSome result (λ run. is_group_run run ≡ true) }
        ensures front { IfSome result (λ run. IsFrontOfLowest over.old self.old need run) }
        ensures taken { IfSome result (λ run. (n : ℕ) → IsFreeBlock over.new self.new n ↔ (IsFreeBlock over.old self.old n × ¬ (IsIn run n))) }
        ensures frame { ChangesOnly over.old (space_blocks over.old self.old) over.new (space_blocks over.new self.new) }
        ensures room { free_count over.old ≤ free_count over.new + 2 }
        ensures changed { length (changed_blocks over.new) ≤ length (changed_blocks over.old) + 21 }
    {
        match self.first_run(over) {
            None => None,
            Some(whole) => Some(self.take_front(over, whole, need)),
        }
    }

    /// Makes a run free that at most one free run touches.
    fn join(&mut self, over: &mut Overlay, run: Span, beside: Option<Span>)
        requires space { IsSpace over.old self.old }
        requires paired { ArePaired over.old self.old }
        requires loose { IsLoose (IsFreeRun over.old self.old) run beside }
        requires room { 4 ≤ free_count over.old }
        ensures step { IsStep over.old self.old over.new self.new 4 21 }
        ensures paired { ArePaired over.new self.new }
        ensures given { (n : ℕ) → IsFreeBlock over.new self.new n ↔ (IsFreeBlock over.old self.old n ⊎ IsIn run n) }
    {
        match beside {
            None => self.add_run(over, run),
            Some(other) => {
                let joined = Span {
                    start: run.start.min(other.start),
                    len: run.len + other.len,
                };
                self.swap_run(over, other, joined);
            }
        }
    }

    /// Makes a run free. It becomes one with the free runs that touch it. At most four blocks of the pool go to the trees,
    /// and the overlay has at most 35 changed blocks more: there are up to five changes of a tree, of seven blocks each.
    pub fn give(&mut self, over: &mut Overlay, run: Span)
        requires space { IsSpace over.old self.old }
        requires paired { ArePaired over.old self.old }
        requires good { is_group_run run ≡ true }
        requires taken { (n : ℕ) → IsIn run n → ¬ (IsFreeBlock over.old self.old n) }
        requires room { 4 ≤ free_count over.old }
        ensures space { IsSpace over.new self.new }
        ensures paired { ArePaired over.new self.new }
        ensures given { (n : ℕ) → IsFreeBlock over.new self.new n ↔ (IsFreeBlock over.old self.old n ⊎ IsIn run n) }
        ensures frame { ChangesOnly over.old (space_blocks over.old self.old) over.new (space_blocks over.new self.new) }
        ensures room { free_count over.old ≤ free_count over.new + 4 }
        ensures changed { length (changed_blocks over.new) ≤ length (changed_blocks over.old) + 35 }
    {
        let left = self.left_of(over, run);
        let right = self.right_of(over, run);
        match (left, right) {
            (Some(_), Some(next)) => {
                self.drop_run(over, next);
                let joined = Span {
                    start: run.start,
                    len: run.len + next.len,
                };
                self.join(over, joined, left);
            }
            (Some(_), None) => self.join(over, run, left),
            (None, _) => self.join(over, run, right),
        }
    }
}
