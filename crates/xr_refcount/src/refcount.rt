//! How many own each block of a group, and how these counts and the staged blocks change.
ghost use Rattle.std.specs.Prelude.{◌≡◌, ℕ, ◌<◌, ◌≤◌, ◌==◌, not, true, false, IsTrue};
ghost use Rattle.xr_kinds.specs.Spans.{IsIn, is_group_run};
ghost use Rattle.xr_pool.specs.Overlay.{free_count};
ghost use Rattle.xr_refcount.specs.Calls.{IsFirstEqual, Lowers, Raises, StagesRun, UnstagesRun};
ghost use Rattle.xr_refcount.specs.Counts.{AreOwnedAlike, AreCountedAs, count_at, is_staged_at};
ghost use Rattle.xr_refcount.specs.Refcount.{IsReferenceStep, IsRefcount, reference_records};

use crate::changes::shared;
use xr_kinds::{Reference, Span};
use xr_pool::Overlay;
use xr_tree::Tree;

/// How many own each block of a group. A block without a record has one owner or none, and counts 1. Blocks are numbered in
/// the group, and the data blocks, 512 to 2,047, are the ones that are counted. See "XFS Algorithms and Data Structures,
/// 3rd edition, Reference Count B+tree".
#[derive(Clone, Copy)]
pub struct Refcount {
    pub tree: Tree<Reference>,
}

/// Some blocks that have one count, and of which all are staged or none is. Staged blocks have the count 1.
#[derive(Clone, Copy)]
pub struct CountedSpan {
    pub run: Span,
    pub count: u32,
    pub staged: bool,
}

/// Whether counts were lowered, or the blocks lost their only owner. It is one of the two.
#[derive(Clone, Copy, Debug, PartialEq, Eq)]
pub struct Lowered {
    pub changed: bool,
    pub freed: bool,
}

impl Refcount {
    /// The longest part at the front of a run that has one count, and of which all blocks are staged or none is.
    pub fn first_equal(&self, over: &Overlay, run: Span) -> CountedSpan
        requires tree { IsRefcount over.now self.now }
        requires good { is_group_run run ≡ true }
        ensures { IsFirstEqual (reference_records over.now self.now) run result }
    {
        let Some(first) = self.first_meeting(over, run) else {
            return CountedSpan {
                run,
                count: 1,
                staged: false,
            };
        };
        let start = run.start;
        if first.start > start {
            let len = first.start - start;
            return CountedSpan {
                run: Span { start, len },
                count: 1,
                staged: false,
            };
        }
        let len = run.len.min(first.start + first.len - start);
        CountedSpan {
            run: Span { start, len },
            count: first.count,
            staged: first.staged,
        }
    }

    /// Makes each count of a run one greater. The blocks have one count, which is below 32,768, and none is staged. At most
    /// four blocks of the pool go to the tree, and the overlay has at most 21 changed blocks more: there are up to
    /// three changes of the tree, of seven blocks each.
    pub fn raise_run(&mut self, over: &mut Overlay, run: Span)
        requires tree { IsRefcount over.old self.old }
        requires good { is_group_run run ≡ true }
        requires alike { AreOwnedAlike (reference_records over.old self.old) run }
        requires below { count_at (reference_records over.old self.old) run.start < 32768 }
        requires room { 4 ≤ free_count over.old }
        ensures step { IsReferenceStep over.old self.old over.new self.new 4 21 }
        ensures raised { Raises (reference_records over.old self.old) run (reference_records over.new self.new) }
    {
        match self.first_meeting(over, run) {
            None => self.put(over, shared(run, 2)),
            Some(held) => self.recount(over, &held, run, held.count + 1),
        }
    }

    /// Makes each count of a run one less. The blocks have one count, and none is staged. Where that is 1, they lose their
    /// only owner and are freed, and nothing changes. At most four blocks of the pool go to the tree, and the overlay has at
    /// most 21 changed blocks more.
    pub fn lower_run(&mut self, over: &mut Overlay, run: Span) -> Lowered
        requires tree { IsRefcount over.old self.old }
        requires good { is_group_run run ≡ true }
        requires alike { AreOwnedAlike (reference_records over.old self.old) run }
        requires room { 4 ≤ free_count over.old }
        ensures step { IsReferenceStep over.old self.old over.new self.new 4 21 }
        ensures freed { result.freed ≡ (count_at (reference_records over.old self.old) run.start == 1) }
        ensures changed { result.changed ≡ not result.freed }
        ensures same { IsTrue result.freed → (over.new ≡ over.old) × (self.new ≡ self.old) }
        ensures lowered { IsTrue result.changed → Lowers (reference_records over.old self.old) run (reference_records over.new self.new) }
    {
        match self.first_meeting(over, run) {
            None => Lowered {
                changed: false,
                freed: true,
            },
            Some(held) => {
                if held.count > 2 {
                    self.recount(over, &held, run, held.count - 1);
                } else {
                    self.carve(over, &held, run);
                }
                Lowered {
                    changed: true,
                    freed: false,
                }
            }
        }
    }

    /// Makes the blocks of a run staged ones. No record meets it: each block has the count 1, and none is staged. At most
    /// two blocks of the pool go to the tree, and the overlay has at most 14 changed blocks more.
    pub fn stage(&mut self, over: &mut Overlay, run: Span)
        requires tree { IsRefcount over.old self.old }
        requires good { is_group_run run ≡ true }
        requires alone { AreCountedAs (reference_records over.old self.old) run 1 false }
        requires room { 2 ≤ free_count over.old }
        ensures step { IsReferenceStep over.old self.old over.new self.new 2 14 }
        ensures staged { StagesRun (reference_records over.old self.old) run (reference_records over.new self.new) }
    {
        let staged = Reference {
            start: run.start,
            len: run.len,
            count: 1,
            staged: true,
        };
        self.put(over, staged);
    }

    /// Makes the blocks of a run, all of which are staged, blocks without a record. At most two blocks of the pool go to the
    /// tree, and the overlay has at most 14 changed blocks more.
    pub fn unstage(&mut self, over: &mut Overlay, run: Span)
        requires tree { IsRefcount over.old self.old }
        requires good { is_group_run run ≡ true }
        requires staged { (n : ℕ) → IsIn run n → is_staged_at (reference_records over.old self.old) n ≡ true }
        requires room { 2 ≤ free_count over.old }
        ensures step { IsReferenceStep over.old self.old over.new self.new 2 14 }
        ensures unstaged { UnstagesRun (reference_records over.old self.old) run (reference_records over.new self.new) }
    {
        if let Some(held) = self.first_meeting(over, run) {
            self.carve(over, &held, run);
        }
    }
}
