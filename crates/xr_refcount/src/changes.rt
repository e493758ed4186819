//! Changes of one run: it is taken out of the record that holds it, or put in as a record.
ghost use Rattle.std.specs.Prelude.{◌≡◌, ◌≢◌, ◌≤◌, if◌then◌else◌, true, false, IsNone, IfSome, IsTrue};
ghost use Rattle.std.specs.List.{Contains};
ghost use Rattle.xr_change.specs.Sets.{Gains, Loses, Swaps};
ghost use Rattle.xr_kinds.specs.declared.reference.Reference.{Reference};
ghost use Rattle.xr_kinds.specs.Reference.{is_reference, reference_form, reference_span};
ghost use Rattle.xr_kinds.specs.Spans.{meet};
ghost use Rattle.xr_pool.specs.Overlay.{free_count};
ghost use Rattle.xr_refcount.specs.Marks.{IsBehind, IsHeldRun, IsInFront, MayMerge, MeetsNone, NoneBehind, NoneInFront};
ghost use Rattle.xr_refcount.specs.Marks.{SetsRun, TouchesOnly, shared_run};
ghost use Rattle.xr_refcount.specs.Refcount.{IsReferenceStep, IsRefcount, reference_records};

use crate::refcount::Refcount;
use xr_base::geometry::{FIRST_DATA_BLOCK, GROUP_BLOCKS};
use xr_kinds::{Reference, Span};
use xr_pool::Overlay;

impl Refcount {
    fn insert(&mut self, over: &mut Overlay, new: Reference)
        requires tree { IsRefcount over.old self.old }
        requires good { is_reference new ≡ true }
        requires fits { (x : Reference) → Contains (reference_records over.old self.old) x → reference_form.agree x new ≡ true }
        requires room { 2 ≤ free_count over.old }
        ensures step { IsReferenceStep over.old self.old over.new self.new 2 7 }
        ensures set { Gains (Contains (reference_records over.old self.old)) new (Contains (reference_records over.new self.new)) }
    {
        self.tree.insert(over, new);
    }

    fn remove(&mut self, over: &mut Overlay, old: &Reference)
        requires tree { IsRefcount over.old self.old }
        requires held { Contains (reference_records over.old self.old) old.now }
        ensures step { IsReferenceStep over.old self.old over.new self.new 0 7 }
        ensures set { Loses (Contains (reference_records over.old self.old)) old.now (Contains (reference_records over.new self.new)) }
    {
        self.tree.remove(over, old);
    }

    /// Puts a record in the place of another of its kind that it meets.
    fn replace(&mut self, over: &mut Overlay, old: &Reference, new: Reference)
        requires tree { IsRefcount over.old self.old }
        requires held { Contains (reference_records over.old self.old) old.now }
        requires good { is_reference new ≡ true }
        requires kind { new.staged ≡ old.now.staged }
        requires near { meet (reference_span old.now) (reference_span new) ≡ true }
        requires fits { (x : Reference) → Contains (reference_records over.old self.old) x → x ≢ old.now → reference_form.agree x new ≡ true }
        ensures step { IsReferenceStep over.old self.old over.new self.new 0 7 }
        ensures set { Swaps (Contains (reference_records over.old self.old)) old.now new (Contains (reference_records over.new self.new)) }
    {
        self.tree.replace(over, old, new);
    }

    /// Takes a run out of the record that holds it. What that has on either side of the run stays, and whether it has
    /// something on both is the answer: then no record of another count touches the run.
    pub(crate) fn carve(&mut self, over: &mut Overlay, held: &Reference, run: Span) -> bool
        requires tree { IsRefcount over.old self.old }
        requires held { IsHeldRun (reference_records over.old self.old) held.now run }
        requires room { 2 ≤ free_count over.old }
        ensures step { IsReferenceStep over.old self.old over.new self.new (if result then 2 else 0) (if result then 14 else 7) }
        ensures set { SetsRun (reference_records over.old self.old) run 1 false (reference_records over.new self.new) }
        ensures between { IsTrue result → TouchesOnly (reference_records over.new self.new) run held.now.count }
    {
        let end = run.start + run.len;
        let left = Reference {
            len: run.start - held.start,
            ..*held
        };
        let right = Reference {
            start: end,
            len: held.start + held.len - end,
            ..*held
        };
        if left.len > 0 {
            self.replace(over, held, left);
            if right.len > 0 {
                self.insert(over, right);
                return true;
            }
        } else if right.len > 0 {
            self.replace(over, held, right);
        } else {
            self.remove(over, held);
        }
        false
    }

    /// The record in front of a new one, if the two are one.
    fn left_of(&self, over: &Overlay, new: &Reference) -> Option<Reference>
        requires tree { IsRefcount over.now self.now }
        requires good { is_reference new.now ≡ true }
        requires fits { MeetsNone (reference_records over.now self.now) (reference_span new.now) }
        ensures none { IsNone result → NoneInFront (reference_records over.now self.now) new.now }
        ensures some { IfSome result (λ x. IsInFront (reference_records over.now self.now) new.now x) }
    {
        if new.start > FIRST_DATA_BLOCK {
            self.record_beside(over, new.start - 1, new)
        } else {
            None
        }
    }

    /// The record after a new one, if the two are one.
    fn right_of(&self, over: &Overlay, new: &Reference) -> Option<Reference>
        requires tree { IsRefcount over.now self.now }
        requires good { is_reference new.now ≡ true }
        requires fits { MeetsNone (reference_records over.now self.now) (reference_span new.now) }
        ensures none { IsNone result → NoneBehind (reference_records over.now self.now) new.now }
        ensures some { IfSome result (λ x. IsBehind (reference_records over.now self.now) new.now x) }
    {
        let end = new.start + new.len;
        if end < GROUP_BLOCKS {
            self.record_beside(over, end, new)
        } else {
            None
        }
    }

    /// Puts a record in that would be one with at most one other.
    fn join(&mut self, over: &mut Overlay, new: Reference, beside: Option<Reference>)
        requires tree { IsRefcount over.old self.old }
        requires loose { MayMerge (reference_records over.old self.old) new beside }
        requires room { 2 ≤ free_count over.old }
        ensures step { IsReferenceStep over.old self.old over.new self.new 2 7 }
        ensures set { SetsRun (reference_records over.old self.old) (reference_span new) new.count new.staged (reference_records over.new self.new) }
    {
        match beside {
            None => self.insert(over, new),
            Some(other) => {
                let joined = Reference {
                    start: new.start.min(other.start),
                    len: new.len + other.len,
                    ..new
                };
                self.replace(over, &other, joined);
            }
        }
    }

    /// Puts a record in that meets no other. It becomes one with those of its kind and count that it touches.
    pub(crate) fn put(&mut self, over: &mut Overlay, new: Reference)
        requires tree { IsRefcount over.old self.old }
        requires good { is_reference new ≡ true }
        requires fits { MeetsNone (reference_records over.old self.old) (reference_span new) }
        requires room { 2 ≤ free_count over.old }
        ensures step { IsReferenceStep over.old self.old over.new self.new 2 14 }
        ensures set { SetsRun (reference_records over.old self.old) (reference_span new) new.count new.staged (reference_records over.new self.new) }
    {
        let left = self.left_of(over, &new);
        let right = self.right_of(over, &new);
        match (left, right) {
            (Some(_), Some(next)) => {
                self.remove(over, &next);
                let both = Reference {
                    len: new.len + next.len,
                    ..new
                };
                self.join(over, both, left);
            }
            (Some(_), None) => self.join(over, new, left),
            (None, _) => self.join(over, new, right),
        }
    }

    /// Gives the blocks of a run, all of which a record holds, another count of 2 or more. There are at most three changes of
    /// the tree: a run that comes out of the middle of its record becomes one with no other.
    pub(crate) fn recount(&mut self, over: &mut Overlay, held: &Reference, run: Span, count: u32)
        requires tree { IsRefcount over.old self.old }
        requires held { IsHeldRun (reference_records over.old self.old) held.now run }
        requires good { is_reference (shared_run run count) ≡ true }
        requires other { count ≢ held.now.count }
        requires room { 4 ≤ free_count over.old }
        ensures step { IsReferenceStep over.old self.old over.new self.new 4 21 }
        ensures set { SetsRun (reference_records over.old self.old) run count false (reference_records over.new self.new) }
    {
        let new = shared(run, count);
        if self.carve(over, held, run) {
            self.insert(over, new);
        } else {
            self.put(over, new);
        }
    }
}

/// A run that several own.
pub(crate) fn shared(run: Span, count: u32) -> Reference
    ensures { result ≡ shared_run run count }
{
    Reference {
        start: run.start,
        len: run.len,
        count,
        staged: false,
    }
}
