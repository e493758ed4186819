//! The records that hold blocks of a run, and the ones beside it.
ghost use Rattle.std.specs.Prelude.{◌≡◌, ◌≤◌, ◌<◌, true, IsNone, IfSome};
ghost use Rattle.xr_kinds.specs.Spans.{is_group_run};
ghost use Rattle.xr_refcount.specs.Marks.{IsAlikeAt, IsFirstMeeting, MeetsNone, NoneAlikeAt};
ghost use Rattle.xr_refcount.specs.Refcount.{IsRefcount, reference_records};

use crate::refcount::Refcount;
use xr_base::geometry::GROUP_BLOCKS;
use xr_kinds::{Reference, Span};
use xr_pool::Overlay;

impl Refcount {
    /// The record with the lowest start that meets a run. Shared blocks stand in front of staged ones in the tree, so each
    /// kind is looked up, but for a record that holds the first block.
    pub(crate) fn first_meeting(&self, over: &Overlay, run: Span) -> Option<Reference>
        requires tree { IsRefcount over.now self.now }
        requires good { is_group_run run ≡ true }
        ensures none { IsNone result → MeetsNone (reference_records over.now self.now) run }
        ensures some { IfSome result (λ r. IsFirstMeeting (reference_records over.now self.now) run r) }
    {
        let with = Reference {
            start: run.start,
            len: run.len,
            count: 2,
            staged: false,
        };
        let first = self.tree.overlap(over, &with, None)?;
        if first.staged || first.start <= run.start {
            return Some(first);
        }
        let last_shared = Reference {
            start: GROUP_BLOCKS,
            ..with
        };
        match self.tree.overlap(over, &with, Some(last_shared)) {
            Some(staged) if staged.start < first.start => Some(staged),
            _ => Some(first),
        }
    }

    /// The record that holds a block, if it would be one with another record that it touches.
    pub(crate) fn record_beside(
        &self,
        over: &Overlay,
        block: u32,
        new: &Reference,
    ) -> Option<Reference>
        requires tree { IsRefcount over.now self.now }
        requires from { 512 ≤ block }
        requires below { block < 2048 }
        ensures none { IsNone result → NoneAlikeAt (reference_records over.now self.now) block new.now }
        ensures some { IfSome result (λ x. IsAlikeAt (reference_records over.now self.now) block new.now x) }
    {
        let place = Span {
            start: block,
            len: 1,
        };
        let found = self.first_meeting(over, place)?;
        if found.staged == new.staged && found.count == new.count {
            Some(found)
        } else {
            None
        }
    }
}
