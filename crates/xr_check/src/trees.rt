//! The four trees of a group: of owners, of counts, and of free runs by block and by length.
ghost use Rattle.xr_group.specs.Next.{IsCountedBefore, IsNextOf, IsShorter, StartsBefore, counteds_now, frees_now, revs_now, sizes_now};
ghost use Rattle.xr_maps.specs.Records.{IsBefore};

use crate::walk::GroupTree;
use xr_base::{Addr, Run};
use xr_group::Group;
use xr_maps::{Counted, Rev};

/// The records of owners.
pub struct OwnerTree;

impl GroupTree for OwnerTree {
    ghost use Rattle.xr_check.specs.TreeOrderLaws.{owners_ordered};
    ghost use Rattle.xr_check.specs.Verdicts.{rev_start};

    type Record = Rev;

    ghost records = { revs_now };

    ghost before = { IsBefore };

    ghost start = { rev_start };

    ghost ordered = { owners_ordered };

    fn next(group: &Group, after: Option<Rev>) -> Option<Rev>
        ensures { IsNextOf IsBefore (revs_now group.now) after result }
    {
        group.next_owner(after)
    }

    fn is_same(r: &Rev, s: &Rev) -> bool {
        r == s
    }

    fn comes_before(r: &Rev, s: &Rev) -> bool {
        (r.run.start, r.owner, r.off) < (s.run.start, s.owner, s.off)
    }

    fn start_of(r: &Rev) -> Addr {
        r.run.start
    }
}

/// The records of counts, staged ones behind all others.
pub struct CountTree;

impl GroupTree for CountTree {
    ghost use Rattle.xr_check.specs.TreeOrderLaws.{counts_ordered};
    ghost use Rattle.xr_check.specs.Verdicts.{counted_start};

    type Record = Counted;

    ghost records = { counteds_now };

    ghost before = { IsCountedBefore };

    ghost start = { counted_start };

    ghost ordered = { counts_ordered };

    fn next(group: &Group, after: Option<Counted>) -> Option<Counted>
        ensures { IsNextOf IsCountedBefore (counteds_now group.now) after result }
    {
        group.next_count(after)
    }

    fn is_same(r: &Counted, s: &Counted) -> bool {
        r == s
    }

    fn comes_before(r: &Counted, s: &Counted) -> bool {
        (r.staged, r.run.start) < (s.staged, s.run.start)
    }

    fn start_of(r: &Counted) -> Addr {
        r.run.start
    }
}

/// The free runs by block.
pub struct FreeTree;

impl GroupTree for FreeTree {
    ghost use Rattle.xr_check.specs.TreeOrderLaws.{frees_ordered};
    ghost use Rattle.xr_check.specs.Verdicts.{run_start};

    type Record = Run;

    ghost records = { frees_now };

    ghost before = { StartsBefore };

    ghost start = { run_start };

    ghost ordered = { frees_ordered };

    fn next(group: &Group, after: Option<Run>) -> Option<Run>
        ensures { IsNextOf StartsBefore (frees_now group.now) after result }
    {
        group.next_free(after)
    }

    fn is_same(r: &Run, s: &Run) -> bool {
        r == s
    }

    fn comes_before(r: &Run, s: &Run) -> bool {
        r.start < s.start
    }

    fn start_of(r: &Run) -> Addr {
        r.start
    }
}

/// The free runs by length.
pub(crate) struct SizeTree;

impl GroupTree for SizeTree {
    ghost use Rattle.xr_check.specs.TreeOrderLaws.{sizes_ordered};
    ghost use Rattle.xr_check.specs.Verdicts.{run_start};

    type Record = Run;

    ghost records = { sizes_now };

    ghost before = { IsShorter };

    ghost start = { run_start };

    ghost ordered = { sizes_ordered };

    fn next(group: &Group, after: Option<Run>) -> Option<Run>
        ensures { IsNextOf IsShorter (sizes_now group.now) after result }
    {
        group.next_size(after)
    }

    fn is_same(r: &Run, s: &Run) -> bool {
        r == s
    }

    fn comes_before(r: &Run, s: &Run) -> bool {
        (r.len, r.start) < (s.len, s.start)
    }

    fn start_of(r: &Run) -> Addr {
        r.start
    }
}
