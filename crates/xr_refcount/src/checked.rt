//! Calls on the counts of a group that first test what they ask for.
ghost use Rattle.std.specs.Prelude.{◌≡◌, true, false};
ghost use Rattle.xr_kinds.specs.Spans.{is_group_run};
ghost use Rattle.xr_pool.specs.Overlay.{free_count};
ghost use Rattle.xr_refcount.specs.Counts.{AreCountedAs, count_at};
ghost use Rattle.xr_refcount.specs.Refcount.{IsRefcount, reference_records};

use crate::Refcount;
use std::process::Abort;
use xr_kinds::Span;
use xr_pool::Overlay;

/// How many blocks of the pool are free.
pub(crate) fn free_blocks(over: &Overlay) -> u32
    ensures { result ≡ free_count over.now }
{
    let mut count = 0;
    for n in 0..over.len() {
        if n > 0 && over.is_free(n) {
            count += 1;
        }
    }
    count
}

/// The one count of a run of which no block is staged.
pub(crate) fn count_of(rt: &impl Abort, over: &Overlay, counts: &Refcount, run: Span) -> u32
    requires { IsRefcount over.now counts.now }
    ensures good { is_group_run run ≡ true }
    ensures alike { AreCountedAs (reference_records over.now counts.now) run result false }
    ensures count { count_at (reference_records over.now counts.now) run.start ≡ result }
{
    assert!(rt; run.is_group_run());
    let part = counts.first_equal(over, run);
    assert!(rt; part.run.len == run.len && !part.staged);
    part.count
}

pub(crate) fn raise(
    rt: &impl Abort,
    over: &mut Overlay,
    counts: &mut Refcount,
    start: u32,
    len: u32,
)
    requires { IsRefcount over.old counts.old }
    ensures { IsRefcount over.new counts.new }
{
    let run = Span { start, len };
    let count = count_of(rt, over, counts, run);
    assert!(rt; count < 32_768 && free_blocks(over) >= 4);
    counts.raise_run(over, run);
}

/// Whether the run is freed.
pub(crate) fn lower(
    rt: &impl Abort,
    over: &mut Overlay,
    counts: &mut Refcount,
    start: u32,
    len: u32,
) -> bool
    requires { IsRefcount over.old counts.old }
    ensures { IsRefcount over.new counts.new }
{
    let run = Span { start, len };
    let count = count_of(rt, over, counts, run);
    assert!(rt; free_blocks(over) >= 4);
    let lowered = counts.lower_run(over, run);
    assert!(rt; lowered.freed == (count == 1) && lowered.changed == (count > 1));
    lowered.freed
}

pub(crate) fn stage(
    rt: &impl Abort,
    over: &mut Overlay,
    counts: &mut Refcount,
    start: u32,
    len: u32,
)
    requires { IsRefcount over.old counts.old }
    ensures { IsRefcount over.new counts.new }
{
    let run = Span { start, len };
    let count = count_of(rt, over, counts, run);
    assert!(rt; count == 1 && free_blocks(over) >= 2);
    counts.stage(over, run);
}

pub(crate) fn unstage(
    rt: &impl Abort,
    over: &mut Overlay,
    counts: &mut Refcount,
    start: u32,
    len: u32,
)
    requires { IsRefcount over.old counts.old }
    ensures { IsRefcount over.new counts.new }
{
    let run = Span { start, len };
    assert!(rt; run.is_group_run() && free_blocks(over) >= 2);
    let part = counts.first_equal(over, run);
    assert!(rt; part.run.len == len && part.staged);
    counts.unstage(over, run);
}
