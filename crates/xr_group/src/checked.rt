//! Calls on group 0 that first test what they ask for, as far as another call tells it.
ghost use Rattle.std.specs.Prelude.{◌≡◌, ℕ, ◌<◌, length, true, false};
ghost use Rattle.xr_group.specs.Group.{IsRunOf, records_now};
ghost use Rattle.xr_group.specs.Sets.{AreCountedIn, IsPaired, has_pair, owner_count_in};

use crate::Group;
use std::process::Abort;
use xr_base::geometry::GROUP_BLOCKS;
use xr_base::{Addr, Run, good_run};
use xr_maps::Counted;

/// A run of data blocks of group 0.
pub(crate) fn run_of(rt: &impl Abort, group: &Group, start: u32, len: u32) -> Run
    requires { group.now.number ≡ 0 }
    ensures run { IsRunOf group.now result }
    ensures parts { result ≡ record { start = record { 0 = start }; len = len } }
{
    let run = Run {
        start: Addr(start),
        len,
    };
    assert!(rt; good_run(&run) && start < GROUP_BLOCKS);
    run
}

/// No block has an owner: there is no record of one.
pub(crate) fn has_no_owner(rt: &impl Abort, group: &Group)
    ensures { (w o a : ℕ) → has_pair group.now w o a ≡ false }
{
    assert!(rt; group.owner_records() == 0);
}

/// Both trees of free runs hold the same runs.
pub(crate) fn are_paired(rt: &impl Abort, group: &Group)
    ensures { IsPaired group.now }
{
    assert!(rt; group.paired());
}

/// What is so of all blocks of a run.
pub(crate) fn counted(rt: &impl Abort, group: &Group, run: &Run) -> Counted
    requires { IsRunOf group.now run.now }
    ensures alike { AreCountedIn group.now run.now result.count result.staged }
    ensures count { owner_count_in group.now run.now.start.0 ≡ result.count }
{
    let part = group.first_equal(run);
    assert!(rt; part.run.len == run.len);
    part
}

pub(crate) fn raise(rt: &impl Abort, group: &mut Group, start: u32, len: u32)
    requires { group.old.number ≡ 0 }
    ensures { group.new.number ≡ 0 }
{
    let run = run_of(rt, group, start, len);
    let part = counted(rt, group, &run);
    assert!(rt; part.count < 32_768 && !part.staged);
    group.raise_run(&run);
}

/// Whether the run is freed.
pub(crate) fn lower(rt: &impl Abort, group: &mut Group, start: u32, len: u32) -> bool
    requires { group.old.number ≡ 0 }
    ensures { group.new.number ≡ 0 }
{
    let run = run_of(rt, group, start, len);
    let part = counted(rt, group, &run);
    assert!(rt; !part.staged);
    let lowered = group.lower_run(&run);
    assert!(rt; lowered.changed != lowered.freed);
    lowered.freed
}

pub(crate) fn stage(rt: &impl Abort, group: &mut Group, start: u32, len: u32)
    requires { group.old.number ≡ 0 }
    ensures { group.new.number ≡ 0 }
{
    let run = run_of(rt, group, start, len);
    let part = counted(rt, group, &run);
    assert!(rt; part.count == 1 && !part.staged);
    group.stage(&run);
}

pub(crate) fn unstage(rt: &impl Abort, group: &mut Group, start: u32, len: u32)
    requires { group.old.number ≡ 0 }
    ensures { group.new.number ≡ 0 }
{
    let run = run_of(rt, group, start, len);
    let part = counted(rt, group, &run);
    assert!(rt; part.staged);
    group.unstage(&run);
}

/// Gives blocks to an owner who has none, each in a record of its own.
pub(crate) fn fill(rt: &impl Abort, group: &mut Group, owner: u64, blocks: u32)
    requires number { group.old.number ≡ 0 }
    requires none { (o a : ℕ) → has_pair group.old owner o a ≡ false }
    ensures number { group.new.number ≡ 0 }
    ensures others { (w o a : ℕ) → owner < w → has_pair group.new w o a ≡ has_pair group.old w o a }
{
    assert!(rt; owner >= 128 && owner < 160 && blocks <= 1536);
    for i in 0..blocks {
        let run = run_of(rt, group, 512 + i, 1);
        assert!(rt; group.owner_records() < 34_304);
        group.add(&run, owner, u64::from(2 * i % 512));
    }
}
