//! A work on a group that is done: what changes in the group, and the works that it leaves.
ghost use Rattle.std.specs.Prelude.{◌≡◌, ◌≤◌, ℕ, [], ◌∷◌, List, length};
ghost use Rattle.std.specs.List.{All};
ghost use Rattle.xr_balance.specs.RollGives.{works_of_rest};
ghost use Rattle.xr_balance.specs.Rolls.{works_of_freed};
ghost use Rattle.xr_base.specs.Address.{IsGoodRun};
ghost use Rattle.xr_chain.specs.ChainView.{group_at, most_left, need_of};
ghost use Rattle.xr_chain.specs.GroupWorks.{ChangesItsPart, DoesGroupWork, left_works};
ghost use Rattle.xr_chain.specs.Readiness.{IsGroupReady};
ghost use Rattle.xr_group.specs.Group.{IsRunOf};
ghost use Rattle.xr_group.specs.Sets.{IsPaired};
ghost use Rattle.xr_items.specs.Valid.{IsWork};
ghost use Rattle.xr_items.specs.declared.work.Work.{Work};
ghost use Rattle.xr_items.specs.declared.work.Work.TheVariants as works;

use crate::chain::Need;
use crate::parts::{back_of, front_of};
use xr_base::Run;
use xr_group::{Group, groups_tell_records};
use xr_items::{CountKind, OwnKind, Work};

/// The works that are left where one is done.
#[derive(Drop)]
pub(crate) enum Left {
    Nothing,
    One([Work; 1]),
    Two([Work; 2]),
}

impl Left {
    /// The works in the order in which they are to be done.
    pub(crate) fn works(&self) -> &[Work]
        ensures { result.now ≡ left_works self.now }
    {
        match self {
            Left::Nothing => &[],
            Left::One(works) => works,
            Left::Two(works) => works,
        }
    }
}

/// The work for the rest of a run whose first blocks are done.
fn rest_of(kind: CountKind, run: &Run, len: u32) -> Left
    requires good { IsGoodRun run.now }
    requires within { len ≤ run.now.len }
    ensures is { left_works result ≡ works_of_rest kind run.now len }
    ensures valid { All IsWork (left_works result) }
{
    if len == run.len {
        return Left::Nothing;
    }
    Left::One([Work::Count {
        kind,
        run: back_of(run, len),
    }])
}

/// The works for a run whose first blocks have lost their last owner.
fn freed_of(run: &Run, len: u32) -> Left
    requires good { IsGoodRun run.now }
    requires some { 1 ≤ len }
    requires within { len ≤ run.now.len }
    ensures is { left_works result ≡ works_of_freed run.now len }
    ensures valid { All IsWork (left_works result) }
{
    let free = Work::Free {
        run: front_of(run, len),
    };
    if len == run.len {
        return Left::One([free]);
    }
    Left::Two([
        free,
        Work::Count {
            kind: CountKind::Decrease,
            run: back_of(run, len),
        },
    ])
}

fn do_owner_work(group: &mut Group, kind: OwnKind, owner: u64, off: u64, run: &Run)
    requires run { IsRunOf group.old run.now }
    requires valid { IsWork (works.Own kind owner off run.now) }
    requires ready { IsGroupReady group.old (works.Own kind owner off run.now) }
    ensures does { DoesGroupWork group.old group.new (works.Own kind owner off run.now) [] }
    ensures change { ChangesItsPart group.old group.new (works.Own kind owner off run.now) }
{
    match kind {
        OwnKind::MapShared | OwnKind::Alloc => group.add(run, owner, off),
        OwnKind::UnmapShared | OwnKind::Free => group.remove(run, owner, off),
    }
}

/// Raises the count of the first part of a run.
fn raise_first(group: &mut Group, run: &Run) -> Left
    requires run { IsRunOf group.old run.now }
    requires ready { IsGroupReady group.old (works.Count CountKind.Increase run.now) }
    ensures does { DoesGroupWork group.old group.new (works.Count CountKind.Increase run.now) (left_works result) }
    ensures valid { All IsWork (left_works result) }
    ensures change { ChangesItsPart group.old group.new (works.Count CountKind.Increase run.now) }
{
    let part = group.first_equal(run);
    group.raise_run(&part.run);
    rest_of(CountKind::Increase, run, part.run.len)
}

/// Lowers the count of the first part of a run, or leaves its blocks to be given where they have one owner.
fn lower_first(group: &mut Group, run: &Run) -> Left
    requires run { IsRunOf group.old run.now }
    requires ready { IsGroupReady group.old (works.Count CountKind.Decrease run.now) }
    ensures does { DoesGroupWork group.old group.new (works.Count CountKind.Decrease run.now) (left_works result) }
    ensures valid { All IsWork (left_works result) }
    ensures change { ChangesItsPart group.old group.new (works.Count CountKind.Decrease run.now) }
{
    group.is_group();
    groups_tell_records();
    let part = group.first_equal(run);
    if group.lower_run(&part.run).freed {
        freed_of(run, part.run.len)
    } else {
        rest_of(CountKind::Decrease, run, part.run.len)
    }
}

fn do_count_work(group: &mut Group, kind: CountKind, run: &Run) -> Left
    requires run { IsRunOf group.old run.now }
    requires ready { IsGroupReady group.old (works.Count kind run.now) }
    ensures does { DoesGroupWork group.old group.new (works.Count kind run.now) (left_works result) }
    ensures valid { All IsWork (left_works result) }
    ensures change { ChangesItsPart group.old group.new (works.Count kind run.now) }
{
    match kind {
        CountKind::Increase => raise_first(group, run),
        CountKind::Decrease => lower_first(group, run),
        CountKind::AllocCow => {
            group.stage(run);
            Left::Nothing
        }
        CountKind::FreeCow => {
            group.unstage(run);
            Left::Nothing
        }
    }
}

/// Does a work on a group, and gives what it leaves.
pub(crate) fn do_group_work(group: &mut Group, work: &Work) -> Left
    requires valid { IsWork work.now }
    requires need { need_of work.now ≡ Need.Group (group_at group.old.number) }
    requires ready { IsGroupReady group.old work.now }
    requires paired { IsPaired group.old }
    ensures does { DoesGroupWork group.old group.new work.now (left_works result) }
    ensures valid { All IsWork (left_works result) }
    ensures few { length (left_works result) ≤ most_left work.now }
    ensures change { ChangesItsPart group.old group.new work.now }
    ensures paired { IsPaired group.new }
{
    match *work {
        Work::Own {
            kind,
            owner,
            off,
            run,
        } => {
            do_owner_work(group, kind, owner, off, &run);
            Left::Nothing
        }
        Work::Count { kind, run } => do_count_work(group, kind, &run),
        Work::Free { run } => {
            group.give(&run);
            Left::Nothing
        }
        _ => unreachable!(),
    }
}
