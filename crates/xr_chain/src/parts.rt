//! The parts of a run.
ghost use Rattle.std.specs.Prelude.{◌≡◌, ◌<◌, ◌≤◌};
ghost use Rattle.xr_balance.specs.Rolls.{run_back, run_front};
ghost use Rattle.xr_base.specs.Address.{IsGoodRun, group_number};

use xr_base::{Addr, Run};

/// The first `len` blocks of a run.
pub(crate) fn front_of(run: &Run, len: u32) -> Run
    requires good { IsGoodRun run.now }
    requires some { 0 < len }
    requires within { len ≤ run.now.len }
    ensures is { result ≡ run_front run.now len }
    ensures good { IsGoodRun result }
{
    Run {
        start: run.start,
        len,
    }
}

/// The blocks of a run behind the first `len`, of which there are some.
pub(crate) fn back_of(run: &Run, len: u32) -> Run
    requires good { IsGoodRun run.now }
    requires within { len < run.now.len }
    ensures is { result ≡ run_back run.now len }
    ensures good { IsGoodRun result }
    ensures group { group_number result.start ≡ group_number run.now.start }
{
    Run {
        start: Addr(run.start.0 + len),
        len: run.len - len,
    }
}
