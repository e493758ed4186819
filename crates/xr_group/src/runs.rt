//! Addresses of a group as numbers of its blocks, and back.
ghost use Rattle.std.specs.Prelude.{◌≡◌, ◌<◌, true};
ghost use Rattle.xr_base.specs.Address.{IsGoodRun};
ghost use Rattle.xr_base.specs.declared.geometry.TheConstants.{GROUPS};
ghost use Rattle.xr_group.specs.Sets.{run_at, group_span};
ghost use Rattle.xr_kinds.specs.Spans.{is_group_run};

use xr_base::geometry::GROUP_BLOCKS;
use xr_base::{Addr, Run};
use xr_kinds::Span;
use xr_pool::Overlay;

/// A good run by its blocks' numbers in their group.
pub(crate) fn group_span(run: &Run) -> Span
    requires { IsGoodRun run.now }
    ensures is { result ≡ group_span run.now }
    ensures good { is_group_run result ≡ true }
{
    Span {
        start: run.start.0 % GROUP_BLOCKS,
        len: run.len,
    }
}

/// A run of a group's blocks by their addresses.
pub(crate) fn run_at(over: &Overlay, run: Span) -> Run
    requires known { over.now.owner < GROUPS }
    requires good { is_group_run run ≡ true }
    ensures { result ≡ run_at over.now.owner run }
{
    Run {
        start: Addr(GROUP_BLOCKS * over.owner() as u32 + run.start),
        len: run.len,
    }
}
