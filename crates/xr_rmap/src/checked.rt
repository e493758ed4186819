//! Calls on the owners of a group that first test what they ask for.
ghost use Rattle.std.specs.Prelude.{◌≡◌};
ghost use Rattle.xr_pool.specs.Overlay.{free_count};
ghost use Rattle.xr_rmap.specs.Rmap.{IsRmap};

use crate::Rmap;
use xr_kinds::{Record, Reverse, Span};
use xr_pool::Overlay;

/// How many blocks of the pool are free.
pub(crate) fn free_blocks(over: &Overlay) -> u32
    ensures { result ≡ free_count over.now }
{
    let mut count = 0;
    for n in 0..over.len() {
        if n > 0 && over.is_free(n) {
            count += 1;
        }
    }
    count
}

pub(crate) fn run_of(r: &Reverse) -> Span
    ensures { result ≡ record { start = r.now.start; len = r.now.len } }
{
    Span {
        start: r.start,
        len: r.len,
    }
}

/// Adds the pairs of a record. False, and nothing changes, where one is there or no owner may have them, or there is no room.
pub(crate) fn add(over: &mut Overlay, rmap: &mut Rmap, r: &Reverse) -> bool
    requires { IsRmap over.old rmap.old }
    ensures { IsRmap over.new rmap.new }
{
    let run = run_of(r);
    let few = rmap.count(over) < Reverse::MOST && free_blocks(over) >= 3;
    if few && r.valid() && rmap.has_none_of(over, run, r.owner, r.off) {
        rmap.add(over, run, r.owner, r.off);
        true
    } else {
        false
    }
}

/// Removes the pairs of a record. False, and nothing changes, where one isn't there, or there is no room.
pub(crate) fn remove(over: &mut Overlay, rmap: &mut Rmap, r: &Reverse) -> bool
    requires { IsRmap over.old rmap.old }
    ensures { IsRmap over.new rmap.new }
{
    let run = run_of(r);
    let few = rmap.count(over) < Reverse::MOST && free_blocks(over) >= 3;
    if few && r.valid() && rmap.has_all_of(over, run, r.owner, r.off) {
        rmap.remove(over, run, r.owner, r.off);
        true
    } else {
        false
    }
}
