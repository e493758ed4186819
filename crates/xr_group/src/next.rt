//! The next record of a tree of a group, by addresses.
ghost use Rattle.std.specs.Prelude.{◌≡◌, ◌↔◌, ◌+◌, ◌*◌, ◌<◌, ◌≤◌, ℕ, true};
ghost use Rattle.xr_base.specs.declared.geometry.TheConstants.{GROUPS, GROUP_BLOCKS};
ghost use Rattle.xr_group.specs.Next.{IsCountedBefore, IsNextOf, IsShorter, StartsBefore, counted_at, counteds_now, free_run_at, frees_now};
ghost use Rattle.xr_group.specs.Next.{rev_at, revs_now, sized_run_at, sizes_now};
ghost use Rattle.xr_group.specs.Parts.{HasGroup, group_state_of};
ghost use Rattle.xr_group.specs.Probes.{WantsLater};
ghost use Rattle.xr_kinds.specs.FreeRuns.{block_form, size_form};
ghost use Rattle.xr_kinds.specs.Reference.{reference_form, reference_span};
ghost use Rattle.xr_kinds.specs.Reverse.{reverse_form, reverse_span};
ghost use Rattle.xr_kinds.specs.Spans.{is_group_run};
ghost use Rattle.xr_lookup.specs.Lookup.{from, is_after};
ghost use Rattle.xr_maps.specs.Records.{IsBefore};

use crate::runs::run_at;
use crate::trees::Trees;
use xr_base::geometry::GROUP_BLOCKS;
use xr_base::{Addr, Run};
use xr_kinds::{ByBlock, BySize, Reference, Reverse, Span};
use xr_maps::{Counted, Rev};
use xr_pool::Overlay;

/// The number of the first block of the group behind an address, which may stand in any group: at most `GROUP_BLOCKS`.
fn place_behind(over: &Overlay, at: Addr) -> u32
    requires known { over.now.owner < GROUPS }
    ensures behind { (n : ℕ) → n < GROUP_BLOCKS → (result ≤ n) ↔ (at.0 < GROUP_BLOCKS * over.now.owner + n) }
    ensures within { result ≤ GROUP_BLOCKS }
{
    let first = u64::from(GROUP_BLOCKS) * over.owner();
    let behind = (u64::from(at.0) + 1).saturating_sub(first);
    behind.min(u64::from(GROUP_BLOCKS)) as u32
}

/// From where on the free runs stand behind another.
fn free_from(over: &Overlay, after: Option<Run>) -> ByBlock
    requires known { over.now.owner < GROUPS }
    ensures { WantsLater block_form (free_run_at over.now.owner) StartsBefore after (from block_form result) }
{
    match after {
        Some(run) => ByBlock {
            start: place_behind(over, run.start),
            len: 0,
        },
        None => ByBlock { start: 0, len: 0 },
    }
}

/// In the order of blocks.
pub(crate) fn next_free_in(over: &Overlay, trees: &Trees, after: Option<Run>) -> Option<Run>
    requires { HasGroup over.now trees.now }
    ensures { IsNextOf StartsBefore (frees_now (group_state_of over.now)) after result }
{
    let from = free_from(over, after);
    match trees.space.by_block.at_least(over, &from) {
        Some(found) => Some(run_at(over, found.span())),
        None => None,
    }
}

/// From where on the free runs are longer than another, or as long and behind it.
fn size_from(over: &Overlay, after: Option<Run>) -> BySize
    requires known { over.now.owner < GROUPS }
    ensures { WantsLater size_form (sized_run_at over.now.owner) IsShorter after (from size_form result) }
{
    match after {
        Some(run) => BySize {
            start: place_behind(over, run.start),
            len: run.len,
        },
        None => BySize { start: 0, len: 0 },
    }
}

/// In the order of lengths, and then of blocks.
pub(crate) fn next_size_in(over: &Overlay, trees: &Trees, after: Option<Run>) -> Option<Run>
    requires { HasGroup over.now trees.now }
    ensures { IsNextOf IsShorter (sizes_now (group_state_of over.now)) after result }
{
    let from = size_from(over, after);
    match trees.space.by_size.at_least(over, &from) {
        Some(found) => Some(run_at(over, found.span())),
        None => None,
    }
}

/// The record of the tree after which the others come: none for an address in front of the group, after which all do.
fn owner_after(over: &Overlay, after: Option<Rev>) -> Option<Reverse>
    requires known { over.now.owner < GROUPS }
    ensures { WantsLater reverse_form (rev_at over.now.owner) IsBefore after (is_after reverse_form result) }
{
    let first = u64::from(GROUP_BLOCKS) * over.owner();
    match after {
        Some(rev) if u64::from(rev.run.start.0) >= first => {
            let place = u64::from(rev.run.start.0) - first;
            Some(Reverse {
                start: place.min(u64::from(GROUP_BLOCKS)) as u32,
                len: rev.run.len,
                owner: rev.owner,
                off: rev.off,
            })
        }
        _ => None,
    }
}

/// A record of owners by addresses.
fn rev_at(over: &Overlay, r: &Reverse) -> Rev
    requires known { over.now.owner < GROUPS }
    requires good { is_group_run (reverse_span r.now) ≡ true }
    ensures { result ≡ rev_at over.now.owner r.now }
{
    let run = Span {
        start: r.start,
        len: r.len,
    };
    Rev {
        run: run_at(over, run),
        owner: r.owner,
        off: r.off,
    }
}

/// In the order of blocks, then of owners, then of offsets.
pub(crate) fn next_owner_in(over: &Overlay, trees: &Trees, after: Option<Rev>) -> Option<Rev>
    requires { HasGroup over.now trees.now }
    ensures { IsNextOf IsBefore (revs_now (group_state_of over.now)) after result }
{
    match trees.rmap.next_owner(over, owner_after(over, after)) {
        Some(found) => Some(rev_at(over, &found)),
        None => None,
    }
}

/// From where on the counts come after another.
fn count_from(over: &Overlay, after: Option<Counted>) -> Reference
    requires known { over.now.owner < GROUPS }
    ensures { WantsLater reference_form (counted_at over.now.owner) IsCountedBefore after (from reference_form result) }
{
    match after {
        Some(counted) => Reference {
            start: place_behind(over, counted.run.start),
            len: 0,
            count: 0,
            staged: counted.staged,
        },
        None => Reference {
            start: 0,
            len: 0,
            count: 0,
            staged: false,
        },
    }
}

/// A record of counts by addresses.
fn counted_at(over: &Overlay, r: &Reference) -> Counted
    requires known { over.now.owner < GROUPS }
    requires good { is_group_run (reference_span r.now) ≡ true }
    ensures { result ≡ counted_at over.now.owner r.now }
{
    let run = Span {
        start: r.start,
        len: r.len,
    };
    Counted {
        run: run_at(over, run),
        count: r.count,
        staged: r.staged,
    }
}

/// In the order of blocks, the staged ones behind all that are shared.
pub(crate) fn next_count_in(
    over: &Overlay,
    trees: &Trees,
    after: Option<Counted>,
) -> Option<Counted>
    requires { HasGroup over.now trees.now }
    ensures { IsNextOf IsCountedBefore (counteds_now (group_state_of over.now)) after result }
{
    let from = count_from(over, after);
    match trees.counts.tree.at_least(over, &from) {
        Some(found) => Some(counted_at(over, &found)),
        None => None,
    }
}
