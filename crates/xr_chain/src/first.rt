//! The first commit of a step: what is to be done for it, in order. No block changes.
ghost use Rattle.std.specs.Prelude.{◌≡◌, ◌+◌, ◌<◌, ◌≤◌, [], IfSome};
ghost use Rattle.xr_balance.specs.Rows.{works_of_fresh, works_of_punch, works_of_share};
ghost use Rattle.xr_base.specs.Address.{IsGoodRun};
ghost use Rattle.xr_base.specs.declared.geometry.TheConstants.{FILES, OFFSETS};
ghost use Rattle.xr_chain.specs.Events.{BeginsWith};
ghost use Rattle.xr_chain.specs.FirstRows.{IsTakenBy, run_of_piece, works_of_step};
ghost use Rattle.xr_items.specs.Transactions.{no_trans};
ghost use Rattle.xr_maps.specs.Steps.{Fits};

use crate::begin::begin;
use crate::chain::Chain;
use crate::works::{file_owner_work, map_work, staged_owner_work};
use xr_base::{FileNo, Run};
use xr_bmap::Piece;
use xr_items::{CountKind, MapKind, OwnKind, Trans, Work};
use xr_maps::Step;

/// The run of a piece; a hole has none.
fn run_of(piece: Piece) -> Option<Run>
    ensures { result ≡ run_of_piece piece }
{
    match piece {
        Piece::Mapped { at, len } => Some(Run { start: at, len }),
        Piece::Hole { .. } => None,
    }
}

fn begin_punch(file: FileNo, off: u32, old: Run, trans: &mut Trans) -> Chain
    requires known { file.0 < FILES }
    requires good { IsGoodRun old }
    requires within { off + old.len ≤ OFFSETS }
    requires empty { trans.old ≡ no_trans }
    ensures { BeginsWith [] (works_of_punch file off old) result trans.new }
{
    begin(
        &[
            map_work(MapKind::Unmap, file, off, old),
            file_owner_work(OwnKind::UnmapShared, file, off, old),
            Work::Count {
                kind: CountKind::Decrease,
                run: old,
            },
        ],
        trans,
    )
}

fn begin_share(file: FileNo, off: u32, old: Option<Run>, new: Run, trans: &mut Trans) -> Chain
    requires known { file.0 < FILES }
    requires good { IsGoodRun new }
    requires old { IfSome old (λ run. IsGoodRun run × (run.len ≡ new.len)) }
    requires within { off + new.len ≤ OFFSETS }
    requires empty { trans.old ≡ no_trans }
    ensures { BeginsWith [] (works_of_share file off old new) result trans.new }
{
    match old {
        Some(old) => begin(
            &[
                map_work(MapKind::Unmap, file, off, old),
                map_work(MapKind::Map, file, off, new),
                file_owner_work(OwnKind::UnmapShared, file, off, old),
                file_owner_work(OwnKind::MapShared, file, off, new),
                Work::Count {
                    kind: CountKind::Increase,
                    run: new,
                },
                Work::Count {
                    kind: CountKind::Decrease,
                    run: old,
                },
            ],
            trans,
        ),
        None => begin(
            &[
                map_work(MapKind::Map, file, off, new),
                file_owner_work(OwnKind::MapShared, file, off, new),
                Work::Count {
                    kind: CountKind::Increase,
                    run: new,
                },
            ],
            trans,
        ),
    }
}

fn begin_fresh(file: FileNo, off: u32, old: Option<Run>, new: Run, trans: &mut Trans) -> Chain
    requires known { file.0 < FILES }
    requires good { IsGoodRun new }
    requires old { IfSome old (λ run. IsGoodRun run × (run.len ≡ new.len)) }
    requires within { off + new.len ≤ OFFSETS }
    requires empty { trans.old ≡ no_trans }
    ensures { BeginsWith [] (works_of_fresh file off old new) result trans.new }
{
    match old {
        Some(old) => begin(
            &[
                map_work(MapKind::Unmap, file, off, old),
                map_work(MapKind::Map, file, off, new),
                staged_owner_work(OwnKind::Free, new),
                file_owner_work(OwnKind::UnmapShared, file, off, old),
                file_owner_work(OwnKind::MapShared, file, off, new),
                Work::Count {
                    kind: CountKind::FreeCow,
                    run: new,
                },
                Work::Count {
                    kind: CountKind::Decrease,
                    run: old,
                },
            ],
            trans,
        ),
        None => begin(
            &[
                map_work(MapKind::Map, file, off, new),
                staged_owner_work(OwnKind::Free, new),
                file_owner_work(OwnKind::MapShared, file, off, new),
                Work::Count {
                    kind: CountKind::FreeCow,
                    run: new,
                },
            ],
            trans,
        ),
    }
}

impl Chain {
    /// Begins the chain of a step. For a remap or a punch, `old` is what a lookup gives for its whole range, and a punch's is
    /// mapped; `staged` says whether a remap's run is staged for the lane. An exchange uses neither.
    pub fn first(step: &Step, old: Piece, staged: bool, trans: &mut Trans) -> Chain
        requires fits { Fits step.now }
        requires old { IsTakenBy step.now old }
        requires empty { trans.old ≡ no_trans }
        ensures { BeginsWith [] (works_of_step step.now (run_of_piece old) staged) result trans.new }
    {
        match *step {
            Step::Punch { file, off, .. } => match run_of(old) {
                Some(old) => begin_punch(file, off, old, trans),
                None => begin(&[], trans),
            },
            Step::Remap { file, off, len, at } => {
                let new = Run { start: at, len };
                if staged {
                    begin_fresh(file, off, run_of(old), new, trans)
                } else {
                    begin_share(file, off, run_of(old), new, trans)
                }
            }
            Step::Exchange {
                file,
                off,
                other,
                other_off,
                len,
            } => begin(
                &[Work::Swap {
                    file,
                    off,
                    other,
                    other_off,
                    len,
                }],
                trans,
            ),
        }
    }
}
