//! The works that the roll of an exchange leaves.
ghost use Rattle.std.specs.Prelude.{◌≡◌, ◌+◌, ◌-◌, ◌<◌, ◌≤◌, ◌++◌, ◌↔◌, [], IsTrue, IfSome, length};
ghost use Rattle.xr_balance.specs.Rows.{work_of, works_of_exchange_rest, works_of_piece};
ghost use Rattle.xr_base.specs.Address.{IsGoodRun};
ghost use Rattle.xr_base.specs.declared.geometry.TheConstants.{FILES, FIRST_INODE, OFFSETS};
ghost use Rattle.xr_bmap.specs.Slots.{piece_len, piece_slot};
ghost use Rattle.xr_chain.specs.Events.{trans_with};
ghost use Rattle.xr_chain.specs.ExchangeParts.{AreRanges, FitsRanges, IsRunAt, IsShorterLength, LeavesWorks, ranges_behind, run_of_front, swap_of};
ghost use Rattle.xr_items.specs.Transactions.{no_trans};
ghost use Rattle.xr_items.specs.Valid.{IsWork, SuitsOwner};
ghost use Rattle.xr_items.specs.declared.layout.TheConstants.{TRANS_WORKS};
ghost use Rattle.xr_items.specs.declared.work.OwnKind.TheVariants as owning;
ghost use Rattle.xr_items.specs.declared.work.Work.TheVariants as works;

use crate::works::{file_owner_work, map_work};
use xr_base::{FileNo, Run};
use xr_bmap::{File, Piece};
use xr_items::{MapKind, OwnKind, Trans, Work};

/// What is to be exchanged: so many offsets from one on of a file, and as many from one on of another file, or of the same.
#[derive(Clone, Copy)]
pub(crate) struct Ranges {
    pub file: FileNo,
    pub off: u32,
    pub other: FileNo,
    pub other_off: u32,
    pub len: u32,
}

impl Ranges {
    /// What is behind the first offsets.
    fn behind(&self, passed: u32) -> Ranges
        requires ranges { AreRanges self.now }
        requires within { passed < self.now.len }
        ensures is { result ≡ ranges_behind self.now passed }
        ensures ranges { AreRanges result }
    {
        Ranges {
            file: self.file,
            off: self.off + passed,
            other: self.other,
            other_off: self.other_off + passed,
            len: self.len - passed,
        }
    }

    /// The work that exchanges them.
    fn swap(&self) -> Work
        requires { AreRanges self.now }
        ensures is { result ≡ swap_of self.now }
        ensures valid { IsWork result }
    {
        Work::Swap {
            file: self.file,
            off: self.off,
            other: self.other,
            other_off: self.other_off,
            len: self.len,
        }
    }
}

/// The first offsets of a piece as a run; a hole has none.
fn front_run(piece: Piece, len: u32) -> Option<Run>
    ensures { result ≡ run_of_front piece len }
{
    match piece {
        Piece::Mapped { at, .. } => Some(Run { start: at, len }),
        Piece::Hole { .. } => None,
    }
}

fn piece_offsets(piece: Piece) -> u32
    ensures { result ≡ piece_len piece }
{
    match piece {
        Piece::Mapped { len, .. } | Piece::Hole { len } => len,
    }
}

/// How many offsets both pieces have.
fn shorter(first: Piece, second: Piece) -> u32
    ensures { IsShorterLength first second result }
{
    piece_offsets(first).min(piece_offsets(second))
}

/// Whether two pieces begin alike, and so are alike as far as both go.
fn are_alike(first: Piece, second: Piece) -> bool
    ensures { IsTrue result ↔ piece_slot first 0 ≡ piece_slot second 0 }
{
    match (first, second) {
        (Piece::Mapped { at, .. }, Piece::Mapped { at: other, .. }) => at == other,
        (Piece::Hole { .. }, Piece::Hole { .. }) => true,
        _ => false,
    }
}

fn ask_map(kind: MapKind, file: FileNo, off: u32, run: Option<Run>, trans: &mut Trans)
    requires room { length trans.old.works < TRANS_WORKS }
    requires known { file.0 < FILES }
    requires run { IfSome run (IsRunAt off) }
    ensures asked { trans.new ≡ record trans.old { works = trans.old.works ++ work_of (λ r. works.Map kind file off r) run } }
    ensures few { length trans.new.works ≤ length trans.old.works + 1 }
{
    if let Some(run) = run {
        trans.add_work(map_work(kind, file, off, run));
    }
}

fn ask_owner(kind: OwnKind, file: FileNo, off: u32, run: Option<Run>, trans: &mut Trans)
    requires room { length trans.old.works < TRANS_WORKS }
    requires known { file.0 < FILES }
    requires suits { SuitsOwner kind (FIRST_INODE + file.0) }
    requires run { IfSome run (IsRunAt off) }
    ensures asked { trans.new ≡ record trans.old { works = trans.old.works ++ work_of (λ r. works.Own kind (FIRST_INODE + file.0) off r) run } }
    ensures few { length trans.new.works ≤ length trans.old.works + 1 }
{
    if let Some(run) = run {
        trans.add_work(file_owner_work(kind, file, off, run));
    }
}

/// Asks for the works of a piece, where the first range holds `one` and the second `two`.
fn ask_piece(ranges: &Ranges, one: Option<Run>, two: Option<Run>, trans: &mut Trans)
    requires ranges { AreRanges ranges.now }
    requires one { FitsRanges ranges.now one }
    requires two { FitsRanges ranges.now two }
    requires empty { trans.old ≡ no_trans }
    ensures asked { trans.new ≡ trans_with [] (works_of_piece ranges.now.file ranges.now.off one ranges.now.other ranges.now.other_off two) [] }
    ensures few { length trans.new.works ≤ 8 }
{
    let Ranges {
        file,
        off,
        other,
        other_off,
        ..
    } = *ranges;
    ask_map(MapKind::Unmap, file, off, one, trans);
    ask_map(MapKind::Unmap, other, other_off, two, trans);
    ask_map(MapKind::Map, file, off, two, trans);
    ask_map(MapKind::Map, other, other_off, one, trans);
    ask_owner(OwnKind::UnmapShared, file, off, one, trans);
    ask_owner(OwnKind::UnmapShared, other, other_off, two, trans);
    ask_owner(OwnKind::MapShared, file, off, two, trans);
    ask_owner(OwnKind::MapShared, other, other_off, one, trans);
}

/// Asks for the exchange of what is behind the first offsets, where there is something.
fn ask_rest(ranges: &Ranges, passed: u32, trans: &mut Trans)
    requires ranges { AreRanges ranges.now }
    requires within { passed ≤ ranges.now.len }
    requires room { length trans.old.works < TRANS_WORKS }
    ensures asked { trans.new ≡ record trans.old {
      works = trans.old.works ++ works_of_exchange_rest ranges.now.file ranges.now.off ranges.now.other ranges.now.other_off ranges.now.len passed;
    } }
    ensures few { length trans.new.works ≤ length trans.old.works + 1 }
{
    if passed != ranges.len {
        trans.add_work(ranges.behind(passed).swap());
    }
}

/// Passes over the front in which both ranges hold the same, and asks for the works of the piece that comes then, and for the
/// exchange of what is behind it.
pub(crate) fn ask_exchange(ranges: &Ranges, one: &File, two: &File, trans: &mut Trans)
    requires ranges { AreRanges ranges.now }
    requires empty { trans.old ≡ no_trans }
    ensures leaves { LeavesWorks one.now two.now ranges.now trans.new.works }
    ensures few { length trans.new.works ≤ 9 }
    ensures only { trans.new ≡ trans_with [] trans.new.works [] }
{
    let mut rest = *ranges;
    'fronts: loop {
        let first = one.lookup(rest.off, rest.len);
        let second = two.lookup(rest.other_off, rest.len);
        let size = shorter(first, second);
        if !are_alike(first, second) {
            ask_piece(
                &rest,
                front_run(first, size),
                front_run(second, size),
                trans,
            );
            ask_rest(&rest, size, trans);
            return;
        }
        if size == rest.len {
            return;
        }
        rest = rest.behind(size);
    }
}
