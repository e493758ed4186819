//! Worked chains from their first commit to their end: what each transaction changes, asks for and ends.
ghost use Rattle.std.specs.Prelude.{◌≡◌, ◌*◌, ◌≤◌, IfOk, IsTrue, vec_len};
ghost use Rattle.xr_base.specs.declared.geometry.TheConstants.{BLOCK_BYTES};
ghost use Rattle.xr_chain.specs.ChainView.{HasRollRoom, IsPlaced, file_at, first_need, group_at};
ghost use Rattle.xr_chain.specs.FirstRows.{IsWholePiece};
ghost use Rattle.xr_items.specs.Transactions.{no_trans};

use crate::worked::Begins::{self, Exchanges, Punches, Releases, Shares, Stages, Writes};
use crate::worked::Changes::{
    self, Counts, Frees, NoBlock, NoBlockOfBoth, NoBlockOfOne, One, Owners, Two,
};
use crate::worked::{
    Does, EXCHANGED, Named, OVERWRITTEN, PASSED_OVER, Rolled, Row, SHARED, STAGED,
};
use crate::{Chain, Need};
use std::alloc::{AllocError, Global};
use std::marker::Model;
use std::process::Abort;
use std::test::Fail;
use uuid::Uuid;
use xr_base::geometry::{
    BLOCK_BYTES, FIRST_FILE_BLOCK, FIRST_GROUP_BLOCK, FIRST_INODE, OFFSETS, OWN_COW,
};
use xr_base::{Addr, FileNo, GroupNo, Run, good_run};
use xr_bmap::{File, Piece};
use xr_group::Group;
use xr_headers::fresh_block;
use xr_items::{OwnKind, Placed, Trans, Work};
use xr_maps::{Counted, Step, fits};

/// What the rolls are lent, the transaction that each of them fills, the slot that the next new work gets, and the slot of the work
/// that is done next.
#[derive(Drop)]
struct Lent {
    one: File,
    two: File,
    group: Group,
    trans: Trans,
    next: u8,
    due: u8,
}

impl Model for Lent {
    ghost use Rattle.std.specs.Prelude.{◌≡◌};
    ghost use Rattle.xr_items.specs.Transactions.{TransView};

    ghost Value = { TransView };

    ghost view = { λ l. l.trans };

    ghost invariant = { λ l. (l.one.number ≡ 0) × (l.two.number ≡ 1) × (l.group.number ≡ 0) };
}

fn identifier() -> Uuid {
    Uuid::from_bytes(*b"the image's uuid")
}

/// Some blocks of a fresh image.
fn fresh_blocks(
    rt: &impl Abort,
    alloc: Global,
    first: u32,
    count: u32,
) -> Result<Vec<u8>, AllocError>
    requires { count ≤ 512 }
    ensures { IfOk result (λ bytes. vec_len bytes ≡ count * BLOCK_BYTES) }
{
    let mut bytes = vec![in alloc; 0; count as usize * BLOCK_BYTES]?;
    for n in 0..count {
        let mut block = [0; BLOCK_BYTES];
        assert!(rt; first < 8000);
        fresh_block(first + n, &identifier(), 7, &mut block);
        let at = n as usize * BLOCK_BYTES;
        assert!(rt; at <= bytes.len() && BLOCK_BYTES <= bytes.len() - at);
        bytes[at..at + BLOCK_BYTES].copy_from_slice(&block);
    }
    Ok(bytes)
}

/// Files 0 and 1 and group 0 of a fresh image.
fn open(rt: &impl Abort, alloc: Global) -> Result<Lent, Fail> {
    let one = fresh_blocks(rt, alloc, FIRST_FILE_BLOCK, 8)?;
    let two = fresh_blocks(rt, alloc, FIRST_FILE_BLOCK + 8, 8)?;
    let group = fresh_blocks(rt, alloc, FIRST_GROUP_BLOCK, 512)?;
    let uuid = identifier();
    Ok(Lent {
        one: File::open(alloc, FileNo(0), &uuid, one)?,
        two: File::open(alloc, FileNo(1), &uuid, two)?,
        group: Group::open(alloc, GroupNo(0), &uuid, group)?,
        trans: Trans::new(alloc)?,
        next: 0,
        due: 0,
    })
}

fn run_at(start: u32, len: u32) -> Run {
    Run {
        start: Addr(start),
        len,
    }
}

fn work_of(named: &Named) -> Work {
    let (does, file, off, start, len) = *named;
    let run = run_at(start, len);
    match does {
        Does::Maps(kind) => Work::Map {
            kind,
            file: FileNo(file),
            off,
            run,
        },
        Does::Owns(kind) => Work::Own {
            kind,
            owner: match kind {
                OwnKind::Alloc | OwnKind::Free => OWN_COW,
                _ => FIRST_INODE + file as u64,
            },
            off: off as u64,
            run,
        },
        Does::Counts(kind) => Work::Count { kind, run },
        Does::Frees => Work::Free { run },
        Does::Swaps => Work::Swap {
            file: FileNo(0),
            off,
            other: FileNo(file),
            other_off: start,
            len,
        },
    }
}

/// What a roll is lent, and the image blocks that it changes: leaves of a file or of the group.
fn changed(changes: Changes) -> (Need, &'static [u32]) {
    let group = Need::Group(GroupNo(0));
    match changes {
        One => (Need::File(FileNo(0)), &[521]),
        Two => (Need::File(FileNo(1)), &[529]),
        Owners => (group, &[779]),
        Counts => (group, &[780]),
        Frees => (group, &[777, 778]),
        NoBlock => (group, &[]),
        NoBlockOfBoth => (Need::Pair(FileNo(0), FileNo(1)), &[]),
        NoBlockOfOne => (Need::Pair(FileNo(0), FileNo(0)), &[]),
    }
}

/// A transaction changes these blocks, asks for these works and ends these slots.
fn has(rt: &impl Abort, trans: &Trans, blocks: &[u32], works: &[Named], done: &[u8]) {
    assert!(rt; trans.blocks().len() == blocks.len() && trans.works().len() == works.len());
    for (logged, block) in trans.blocks().iter().zip(blocks) {
        assert!(rt; logged.block == *block);
    }
    for (work, named) in trans.works().iter().zip(works) {
        assert!(rt; *work == work_of(named));
    }
    assert!(rt; trans.done() == done);
}

/// Whether what the roll of the first work leaves has room.
fn has_room(works: &[Work]) -> bool
    ensures { IsTrue result → HasRollRoom works.now }
{
    match works {
        [] | [Work::Swap { .. }] => true,
        [Work::Swap { .. }, ..] => false,
        _ => works.len() <= 11,
    }
}

fn roll_in_file(rt: &impl Abort, file: &mut File, trans: &mut Trans, chain: Chain) -> Chain
    requires need { first_need chain.works ≡ Need.File (file_at file.old.number) }
    requires placed { IsPlaced chain }
    requires empty { trans.old ≡ no_trans }
    ensures { file.new.number ≡ file.old.number }
{
    assert!(rt; file.changed() == 0 && chain.ready_map(file));
    let chain = chain.roll_map(file, trans);
    file.keep();
    chain
}

fn roll_in_group(rt: &impl Abort, group: &mut Group, trans: &mut Trans, chain: Chain) -> Chain
    requires need { first_need chain.works ≡ Need.Group (group_at group.old.number) }
    requires placed { IsPlaced chain }
    requires empty { trans.old ≡ no_trans }
    ensures { group.new.number ≡ group.old.number }
{
    assert!(rt; group.changed() == 0);
    assert!(rt; group.paired());
    assert!(rt; chain.ready_group(group));
    assert!(rt; has_room(chain.works()));
    let chain = chain.roll_group(group, trans);
    group.keep();
    chain
}

/// A lookup of a whole range.
fn whole(rt: &impl Abort, file: &File, off: u32, len: u32) -> Piece
    ensures { IsWholePiece len result }
{
    assert!(rt; off < OFFSETS && 0 < len && len <= OFFSETS - off);
    let piece = file.lookup(off, len);
    match piece {
        Piece::Mapped { len: found, .. } => assert!(rt; found == len),
        Piece::Hole { len: found } => assert!(rt; found == len),
    }
    piece
}

impl Lent {
    fn file(&self, file: FileNo) -> &File {
        match file {
            FileNo(0) => &self.one,
            _ => &self.two,
        }
    }

    /// Stages blocks, of which the first stand in this run.
    fn stage(&mut self, rt: &impl Abort, need: u32, run: Run) -> Chain {
        assert!(rt; 0 < need && self.group.changed() == 0);
        assert!(rt; self.group.paired());
        self.trans.clear();
        match Chain::stage(&mut self.group, need, &mut self.trans) {
            Some(staged) => {
                assert!(rt; staged.run == run);
                self.group.keep();
                staged.chain
            }
            None => {
                assert!(rt; false);
                Chain::of(0, Work::Free { run })
            }
        }
    }

    fn first(&mut self, rt: &impl Abort, step: &Step, staged: bool) -> Chain {
        self.trans.clear();
        assert!(rt; fits(step));
        match *step {
            Step::Exchange { .. } => {
                Chain::first(step, Piece::Hole { len: 1 }, staged, &mut self.trans)
            }
            Step::Remap { file, off, len, .. } => {
                let old = whole(rt, self.file(file), off, len);
                Chain::first(step, old, staged, &mut self.trans)
            }
            Step::Punch { file, off, len } => {
                let old = whole(rt, self.file(file), off, len);
                assert!(rt; matches!(old, Piece::Mapped { .. }));
                Chain::first(step, old, staged, &mut self.trans)
            }
        }
    }

    fn begin(&mut self, rt: &impl Abort, begins: Begins) -> Chain {
        match begins {
            Stages(need, start, len) => self.stage(rt, need, run_at(start, len)),
            Releases(start, len) => {
                let run = run_at(start, len);
                assert!(rt; good_run(&run));
                self.trans.clear();
                Chain::release(&run, &mut self.trans)
            }
            Shares(file, off, start, len) => self.first(rt, &remap(file, off, start, len), false),
            Writes(file, off, start, len) => self.first(rt, &remap(file, off, start, len), true),
            Punches(file, off, len) => {
                let file = FileNo(file);
                self.first(rt, &Step::Punch { file, off, len }, false)
            }
            Exchanges(other, off, other_off, len) => {
                let file = FileNo(0);
                let other = FileNo(other);
                let step = Step::Exchange {
                    file,
                    off,
                    other,
                    other_off,
                    len,
                };
                self.first(rt, &step, false)
            }
        }
    }

    /// Gives slots to the works of a chain that have none yet.
    fn place(&mut self, chain: &mut Chain)
        ensures placed { IsPlaced chain.new }
        ensures works { chain.new.works ≡ chain.old.works }
    {
        let new = chain.works().len() - chain.slots().len();
        let mut slots = [0; 12];
        for slot in slots[..new].iter_mut() {
            *slot = self.next;
            self.next = self.next.wrapping_add(1);
        }
        let count = new as u8;
        chain.placed(&Placed { slots, count });
    }

    /// Rolls the first work of a chain.
    fn roll(&mut self, rt: &impl Abort, chain: Chain) -> Chain
        requires { IsPlaced chain }
    {
        self.trans.clear();
        match chain.need() {
            Need::File(FileNo(0)) => roll_in_file(rt, &mut self.one, &mut self.trans, chain),
            Need::File(FileNo(1)) => roll_in_file(rt, &mut self.two, &mut self.trans, chain),
            Need::Group(GroupNo(0)) => roll_in_group(rt, &mut self.group, &mut self.trans, chain),
            Need::Pair(FileNo(0), FileNo(1)) => {
                assert!(rt; has_room(chain.works()));
                chain.roll_swap(&self.one, Some(&self.two), &mut self.trans)
            }
            Need::Pair(FileNo(0), FileNo(0)) => {
                assert!(rt; has_room(chain.works()));
                chain.roll_swap(&self.one, None, &mut self.trans)
            }
            _ => {
                assert!(rt; false);
                chain
            }
        }
    }

    /// Rolls a chain to its end.
    fn finish(&mut self, rt: &impl Abort, begun: Chain, rolls: &[Rolled]) {
        let mut chain = begun;
        for (changes, left) in rolls {
            let (need, blocks) = changed(*changes);
            assert!(rt; chain.need() == need);
            self.place(&mut chain);
            chain = self.roll(rt, chain.copy());
            has(rt, &self.trans, blocks, left, &[self.due]);
            self.due = self.due.wrapping_add(1);
        }
        assert!(rt; chain.need() == Need::Ended);
    }

    /// Begins and ends chains. A staging alone changes blocks with its first commit.
    fn run(&mut self, rt: &impl Abort, rows: &[Row]) {
        for (begins, asked, rolls) in rows {
            let chain = self.begin(rt, *begins);
            let blocks: &[u32] = match begins {
                Stages(..) => &[777, 778],
                _ => &[],
            };
            has(rt, &self.trans, blocks, asked, &[]);
            self.finish(rt, chain, rolls);
        }
    }

    /// All blocks are free, but those from 512 to the one before the first.
    fn frees_from(&self, rt: &impl Abort, first: u32) {
        assert!(rt; first < 2048);
        assert!(rt; self.group.next_free(None) == Some(run_at(first, 2048 - first)));
    }
}

fn remap(file: u32, off: u32, start: u32, len: u32) -> Step {
    Step::Remap {
        file: FileNo(file),
        off,
        len,
        at: Addr(start),
    }
}

/// The first block with more than one owner has two.
fn shared(start: u32) -> Option<Counted> {
    Some(Counted {
        run: run_at(start, 1),
        count: 2,
        staged: false,
    })
}

#[test]
fn chains_are_begun_and_rolled(rt: HostRuntime) -> Result<(), Fail> {
    let mut lent = open(&rt, rt.alloc())?;
    lent.run(&rt, &STAGED);
    lent.frees_from(&rt, 512);
    lent.run(&rt, &SHARED);
    assert!(&rt; lent.group.next_count(None) == shared(512));
    lent.run(&rt, &OVERWRITTEN);
    assert!(&rt; lent.group.next_count(None) == shared(513));
    assert!(&rt;
        lent.one.lookup(0, 1)
            == Piece::Mapped {
                at: Addr(514),
                len: 1
            }
    );
    assert!(&rt;
        lent.one.lookup(1, 2)
            == Piece::Mapped {
                at: Addr(513),
                len: 1
            }
    );
    Ok(())
}

#[test]
fn exchanges_go_piece_by_piece(rt: HostRuntime) -> Result<(), Fail> {
    let mut lent = open(&rt, rt.alloc())?;
    lent.run(&rt, &EXCHANGED);
    lent.run(&rt, &PASSED_OVER);
    lent.frees_from(&rt, 517);
    assert!(&rt;
        lent.two.lookup(1, 9)
            == Piece::Mapped {
                at: Addr(515),
                len: 2
            }
    );
    Ok(())
}
