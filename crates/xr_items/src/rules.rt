//! The tests of single fields, and the place of the first that fails.
ghost use Rattle.std.specs.Prelude.{◌≡◌, ◌≢◌, ◌+◌, ◌<◌, ◌≤◌, ◌↔◌, IsTrue, OnOk, IfErr, length, slice_index};
ghost use Rattle.xr_base.specs.Address.{IsData, IsGoodRun, address_of};
ghost use Rattle.xr_headers.specs.FirstWrong.{IsFirst};
ghost use Rattle.xr_base.specs.Fields.{le32_at};
ghost use Rattle.xr_items.specs.FirstBroken.{MayBeginAt, EndsInOffsets, AreSwappable, run_of, IsKnownOwner};
ghost use Rattle.xr_items.specs.Taking.{AllKept, IsFirstBroken};
ghost use Rattle.xr_items.specs.Valid.{IsId, IsInode, IsBufferBlock, IsBufferSector};
ghost use Rattle.xr_base.specs.declared.geometry.TheConstants.{OFFSETS};

use crate::layout::IDS;
use xr_base::geometry::{
    BLOCK_SECTORS, FILE_BLOCKS, FILES, FIRST_DATA_BLOCK, FIRST_FILE_BLOCK, FIRST_GROUP_BLOCK,
    FIRST_INODE, GROUP_BLOCKS, GROUPS, OFFSETS, OWN_COW,
};
use xr_base::{Addr, FileNo, Run, good_run, is_data};

/// The error is the place of the first test that fails.
pub(crate) fn first_broken(rows: &[(usize, bool)]) -> Result<(), usize>
    ensures ok { OnOk result (AllKept rows.now) }
    ensures first { IfErr result (IsFirstBroken rows.now) }
{
    for (place, kept) in rows {
        if !*kept {
            return Err(*place);
        }
    }
    Ok(())
}

/// The error is the place of the first of four bytes that isn't zero.
#[tactic(auto, unfolding(xr_base::specs::Fields::le_at))]
pub(crate) fn take_zeros(region: &[u8], at: usize) -> Result<(), usize>
    requires { at + 4 ≤ length region.now }
    ensures ok { OnOk result (le32_at region.now at ≡ 0) }
    ensures first { IfErr result (IsFirst (λ k. (at ≤ k) × (k < at + 4) × (slice_index region.now k ≢ 0))) }
{
    for place in at..at + 4 {
        if region[place] != 0 {
            return Err(place);
        }
    }
    Ok(())
}

pub(crate) fn is_id(id: u64) -> bool
    ensures { IsTrue result ↔ IsId id }
{
    id > 0 && id < IDS
}

pub(crate) fn is_inode(ino: u64) -> bool
    ensures { IsTrue result ↔ IsInode ino }
{
    ino >= FIRST_INODE && ino - FIRST_INODE < u64::from(FILES)
}

pub(crate) fn file_of(ino: u64) -> FileNo
    requires { IsInode ino }
    ensures { FIRST_INODE + result.0 ≡ ino }
{
    FileNo((ino - FIRST_INODE) as u32)
}

fn is_buffer_block(block: u64) -> bool
    ensures { IsTrue result ↔ IsBufferBlock block }
{
    let first_group = u64::from(FIRST_GROUP_BLOCK);
    if block < first_group {
        let first = u64::from(FIRST_FILE_BLOCK);
        block >= first && (block - first) % u64::from(FILE_BLOCKS) > 0
    } else {
        let place = block - first_group;
        let blocks = u64::from(GROUP_BLOCKS);
        place / blocks < u64::from(GROUPS) && place % blocks < u64::from(FIRST_DATA_BLOCK)
    }
}

/// Whether a buffer item may name the sector: the first of a file's pool block, or of a group's header or pool block.
pub(crate) fn is_buffer_sector(sector: u64) -> bool
    ensures { IsTrue result ↔ IsBufferSector sector }
{
    sector % u64::from(BLOCK_SECTORS) == 0 && is_buffer_block(sector / u64::from(BLOCK_SECTORS))
}

pub(crate) fn is_data_at(start: u64) -> bool
    ensures { IsTrue result ↔ IsData (address_of start) }
{
    start <= u64::from(u32::MAX) && is_data(Addr(start as u32))
}

pub(crate) fn is_run(start: u64, len: u32) -> bool
    ensures { IsTrue result ↔ IsGoodRun (run_of start len) }
{
    is_data_at(start)
        && good_run(&Run {
            start: Addr(start as u32),
            len,
        })
}

/// The run of two fields.
pub(crate) fn run_in(start: u64, len: u32) -> Run
    requires { IsGoodRun (run_of start len) }
    ensures { result ≡ run_of start len }
{
    Run {
        start: Addr(start as u32),
        len,
    }
}

pub(crate) fn is_owner(owner: u64) -> bool
    ensures { IsTrue result ↔ IsKnownOwner owner }
{
    owner == OWN_COW || is_inode(owner)
}

/// Whether some length suits the owner and the offset.
pub(crate) fn may_begin(owner: u64, off: u64) -> bool
    ensures { IsTrue result ↔ MayBeginAt owner off }
{
    (owner != OWN_COW || off == 0) && (!is_inode(owner) || off < u64::from(OFFSETS))
}

pub(crate) fn is_range(off: u64, len: u64) -> bool
    ensures { IsTrue result ↔ (off + len ≤ OFFSETS) }
{
    off <= u64::from(OFFSETS) && len <= u64::from(OFFSETS) - off
}

/// Whether the fields make a good run and, for a file, end within its offsets.
pub(crate) fn is_owned_run(owner: u64, off: u64, start: u64, len: u32) -> bool
    ensures { IsTrue result ↔ (IsGoodRun (run_of start len) × EndsInOffsets owner off len) }
{
    is_run(start, len) && (!is_inode(owner) || is_range(off, u64::from(len)))
}

/// Whether the ranges end within their files and, in one file, don't meet.
pub(crate) fn are_swappable(ino: u64, other: u64, off: u64, other_off: u64, len: u64) -> bool
    ensures { IsTrue result ↔ AreSwappable ino other off other_off len }
{
    len > 0
        && is_range(off, len)
        && is_range(other_off, len)
        && (ino != other || off + len <= other_off || other_off + len <= off)
}
