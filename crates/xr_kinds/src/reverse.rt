//! Which file, at which offset, a run of blocks belongs to.
ghost use Rattle.std.specs.Prelude.{◌≡◌, ◌<◌, false, length, IsTrue};
ghost use Rattle.xr_kinds.specs.FormLaws.{own_numbers};
ghost use Rattle.xr_kinds.specs.Reverse.{is_good_owner, key_bytes, last_offset, on_one_line, reverse_form, reverse_order, reverse_span};

use crate::record::Record;
use crate::span::Span;
use byteorder::{BigEndian, ByteOrder};
use std::cmp::Ordering;
use xr_base::geometry::{FILES, FIRST_INODE, OFFSETS, OWN_COW};
use xr_base::layout::REVERSE_MAGIC;

/// The inode number after the last file's.
const INODES_END: u64 = FIRST_INODE + FILES as u64;

/// Bytes of a key.
const KEY_BYTES: usize = 20;

/// A run of blocks of a group and their owner: a file, by its inode number, whose offsets from `off` on map the blocks, or
/// `OWN_COW` with the offset 0. Blocks are numbered in the group, and a valid run lies in its data blocks, 512 to 2,047,
/// with offsets below 512. See "XFS Algorithms and Data Structures, 3rd edition, Reverse-Mapping B+tree".
#[derive(Clone, Copy, Debug, PartialEq, Eq)]
pub struct Reverse {
    pub start: u32,
    pub len: u32,
    pub owner: u64,
    pub off: u64,
}

/// Writes a block with its owner and offset.
fn put_key(block: u32, owner: u64, off: u64, out: &mut [u8])
    requires { length out.old ≡ KEY_BYTES }
    ensures { out.new ≡ key_bytes block owner off }
{
    BigEndian::write_u32(out, block);
    BigEndian::write_u64(&mut out[4..], owner);
    BigEndian::write_u64(&mut out[12..], off);
}

impl Reverse {
    fn span(&self) -> Span
        ensures { result ≡ reverse_span self.now }
    {
        Span {
            start: self.start,
            len: self.len,
        }
    }

    /// Whether the owner may have blocks from the offset on.
    fn has_good_owner(&self) -> bool
        ensures { result ≡ is_good_owner self.now }
    {
        if self.owner == OWN_COW {
            self.off == 0
        } else {
            self.owner >= FIRST_INODE
                && self.owner < INODES_END
                && self.off <= u64::from(OFFSETS)
                && self.off + u64::from(self.len) <= u64::from(OFFSETS)
        }
    }

    /// The offset of the last block.
    fn last_offset(&self) -> u64
        requires good { IsTrue (is_good_owner self.now) }
        requires some { 0 < self.now.len }
        ensures { result ≡ last_offset self.now }
    {
        if self.owner == OWN_COW {
            0
        } else {
            self.off + u64::from(self.len) - 1
        }
    }

    /// How the record stands to those of a block, an owner and an offset.
    fn compare_to(&self, block: u32, owner: u64, off: u64) -> Ordering
        ensures { result ≡ reverse_order self.now block owner off }
    {
        self.start
            .cmp(&block)
            .then(self.owner.cmp(&owner))
            .then(self.off.cmp(&off))
    }

    /// Whether the two would be one record if they touched: they have one owner, and a block that both held would have one
    /// offset.
    fn shares_line(&self, other: &Reverse) -> bool
        ensures { result ≡ on_one_line self.now other.now }
    {
        self.owner == other.owner
            && (self.owner == OWN_COW
                || u128::from(self.start) + u128::from(other.off)
                    == u128::from(other.start) + u128::from(self.off))
    }
}

impl Record for Reverse {
    ghost use Rattle.xr_base.specs.declared.layout.TheConstants.{REVERSE_MAGIC};
    ghost use Rattle.xr_kinds.specs.ReverseLaws.{is_reverse_form};

    ghost MAGIC = { REVERSE_MAGIC };

    ghost LONG = { false };

    ghost SIZE = { 24 };

    ghost LOW = { 20 };

    ghost HIGH = { 20 };

    ghost LEAF_MAX = { 168 };

    ghost NODE_MAX = { 91 };

    ghost MOST = { 34304 };

    ghost form = { reverse_form };

    ghost numbers = { own_numbers reverse_form };

    ghost is_form = { is_reverse_form };

    const MAGIC: u32 = REVERSE_MAGIC;

    const LONG: bool = false;

    const SIZE: usize = 24;

    const LOW: usize = 20;

    const HIGH: usize = 20;

    const LEAF_MAX: u32 = 168;

    const NODE_MAX: u32 = 91;

    const MOST: u32 = 34_304;

    fn valid(&self) -> bool {
        self.span().is_group_run() && self.has_good_owner()
    }

    fn compare(&self, other: &Self) -> Ordering {
        self.compare_to(other.start, other.owner, other.off)
    }

    fn put(&self, out: &mut [u8]) {
        BigEndian::write_u32(out, self.start);
        BigEndian::write_u32(&mut out[4..], self.len);
        BigEndian::write_u64(&mut out[8..], self.owner);
        BigEndian::write_u64(&mut out[16..], self.off);
    }

    fn take(bytes: &[u8]) -> Option<Self> {
        let found = Reverse {
            start: BigEndian::read_u32(bytes),
            len: BigEndian::read_u32(&bytes[4..]),
            owner: BigEndian::read_u64(&bytes[8..]),
            off: BigEndian::read_u64(&bytes[16..]),
        };
        if found.valid() { Some(found) } else { None }
    }

    fn put_low(&self, out: &mut [u8]) {
        put_key(self.start, self.owner, self.off, out);
    }

    fn put_high(&self, out: &mut [u8]) {
        put_key(
            self.start + (self.len - 1),
            self.owner,
            self.last_offset(),
            out,
        );
    }

    fn compare_low(&self, key: &[u8]) -> Ordering {
        self.compare_to(
            BigEndian::read_u32(key),
            BigEndian::read_u64(&key[4..]),
            BigEndian::read_u64(&key[12..]),
        )
    }

    fn meets(&self, other: &Self) -> bool {
        self.span().meets(other.span())
    }

    fn agrees(&self, other: &Self) -> bool {
        !self.shares_line(other) || self.span().is_apart(other.span())
    }
}
