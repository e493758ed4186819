//! Blocks that several files share, and blocks that are staged.
ghost use Rattle.std.specs.Prelude.{◌≡◌, false, length};
ghost use Rattle.xr_kinds.specs.FormLaws.{own_numbers};
ghost use Rattle.xr_kinds.specs.Reference.{first_word, is_good_count, reference_form, reference_span, same_count};

use crate::record::Record;
use crate::span::Span;
use byteorder::{BigEndian, ByteOrder};
use std::cmp::Ordering;
use xr_base::layout::REFERENCE_MAGIC;

/// The bit of a record's first word that says that its blocks are staged.
pub const STAGED: u32 = 1 << 31;

/// A run of blocks of a group that files map `count` times each, where that is twice or more, or that are staged, with the
/// count 1. Blocks are numbered in the group, and a valid run lies in its data blocks, 512 to 2,047. See "XFS Algorithms
/// and Data Structures, 3rd edition, Reference Count B+tree".
#[derive(Clone, Copy, Debug, PartialEq, Eq)]
pub struct Reference {
    pub start: u32,
    pub len: u32,
    pub count: u32,
    pub staged: bool,
}

impl Reference {
    fn span(&self) -> Span
        ensures { result ≡ reference_span self.now }
    {
        Span {
            start: self.start,
            len: self.len,
        }
    }

    /// The first block, after all others where the blocks are staged.
    fn first_word(&self) -> u64
        ensures { result ≡ first_word self.now }
    {
        let mark = if self.staged { STAGED } else { 0 };
        u64::from(self.start) + u64::from(mark)
    }

    fn has_good_count(&self) -> bool
        ensures { result ≡ is_good_count self.now }
    {
        if self.staged {
            self.count == 1
        } else {
            self.count >= 2
        }
    }

    /// Whether the two would be one record if they touched.
    fn same_count(&self, other: &Reference) -> bool
        ensures { result ≡ same_count self.now other.now }
    {
        self.staged == other.staged && self.count == other.count
    }
}

impl Record for Reference {
    ghost use Rattle.xr_base.specs.declared.layout.TheConstants.{REFERENCE_MAGIC};
    ghost use Rattle.xr_kinds.specs.ReferenceLaws.{is_reference_form};

    ghost MAGIC = { REFERENCE_MAGIC };

    ghost LONG = { false };

    ghost SIZE = { 12 };

    ghost LOW = { 4 };

    ghost HIGH = { 0 };

    ghost LEAF_MAX = { 336 };

    ghost NODE_MAX = { 505 };

    ghost MOST = { 4294967295 };

    ghost form = { reference_form };

    ghost numbers = { own_numbers reference_form };

    ghost is_form = { is_reference_form };

    const MAGIC: u32 = REFERENCE_MAGIC;

    const LONG: bool = false;

    const SIZE: usize = 12;

    const LOW: usize = 4;

    const HIGH: usize = 0;

    const LEAF_MAX: u32 = 336;

    const NODE_MAX: u32 = 505;

    const MOST: u32 = u32::MAX;

    fn valid(&self) -> bool {
        self.span().is_group_run() && self.has_good_count()
    }

    fn compare(&self, other: &Self) -> Ordering {
        self.first_word().cmp(&other.first_word())
    }

    fn put(&self, out: &mut [u8]) {
        BigEndian::write_u32(out, self.first_word() as u32);
        BigEndian::write_u32(&mut out[4..], self.len);
        BigEndian::write_u32(&mut out[8..], self.count);
    }

    fn take(bytes: &[u8]) -> Option<Self> {
        let first = BigEndian::read_u32(bytes);
        let found = Reference {
            start: first % STAGED,
            len: BigEndian::read_u32(&bytes[4..]),
            count: BigEndian::read_u32(&bytes[8..]),
            staged: first >= STAGED,
        };
        if found.valid() { Some(found) } else { None }
    }

    fn put_low(&self, out: &mut [u8]) {
        BigEndian::write_u32(out, self.first_word() as u32);
    }

    fn put_high(&self, _out: &mut [u8]) {}

    fn compare_low(&self, key: &[u8]) -> Ordering {
        self.first_word().cmp(&u64::from(BigEndian::read_u32(key)))
    }

    fn meets(&self, other: &Self) -> bool {
        self.span().meets(other.span())
    }

    fn agrees(&self, other: &Self) -> bool {
        !self.meets(other) && !(self.same_count(other) && self.span().touches(other.span()))
    }
}
