//! Which blocks a file maps.
ghost use Rattle.std.specs.Prelude.{◌≡◌, true, length};
ghost use Rattle.xr_kinds.specs.FormLaws.{own_numbers};
ghost use Rattle.xr_kinds.specs.Mapping.{is_data_run, mapping_form, mapping_span, packed, runs_on};

use crate::record::Record;
use crate::span::Span;
use byteorder::{BigEndian, ByteOrder};
use std::cmp::Ordering;
use xr_base::geometry::OFFSETS;
use xr_base::layout::MAPPING_MAGIC;
use xr_base::{Addr, Run, good_run};

/// How many lengths, and how many blocks, a packed extent can name: its lowest 21 bits are the length, the next 52 the block,
/// the next 54 the offset, and the last is clear, since the extent is written.
const LENGTHS: u128 = 1 << 21;

const BLOCK_NUMBERS: u128 = 1 << 52;

/// An extent of a file: its offsets from `off` on map the blocks from the address `at` on. A valid one has offsets below
/// 512, and data blocks of one group. See "XFS Algorithms and Data Structures, 3rd edition, Extent List".
#[derive(Clone, Copy, Debug, PartialEq, Eq)]
pub struct Mapping {
    pub off: u32,
    pub at: u32,
    pub len: u32,
}

impl Mapping {
    /// The offsets.
    fn span(&self) -> Span
        ensures { result ≡ mapping_span self.now }
    {
        Span {
            start: self.off,
            len: self.len,
        }
    }

    /// Whether the blocks are data blocks of one group.
    fn has_data_run(&self) -> bool
        ensures { result ≡ is_data_run self.now }
    {
        good_run(&Run {
            start: Addr(self.at),
            len: self.len,
        })
    }

    fn packed(&self) -> u128
        ensures { result ≡ packed self.now }
    {
        (u128::from(self.off) * BLOCK_NUMBERS + u128::from(self.at)) * LENGTHS
            + u128::from(self.len)
    }

    /// Whether the other begins, in the file and on the disk, where this one ends.
    fn runs_on(&self, other: &Mapping) -> bool
        ensures { result ≡ runs_on self.now other.now }
    {
        self.span().end() == u64::from(other.off)
            && u64::from(self.at) + u64::from(self.len) == u64::from(other.at)
    }
}

impl Record for Mapping {
    ghost use Rattle.xr_base.specs.declared.layout.TheConstants.{MAPPING_MAGIC};
    ghost use Rattle.xr_kinds.specs.MappingLaws.{is_mapping_form};

    ghost MAGIC = { MAPPING_MAGIC };

    ghost LONG = { true };

    ghost SIZE = { 16 };

    ghost LOW = { 8 };

    ghost HIGH = { 0 };

    ghost LEAF_MAX = { 251 };

    ghost NODE_MAX = { 251 };

    ghost MOST = { 4294967295 };

    ghost form = { mapping_form };

    ghost numbers = { own_numbers mapping_form };

    ghost is_form = { is_mapping_form };

    const MAGIC: u32 = MAPPING_MAGIC;

    const LONG: bool = true;

    const SIZE: usize = 16;

    const LOW: usize = 8;

    const HIGH: usize = 0;

    const LEAF_MAX: u32 = 251;

    const NODE_MAX: u32 = 251;

    const MOST: u32 = u32::MAX;

    fn valid(&self) -> bool {
        self.span().end() <= u64::from(OFFSETS) && self.has_data_run()
    }

    fn compare(&self, other: &Self) -> Ordering {
        self.off.cmp(&other.off)
    }

    fn put(&self, out: &mut [u8]) {
        BigEndian::write_u128(out, self.packed());
    }

    fn take(bytes: &[u8]) -> Option<Self> {
        let word = BigEndian::read_u128(bytes);
        let found = Mapping {
            off: u32::try_from(word / LENGTHS / BLOCK_NUMBERS).ok()?,
            at: u32::try_from(word / LENGTHS % BLOCK_NUMBERS).ok()?,
            len: (word % LENGTHS) as u32,
        };
        if found.valid() { Some(found) } else { None }
    }

    fn put_low(&self, out: &mut [u8]) {
        BigEndian::write_u64(out, u64::from(self.off));
    }

    fn put_high(&self, _out: &mut [u8]) {}

    fn compare_low(&self, key: &[u8]) -> Ordering {
        u64::from(self.off).cmp(&BigEndian::read_u64(key))
    }

    fn meets(&self, other: &Self) -> bool {
        self.span().meets(other.span())
    }

    fn agrees(&self, other: &Self) -> bool {
        !self.meets(other) && !self.runs_on(other) && !other.runs_on(self)
    }
}
