//! Runs of free blocks, in the order of their blocks and in that of their lengths.
ghost use Rattle.std.specs.Prelude.{◌≡◌, false, length};
ghost use Rattle.xr_kinds.specs.FormLaws.{own_numbers};
ghost use Rattle.xr_kinds.specs.FreeRuns.{block_form, block_span, size_form, size_order, size_span, span_bytes, span_in};

use crate::record::Record;
use crate::span::Span;
use byteorder::{BigEndian, ByteOrder};
use std::cmp::Ordering;
use xr_base::layout::{BY_BLOCK_MAGIC, BY_SIZE_MAGIC};

/// Bytes of a run.
const RUN_BYTES: usize = 8;

/// A run of free blocks of a group, in the tree that is ordered by the first block. Blocks are numbered in the group, and a
/// valid run lies in its data blocks, 512 to 2,047. See "XFS Algorithms and Data Structures, 3rd edition, AG Free Space
/// B+trees".
#[derive(Clone, Copy, Debug, PartialEq, Eq)]
pub struct ByBlock {
    pub start: u32,
    pub len: u32,
}

/// A run of free blocks of a group, in the tree that is ordered by the length, and among equal lengths by the first
/// block. It has the same bytes and the same rules as `ByBlock`.
#[derive(Clone, Copy, Debug, PartialEq, Eq)]
pub struct BySize {
    pub start: u32,
    pub len: u32,
}

fn put_span(span: Span, out: &mut [u8])
    requires { length out.old ≡ RUN_BYTES }
    ensures { out.new ≡ span_bytes span }
{
    BigEndian::write_u32(out, span.start);
    BigEndian::write_u32(&mut out[4..], span.len);
}

fn take_span(bytes: &[u8]) -> Span
    requires { length bytes.now ≡ RUN_BYTES }
    ensures { result ≡ span_in bytes.now }
{
    Span {
        start: BigEndian::read_u32(bytes),
        len: BigEndian::read_u32(&bytes[4..]),
    }
}

impl From<Span> for ByBlock {
    ghost use Rattle.xr_kinds.specs.FreeRuns.{by_block};

    ghost from_gives = { λ span run. run ≡ by_block span };

    fn from(span: Span) -> ByBlock {
        ByBlock {
            start: span.start,
            len: span.len,
        }
    }
}

impl From<Span> for BySize {
    ghost use Rattle.xr_kinds.specs.FreeRuns.{by_size};

    ghost from_gives = { λ span run. run ≡ by_size span };

    fn from(span: Span) -> BySize {
        BySize {
            start: span.start,
            len: span.len,
        }
    }
}

impl ByBlock {
    /// The run without its order.
    pub fn span(&self) -> Span
        ensures { result ≡ block_span self.now }
    {
        Span {
            start: self.start,
            len: self.len,
        }
    }
}

impl BySize {
    /// The run without its order.
    pub fn span(&self) -> Span
        ensures { result ≡ size_span self.now }
    {
        Span {
            start: self.start,
            len: self.len,
        }
    }
}

fn compare_sizes(one: Span, other: Span) -> Ordering
    ensures { result ≡ size_order one other }
{
    one.len.cmp(&other.len).then(one.start.cmp(&other.start))
}

impl Record for ByBlock {
    ghost use Rattle.xr_base.specs.declared.layout.TheConstants.{BY_BLOCK_MAGIC};
    ghost use Rattle.xr_kinds.specs.FreeRunLaws.{is_block_form};

    ghost MAGIC = { BY_BLOCK_MAGIC };

    ghost LONG = { false };

    ghost SIZE = { 8 };

    ghost LOW = { 8 };

    ghost HIGH = { 0 };

    ghost LEAF_MAX = { 505 };

    ghost NODE_MAX = { 336 };

    ghost MOST = { 4294967295 };

    ghost form = { block_form };

    ghost numbers = { own_numbers block_form };

    ghost is_form = { is_block_form };

    const MAGIC: u32 = BY_BLOCK_MAGIC;

    const LONG: bool = false;

    const SIZE: usize = RUN_BYTES;

    const LOW: usize = RUN_BYTES;

    const HIGH: usize = 0;

    const LEAF_MAX: u32 = 505;

    const NODE_MAX: u32 = 336;

    const MOST: u32 = u32::MAX;

    fn valid(&self) -> bool {
        self.span().is_group_run()
    }

    fn compare(&self, other: &Self) -> Ordering {
        self.start.cmp(&other.start)
    }

    fn put(&self, out: &mut [u8]) {
        put_span(self.span(), out);
    }

    fn take(bytes: &[u8]) -> Option<Self> {
        let run = ByBlock::from(take_span(bytes));
        if run.valid() { Some(run) } else { None }
    }

    fn put_low(&self, out: &mut [u8]) {
        put_span(self.span(), out);
    }

    fn put_high(&self, _out: &mut [u8]) {}

    fn compare_low(&self, key: &[u8]) -> Ordering {
        self.start.cmp(&take_span(key).start)
    }

    fn meets(&self, other: &Self) -> bool {
        self.span().meets(other.span())
    }

    fn agrees(&self, other: &Self) -> bool {
        self.span().is_apart(other.span())
    }
}

impl Record for BySize {
    ghost use Rattle.xr_base.specs.declared.layout.TheConstants.{BY_SIZE_MAGIC};
    ghost use Rattle.xr_kinds.specs.FreeRunLaws.{is_size_form};

    ghost MAGIC = { BY_SIZE_MAGIC };

    ghost LONG = { false };

    ghost SIZE = { 8 };

    ghost LOW = { 8 };

    ghost HIGH = { 0 };

    ghost LEAF_MAX = { 505 };

    ghost NODE_MAX = { 336 };

    ghost MOST = { 4294967295 };

    ghost form = { size_form };

    ghost numbers = { own_numbers size_form };

    ghost is_form = { is_size_form };

    const MAGIC: u32 = BY_SIZE_MAGIC;

    const LONG: bool = false;

    const SIZE: usize = RUN_BYTES;

    const LOW: usize = RUN_BYTES;

    const HIGH: usize = 0;

    const LEAF_MAX: u32 = 505;

    const NODE_MAX: u32 = 336;

    const MOST: u32 = u32::MAX;

    fn valid(&self) -> bool {
        self.span().is_group_run()
    }

    fn compare(&self, other: &Self) -> Ordering {
        compare_sizes(self.span(), other.span())
    }

    fn put(&self, out: &mut [u8]) {
        put_span(self.span(), out);
    }

    fn take(bytes: &[u8]) -> Option<Self> {
        let run = BySize::from(take_span(bytes));
        if run.valid() { Some(run) } else { None }
    }

    fn put_low(&self, out: &mut [u8]) {
        put_span(self.span(), out);
    }

    fn put_high(&self, _out: &mut [u8]) {}

    fn compare_low(&self, key: &[u8]) -> Ordering {
        compare_sizes(self.span(), take_span(key))
    }

    fn meets(&self, other: &Self) -> bool {
        self.span().meets(other.span())
    }

    fn agrees(&self, other: &Self) -> bool {
        self.span().is_apart(other.span())
    }
}
