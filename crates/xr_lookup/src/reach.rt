//! Which blocks or offsets the records under a child of a node may have, as the keys of the node tell it. So a search for
//! records that meet a run passes over the other children.
ghost use Rattle.std.specs.Prelude.{◌≡◌, ◌≤◌, IfSome, length};
ghost use Rattle.xr_kinds.specs.FreeRuns.{block_span, size_span};
ghost use Rattle.xr_kinds.specs.Mapping.{mapping_span};
ghost use Rattle.xr_lookup.specs.Reach.{IsInside, IsUnderKeys, between, next_key, next_offset, next_start, offset_in};
ghost use Rattle.xr_kinds.specs.Reference.{reference_span};
ghost use Rattle.xr_kinds.specs.Reverse.{reverse_span};
ghost use Rattle.xr_kinds.specs.Spans.{meet};
ghost use Rattle.xr_kinds.specs.declared.span.Span.{Span};

use byteorder::{BigEndian, ByteOrder};
use xr_base::geometry::{GROUP_BLOCKS, OFFSETS};
use xr_kinds::{ByBlock, BySize, Mapping, Record, Reference, Reverse, STAGED, Span};

/// A record of which the keys of a node tell how far those under a child reach.
pub trait Reach: Record {
    ghost span_of: { Self → Span };

    /// The blocks of the record, or, in a file's map, its offsets.
    fn run(&self) -> Span
        ensures { result ≡ span_of self.now };

    /// A run that holds those of all records under a child, by the child's low key, its high key, and the low key of the
    /// next child, if there is one.
    fn reach(low: &[u8], high: &[u8], next: Option<&[u8]>) -> Span
        requires low { length low.now ≡ Self.LOW }
        requires high { length high.now ≡ Self.HIGH }
        requires next { IfSome next (λ key. length key.now ≡ Self.LOW) }
        ensures { (x : Self) → IsUnderKeys Self.form low.now high.now (next_key next.entry) x → IsInside (span_of x) result };

    ghost by_runs: { (x y : Self) → Self.form.meet x y ≡ meet (span_of x) (span_of y) };
}

/// The numbers from one up to another.
fn between(start: u32, end: u32) -> Span
    ensures { result ≡ between start end }
{
    Span {
        start,
        len: end.saturating_sub(start),
    }
}

/// The first number of the low key of the next child, or else the end of all.
fn next_start(next: Option<&[u8]>, end: u32) -> u32
    requires { IfSome next (λ key. 4 ≤ length key.now) }
    ensures { result ≡ next_start (next_key next.entry) end }
{
    match next {
        Some(key) => BigEndian::read_u32(key),
        None => end,
    }
}

impl Reach for ByBlock {
    ghost use Rattle.std.specs.Prelude.{refl};

    ghost span_of = { block_span };

    ghost by_runs = { λ x y. refl };

    fn run(&self) -> Span {
        Span {
            start: self.start,
            len: self.len,
        }
    }

    fn reach(low: &[u8], _high: &[u8], next: Option<&[u8]>) -> Span {
        between(BigEndian::read_u32(low), next_start(next, GROUP_BLOCKS))
    }
}

/// Runs of one length may stand anywhere, so only the greatest run is known.
impl Reach for BySize {
    ghost use Rattle.std.specs.Prelude.{refl};

    ghost span_of = { size_span };

    ghost by_runs = { λ x y. refl };

    fn run(&self) -> Span {
        Span {
            start: self.start,
            len: self.len,
        }
    }

    fn reach(_low: &[u8], _high: &[u8], _next: Option<&[u8]>) -> Span {
        between(0, GROUP_BLOCKS)
    }
}

impl Reach for Reverse {
    ghost use Rattle.std.specs.Prelude.{refl};

    ghost span_of = { reverse_span };

    ghost by_runs = { λ x y. refl };

    fn run(&self) -> Span {
        Span {
            start: self.start,
            len: self.len,
        }
    }

    fn reach(low: &[u8], high: &[u8], _next: Option<&[u8]>) -> Span {
        let last = BigEndian::read_u32(high).min(GROUP_BLOCKS - 1);
        between(BigEndian::read_u32(low), last + 1)
    }
}

/// Staged blocks stand after all others, so a child that has both may have any.
impl Reach for Reference {
    ghost use Rattle.std.specs.Prelude.{refl};

    ghost span_of = { reference_span };

    ghost by_runs = { λ x y. refl };

    fn run(&self) -> Span {
        Span {
            start: self.start,
            len: self.len,
        }
    }

    fn reach(low: &[u8], _high: &[u8], next: Option<&[u8]>) -> Span {
        let first = BigEndian::read_u32(low);
        let end = next_start(next, STAGED + GROUP_BLOCKS);
        if first < STAGED && end >= STAGED {
            between(0, GROUP_BLOCKS)
        } else {
            between(first % STAGED, end % STAGED)
        }
    }
}

/// The offset in a key of an extent, or the end of all where it is after that.
fn offset_in(key: &[u8]) -> u32
    requires { 8 ≤ length key.now }
    ensures { result ≡ offset_in key.now }
{
    BigEndian::read_u64(key).min(u64::from(OFFSETS)) as u32
}

fn next_offset(next: Option<&[u8]>) -> u32
    requires { IfSome next (λ key. 8 ≤ length key.now) }
    ensures { result ≡ next_offset (next_key next.entry) }
{
    match next {
        Some(key) => offset_in(key),
        None => OFFSETS,
    }
}

impl Reach for Mapping {
    ghost use Rattle.std.specs.Prelude.{refl};

    ghost span_of = { mapping_span };

    ghost by_runs = { λ x y. refl };

    fn run(&self) -> Span {
        Span {
            start: self.off,
            len: self.len,
        }
    }

    fn reach(low: &[u8], _high: &[u8], next: Option<&[u8]>) -> Span {
        between(offset_in(low), next_offset(next))
    }
}
