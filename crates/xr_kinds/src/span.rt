//! Runs of blocks or offsets, and how two of them lie.
ghost use Rattle.std.specs.Prelude.{◌≡◌, ℕ, ◌↔◌, IsTrue};
ghost use Rattle.xr_kinds.specs.Spans.{IsIn, apart, end_of, is_group_run, meet, touch};

use xr_base::geometry::{FIRST_DATA_BLOCK, GROUP_BLOCKS};

/// `len` numbers, from `start` on.
#[derive(Clone, Copy)]
pub struct Span {
    pub start: u32,
    pub len: u32,
}

impl Span {
    /// The first number after the run.
    pub fn end(self) -> u64
        ensures { result ≡ end_of self }
    {
        u64::from(self.start) + u64::from(self.len)
    }

    /// Whether the two have a number in common.
    pub fn meets(self, other: Span) -> bool
        ensures value { result ≡ meet self other }
        ensures common { IsTrue result ↔ (n : ℕ) × IsIn self n × IsIn other n }
    {
        u64::from(self.start.max(other.start)) < self.end().min(other.end())
    }

    /// Whether there is a number between the two.
    pub fn is_apart(self, other: Span) -> bool
        ensures { result ≡ apart self other }
    {
        self.end() < u64::from(other.start) || other.end() < u64::from(self.start)
    }

    /// Whether one ends where the other begins.
    pub fn touches(self, other: Span) -> bool
        ensures { result ≡ touch self other }
    {
        self.end() == u64::from(other.start) || other.end() == u64::from(self.start)
    }

    /// Whether the run has a block, and all are data blocks of a group, by their numbers in the group.
    pub fn is_group_run(self) -> bool
        ensures { result ≡ is_group_run self }
    {
        self.start >= FIRST_DATA_BLOCK && self.len > 0 && self.end() <= u64::from(GROUP_BLOCKS)
    }
}
