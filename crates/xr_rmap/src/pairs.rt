//! Whether the pairs of a run are there.
ghost use Rattle.std.specs.Prelude.{◌≡◌, ℕ, ◌+◌, ◌<◌, ◌↔◌, true, IsTrue};
ghost use Rattle.xr_kinds.specs.Reverse.{is_reverse};
ghost use Rattle.xr_rmap.specs.Pairs.{offset_at};
ghost use Rattle.xr_rmap.specs.Rmap.{HasAllOf, HasNoneOf, HasPair, IsRmap, owned_run};

use crate::rmap::Rmap;
use xr_base::geometry::OWN_COW;
use xr_kinds::{Reverse, Span};
use xr_pool::Overlay;

/// The offset that a record gives to its i-th block.
fn offset_at(r: &Reverse, i: u32) -> u64
    requires good { is_reverse r.now ≡ true }
    requires within { i < r.now.len }
    ensures { result ≡ offset_at r.now i }
{
    if r.owner == OWN_COW {
        0
    } else {
        r.off + u64::from(i)
    }
}

impl Rmap {
    /// Whether the pair is there that a record says of its i-th block.
    fn has_at(&self, over: &Overlay, r: &Reverse, i: u32) -> bool
        requires tree { IsRmap over.now self.now }
        requires good { is_reverse r.now ≡ true }
        requires within { i < r.now.len }
        ensures { IsTrue result ↔ HasPair over.now self.now r.now.owner (offset_at r.now i) (r.now.start + i) }
    {
        let off = offset_at(r, i);
        self.holder_of(over, r.owner, off, r.start + i).is_some()
    }

    /// Whether no pair is there of a run with its owner and its first block's offset. It is looked for each block.
    pub fn has_none_of(&self, over: &Overlay, run: Span, owner: u64, off: u64) -> bool
        requires tree { IsRmap over.now self.now }
        requires good { is_reverse (owned_run run owner off) ≡ true }
        ensures { IsTrue result ↔ HasNoneOf over.now self.now (owned_run run owner off) }
    {
        let wanted = Reverse {
            start: run.start,
            len: run.len,
            owner,
            off,
        };
        for i in 0..run.len {
            if self.has_at(over, &wanted, i) {
                return false;
            }
        }
        true
    }

    /// Whether all of them are there.
    pub fn has_all_of(&self, over: &Overlay, run: Span, owner: u64, off: u64) -> bool
        requires tree { IsRmap over.now self.now }
        requires good { is_reverse (owned_run run owner off) ≡ true }
        ensures { IsTrue result ↔ HasAllOf over.now self.now (owned_run run owner off) }
    {
        let wanted = Reverse {
            start: run.start,
            len: run.len,
            owner,
            off,
        };
        for i in 0..run.len {
            if !self.has_at(over, &wanted, i) {
                return false;
            }
        }
        true
    }
}
