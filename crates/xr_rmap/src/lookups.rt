//! The record that says a pair, and those beside a record.
ghost use Rattle.std.specs.Prelude.{◌≡◌, ℕ, ◌<◌, ◌≤◌, ◌↔◌, true, false, IsNone, IfSome, IsTrue};
ghost use Rattle.xr_base.specs.declared.geometry.TheConstants.{FIRST_DATA_BLOCK, GROUP_BLOCKS};
ghost use Rattle.xr_kinds.specs.Reverse.{is_reverse};
ghost use Rattle.xr_kinds.specs.declared.reverse.Reverse.{Reverse};
ghost use Rattle.xr_rmap.specs.Joins.{offset_in_front};
ghost use Rattle.xr_rmap.specs.Pairs.{IsPair, leads_to, offset_after};
ghost use Rattle.xr_rmap.specs.Rmap.{HasNoneOf, HasPair, IsOwnerRecord, IsRmap};

use crate::rmap::Rmap;
use xr_base::geometry::{FIRST_DATA_BLOCK, OWN_COW};
use xr_kinds::Reverse;
use xr_pool::Overlay;

/// Whether a record says that an owner has a block at an offset.
fn is_pair(r: &Reverse, owner: u64, off: u64, block: u32) -> bool
    ensures { IsTrue result ↔ IsPair r.now owner off block }
{
    r.owner == owner
        && r.start <= block
        && u64::from(block) < u64::from(r.start) + u64::from(r.len)
        && if owner == OWN_COW {
            off == 0
        } else {
            u128::from(off) + u128::from(r.start) == u128::from(r.off) + u128::from(block)
        }
}

/// Whether the first record ends where the second begins, with offsets that run on.
fn leads_to(a: &Reverse, b: &Reverse) -> bool
    ensures { result ≡ leads_to a.now b.now }
{
    u64::from(a.start) + u64::from(a.len) == u64::from(b.start)
        && a.owner == b.owner
        && (a.owner == OWN_COW || u128::from(a.off) + u128::from(a.len) == u128::from(b.off))
}

/// The offset of the block in front of a record that would lead to this one, if there is one.
fn offset_in_front(r: &Reverse) -> Option<u64>
    ensures { result ≡ offset_in_front r.now }
{
    if r.owner == OWN_COW {
        Some(0)
    } else {
        r.off.checked_sub(1)
    }
}

/// The offset with which a record would run on.
pub(crate) fn offset_after(r: &Reverse) -> u64
    requires { is_reverse r.now ≡ true }
    ensures { result ≡ offset_after r.now }
{
    if r.owner == OWN_COW {
        0
    } else {
        r.off + u64::from(r.len)
    }
}

impl Rmap {
    /// The record that says that an owner has a block at an offset. Those that hold the block are looked at in their order.
    pub(crate) fn holder_of(
        &self,
        over: &Overlay,
        owner: u64,
        off: u64,
        block: u32,
    ) -> Option<Reverse>
        requires tree { IsRmap over.now self.now }
        requires from { FIRST_DATA_BLOCK ≤ block }
        requires below { block < GROUP_BLOCKS }
        ensures none { IsNone result → ¬ (HasPair over.now self.now owner off block) }
        ensures some { IfSome result (λ r. IsOwnerRecord over.now self.now r × IsPair r owner off block) }
    {
        let probe = Reverse {
            start: block,
            len: 1,
            owner: OWN_COW,
            off: 0,
        };
        let mut after = None;
        while let Some(found) = self.tree.overlap(over, &probe, after) {
            if is_pair(&found, owner, off, block) {
                return Some(found);
            }
            after = Some(found);
        }
        None
    }

    /// The record that leads to another one, of which no pair is there.
    pub(crate) fn left_of(&self, over: &Overlay, new: &Reverse) -> Option<Reverse>
        requires tree { IsRmap over.now self.now }
        requires good { is_reverse new.now ≡ true }
        requires alone { HasNoneOf over.now self.now new.now }
        ensures none { IsNone result → (x : Reverse) → IsOwnerRecord over.now self.now x → leads_to x new.now ≡ false }
        ensures some { IfSome result (λ x. IsOwnerRecord over.now self.now x × (leads_to x new.now ≡ true)) }
    {
        if new.start == FIRST_DATA_BLOCK {
            return None;
        }
        let off = offset_in_front(new)?;
        self.holder_of(over, new.owner, off, new.start - 1)
    }

    /// The record that another one leads to.
    pub(crate) fn right_of(&self, over: &Overlay, new: &Reverse) -> Option<Reverse>
        requires tree { IsRmap over.now self.now }
        requires good { is_reverse new.now ≡ true }
        ensures none { IsNone result → (x : Reverse) → IsOwnerRecord over.now self.now x → leads_to new.now x ≡ false }
        ensures some { IfSome result (λ x. IsOwnerRecord over.now self.now x × (leads_to new.now x ≡ true)) }
    {
        let next = Reverse {
            start: new.start + new.len,
            len: 0,
            owner: new.owner,
            off: offset_after(new),
        };
        let found = self.tree.at_least(over, &next)?;
        if leads_to(new, &found) {
            Some(found)
        } else {
            None
        }
    }
}
