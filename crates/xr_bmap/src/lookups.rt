//! Which extents stand at an offset, in front of it and behind it.
ghost use Rattle.std.specs.Prelude.{◌≡◌, ℕ, ◌+◌, ◌<◌, ◌≤◌, true, false, IsNone, IfSome};
ghost use Rattle.xr_base.specs.Address.{IsGoodRun};
ghost use Rattle.xr_base.specs.declared.address.Addr.{Addr};
ghost use Rattle.xr_base.specs.declared.geometry.TheConstants.{OFFSETS};
ghost use Rattle.xr_bmap.specs.Bmap.{IsBmap, IsExtent, slot_in};
ghost use Rattle.xr_bmap.specs.Slots.{IsHole, IsPieceAt, HasOffset};
ghost use Rattle.xr_bmap.specs.declared.piece.Piece.TheVariants.{Mapped};
ghost use Rattle.xr_kinds.specs.Mapping.{is_mapping, runs_on};

use crate::bmap::Bmap;
use crate::piece::Piece;
use xr_base::Addr;
use xr_kinds::Mapping;
use xr_pool::Overlay;

/// An extent that begins at an offset, for a lookup.
fn begins_at(off: u32) -> Mapping
    ensures { result ≡ record { off = off; at = 0; len = 0 } }
{
    Mapping { off, at: 0, len: 0 }
}

/// Whether another extent begins, in the file and on the disk, where one ends.
fn runs_on(a: &Mapping, b: &Mapping) -> bool
    requires first { is_mapping a.now ≡ true }
    requires second { is_mapping b.now ≡ true }
    ensures { result ≡ runs_on a.now b.now }
{
    a.off + a.len == b.off && a.at + a.len == b.at
}

impl Bmap {
    /// The extent that has an offset.
    pub(crate) fn holder_of(&self, over: &Overlay, off: u32) -> Option<Mapping>
        requires tree { IsBmap over.now self.now }
        ensures none { IsNone result → (x : _) → IsExtent over.now self.now x → ¬ (HasOffset x off) }
        ensures some { IfSome result (λ x. IsExtent over.now self.now x × HasOffset x off × (is_mapping x ≡ true)) }
    {
        let last = self.tree.at_most(over, &begins_at(off))?;
        if off - last.off < last.len {
            Some(last)
        } else {
            None
        }
    }

    /// How many offsets from one on are a hole, at most so many. The offset itself is one.
    fn hole_len(&self, over: &Overlay, off: u32, most: u32) -> u32
        requires tree { IsBmap over.now self.now }
        requires hole { (x : _) → IsExtent over.now self.now x → ¬ (HasOffset x off) }
        requires most { 1 ≤ most }
        ensures some { 1 ≤ result }
        ensures few { result ≤ most }
        ensures hole { IsHole (slot_in over.now self.now) off result }
        ensures longest { result < most → (x : _) × IsExtent over.now self.now x × HasOffset x (off + result) }
    {
        match self.tree.at_least(over, &begins_at(off)) {
            None => most,
            Some(next) => most.min(next.off - off),
        }
    }

    /// The offsets from one on that are mapped alike, at most so many.
    pub(crate) fn lookup(&self, over: &Overlay, off: u32, most: u32) -> Piece
        requires tree { IsBmap over.now self.now }
        requires some { 1 ≤ most }
        requires within { off + most ≤ OFFSETS }
        ensures piece { IsPieceAt (slot_in over.now self.now) off most result }
        ensures good { (at : Addr) (len : ℕ) → result ≡ Mapped at len → IsGoodRun (record { start = at; len = len }) }
    {
        match self.holder_of(over, off) {
            None => Piece::Hole {
                len: self.hole_len(over, off, most),
            },
            Some(x) => Piece::Mapped {
                at: Addr(x.at + (off - x.off)),
                len: most.min(x.len - (off - x.off)),
            },
        }
    }

    /// The extent that a new one goes on. It would be a hole now.
    pub(crate) fn left_of(&self, over: &Overlay, new: &Mapping) -> Option<Mapping>
        requires tree { IsBmap over.now self.now }
        requires good { is_mapping new.now ≡ true }
        ensures none { IsNone result → (x : _) → IsExtent over.now self.now x → runs_on x new.now ≡ false }
        ensures some { IfSome result (λ x. IsExtent over.now self.now x × (runs_on x new.now ≡ true)) }
    {
        if new.off == 0 {
            return None;
        }
        let found = self.holder_of(over, new.off - 1)?;
        if runs_on(&found, new) {
            Some(found)
        } else {
            None
        }
    }

    /// The extent that goes on another one.
    pub(crate) fn right_of(&self, over: &Overlay, new: &Mapping) -> Option<Mapping>
        requires tree { IsBmap over.now self.now }
        requires good { is_mapping new.now ≡ true }
        ensures none { IsNone result → (x : _) → IsExtent over.now self.now x → runs_on new.now x ≡ false }
        ensures some { IfSome result (λ x. IsExtent over.now self.now x × (runs_on new.now x ≡ true)) }
    {
        let found = self.holder_of(over, new.off + new.len)?;
        if runs_on(new, &found) {
            Some(found)
        } else {
            None
        }
    }
}
