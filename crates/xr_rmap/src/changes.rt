//! Changes of one record of owners, and those of two that become one or are left of one.
ghost use Rattle.std.specs.Prelude.{◌≡◌, ◌≢◌, ◌<◌, ◌≤◌, true, length};
ghost use Rattle.xr_change.specs.Sets.{Gains, Loses, Swaps};
ghost use Rattle.xr_change.specs.TreeSteps.{IsTreeStep};
ghost use Rattle.xr_kinds.specs.Reverse.{is_reverse, reverse_form};
ghost use Rattle.xr_kinds.specs.declared.reverse.Reverse.{Reverse};
ghost use Rattle.xr_pool.specs.Overlay.{free_count};
ghost use Rattle.xr_rmap.specs.Joins.{IsPartOf, MayJoin, Shortens, rest_after};
ghost use Rattle.xr_rmap.specs.Rmap.{GainsPairsOf, IsOwnerRecord, IsRmap, LosesPairsOf, owner_records};

use crate::lookups::offset_after;
use crate::rmap::Rmap;
use xr_kinds::Reverse;
use xr_pool::Overlay;

/// What is left of a record after a part of it, perhaps no block.
fn rest_after(whole: &Reverse, part: &Reverse) -> Reverse
    requires good { is_reverse whole.now ≡ true }
    requires part { IsPartOf part.now whole.now }
    ensures { result ≡ rest_after whole.now part.now }
{
    let start = part.start + part.len;
    Reverse {
        start,
        len: whole.start + whole.len - start,
        owner: part.owner,
        off: offset_after(part),
    }
}

impl Rmap {
    /// Puts a record in that agrees with all others.
    fn put(&mut self, over: &mut Overlay, r: Reverse)
        requires tree { IsRmap over.old self.old }
        requires good { is_reverse r ≡ true }
        requires fits { (x : Reverse) → IsOwnerRecord over.old self.old x → reverse_form.agree x r ≡ true }
        requires few { length (owner_records over.old self.old) < reverse_form.most }
        requires room { 3 ≤ free_count over.old }
        ensures step { IsTreeStep reverse_form over.old self.old.tree over.new self.new.tree 3 10 }
        ensures set { Gains (IsOwnerRecord over.old self.old) r (IsOwnerRecord over.new self.new) }
    {
        self.tree.insert(over, r);
    }

    /// Takes a record out.
    pub(crate) fn cut(&mut self, over: &mut Overlay, r: &Reverse)
        requires tree { IsRmap over.old self.old }
        requires held { IsOwnerRecord over.old self.old r.now }
        ensures step { IsTreeStep reverse_form over.old self.old.tree over.new self.new.tree 0 10 }
        ensures set { Loses (IsOwnerRecord over.old self.old) r.now (IsOwnerRecord over.new self.new) }
        ensures fewer { length (owner_records over.new self.new) ≤ length (owner_records over.old self.old) }
    {
        self.tree.remove(over, r);
    }

    /// Puts a record in the place of one with the same start, owner and offset. It agrees with all others.
    fn swap(&mut self, over: &mut Overlay, old: &Reverse, new: Reverse)
        requires tree { IsRmap over.old self.old }
        requires held { IsOwnerRecord over.old self.old old.now }
        requires good { is_reverse new ≡ true }
        requires fits { (x : Reverse) → IsOwnerRecord over.old self.old x → x ≢ old.now → reverse_form.agree x new ≡ true }
        requires place { (new.start ≡ old.now.start) × (new.owner ≡ old.now.owner) × (new.off ≡ old.now.off) }
        ensures step { IsTreeStep reverse_form over.old self.old.tree over.new self.new.tree 0 10 }
        ensures set { Swaps (IsOwnerRecord over.old self.old) old.now new (IsOwnerRecord over.new self.new) }
        ensures fewer { length (owner_records over.new self.new) ≤ length (owner_records over.old self.old) }
    {
        self.tree.replace(over, old, new);
    }

    /// Puts a record in, as one with the record that leads to it.
    pub(crate) fn join(&mut self, over: &mut Overlay, r: Reverse, left: Option<Reverse>)
        requires tree { IsRmap over.old self.old }
        requires may { MayJoin (IsOwnerRecord over.old self.old) r left }
        requires few { length (owner_records over.old self.old) < reverse_form.most }
        requires room { 3 ≤ free_count over.old }
        ensures step { IsTreeStep reverse_form over.old self.old.tree over.new self.new.tree 3 10 }
        ensures added { GainsPairsOf r over.old self.old over.new self.new }
    {
        match left {
            None => self.put(over, r),
            Some(x) => {
                let joined = Reverse {
                    len: x.len + r.len,
                    ..x
                };
                self.swap(over, &x, joined);
            }
        }
    }

    /// Leaves only the first blocks of a record, or takes it out if there are none.
    fn shorten(&mut self, over: &mut Overlay, whole: &Reverse, len: u32)
        requires tree { IsRmap over.old self.old }
        requires held { IsOwnerRecord over.old self.old whole.now }
        requires shorter { len < whole.now.len }
        ensures step { IsTreeStep reverse_form over.old self.old.tree over.new self.new.tree 0 10 }
        ensures set { Shortens (IsOwnerRecord over.old self.old) whole.now len (IsOwnerRecord over.new self.new) }
        ensures fewer { length (owner_records over.new self.new) ≤ length (owner_records over.old self.old) }
    {
        if len == 0 {
            self.cut(over, whole);
        } else {
            self.swap(over, whole, Reverse { len, ..*whole });
        }
    }

    /// Takes a part out of a record. What is left in front of it and after it stays.
    pub(crate) fn carve(&mut self, over: &mut Overlay, whole: &Reverse, part: &Reverse)
        requires tree { IsRmap over.old self.old }
        requires held { IsOwnerRecord over.old self.old whole.now }
        requires part { IsPartOf part.now whole.now }
        requires few { length (owner_records over.old self.old) < reverse_form.most }
        requires room { 3 ≤ free_count over.old }
        ensures step { IsTreeStep reverse_form over.old self.old.tree over.new self.new.tree 3 20 }
        ensures removed { LosesPairsOf part.now over.old self.old over.new self.new }
    {
        let rest = rest_after(whole, part);
        self.shorten(over, whole, part.start - whole.start);
        if rest.len > 0 {
            self.put(over, rest);
        }
    }
}
