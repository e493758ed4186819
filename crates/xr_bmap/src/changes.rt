//! Changes of one extent, and those of two that become one or are left of one.
ghost use Rattle.std.specs.Prelude.{◌≡◌, ◌≢◌, ◌+◌, ◌-◌, ◌<◌, ◌≤◌, true};
ghost use Rattle.xr_base.specs.Address.{address_of};
ghost use Rattle.xr_bmap.specs.Bmap.{IsBmap, IsExtent, PunchesIn, RemapsIn};
ghost use Rattle.xr_bmap.specs.Joins.{IsPartOfExtent, MayJoinExtent, ShortensExtent, rest_of_extent};
ghost use Rattle.xr_change.specs.Sets.{Gains, Loses, Swaps};
ghost use Rattle.xr_change.specs.TreeSteps.{IsTreeStep};
ghost use Rattle.xr_kinds.specs.Mapping.{is_mapping, mapping_form};
ghost use Rattle.xr_kinds.specs.declared.mapping.Mapping.{Mapping};
ghost use Rattle.xr_pool.specs.Overlay.{free_count};

use crate::bmap::Bmap;
use xr_kinds::Mapping;
use xr_pool::Overlay;

/// What is left of an extent from an offset on, perhaps nothing.
fn rest_of_extent(whole: &Mapping, end: u32) -> Mapping
    requires good { is_mapping whole.now ≡ true }
    requires from { whole.now.off ≤ end }
    requires up_to { end ≤ whole.now.off + whole.now.len }
    ensures { result ≡ rest_of_extent whole.now end }
{
    Mapping {
        off: end,
        at: whole.at + (end - whole.off),
        len: whole.off + whole.len - end,
    }
}

impl Bmap {
    /// Puts an extent in that agrees with all others.
    fn put(&mut self, over: &mut Overlay, r: Mapping)
        requires tree { IsBmap over.old self.old }
        requires good { is_mapping r ≡ true }
        requires fits { (x : Mapping) → IsExtent over.old self.old x → mapping_form.agree x r ≡ true }
        requires room { 2 ≤ free_count over.old }
        ensures step { IsTreeStep mapping_form over.old self.old.tree over.new self.new.tree 2 7 }
        ensures set { Gains (IsExtent over.old self.old) r (IsExtent over.new self.new) }
    {
        self.tree.insert(over, r);
    }

    /// Takes an extent out.
    pub(crate) fn cut(&mut self, over: &mut Overlay, r: &Mapping)
        requires tree { IsBmap over.old self.old }
        requires held { IsExtent over.old self.old r.now }
        ensures step { IsTreeStep mapping_form over.old self.old.tree over.new self.new.tree 0 7 }
        ensures set { Loses (IsExtent over.old self.old) r.now (IsExtent over.new self.new) }
    {
        self.tree.remove(over, r);
    }

    /// Puts an extent in the place of one with the same first offset. It agrees with all others.
    fn swap(&mut self, over: &mut Overlay, old: &Mapping, new: Mapping)
        requires tree { IsBmap over.old self.old }
        requires held { IsExtent over.old self.old old.now }
        requires good { is_mapping new ≡ true }
        requires fits { (x : Mapping) → IsExtent over.old self.old x → x ≢ old.now → mapping_form.agree x new ≡ true }
        requires place { new.off ≡ old.now.off }
        ensures step { IsTreeStep mapping_form over.old self.old.tree over.new self.new.tree 0 7 }
        ensures set { Swaps (IsExtent over.old self.old) old.now new (IsExtent over.new self.new) }
    {
        self.tree.replace(over, old, new);
    }

    /// Puts an extent in, as one with the one that it goes on.
    pub(crate) fn join(&mut self, over: &mut Overlay, r: Mapping, left: Option<Mapping>)
        requires tree { IsBmap over.old self.old }
        requires may { MayJoinExtent (IsExtent over.old self.old) r left }
        requires room { 2 ≤ free_count over.old }
        ensures step { IsTreeStep mapping_form over.old self.old.tree over.new self.new.tree 2 7 }
        ensures mapped { RemapsIn r.off r.len (address_of r.at) over.old self.old over.new self.new }
    {
        match left {
            None => self.put(over, r),
            Some(x) => {
                let joined = Mapping {
                    len: x.len + r.len,
                    ..x
                };
                self.swap(over, &x, joined);
            }
        }
    }

    /// Leaves only the first offsets of an extent, or takes it out if there are none.
    fn shorten(&mut self, over: &mut Overlay, whole: &Mapping, len: u32)
        requires tree { IsBmap over.old self.old }
        requires held { IsExtent over.old self.old whole.now }
        requires shorter { len < whole.now.len }
        ensures step { IsTreeStep mapping_form over.old self.old.tree over.new self.new.tree 0 7 }
        ensures set { ShortensExtent (IsExtent over.old self.old) whole.now len (IsExtent over.new self.new) }
        ensures unmapped { PunchesIn (whole.now.off + len) (whole.now.len - len) over.old self.old over.new self.new }
    {
        if len == 0 {
            self.cut(over, whole);
        } else {
            self.swap(over, whole, Mapping { len, ..*whole });
        }
    }

    /// Takes a part out of an extent. What is left in front of it and behind it stays.
    pub(crate) fn carve(&mut self, over: &mut Overlay, whole: &Mapping, off: u32, len: u32)
        requires tree { IsBmap over.old self.old }
        requires held { IsExtent over.old self.old whole.now }
        requires part { IsPartOfExtent off len whole.now }
        requires room { 2 ≤ free_count over.old }
        ensures step { IsTreeStep mapping_form over.old self.old.tree over.new self.new.tree 2 14 }
        ensures unmapped { PunchesIn off len over.old self.old over.new self.new }
    {
        let rest = rest_of_extent(whole, off + len);
        self.shorten(over, whole, off - whole.off);
        if rest.len > 0 {
            self.put(over, rest);
        }
    }
}
