//! The extents of a file, and how ranges of offsets are mapped and unmapped.
ghost use Rattle.std.specs.Prelude.{◌≡◌, ◌+◌, ◌≤◌, true};
ghost use Rattle.xr_base.specs.Address.{IsGoodRun};
ghost use Rattle.xr_base.specs.declared.geometry.TheConstants.{OFFSETS};
ghost use Rattle.xr_bmap.specs.Bmap.{IsBmap, PunchesIn, RemapsIn, slot_in};
ghost use Rattle.xr_bmap.specs.Slots.{IsHole, IsMappedRun};
ghost use Rattle.xr_change.specs.TreeSteps.{IsTreeStep};
ghost use Rattle.xr_kinds.specs.Mapping.{mapping_form};
ghost use Rattle.xr_pool.specs.Overlay.{free_count};

use xr_base::Run;
use xr_kinds::Mapping;
use xr_pool::Overlay;
use xr_tree::Tree;

/// The extents of a file, each as long as it can be.
#[derive(Clone, Copy)]
pub(crate) struct Bmap {
    pub tree: Tree<Mapping>,
}

impl Bmap {
    /// Maps the blocks of a run at the offsets from one on, which have to be a hole.
    pub(crate) fn map(&mut self, over: &mut Overlay, off: u32, run: &Run)
        requires tree { IsBmap over.old self.old }
        requires good { IsGoodRun run.now }
        requires within { off + run.now.len ≤ OFFSETS }
        requires hole { IsHole (slot_in over.old self.old) off run.now.len }
        requires room { 2 ≤ free_count over.old }
        ensures step { IsTreeStep mapping_form over.old self.old.tree over.new self.new.tree 2 14 }
        ensures mapped { RemapsIn off run.now.len run.now.start over.old self.old over.new self.new }
    {
        let new = Mapping {
            off,
            at: run.start.0,
            len: run.len,
        };
        let left = self.left_of(over, &new);
        match self.right_of(over, &new) {
            None => self.join(over, new, left),
            Some(next) => {
                self.cut(over, &next);
                let wider = Mapping {
                    len: new.len + next.len,
                    ..new
                };
                self.join(over, wider, left);
            }
        }
    }

    /// Unmaps so many offsets from one on, which have to be a part of one extent.
    pub(crate) fn unmap(&mut self, over: &mut Overlay, off: u32, len: u32)
        requires tree { IsBmap over.old self.old }
        requires mapped { IsMappedRun (slot_in over.old self.old) off len }
        requires room { 2 ≤ free_count over.old }
        ensures step { IsTreeStep mapping_form over.old self.old.tree over.new self.new.tree 2 14 }
        ensures unmapped { PunchesIn off len over.old self.old over.new self.new }
    {
        let Some(whole) = self.holder_of(over, off) else {
            unreachable!();
        };
        self.carve(over, &whole, off, len);
    }
}
