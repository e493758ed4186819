//! The roll of a work on a file's map.
ghost use Rattle.std.specs.Prelude.{◌≡◌, ◌+◌, ◌≤◌, [], length};
ghost use Rattle.xr_base.specs.Address.{IsGoodRun};
ghost use Rattle.xr_base.specs.declared.address.FileNo.{FileNo};
ghost use Rattle.xr_base.specs.declared.geometry.TheConstants.{OFFSETS};
ghost use Rattle.xr_bmap.specs.File.{ChangesFile};
ghost use Rattle.xr_chain.specs.ChainView.{IsPlaced, OfFirst, file_at, first_need, need_of};
ghost use Rattle.xr_chain.specs.Events.{RollsFile, RollsWith, logged_file};
ghost use Rattle.xr_chain.specs.FileWorks.{DoesFileWork};
ghost use Rattle.xr_chain.specs.Readiness.{IsFileReady};
ghost use Rattle.xr_items.specs.Transactions.{no_trans};
ghost use Rattle.xr_items.specs.Valid.{IsWork};
ghost use Rattle.xr_items.specs.declared.work.Work.TheVariants as works;
ghost use Rattle.xr_items.specs.declared.layout.TheConstants.{TRANS_BLOCKS};
ghost use Rattle.xr_open.specs.PoolState.{dropped_to_kept};

use crate::chain::{Chain, Need};
use crate::changed::add_file;
use xr_base::Run;
use xr_bmap::File;
use xr_items::{MapKind, Trans, Work};

fn do_map_work(file: &mut File, kind: MapKind, off: u32, run: &Run)
    requires good { IsGoodRun run.now }
    requires within { off + run.now.len ≤ OFFSETS }
    requires ready { (number : FileNo) → IsFileReady file.old (works.Map kind number off run.now) }
    ensures does { (number : FileNo) → DoesFileWork file.old file.new (works.Map kind number off run.now) }
    ensures change { ChangesFile file.old file.new }
{
    match kind {
        MapKind::Map => file.map(off, run),
        MapKind::Unmap => file.unmap(off, run.len),
    }
}

fn do_file_work(file: &mut File, work: &Work)
    requires valid { IsWork work.now }
    requires need { need_of work.now ≡ Need.File (file_at file.old.number) }
    requires ready { IsFileReady file.old work.now }
    ensures does { DoesFileWork file.old file.new work.now }
    ensures change { ChangesFile file.old file.new }
{
    if let Work::Map { kind, off, run, .. } = *work {
        do_map_work(file, kind, off, &run);
    }
}

impl Chain {
    /// Does the first work, which maps or unmaps a run of the file. The transaction gets the blocks of the file that changed and
    /// the work's slot.
    pub fn roll_map(self, file: &mut File, trans: &mut Trans) -> Chain
        requires need { first_need self.works ≡ Need.File (file_at file.old.number) }
        requires placed { IsPlaced self }
        requires ready { OfFirst (IsFileReady file.old) self.works }
        requires unchanged { file.old.changed ≡ [] }
        requires empty { trans.old ≡ no_trans }
        ensures rolled { RollsWith (RollsFile file.old file.new) (logged_file file.new) self result trans.new }
        ensures change { ChangesFile file.old file.new }
        ensures kept { dropped_to_kept file.new ≡ file.old }
        ensures few { length trans.new.blocks ≤ TRANS_BLOCKS }
    {
        file.is_file();
        let (work, slot) = self.head();
        do_file_work(file, &work);
        file.is_file();
        add_file(file, trans);
        trans.add_done(slot);
        self.behind_head(&[])
    }
}
