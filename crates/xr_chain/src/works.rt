//! The works of which rows are made.
ghost use Rattle.std.specs.Prelude.{◌≡◌, ◌+◌, ◌<◌, ◌≤◌, []};
ghost use Rattle.xr_base.specs.Address.{IsGoodRun};
ghost use Rattle.xr_base.specs.declared.geometry.TheConstants.{FILES, FIRST_INODE, OFFSETS, OWN_COW};
ghost use Rattle.xr_items.specs.Valid.{IsWork, SuitsOwner};
ghost use Rattle.xr_items.specs.declared.work.Work.TheVariants as works;

use xr_base::geometry::{FIRST_INODE, OWN_COW};
use xr_base::{FileNo, Run};
use xr_items::{MapKind, OwnKind, Work};

/// Maps a run at an offset of a file, or unmaps it there.
pub(crate) fn map_work(kind: MapKind, file: FileNo, off: u32, run: Run) -> Work
    requires known { file.0 < FILES }
    requires good { IsGoodRun run }
    requires within { off + run.len ≤ OFFSETS }
    ensures is { result ≡ works.Map kind file off run }
    ensures valid { IsWork result }
{
    Work::Map {
        kind,
        file,
        off,
        run,
    }
}

/// Adds or removes the owners of a run that a file has at an offset.
pub(crate) fn file_owner_work(kind: OwnKind, file: FileNo, off: u32, run: Run) -> Work
    requires known { file.0 < FILES }
    requires suits { SuitsOwner kind (FIRST_INODE + file.0) }
    requires good { IsGoodRun run }
    requires within { off + run.len ≤ OFFSETS }
    ensures is { result ≡ works.Own kind (FIRST_INODE + file.0) off run }
    ensures valid { IsWork result }
{
    Work::Own {
        kind,
        owner: FIRST_INODE + file.0 as u64,
        off: off as u64,
        run,
    }
}

/// Adds or removes the owner of staged blocks.
pub(crate) fn staged_owner_work(kind: OwnKind, run: Run) -> Work
    requires suits { SuitsOwner kind OWN_COW }
    requires good { IsGoodRun run }
    ensures is { result ≡ works.Own kind OWN_COW 0 run }
    ensures valid { IsWork result }
{
    Work::Own {
        kind,
        owner: OWN_COW,
        off: 0,
        run,
    }
}
