//! What an intent asks for, and the numbers by which its kind stands in the flags of an item.
ghost use Rattle.std.specs.Prelude.{◌≡◌, MatchOption};
ghost use Rattle.xr_items.specs.Items.{own_code, count_code, map_code};
ghost use Rattle.xr_items.specs.Valid.{SuitsOwner};

use crate::rules::is_inode;
use xr_base::geometry::OWN_COW;
use xr_base::{FileNo, Run};

/// What happens to the owners of the blocks of a run. The first two are for files, the others for staged blocks.
#[derive(Clone, Copy, Debug, PartialEq, Eq, Hash)]
pub enum OwnKind {
    MapShared,
    UnmapShared,
    Alloc,
    Free,
}

/// What happens to the reference counts of a run. The last two begin and end the staging of its blocks.
#[derive(Clone, Copy, Debug, PartialEq, Eq, Hash)]
pub enum CountKind {
    Increase,
    Decrease,
    AllocCow,
    FreeCow,
}

/// What happens to a range of a file's offsets.
#[derive(Clone, Copy, Debug, PartialEq, Eq, Hash)]
pub enum MapKind {
    Map,
    Unmap,
}

/// What an intent asks for. Offsets and lengths are in blocks. A work is valid where its run is good, its ranges end at or
/// before `OFFSETS`, and its owner, an inode number or `OWN_COW` with offset 0, suits its kind.
#[derive(Clone, Copy, Debug, PartialEq, Eq)]
pub enum Work {
    /// Gives the run back to the free blocks.
    Free {
        run: Run,
    },
    /// Adds or removes owners of the run, from an offset of the owner on.
    Own {
        kind: OwnKind,
        owner: u64,
        off: u64,
        run: Run,
    },
    /// Raises or lowers the reference counts of the run, or begins or ends its staging.
    Count {
        kind: CountKind,
        run: Run,
    },
    /// Maps the run at an offset of the file, or unmaps it there.
    Map {
        kind: MapKind,
        file: FileNo,
        off: u32,
        run: Run,
    },
    /// Exchanges what two ranges of offsets hold.
    Swap {
        file: FileNo,
        off: u32,
        other: FileNo,
        other_off: u32,
        len: u32,
    },
}

impl OwnKind {
    /// The number by which the kind stands in an item's flags.
    pub fn code(self) -> u32
        ensures { result ≡ own_code self }
    {
        match self {
            OwnKind::MapShared => 2,
            OwnKind::UnmapShared => 4,
            OwnKind::Alloc => 7,
            OwnKind::Free => 8,
        }
    }

    /// The kind with a number, where it suits the owner.
    pub(crate) fn of_code(code: u32, owner: u64) -> Option<OwnKind>
        ensures { MatchOption result ((kind : OwnKind) → own_code kind ≡ code → SuitsOwner kind owner → ⊥)
            (λ kind. (own_code kind ≡ code) × SuitsOwner kind owner) }
    {
        match code {
            2 if is_inode(owner) => Some(OwnKind::MapShared),
            4 if is_inode(owner) => Some(OwnKind::UnmapShared),
            7 if owner == OWN_COW => Some(OwnKind::Alloc),
            8 if owner == OWN_COW => Some(OwnKind::Free),
            _ => None,
        }
    }
}

impl CountKind {
    /// The number by which the kind stands in an item's flags.
    pub fn code(self) -> u32
        ensures { result ≡ count_code self }
    {
        match self {
            CountKind::Increase => 1,
            CountKind::Decrease => 2,
            CountKind::AllocCow => 3,
            CountKind::FreeCow => 4,
        }
    }

    pub(crate) fn of_code(code: u32) -> Option<CountKind>
        ensures { MatchOption result ((kind : CountKind) → count_code kind ≡ code → ⊥) (λ kind. count_code kind ≡ code) }
    {
        match code {
            1 => Some(CountKind::Increase),
            2 => Some(CountKind::Decrease),
            3 => Some(CountKind::AllocCow),
            4 => Some(CountKind::FreeCow),
            _ => None,
        }
    }
}

impl MapKind {
    /// The number by which the kind stands in an item's flags.
    pub fn code(self) -> u32
        ensures { result ≡ map_code self }
    {
        match self {
            MapKind::Map => 1,
            MapKind::Unmap => 2,
        }
    }

    pub(crate) fn of_code(code: u32) -> Option<MapKind>
        ensures { MatchOption result ((kind : MapKind) → map_code kind ≡ code → ⊥) (λ kind. map_code kind ≡ code) }
    {
        match code {
            1 => Some(MapKind::Map),
            2 => Some(MapKind::Unmap),
            _ => None,
        }
    }
}
