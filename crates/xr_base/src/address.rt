//! Block addresses and runs of blocks, with the tests that say which of them hold file data.
ghost use Rattle.std.specs.Prelude.{◌≡◌, ◌<◌, ◌↔◌, IsTrue};
ghost use Rattle.xr_base.specs.Address.{IsData, IsGoodRun, group_number};

use crate::geometry::{FIRST_DATA_BLOCK, GROUP_BLOCKS, GROUPS};

/// A block address: the block `a % GROUP_BLOCKS` of the group `a / GROUP_BLOCKS`.
#[derive(Clone, Copy, Debug, PartialEq, Eq, PartialOrd, Ord, Hash)]
pub struct Addr(pub u32);

/// The number of a file, from 0 on.
#[derive(Clone, Copy, Debug, PartialEq, Eq, PartialOrd, Ord, Hash)]
pub struct FileNo(pub u32);

/// The number of an allocation group, from 0 on.
#[derive(Clone, Copy, Debug, PartialEq, Eq, PartialOrd, Ord, Hash)]
pub struct GroupNo(pub u32);

/// `len` blocks, from `start` on.
#[derive(Clone, Copy, Debug, PartialEq, Eq, Hash)]
pub struct Run {
    pub start: Addr,
    pub len: u32,
}

/// Whether file data may stand at the address.
pub fn is_data(a: Addr) -> bool
    ensures { IsTrue result ↔ IsData a }
{
    a.0 / GROUP_BLOCKS < GROUPS && a.0 % GROUP_BLOCKS >= FIRST_DATA_BLOCK
}

/// Whether the run has a block, and all its blocks are data blocks of one group.
pub fn good_run(r: &Run) -> bool
    ensures { IsTrue result ↔ IsGoodRun r.now }
{
    is_data(r.start) && r.len > 0 && r.len <= GROUP_BLOCKS - r.start.0 % GROUP_BLOCKS
}

/// The group of a data address.
pub fn group_of(a: Addr) -> GroupNo
    requires { IsData a }
    ensures group { result.0 ≡ group_number a }
    ensures known { result.0 < GROUPS }
{
    GroupNo(a.0 / GROUP_BLOCKS)
}
