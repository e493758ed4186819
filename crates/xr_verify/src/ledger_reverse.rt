//! The ledger of runs and their owners: where the last run ends of each line of each owner. Runs of one owner are held
//! against each other only where the offsets run on with the blocks, so each has its line.
ghost use Rattle.std.specs.Prelude.{◌≡◌, ◌<◌, replicate, IsTrue};
ghost use Rattle.xr_verify.specs.OwnedRuns.{ledger_line};
ghost use Rattle.xr_kinds.specs.Reverse.{is_reverse};

use crate::ledger::{Kept, Ledger};
use xr_base::geometry::{FILES, FIRST_INODE, GROUP_BLOCKS, OWN_COW};
use xr_kinds::Reverse;

/// Lines of all owners: a file has at most as many as a group has blocks, and staged blocks have one, the first, which no
/// file has.
pub(crate) const LINES: usize = FILES as usize * GROUP_BLOCKS as usize;

/// For each line the block after its last run.
#[derive(Drop)]
pub struct ReverseLedger {
    ends: [u16; LINES],
}

/// No line has a run.
fn no_ends() -> [u16; LINES]
    ensures { result ≡ replicate LINES 0 }
{
    [0; LINES]
}

/// The line of a run.
fn ledger_line(r: &Reverse) -> usize
    requires { IsTrue (is_reverse r.now) }
    ensures value { result ≡ ledger_line r.now }
    ensures within { result < LINES }
{
    if r.owner == OWN_COW {
        0
    } else {
        (r.owner - FIRST_INODE) as usize * GROUP_BLOCKS as usize
            + (r.start as usize - r.off as usize)
    }
}

impl Ledger<Reverse> for ReverseLedger {
    ghost use Rattle.xr_verify.specs.OwnedRuns.{HoldsEnds};

    ghost notes = { λ ledger noted. HoldsEnds ledger.ends noted };

    fn new() -> Self {
        ReverseLedger { ends: no_ends() }
    }

    fn admits(&self, r: &Reverse) -> bool {
        u32::from(self.ends[ledger_line(r)]) < r.start
    }

    fn note(&mut self, r: &Reverse) {
        self.ends[ledger_line(r)] = (r.start + r.len) as u16;
    }
}

impl Kept for Reverse {
    type Ledger = ReverseLedger;
}
