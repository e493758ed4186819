//! The ledger of free runs in the order of their lengths, where those that touch may stand far apart: a bit for each block
//! of the group.
ghost use Rattle.std.specs.Prelude.{◌≡◌};

use crate::ledger::{Kept, Ledger};
use crate::run_bits::{MAP_BYTES, are_clear, empty_map, set_bits};
use xr_kinds::BySize;

/// Which blocks the runs hold that were passed.
#[derive(Drop)]
pub struct SizeLedger {
    held: [u8; MAP_BYTES],
}

impl Ledger<BySize> for SizeLedger {
    ghost use Rattle.xr_kinds.specs.FreeRuns.{size_span};
    ghost use Rattle.xr_verify.specs.RunBits.{HoldsRuns};

    ghost notes = { λ ledger noted. HoldsRuns size_span ledger.held noted };

    fn new() -> Self {
        SizeLedger { held: empty_map() }
    }

    fn admits(&self, r: &BySize) -> bool {
        let start = r.start as usize;
        are_clear(&self.held, start - 1, start + r.len as usize + 1)
    }

    fn note(&mut self, r: &BySize) {
        let start = r.start as usize;
        set_bits(&mut self.held, start, start + r.len as usize);
    }
}

impl Kept for BySize {
    type Ledger = SizeLedger;
}
