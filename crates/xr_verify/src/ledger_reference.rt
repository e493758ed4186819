//! The ledger of shared and staged runs: a bit for each block of the group tells which runs meet, and the run before tells
//! which ones are to be one, since no other stands between two of one kind that touch.
ghost use Rattle.std.specs.Prelude.{◌≡◌, ◌↔◌, true, IsTrue, IfSome};
ghost use Rattle.xr_kinds.specs.Reference.{reference_form};

use crate::ledger::{Kept, Ledger};
use crate::run_bits::{MAP_BYTES, are_clear, empty_map, set_bits};
use xr_kinds::{Record, Reference};

/// Which blocks the runs hold that were passed, and the last of these runs.
#[derive(Drop)]
pub struct ReferenceLedger {
    held: [u8; MAP_BYTES],
    last: Option<Reference>,
}

/// Whether a run agrees with the one before it, if there is one.
fn agrees_after(last: &Option<Reference>, r: &Reference) -> bool
    ensures { IsTrue result ↔ IfSome last.now (λ x. reference_form.agree x r.now ≡ true) }
{
    match last {
        Some(last) => last.agrees(r),
        None => true,
    }
}

impl Ledger<Reference> for ReferenceLedger {
    ghost use Rattle.std.specs.Prelude.{None};
    ghost use Rattle.std.specs.List.{last_or};
    ghost use Rattle.xr_kinds.specs.Reference.{reference_span};
    ghost use Rattle.xr_verify.specs.RunBits.{HoldsRuns};

    ghost notes = { λ ledger noted. HoldsRuns reference_span ledger.held noted × (ledger.last ≡ last_or None noted) };

    fn new() -> Self {
        ReferenceLedger {
            held: empty_map(),
            last: None,
        }
    }

    fn admits(&self, r: &Reference) -> bool {
        let start = r.start as usize;
        let clear = are_clear(&self.held, start, start + r.len as usize);
        agrees_after(&self.last, r) && clear
    }

    fn note(&mut self, r: &Reference) {
        let start = r.start as usize;
        set_bits(&mut self.held, start, start + r.len as usize);
        self.last = Some(*r);
    }
}

impl Kept for Reference {
    type Ledger = ReferenceLedger;
}
