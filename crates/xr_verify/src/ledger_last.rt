//! The ledger of the kinds whose records have to be held against the one before them alone, since their order is that of
//! what they stand for.
ghost use Rattle.std.specs.Prelude.{◌≡◌};

use crate::ledger::{Kept, Ledger};
use xr_kinds::{ByBlock, Mapping, Record};

/// A kind of which a record agrees with all before it where each agrees with the one before it.
pub trait InRows: Record {
    ghost use Rattle.xr_verify.specs.Ledger.{NeighboursSuffice};

    ghost suffice: { NeighboursSuffice Self.form };
}

/// The record that was passed last.
#[derive(Drop)]
pub struct LastRecord<R> {
    last: Option<R>,
}

impl<R: InRows> Ledger<R> for LastRecord<R> {
    ghost use Rattle.std.specs.Prelude.{None};
    ghost use Rattle.std.specs.List.{last_or};

    ghost notes = { λ ledger noted. ledger.last ≡ last_or None noted };

    fn new() -> Self {
        LastRecord { last: None }
    }

    fn admits(&self, r: &R) -> bool {
        match &self.last {
            Some(last) => last.agrees(r),
            None => true,
        }
    }

    fn note(&mut self, r: &R) {
        self.last = Some(*r);
    }
}

impl InRows for ByBlock {
    ghost use Rattle.xr_verify.specs.LedgerLaws.{blocks_in_rows};

    ghost suffice = { blocks_in_rows };
}

impl InRows for Mapping {
    ghost use Rattle.xr_verify.specs.LedgerLaws.{extents_in_rows};

    ghost suffice = { extents_in_rows };
}

impl Kept for ByBlock {
    type Ledger = LastRecord<ByBlock>;
}

impl Kept for Mapping {
    type Ledger = LastRecord<Mapping>;
}
