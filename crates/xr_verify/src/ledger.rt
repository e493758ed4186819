//! What is kept of the records of a tree while they are passed in order, so that each is held against all before it.
ghost use Rattle.std.specs.Prelude.{◌≡◌, ◌∷◌, ◌++◌, [], List, IsTrue, ◌↔◌};
ghost use Rattle.xr_verify.specs.Ledger.{AgreesWithAll, IsNext};

use xr_kinds::Record;

/// A ledger of the records that were passed. It has a fixed size, and a record costs a few steps, however many were noted.
pub trait Ledger<R: Record>: Drop {
    /// What the ledger is after some records.
    ghost notes: { Self → List R → Type 0 };

    /// A ledger of no records.
    fn new() -> Self
        ensures { notes result [] };

    /// Whether the next record may stand in one tree with each that was noted.
    fn admits(&self, r: &R) -> bool
        requires { IsTrue (R.form.is_valid r.now) }
        ensures { (noted : List R) → notes self.now noted → IsNext R.form noted r.now → (IsTrue result ↔ AgreesWithAll R.form noted r.now) };

    /// Notes the next record.
    fn note(&mut self, r: &R)
        requires { IsTrue (R.form.is_valid r.now) }
        ensures { (noted : List R) → notes self.old noted → IsNext R.form noted r.now → AgreesWithAll R.form noted r.now
            → notes self.new (noted ++ r.now ∷ []) };
}

/// A kind of record with its ledger.
pub trait Kept: Record {
    /// The ledger, which stands on the stack.
    type Ledger: Ledger<Self>;
}
