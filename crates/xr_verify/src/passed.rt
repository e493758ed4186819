//! The records of a tree as they are passed, leaf by leaf: each has to be above the one before it and to agree with all.
ghost use Rattle.std.specs.Prelude.{◌≡◌, ℕ, ◌+◌, ◌<◌, ◌≤◌, ◌↔◌, ◌++◌, [], List, length, slice_index_or, IsOk, IsTrue, IfErr, IfSome, None};
ghost use Rattle.std.specs.List.{last_or};
ghost use Rattle.std.specs.declared.cmp.Ordering.TheVariants.{Less};
ghost use Rattle.xr_block.specs.Checks.{HoldsRecords};
ghost use Rattle.xr_verify.specs.Ledger.{ArePassed, Climb};
ghost use Rattle.xr_verify.specs.Passed.{AreNoted, IsPast};
ghost use Rattle.xr_block.specs.declared.fault.TreeKind.TheVariants.{Bound};
ghost use Rattle.xr_block.specs.TreeBlock.{count_in, records_in};
ghost use Rattle.xr_verify.specs.Refusals.{RefusesRecords};

use crate::ledger::Ledger;
use xr_block::fault::TreeKind;
use xr_block::read::{checked_record, count_of};
use xr_kinds::Record;
use xr_pool::Block;

/// What is kept of the records that were passed: the last one, how many more the tree may have, and their ledger.
#[derive(Drop)]
pub(crate) struct Passed<R, L> {
    last: Option<R>,
    room: u64,
    ledger: L,
}

/// Whether a record is above the one before it, if there is one.
fn is_above<R: Record>(before: Option<R>, next: &R) -> bool
    ensures { IsTrue result ↔ IfSome before (λ x. R.form.order x next.now ≡ Less) }
{
    match before {
        Some(before) => before.compare(next).is_lt(),
        None => true,
    }
}

/// Whether each record of a leaf is above the one before it.
fn climb<R: Record>(block: &Block, last: Option<R>) -> bool
    requires { HoldsRecords R.form block.now }
    ensures { IsTrue result ↔ Climb R.form last (records_in R.form block.now) }
{
    let mut before = last;
    for k in 0..count_of(block) {
        let record = checked_record::<R>(block, k);
        if !is_above(before, &record) {
            return false;
        }
        before = Some(record);
    }
    true
}

/// Whether each record of a leaf agrees with all that were noted, and with those before it in the leaf. Notes them all if so.
fn merge<R: Record, L: Ledger<R>>(block: &Block, ledger: &mut L) -> bool
    requires { HoldsRecords R.form block.now }
    ensures agree { (noted : List R) → L.notes ledger.old noted → ArePassed R.form noted
        → Climb R.form (last_or None noted) (records_in R.form block.now)
        → (IsTrue result ↔ ArePassed R.form (noted ++ records_in R.form block.now)) }
    ensures noted { (noted : List R) → L.notes ledger.old noted → ArePassed R.form noted
        → Climb R.form (last_or None noted) (records_in R.form block.now) → IsTrue result
        → L.notes ledger.new (noted ++ records_in R.form block.now) }
{
    for k in 0..count_of(block) {
        let record = checked_record::<R>(block, k);
        if !ledger.admits(&record) {
            return false;
        }
        ledger.note(&record);
    }
    true
}

/// The last record of a leaf, or that of those before it.
fn last_record<R: Record>(block: &Block, before: Option<R>) -> Option<R>
    requires { HoldsRecords R.form block.now }
    ensures { result ≡ last_or before (records_in R.form block.now) }
{
    let count = count_of(block);
    if count == 0 {
        before
    } else {
        Some(checked_record::<R>(block, count - 1))
    }
}

impl<R: Record, L: Ledger<R>> Passed<R, L> {
    /// What is kept before any record.
    pub(crate) fn new() -> Self
        ensures { IsPast R.form L.notes result [] }
    {
        Passed {
            last: None,
            room: u64::from(R::MOST),
            ledger: L::new(),
        }
    }

    /// Passes the records of a leaf, if they keep the rules with all before them.
    pub(crate) fn pass(&mut self, block: &Block) -> Result<(), TreeKind>
        requires { HoldsRecords R.form block.now }
        ensures rules { (noted : List R) → AreNoted R.form L.notes self.old noted
            → (IsOk result ↔ ArePassed R.form (noted ++ records_in R.form block.now)) }
        ensures noted { (noted : List R) → AreNoted R.form L.notes self.old noted → IsOk result
            → AreNoted R.form L.notes self.new (noted ++ records_in R.form block.now) }
        ensures refused { (noted : List R) → AreNoted R.form L.notes self.old noted
            → IfErr result (RefusesRecords R.form noted (records_in R.form block.now)) }
        ensures room { self.new.room ≡ self.old.room }
    {
        if !climb::<R>(block, self.last) {
            return Err(TreeKind::Order);
        }
        if !merge::<R, L>(block, &mut self.ledger) {
            return Err(TreeKind::Merge);
        }
        self.last = last_record::<R>(block, self.last);
        Ok(())
    }

    /// Takes the room of the records of a leaf, if the tree has it.
    pub(crate) fn take_room(&mut self, count: usize) -> Result<(), TreeKind>
        ensures enough { IsOk result ↔ count ≤ self.old.room }
        ensures refused { IfErr result (λ kind. kind ≡ Bound) }
        ensures less { IsOk result → self.new.room + count ≡ self.old.room }
        ensures last { self.new.last ≡ self.old.last }
        ensures ledger { self.new.ledger ≡ self.old.ledger }
    {
        match self.room.checked_sub(count as u64) {
            Some(room) => {
                self.room = room;
                Ok(())
            }
            None => Err(TreeKind::Bound),
        }
    }
}
