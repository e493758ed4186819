//! Committing a transaction: its items are pushed into the record that grows, and it is entered in memory once all of them are.
ghost use Rattle.std.specs.Prelude.{◌≡◌, ◌↔◌, ◌+◌, ◌<◌, ◌≤◌, ℕ, All, IsTrue, List, Some, false, length};
ghost use Rattle.std.specs.List.{AllByRecursion};
ghost use Rattle.xr_items.specs.declared.layout.TheConstants.{IDS, TRANS_WORKS};
ghost use Rattle.xr_items.specs.declared.trans.Logged.{Logged as Changed};
ghost use Rattle.xr_items.specs.Transactions.{TransView};
ghost use Rattle.xr_items.specs.Valid.{IsItem};
ghost use Rattle.xr_scan.specs.LoggedEntries.{IsWholeItem};
ghost use Rattle.xr_log.specs.Calls.{MayCommit, WearsOut};
ghost use Rattle.xr_log.specs.CommitCalls.{IsCommitCall, IsPlan, commit_fill, commit_sectors};
ghost use Rattle.xr_log.specs.Filling.{fill_of, filled_by};
ghost use Rattle.xr_log.specs.TransactionItems.{logged_in};
ghost use Rattle.xr_log.specs.declared.transaction.TheConstants.{TRANS_ITEMS};
ghost use Rattle.xr_log.specs.Held.{HasCommitRoom, placings_of};

use crate::entering::enter;
use crate::fault::LogFault;
use crate::held::Held;
use crate::next_head::{needs_last_cycle, record_sectors};
use crate::packing::Fill;
use crate::pushing::{filled, push_transaction};
use crate::transaction::{Plan, Planned, plan_of};
use xr_base::geometry::CYCLES;
use xr_base::layout::MAX_BODY_BYTES;
use xr_disk::Disk;
use xr_items::layout::IDS;
use xr_items::{Placed, Trans};

/// How many records a transaction of these items fills.
fn filled_records(held: &Held, plan: &[Planned]) -> u32
    requires most { length plan.now ≤ TRANS_ITEMS }
    requires items { All (λ p. IsItem p.item) plan.now }
    ensures records { (blocks : List Changed) → AllByRecursion IsWholeItem (logged_in blocks plan.now)
        → result ≡ (filled_by (logged_in blocks plan.now) (fill_of held.now)).records }
    ensures few { (trans : TransView) → IsPlan held.now trans plan.now → AllByRecursion IsWholeItem (logged_in trans.blocks plan.now) → result ≤ 12 }
{
    let fill = Fill {
        records: 0,
        len: held.growing.packer.body().len(),
    };
    filled(plan, fill).records
}

/// Whether so many new works would need an id that none may have.
fn lacks_ids(next: u64, works: usize) -> bool
    requires next { next ≤ IDS }
    requires few { works ≤ TRANS_WORKS }
    ensures { IsTrue result ↔ (0 < works) × (IDS < next + works) }
{
    works > 0 && next + works as u64 > IDS
}

/// Whether the works of a transaction would need an id that none may have, or its records the cycle that none may have.
fn wears_out(held: &Held, trans: &Trans, plan: &Plan) -> bool
    requires { IsPlan held.now trans.now plan.now.items }
    ensures wears { IsTrue result ↔ WearsOut held.now (commit_sectors held.now trans.now) (length trans.now.works) }
    ensures few { result ≡ false → (commit_fill held.now trans.now).records ≤ 12 }
{
    if lacks_ids(held.next, trans.works().len()) {
        return true;
    }
    let sectors = record_sectors(MAX_BODY_BYTES as u32) * filled_records(held, plan);
    needs_last_cycle(&held.growing.last, sectors)
}

/// Pushes a transaction, and enters it in memory.
pub(crate) fn commit_held<D: Disk>(
    disk: &mut D,
    held: &mut Held,
    trans: &Trans,
) -> Result<Placed, LogFault>
    requires may { MayCommit held.old.uuid (placings_of held.old) trans.now }
    requires room { HasCommitRoom held.old }
    ensures commits { IsCommitCall (D.view disk.old) (D.view disk.new) held.old held.new trans.now result }
    ensures idle { (faults : ℕ) → held.old.down ≡ Some faults → disk.new ≡ disk.old }
{
    if let Some(faults) = held.down {
        return Err(LogFault::Down { faults });
    }
    let plan = plan_of(&held.table, held.next, trans);
    if wears_out(held, trans, &plan) {
        return Err(LogFault::Worn { cycle: CYCLES });
    }
    let tid = held.tid.wrapping_add(1);
    push_transaction(disk, held, tid, &plan, trans.blocks())?;
    Ok(enter(held, trans, tid))
}
