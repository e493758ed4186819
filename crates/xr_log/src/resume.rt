//! Going on from what a scan of a disk found.
ghost use Rattle.std.specs.Prelude.{◌≡◌, ◌≤◌, ℕ, [], ◌∷◌, List, length, vec_capacity, IfOk, IfErr};
ghost use Rattle.xr_disk.specs.Disk.{IsAtRest};
ghost use Rattle.xr_scan.specs.declared.layout.TheConstants.{MOST_PENDING};
ghost use Rattle.xr_scan.specs.Scanned.{IsScanned};
ghost use Rattle.xr_log.specs.Held.{HasStates, current, disk_of, held_of};
ghost use Rattle.xr_log.specs.Resumes.{IsResumed, Resumes, slotted_in};

use crate::held::{Growing, Held, Log, Slotted};
use std::alloc::Global;
use xr_base::NoMemory;
use xr_base::geometry::SECTOR_BYTES;
use xr_base::layout::MAX_BODY_BYTES;
use xr_commit::Pending;
use xr_disk::Disk;
use xr_record::Packer;
use xr_scan::Scanned;
use xr_scan::layout::MOST_PENDING;

/// The pending works in their order, in the slots 0, 1 and so on, with room for all that may be pending.
fn slotted(alloc: Global, pending: &[Pending]) -> Result<Vec<Slotted>, NoMemory>
    requires few { length pending.now ≤ MOST_PENDING }
    ensures items { IfOk result (λ table. table.items ≡ slotted_in 0 pending.now) }
    ensures fits { IfOk result (λ table. MOST_PENDING ≤ vec_capacity table) }
{
    let mut table = Vec::with_capacity(alloc, MOST_PENDING)?;
    for i in 0..pending.len() {
        table.push(Slotted {
            id: pending[i].id,
            slot: i as u8,
            work: pending[i].work,
        })?;
    }
    Ok(table)
}

/// All that a log holds in memory, and all memory that its calls will need.
fn held_from(alloc: Global, scanned: Scanned) -> Result<Held, NoMemory>
    ensures { IfOk result (IsResumed scanned) }
{
    let table = slotted(alloc, &scanned.pending)?;
    let packer = Packer::new(alloc)?;
    let sectors = vec![in alloc; 0; SECTOR_BYTES + MAX_BODY_BYTES]?;
    let growing = Growing {
        last: scanned.last,
        anew: scanned.clean,
        packer,
        sectors,
    };
    Ok(Held {
        uuid: scanned.uuid,
        blocks: scanned.blocks,
        dirty: scanned.dirty,
        table,
        next: scanned.next,
        tid: 0,
        ends_open: scanned.ends_open,
        growing,
        down: None,
    })
}

impl<D: Disk> Log<D> {
    /// A log over the disk that was scanned. All memory that its calls need is taken here; where there is none, the disk is
    /// given back.
    pub fn resume(alloc: Global, scanned: Scanned, disk: D) -> Result<Log<D>, (NoMemory, D)>
        ensures resumed { IfOk result (λ log. Resumes scanned (held_of log)) }
        ensures disk { IfOk result (λ log. disk_of log ≡ disk) }
        ensures no_memory { IfErr result (λ refused. refused.1 ≡ disk) }
        ensures states { IfOk result (λ log. (image : List ℕ) → IsAtRest image (D.view disk) → IsScanned image scanned
            → HasStates (D.view (disk_of log)) (held_of log) (current (held_of log) ∷ [])) }
    {
        match held_from(alloc, scanned) {
            Ok(held) => Ok(Log { disk, held }),
            Err(error) => Err((error, disk)),
        }
    }
}
