//! Writing the record that grows: it is laid, written and synced.
ghost use Rattle.std.specs.Prelude.{◌≡◌, ◌⊎◌, ◌+◌, ◌*◌, ◌≤◌, ◌<◌, ℕ, false, [], ◌∷◌, List, Contains, None, OnOk, length};
ghost use Rattle.xr_base.specs.Cause.{HasCause};
ghost use Rattle.xr_base.specs.Image.{overlaid};
ghost use Rattle.xr_base.specs.declared.geometry.TheConstants.{SECTOR_BYTES};
ghost use Rattle.xr_disk.specs.Crash.{IsSectorRange};
ghost use Rattle.xr_disk.specs.Disk.{IsAtRest};
ghost use Rattle.xr_commit.specs.LogRecords.{LogRecord};
ghost use Rattle.xr_commit.specs.declared.layout.TheConstants.{MOST_RECORD_BYTES};
ghost use Rattle.xr_scan.specs.FalseRecords.{record_len};
ghost use Rattle.xr_scan.specs.LoggedLaws.{IsPlacedHead};
ghost use Rattle.xr_scan.specs.State.{State};
ghost use Rattle.xr_log.specs.Calls.{NeedsLastCycle, WearsOut};
ghost use Rattle.xr_log.specs.Gathered.{Said, nothing_packed};
ghost use Rattle.xr_log.specs.Held.{cycle_of};
ghost use Rattle.xr_log.specs.KeepsNow.{KeepsNow};
ghost use Rattle.xr_log.specs.Positions.{packed_sectors};
ghost use Rattle.xr_log.specs.Writing.{HasLaidNext, IsPlacedAfter, IsStep, IsWrittenAt, MayWrite, RunsOver};

use crate::fault::LogFault;
use crate::held::{Growing, Held};
use crate::laying::lay_record;
use crate::next_head::{next_head, record_bytes};
use uuid::Uuid;
use xr_base::Fault;
use xr_base::geometry::{BLOCK_SECTORS, FIRST_LOG_BLOCK};
use xr_disk::Disk;
use xr_record::{Head, Packer};

/// Writes a sealed record at a sector of the image, and syncs.
fn write_record<D: Disk>(disk: &mut D, at: u32, bytes: &[u8]) -> Result<(), Fault>
    requires { IsSectorRange at (length bytes.now) }
    ensures runs { (r : LogRecord) (now : State) (said : Said) (next : ℕ) (states : List State) → MayWrite (D.view disk.old) r now said next states
        → IsWrittenAt at bytes.now r → Contains states now → RunsOver (D.view disk.old) (D.view disk.new) states r.head.lsn.cycle next }
    ensures rests { OnOk result ((image : List ℕ) → IsAtRest image (D.view disk.old)
        → IsAtRest (overlaid (SECTOR_BYTES * at) bytes.now image) (D.view disk.new)) }
    ensures cause { HasCause result (D.view disk.old).faults (D.view disk.new).faults }
    ensures later { (D.view disk.old).moment ≤ (D.view disk.new).moment }
{
    disk.write(at, bytes)?;
    disk.sync()
}

/// Lays the packed record after the last one, and gives its header.
fn lay_next(last: &Head, anew: bool, uuid: &Uuid, packer: &Packer, sectors: &mut [u8]) -> Head
    requires placed { IsPlacedHead last.now }
    requires some { 0 < length packer.now.body }
    requires fresh { NeedsLastCycle last.now (packed_sectors packer.now) → ⊥ }
    requires room { length sectors.old ≡ MOST_RECORD_BYTES }
    ensures laid { HasLaidNext last.now anew uuid.now packer.now result sectors.new }
    ensures long { length sectors.new ≡ MOST_RECORD_BYTES }
{
    let body = packer.body();
    let len = body.len() as u32;
    let head = next_head(last, anew, uuid, packer.ops(), len);
    let size = record_bytes(len);
    lay_record(&head, body, &mut sectors[..size]);
    head
}

/// Lays the record that grows, and begins the next one after it. Gives how many bytes of `sectors` it takes.
fn lay_packed(growing: &mut Growing, uuid: &Uuid) -> usize
    requires some { 0 < length growing.old.packer.body }
    requires fresh { NeedsLastCycle growing.old.last (packed_sectors growing.old.packer) → ⊥ }
    ensures size { result ≡ record_len growing.new.last }
    ensures laid { HasLaidNext growing.old.last growing.old.anew uuid.now growing.old.packer growing.new.last growing.new.sectors.items }
    ensures empty { growing.new.packer ≡ nothing_packed }
    ensures goes_on { growing.new.anew ≡ false }
{
    let Growing {
        last,
        anew,
        packer,
        sectors,
        ..
    } = growing;
    *last = lay_next(last, *anew, uuid, packer, sectors);
    *anew = false;
    packer.clear();
    record_bytes(last.len)
}

/// Writes the record that grows, and syncs. After a fault the log is down.
pub(crate) fn write_packed<D: Disk>(disk: &mut D, held: &mut Held) -> Result<(), LogFault>
    requires some { 0 < length held.old.growing.packer.body }
    requires fresh { WearsOut held.old (packed_sectors held.old.growing.packer) 0 → ⊥ }
    requires up { held.old.down ≡ None }
    ensures runs { (now : State) (said : Said) (next : ℕ) (states : List State) → KeepsNow (D.view disk.old) held.old.growing now said next states
        → now.uuid ≡ held.old.uuid → Contains states now → RunsOver (D.view disk.old) (D.view disk.new) states (cycle_of held.new) next }
    ensures kept { OnOk result ((now : State) (said : Said) (next : ℕ) (states : List State) → KeepsNow (D.view disk.old) held.old.growing now said next states
        → now.uuid ≡ held.old.uuid → KeepsNow (D.view disk.new) held.new.growing now said next (now ∷ [])) }
    ensures place { IsPlacedAfter held.old.growing.last held.new.growing.last (length held.old.growing.packer.body) }
    ensures empty { held.new.growing.packer ≡ nothing_packed }
    ensures goes_on { held.new.growing.anew ≡ false }
    ensures step { IsStep (D.view disk.old) (D.view disk.new) held.old held.new result }
{
    let size = lay_packed(&mut held.growing, &held.uuid);
    let at = FIRST_LOG_BLOCK * BLOCK_SECTORS + held.growing.last.lsn.sector;
    match write_record(disk, at, &held.growing.sectors[..size]) {
        Ok(()) => Ok(()),
        Err(Fault) => {
            let faults = disk.faults();
            held.down = Some(faults);
            Err(LogFault::DiskFault { faults })
        }
    }
}
