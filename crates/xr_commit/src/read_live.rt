//! The live stream of an image that a disk reads: the superblock and the log, each read once.
ghost use Rattle.std.specs.Prelude.{◌≡◌, ◌+◌, ◌*◌, ◌≤◌, ℕ, List, length, IfOk, IfErr, OnOk};
ghost use Rattle.xr_base.specs.Fields.{AreBytes};
ghost use Rattle.xr_base.specs.Image.{part};
ghost use Rattle.xr_base.specs.declared.geometry.TheConstants.{SECTOR_BYTES};
ghost use Rattle.xr_disk.specs.Crash.{IsSectorRange};
ghost use Rattle.xr_disk.specs.Disk.{OnlyReads};
ghost use Rattle.xr_commit.specs.declared.fault.ScanFault.TheVariants.{DiskFault};
ghost use Rattle.xr_commit.specs.ItemsOf.{EntriesHaveItems};
ghost use Rattle.xr_commit.specs.LiveStream.{IsLiveStream, WasReadLive};
ghost use Rattle.xr_commit.specs.LogRecords.{HasSuper, log_of};
ghost use Rattle.xr_commit.specs.Refusals.{HasNoSuper, IsReadable, OrOutside, RefusesImage};
ghost use Rattle.xr_commit.specs.DiskFaults.{WasCounted};
ghost use Rattle.xr_disk.specs.Seen.{WasSeen};

use crate::fault::ScanFault;
use crate::layout::LOG_BYTES;
use crate::live_stream::{Live, live_in};
use std::alloc::Global;
use uuid::Uuid;
use xr_base::Fault;
use xr_base::geometry::{BLOCK_BYTES, BLOCK_SECTORS, FIRST_LOG_BLOCK};
use xr_disk::Disk;
use xr_headers::take_super;

/// Reads whole sectors.
fn read_part<D: Disk>(disk: &mut D, at: u32, out: &mut [u8]) -> Result<(), ScanFault>
    requires { IsSectorRange at (length out.old) }
    ensures small { AreBytes out.new }
    ensures bytes { OnOk result (WasSeen (D.view disk.old).seen (λ image. out.new ≡ part (SECTOR_BYTES * at) (length out.old) image)) }
    ensures outside { IfErr result (λ fault. fault ≡ DiskFault (D.view disk.new).faults) }
    ensures reads { OnlyReads (D.view disk.old) (D.view disk.new) }
    ensures clock { (D.view disk.new).moment ≤ (D.view disk.old).moment + 1 }
    ensures kept { (D.view disk.old).faults ≤ (D.view disk.new).faults }
    ensures cause { IfErr result (WasCounted (D.view disk.old).faults (D.view disk.new).faults) }
{
    match disk.read(at, out) {
        Ok(()) => Ok(()),
        Err(Fault) => Err(ScanFault::DiskFault {
            faults: disk.faults(),
        }),
    }
}

/// Reads the identifier from the superblock.
pub fn read_uuid<D: Disk>(disk: &mut D) -> Result<Uuid, ScanFault>
    ensures superblock { IfOk result (λ uuid. WasSeen (D.view disk.old).seen (λ image. HasSuper image uuid)) }
    ensures refused { IfErr result (OrOutside (λ fault. WasSeen (D.view disk.old).seen (λ image. RefusesImage image fault))) }
    ensures none { IfErr result (OrOutside (λ _. WasSeen (D.view disk.old).seen HasNoSuper)) }
    ensures reads { OnlyReads (D.view disk.old) (D.view disk.new) }
    ensures clock { (D.view disk.new).moment ≤ (D.view disk.old).moment + 1 }
    ensures kept { (D.view disk.old).faults ≤ (D.view disk.new).faults }
    ensures cause { IfErr result (WasCounted (D.view disk.old).faults (D.view disk.new).faults) }
{
    let mut block = [0; BLOCK_BYTES];
    read_part(disk, 0, &mut block)?;
    match take_super(&block) {
        Ok(found) => Ok(found.uuid),
        Err(fault) => Err(ScanFault::Header { block: fault.block }),
    }
}

/// Reads the whole log, in one piece.
pub fn read_log<D: Disk>(alloc: Global, disk: &mut D) -> Result<Vec<u8>, ScanFault>
    ensures long { IfOk result (λ log. length log.items ≡ LOG_BYTES) }
    ensures small { IfOk result (λ log. AreBytes log.items) }
    ensures log { IfOk result (λ log. WasSeen (D.view disk.old).seen (λ image. log.items ≡ log_of image)) }
    ensures outside { IfErr result (OrOutside (λ _. ⊥)) }
    ensures reads { OnlyReads (D.view disk.old) (D.view disk.new) }
    ensures clock { (D.view disk.new).moment ≤ (D.view disk.old).moment + 1 }
    ensures kept { (D.view disk.old).faults ≤ (D.view disk.new).faults }
    ensures cause { IfErr result (WasCounted (D.view disk.old).faults (D.view disk.new).faults) }
{
    let mut log = vec![in alloc; 0; LOG_BYTES]?;
    read_part(disk, FIRST_LOG_BLOCK * BLOCK_SECTORS, &mut log)?;
    Ok(log)
}

/// The live stream of the image that the disk reads. Refusals come in this order: the superblock, the head, the chain back
/// to its tail, the room after the head, unmounts in company, operations, and items; want of memory and a fault of the disk at any
/// time. The disk is only read: the superblock and the log, each once.
pub fn live<D: Disk>(alloc: Global, disk: &mut D) -> Result<Live, ScanFault>
    ensures live { IfOk result (λ live. WasSeen (D.view disk.old).seen (λ image. IsLiveStream image live)) }
    ensures read { IfOk result (WasReadLive (D.view disk.old).seen) }
    ensures items { IfOk result (λ live. EntriesHaveItems live.entries.items) }
    ensures refused { IfErr result (OrOutside (λ fault. WasSeen (D.view disk.old).seen (λ image. RefusesImage image fault))) }
    ensures bytes { IfOk result (λ _. WasSeen (D.view disk.old).seen (λ image. AreBytes (log_of image))) }
    ensures readable { IfErr result (OrOutside (λ _. WasSeen (D.view disk.old).seen IsReadable)) }
    ensures reads { OnlyReads (D.view disk.old) (D.view disk.new) }
    ensures clock { (D.view disk.new).moment ≤ (D.view disk.old).moment + 2 }
    ensures kept { (D.view disk.old).faults ≤ (D.view disk.new).faults }
    ensures cause { IfErr result (WasCounted (D.view disk.old).faults (D.view disk.new).faults) }
{
    let uuid = read_uuid(disk)?;
    let log = read_log(alloc, disk)?;
    live_in(alloc, uuid, &log)
}
