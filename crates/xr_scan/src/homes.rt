//! Reading the blocks of a state where they lie in the image: one read for all files, and one for each group.
ghost use Rattle.std.specs.Prelude.{◌≡◌, ◌+◌, ◌*◌, ◌<◌, ◌≤◌, ℕ, List, length, IfOk, IfErr, OnOk, vec_len};
ghost use Rattle.xr_base.specs.Image.{part};
ghost use Rattle.xr_base.specs.declared.geometry.TheConstants.{BLOCK_BYTES, BLOCK_SECTORS, GROUPS};
ghost use Rattle.xr_disk.specs.Crash.{IsSectorRange};
ghost use Rattle.xr_disk.specs.Disk.{OnlyReads};
ghost use Rattle.xr_disk.specs.Seen.{WasSeen};
ghost use Rattle.xr_commit.specs.DiskFaults.{WasCounted};
ghost use Rattle.xr_commit.specs.Refusals.{OrOutside};
ghost use Rattle.xr_commit.specs.declared.fault.ScanFault.TheVariants.{DiskFault};
ghost use Rattle.xr_scan.specs.Homes.{AreHomes, AreHomesBelow, groups_end};
ghost use Rattle.xr_scan.specs.declared.layout.TheConstants.{STATE_BYTES};

use crate::layout::{FILE_BYTES, GROUP_BYTES, STATE_BYTES};
use std::alloc::Global;
use xr_base::Fault;
use xr_base::geometry::{
    BLOCK_SECTORS, FILES, FIRST_FILE_BLOCK, FIRST_GROUP_BLOCK, GROUP_BLOCKS, GROUPS,
};
use xr_commit::ScanFault;
use xr_disk::Disk;

/// Reads blocks that lie together, from one on.
fn read_run<D: Disk>(disk: &mut D, first: u32, out: &mut [u8]) -> Result<(), ScanFault>
    requires { IsSectorRange (BLOCK_SECTORS * first) (length out.old) }
    ensures bytes { OnOk result (WasSeen (D.view disk.old).seen (λ image. out.new ≡ part (BLOCK_BYTES * first) (length out.old) image)) }
    ensures outside { IfErr result (λ fault. fault ≡ DiskFault (D.view disk.new).faults) }
    ensures reads { OnlyReads (D.view disk.old) (D.view disk.new) }
    ensures clock { (D.view disk.new).moment ≤ (D.view disk.old).moment + 1 }
    ensures kept { (D.view disk.old).faults ≤ (D.view disk.new).faults }
    ensures cause { IfErr result (WasCounted (D.view disk.old).faults (D.view disk.new).faults) }
{
    match disk.read(BLOCK_SECTORS * first, out) {
        Ok(()) => Ok(()),
        Err(Fault) => Err(ScanFault::DiskFault {
            faults: disk.faults(),
        }),
    }
}

/// Reads the blocks of all files into their places.
fn read_files<D: Disk>(disk: &mut D, blocks: &mut [u8]) -> Result<(), ScanFault>
    requires { length blocks.old ≡ STATE_BYTES }
    ensures homes { OnOk result (WasSeen (D.view disk.old).seen (λ image. AreHomesBelow image (groups_end 0) blocks.new)) }
    ensures outside { IfErr result (λ fault. fault ≡ DiskFault (D.view disk.new).faults) }
    ensures reads { OnlyReads (D.view disk.old) (D.view disk.new) }
    ensures clock { (D.view disk.new).moment ≤ (D.view disk.old).moment + 1 }
    ensures kept { (D.view disk.old).faults ≤ (D.view disk.new).faults }
    ensures cause { IfErr result (WasCounted (D.view disk.old).faults (D.view disk.new).faults) }
{
    read_run(
        disk,
        FIRST_FILE_BLOCK,
        &mut blocks[..FILE_BYTES * FILES as usize],
    )
}

/// Reads the header and the pool of a group into their places.
fn read_group<D: Disk>(disk: &mut D, group: u32, blocks: &mut [u8]) -> Result<(), ScanFault>
    requires group { group < GROUPS }
    requires blocks { length blocks.old ≡ STATE_BYTES }
    ensures homes { OnOk result (WasSeen (D.view disk.old).seen (λ image. AreHomesBelow image (groups_end group) blocks.old
        → AreHomesBelow image (groups_end (group + 1)) blocks.new)) }
    ensures outside { IfErr result (λ fault. fault ≡ DiskFault (D.view disk.new).faults) }
    ensures reads { OnlyReads (D.view disk.old) (D.view disk.new) }
    ensures clock { (D.view disk.new).moment ≤ (D.view disk.old).moment + 1 }
    ensures kept { (D.view disk.old).faults ≤ (D.view disk.new).faults }
    ensures cause { IfErr result (WasCounted (D.view disk.old).faults (D.view disk.new).faults) }
{
    let from = FILE_BYTES * FILES as usize + GROUP_BYTES * group as usize;
    read_run(
        disk,
        FIRST_GROUP_BLOCK + GROUP_BLOCKS * group,
        &mut blocks[from..from + GROUP_BYTES],
    )
}

/// Reads the blocks of a state into their places.
fn fill_homes<D: Disk>(disk: &mut D, blocks: &mut [u8]) -> Result<(), ScanFault>
    requires { length blocks.old ≡ STATE_BYTES }
    ensures homes { OnOk result (WasSeen (D.view disk.old).seen (λ image. AreHomes image blocks.new)) }
    ensures outside { IfErr result (λ fault. fault ≡ DiskFault (D.view disk.new).faults) }
    ensures reads { OnlyReads (D.view disk.old) (D.view disk.new) }
    ensures clock { (D.view disk.new).moment ≤ (D.view disk.old).moment + 1 + GROUPS }
    ensures kept { (D.view disk.old).faults ≤ (D.view disk.new).faults }
    ensures cause { IfErr result (WasCounted (D.view disk.old).faults (D.view disk.new).faults) }
{
    read_files(disk, blocks)?;
    for group in 0..GROUPS {
        read_group(disk, group, blocks)?;
    }
    Ok(())
}

/// Reads the blocks of a state, each once.
pub fn read_homes<D: Disk>(alloc: Global, disk: &mut D) -> Result<Vec<u8>, ScanFault>
    ensures long { IfOk result (λ blocks. vec_len blocks ≡ STATE_BYTES) }
    ensures homes { IfOk result (λ blocks. WasSeen (D.view disk.old).seen (λ image. AreHomes image blocks.items)) }
    ensures outside { IfErr result (OrOutside (λ _. ⊥)) }
    ensures reads { OnlyReads (D.view disk.old) (D.view disk.new) }
    ensures clock { (D.view disk.new).moment ≤ (D.view disk.old).moment + 1 + GROUPS }
    ensures kept { (D.view disk.old).faults ≤ (D.view disk.new).faults }
    ensures cause { IfErr result (WasCounted (D.view disk.old).faults (D.view disk.new).faults) }
{
    let mut blocks = vec![in alloc; 0; STATE_BYTES]?;
    fill_homes(disk, &mut blocks)?;
    Ok(blocks)
}
