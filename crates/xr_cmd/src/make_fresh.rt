//! Formatting: a disk gets a fresh image, a block at a time.
ghost use Rattle.std.specs.Prelude.{◌≡◌, ◌*◌, ◌<◌, ◌≤◌, ℕ, Some, List, length, replicate, OnOk};
ghost use Rattle.xr_base.specs.Cause.{HasCause};
ghost use Rattle.xr_base.specs.Image.{block_of, overlaid};
ghost use Rattle.xr_base.specs.declared.geometry.TheConstants.{BLOCK_BYTES, BLOCKS, CYCLES};
ghost use Rattle.xr_disk.specs.Disk.{IsAtRest, IsCall, LeavesOnly, MayTear};
ghost use Rattle.xr_disk.specs.Runs.{Runs};
ghost use Rattle.xr_disk.specs.Seen.{WasSeen};
ghost use Rattle.xr_headers.specs.FreshImage.{fresh_block_of, fresh_image};
ghost use Rattle.xr_cmd.specs.Fresh.{HasFreshBlocks};
ghost use Rattle.xr_cmd.specs.Mkfs.{HasFreshBody, KeepsBody, LeavesNoHalves};
ghost use Rattle.xr_cmd.specs.MkfsSteps.{IsLong, RestsOnFreshBody, SeesAfter};

use uuid::Uuid;
use xr_base::Fault;
use xr_base::geometry::{BLOCK_BYTES, BLOCK_SECTORS, BLOCKS, CYCLES, SECTOR_BYTES};
use xr_disk::Disk;
use xr_headers::fresh_block;

/// Writes one block.
fn write_block<D: Disk>(disk: &mut D, block: u32, bytes: &[u8]) -> Result<(), Fault>
    requires block { block < BLOCKS }
    requires bytes { length bytes.now ≡ BLOCK_BYTES }
    ensures written { OnOk result (SeesAfter (overlaid (BLOCK_BYTES * block) bytes.now) (D.view disk.old) (D.view disk.new)) }
    ensures torn { MayTear (BLOCK_BYTES * block) bytes.now (D.view disk.old) (D.view disk.new) }
    ensures call { IsCall (D.view disk.old) (D.view disk.new) result }
{
    disk.write(block * BLOCK_SECTORS, bytes)
}

/// Writes one block of a fresh image, by way of the buffer.
fn write_fresh<D: Disk>(
    disk: &mut D,
    block: u32,
    uuid: &Uuid,
    cycle: u32,
    buffer: &mut [u8],
) -> Result<(), Fault>
    requires block { block < BLOCKS }
    requires some_cycle { 1 ≤ cycle }
    requires last_cycle { cycle < CYCLES }
    requires room { length buffer.old ≡ BLOCK_BYTES }
    ensures written { OnOk result (SeesAfter (overlaid (BLOCK_BYTES * block) (fresh_block_of uuid.now cycle block))
        (D.view disk.old) (D.view disk.new)) }
    ensures torn { MayTear (BLOCK_BYTES * block) (fresh_block_of uuid.now cycle block) (D.view disk.old) (D.view disk.new) }
    ensures call { IsCall (D.view disk.old) (D.view disk.new) result }
{
    fresh_block(block, uuid, cycle, buffer);
    write_block(disk, block, buffer)
}

/// Takes the superblock away.
fn clear_super<D: Disk>(disk: &mut D) -> Result<(), Fault>
    ensures cleared { OnOk result (WasSeen (D.view disk.old).seen (λ s. IsAtRest (overlaid 0 (replicate BLOCK_BYTES 0) s) (D.view disk.new))) }
    ensures crash { WasSeen (D.view disk.old).seen (λ _. LeavesOnly (D.view disk.old) (D.view disk.new) (λ c. KeepsBody (D.view disk.old) c.image)) }
    ensures cause { HasCause result (D.view disk.old).faults (D.view disk.new).faults }
{
    write_block(disk, 0, &[0; BLOCK_BYTES])?;
    disk.sync()
}

/// Writes all blocks of a fresh image but the first.
fn write_body<D: Disk>(
    disk: &mut D,
    uuid: &Uuid,
    cycle: u32,
    buffer: &mut [u8],
) -> Result<(), Fault>
    requires some_cycle { 1 ≤ cycle }
    requires last_cycle { cycle < CYCLES }
    requires room { length buffer.old ≡ BLOCK_BYTES }
    ensures written { OnOk result ((s : List ℕ) → (D.view disk.old).seen ≡ Some s → IsLong s
        → (t : List ℕ) × ((D.view disk.new).seen ≡ Some t) × IsLong t × HasFreshBody uuid.now cycle t) }
    ensures first { (s : List ℕ) → IsAtRest s (D.view disk.old) → Runs (D.view disk.old) (D.view disk.new) (λ c. block_of c.image 0 ≡ block_of s 0) }
    ensures cause { HasCause result (D.view disk.old).faults (D.view disk.new).faults }
{
    for block in 1..BLOCKS {
        write_fresh(disk, block, uuid, cycle, buffer)?;
    }
    Ok(())
}

/// Makes all blocks those of a fresh image but the first, which stays.
fn fill<D: Disk>(disk: &mut D, uuid: &Uuid, cycle: u32, buffer: &mut [u8]) -> Result<(), Fault>
    requires some_cycle { 1 ≤ cycle }
    requires last_cycle { cycle < CYCLES }
    requires room { length buffer.old ≡ BLOCK_BYTES }
    ensures filled { OnOk result ((s : List ℕ) → IsAtRest s (D.view disk.old) → RestsOnFreshBody uuid.now cycle (D.view disk.new)) }
    ensures crash { (s : List ℕ) → IsAtRest s (D.view disk.old)
        → LeavesOnly (D.view disk.old) (D.view disk.new) (λ c. block_of c.image 0 ≡ block_of s 0) }
    ensures cause { HasCause result (D.view disk.old).faults (D.view disk.new).faults }
{
    write_body(disk, uuid, cycle, buffer)?;
    disk.sync()
}

/// Makes the first block that of a fresh image.
fn set_super<D: Disk>(disk: &mut D, uuid: &Uuid, cycle: u32, buffer: &mut [u8]) -> Result<(), Fault>
    requires some_cycle { 1 ≤ cycle }
    requires last_cycle { cycle < CYCLES }
    requires room { length buffer.old ≡ BLOCK_BYTES }
    ensures made { OnOk result (RestsOnFreshBody uuid.now cycle (D.view disk.old) → IsAtRest (fresh_image uuid.now cycle) (D.view disk.new)) }
    ensures crash { RestsOnFreshBody uuid.now cycle (D.view disk.old)
        → LeavesOnly (D.view disk.old) (D.view disk.new) (λ c. HasFreshBody uuid.now cycle c.image) }
    ensures cause { HasCause result (D.view disk.old).faults (D.view disk.new).faults }
{
    write_fresh(disk, 0, uuid, cycle, buffer)?;
    disk.sync()
}

/// Makes a fresh image with this identifier, whose log begins with this cycle, from 1 to 3,999,999,999. First the
/// superblock goes and last it comes, each time with a sync, so that no half of an image has one. After a fault the
/// disk may hold anything.
pub fn mkfs<D: Disk>(disk: &mut D, uuid: &Uuid, cycle: u32) -> Result<(), Fault>
    requires some_cycle { 1 ≤ cycle }
    requires last_cycle { cycle < CYCLES }
    ensures made { OnOk result (WasSeen (D.view disk.old).seen (λ _. IsAtRest (fresh_image uuid.now cycle) (D.view disk.new))) }
    ensures crash { LeavesNoHalves uuid.now cycle (D.view disk.old) (D.view disk.new) }
    ensures cause { HasCause result (D.view disk.old).faults (D.view disk.new).faults }
{
    clear_super(disk)?;
    let mut buffer = [0; BLOCK_BYTES];
    fill(disk, uuid, cycle, &mut buffer)?;
    set_super(disk, uuid, cycle, &mut buffer)
}
