//! Loading a clean image: each file and each group is read in one piece.
ghost use Rattle.std.specs.Prelude.{◌≡◌, ◌≢◌, ◌+◌, ◌*◌, ◌<◌, ◌≤◌, ℕ, None, IfErr, IfOk, OnOk, length, vec_len};
ghost use Rattle.xr_base.specs.Image.{part};
ghost use Rattle.xr_base.specs.declared.geometry.TheConstants.{BLOCK_BYTES, BLOCKS, FILES, GROUPS, OFFSETS};
ghost use Rattle.xr_bmap.specs.File.{slot_of_file};
ghost use Rattle.xr_bmap.specs.OpenFile.{opened_file};
ghost use Rattle.xr_check.specs.CleanImages.{HasCleanLog, HasFilesBelow, HasGroupsBelow, IsCleanLog, IsFileOfImage, IsGroupOfImage};
ghost use Rattle.xr_check.specs.CleanImages.{bytes_of_file, bytes_of_group, groups_of_image, maps_of_image};
ghost use Rattle.xr_check.specs.LoadRefusals.{HasRisen, OfImage, RefusesLoad};
ghost use Rattle.xr_check.specs.Loading.{IsLoaded, IsVerdictOn};
ghost use Rattle.xr_check.specs.Reading.{NamesRule, ReadsAtMost, RefusesCleanLog, RefusesFiles, RefusesGroups, RefusesOneFile, RefusesOneGroup};
ghost use Rattle.xr_check.specs.Verdicts.{AreAllGroups};
ghost use Rattle.xr_commit.specs.Refusals.{IsReadable};
ghost use Rattle.xr_commit.specs.declared.layout.TheConstants.{LOG_BYTES};
ghost use Rattle.xr_disk.specs.Disk.{OnlyReads};
ghost use Rattle.xr_disk.specs.Seen.{WasSeen};
ghost use Rattle.xr_group.specs.OpenGroup.{opened_group};
ghost use Rattle.xr_maps.specs.FileMaps.{address_at};

use crate::fault::CheckFault;
use crate::judging::judge;
use crate::loaded::Loaded;
use crate::verdict::Verdict;
use std::alloc::{AllocError, Global};
use uuid::Uuid;
use xr_base::geometry::{
    BLOCK_BYTES, BLOCK_SECTORS, FILE_BLOCKS, FILES, FIRST_DATA_BLOCK, FIRST_FILE_BLOCK,
    FIRST_GROUP_BLOCK, GROUP_BLOCKS, GROUPS, OFFSETS,
};
use xr_base::{Fault, FileNo, GroupNo};
use xr_bmap::{File, Piece};
use xr_commit::{LogEnd, live_in, log_end, read_log, read_uuid};
use xr_disk::Disk;
use xr_group::Group;
use xr_maps::{Maps, Step};

/// Refuses a log whose newest record isn't an unmount, or that breaks a rule.
fn check_log(alloc: Global, uuid: Uuid, log: &[u8]) -> Result<(), CheckFault>
    requires { length log.now ≡ LOG_BYTES }
    ensures clean { OnOk result (IsCleanLog uuid log.now) }
    ensures refused { IfErr result (RefusesCleanLog uuid log.now) }
    ensures cause { (before after : ℕ) → IfErr result (HasRisen before after) }
{
    if let LogEnd::InUse { lsn } = log_end(alloc, &uuid, log)? {
        return Err(CheckFault::Dirty { lsn });
    }
    live_in(alloc, uuid, log)?;
    Ok(())
}

/// Reads the superblock and the log, and gives the image's identifier.
fn load_log<D: Disk>(alloc: Global, disk: &mut D) -> Result<Uuid, CheckFault>
    ensures clean { IfOk result (λ uuid. WasSeen (D.view disk.old).seen (λ image. HasCleanLog image uuid)) }
    ensures refused { IfErr result (λ fault. WasSeen (D.view disk.old).seen (λ image. RefusesLoad image fault)) }
    ensures readable { IfOk result (λ _. WasSeen (D.view disk.old).seen IsReadable) }
    ensures refusable { IfErr result (OfImage (λ _. WasSeen (D.view disk.old).seen IsReadable)) }
    ensures reads { ReadsAtMost 2 (D.view disk.old) (D.view disk.new) }
    ensures cause { IfErr result (HasRisen (D.view disk.old).faults (D.view disk.new).faults) }
{
    let uuid = read_uuid(disk)?;
    let log = read_log(alloc, disk)?;
    check_log(alloc, uuid, &log)?;
    Ok(uuid)
}

/// Room for so many blocks. It is filled a block at a time, which takes less than a byte at a time.
fn room_for(alloc: Global, count: u32) -> Result<Vec<u8>, AllocError>
    requires { count ≤ BLOCKS }
    ensures { IfOk result (λ room. vec_len room ≡ BLOCK_BYTES * count) }
{
    let zeros = [0; BLOCK_BYTES];
    let mut room = Vec::with_capacity(alloc, BLOCK_BYTES * count as usize)?;
    for _ in 0..count {
        room.extend_from_slice(&zeros)?;
    }
    Ok(room)
}

/// Reads so many blocks, from one on.
fn read_blocks<D: Disk>(
    alloc: Global,
    disk: &mut D,
    first: u32,
    count: u32,
) -> Result<Vec<u8>, CheckFault>
    requires some { 0 < count }
    requires within { first + count ≤ BLOCKS }
    ensures long { IfOk result (λ blocks. vec_len blocks ≡ count * BLOCK_BYTES) }
    ensures bytes { IfOk result (λ blocks. WasSeen (D.view disk.old).seen (λ image. blocks.items
        ≡ part (BLOCK_BYTES * first) (BLOCK_BYTES * count) image)) }
    ensures outside { IfErr result (NamesRule (λ _ _. ⊥)) }
    ensures reads { ReadsAtMost 1 (D.view disk.old) (D.view disk.new) }
    ensures cause { IfErr result (HasRisen (D.view disk.old).faults (D.view disk.new).faults) }
{
    let mut blocks = room_for(alloc, count)?;
    match disk.read(first * BLOCK_SECTORS, &mut blocks) {
        Ok(()) => Ok(blocks),
        Err(Fault) => Err(CheckFault::DiskFault {
            faults: disk.faults(),
        }),
    }
}

/// Reads a file.
fn load_file<D: Disk>(
    alloc: Global,
    disk: &mut D,
    uuid: &Uuid,
    number: FileNo,
) -> Result<File, CheckFault>
    requires { number.0 < FILES }
    ensures opened { IfOk result (λ file. WasSeen (D.view disk.old).seen (λ image. file
        ≡ opened_file number.0 uuid.now (bytes_of_file image number.0))) }
    ensures right { IfOk result (λ _. WasSeen (D.view disk.old).seen (λ image. IsFileOfImage image uuid.now number.0)) }
    ensures refused { IfErr result (λ fault. WasSeen (D.view disk.old).seen (λ image. RefusesOneFile image uuid.now number.0 fault)) }
    ensures reads { ReadsAtMost 1 (D.view disk.old) (D.view disk.new) }
    ensures cause { IfErr result (HasRisen (D.view disk.old).faults (D.view disk.new).faults) }
{
    let first = FIRST_FILE_BLOCK + FILE_BLOCKS * number.0;
    let blocks = read_blocks(alloc, disk, first, FILE_BLOCKS)?;
    Ok(File::open(alloc, number, uuid, blocks)?)
}

/// Puts what a file maps into the maps, which map nothing for it yet.
fn take_file(maps: &mut Maps, number: FileNo, file: &File)
    requires known { number.0 < FILES }
    requires empty { (o : ℕ) → address_at maps.old number.0 o ≡ None }
    ensures taken { (o : ℕ) → o < OFFSETS → address_at maps.new number.0 o ≡ slot_of_file file.now o }
    ensures others { (f o : ℕ) → f ≢ number.0 → address_at maps.new f o ≡ address_at maps.old f o }
{
    maps.map_only_data_blocks();
    let mut off = 0;
    while off < OFFSETS {
        match file.lookup(off, OFFSETS - off) {
            Piece::Mapped { at, len } => {
                maps.apply(&Step::Remap {
                    file: number,
                    off,
                    len,
                    at,
                });
                off += len;
            }
            Piece::Hole { len } => off += len,
        }
    }
}

/// Reads what the files map.
fn load_maps<D: Disk>(alloc: Global, disk: &mut D, uuid: &Uuid) -> Result<Maps, CheckFault>
    ensures maps { IfOk result (λ maps. WasSeen (D.view disk.old).seen (λ image. maps ≡ maps_of_image image uuid.now)) }
    ensures right { IfOk result (λ _. WasSeen (D.view disk.old).seen (λ image. HasFilesBelow image uuid.now FILES)) }
    ensures refused { IfErr result (λ fault. WasSeen (D.view disk.old).seen (λ image. RefusesFiles image uuid.now fault)) }
    ensures reads { ReadsAtMost FILES (D.view disk.old) (D.view disk.new) }
    ensures cause { IfErr result (HasRisen (D.view disk.old).faults (D.view disk.new).faults) }
{
    let mut maps = Maps::new(alloc)?;
    for number in 0..FILES {
        let number = FileNo(number);
        let file = load_file(alloc, disk, uuid, number)?;
        take_file(&mut maps, number, &file);
    }
    maps.map_only_data_blocks();
    Ok(maps)
}

/// Reads a group.
fn load_group<D: Disk>(
    alloc: Global,
    disk: &mut D,
    uuid: &Uuid,
    number: GroupNo,
) -> Result<Group, CheckFault>
    requires { number.0 < GROUPS }
    ensures number { IfOk result (λ group. group.number ≡ number.0) }
    ensures opened { IfOk result (λ group. WasSeen (D.view disk.old).seen (λ image. group
        ≡ opened_group number.0 uuid.now (bytes_of_group image number.0))) }
    ensures right { IfOk result (λ _. WasSeen (D.view disk.old).seen (λ image. IsGroupOfImage image uuid.now number.0)) }
    ensures refused { IfErr result (λ fault. WasSeen (D.view disk.old).seen (λ image. RefusesOneGroup image uuid.now number.0 fault)) }
    ensures reads { ReadsAtMost 1 (D.view disk.old) (D.view disk.new) }
    ensures cause { IfErr result (HasRisen (D.view disk.old).faults (D.view disk.new).faults) }
{
    let first = FIRST_GROUP_BLOCK + GROUP_BLOCKS * number.0;
    let blocks = read_blocks(alloc, disk, first, FIRST_DATA_BLOCK)?;
    Ok(Group::open(alloc, number, uuid, blocks)?)
}

/// Reads the groups.
fn load_groups<D: Disk>(alloc: Global, disk: &mut D, uuid: &Uuid) -> Result<Vec<Group>, CheckFault>
    ensures all { IfOk result (λ groups. AreAllGroups groups.items) }
    ensures groups { IfOk result (λ groups. WasSeen (D.view disk.old).seen (λ image. groups.items ≡ groups_of_image image uuid.now)) }
    ensures right { IfOk result (λ _. WasSeen (D.view disk.old).seen (λ image. HasGroupsBelow image uuid.now GROUPS)) }
    ensures refused { IfErr result (λ fault. WasSeen (D.view disk.old).seen (λ image. RefusesGroups image uuid.now fault)) }
    ensures reads { ReadsAtMost GROUPS (D.view disk.old) (D.view disk.new) }
    ensures cause { IfErr result (HasRisen (D.view disk.old).faults (D.view disk.new).faults) }
{
    let mut groups = Vec::with_capacity(alloc, GROUPS as usize)?;
    for number in 0..GROUPS {
        let group = load_group(alloc, disk, uuid, GroupNo(number))?;
        groups.push(group)?;
    }
    Ok(groups)
}

/// The file maps and the groups of the clean image that the disk reads. Refusals come in this order: the superblock, a newest
/// record that isn't an unmount, the log, the files and the groups, both in rising number; want of memory and a fault of the disk at
/// any time. The disk is only read: the superblock, the log, and each block of the files and groups but data blocks, each once.
pub fn load<D: Disk>(alloc: Global, disk: &mut D) -> Result<Loaded, CheckFault>
    ensures loaded { IfOk result (λ loaded. WasSeen (D.view disk.old).seen (λ image. IsLoaded image loaded)) }
    ensures all { IfOk result (λ loaded. AreAllGroups loaded.groups.items) }
    ensures refused { IfErr result (λ fault. WasSeen (D.view disk.old).seen (λ image. RefusesLoad image fault)) }
    ensures readable { IfOk result (λ _. WasSeen (D.view disk.old).seen IsReadable) }
    ensures refusable { IfErr result (OfImage (λ _. WasSeen (D.view disk.old).seen IsReadable)) }
    ensures reads { OnlyReads (D.view disk.old) (D.view disk.new) }
    ensures clock { (D.view disk.new).moment ≤ (D.view disk.old).moment + 2 + FILES + GROUPS }
    ensures kept { (D.view disk.old).faults ≤ (D.view disk.new).faults }
    ensures cause { IfErr result (HasRisen (D.view disk.old).faults (D.view disk.new).faults) }
{
    let uuid = load_log(alloc, disk)?;
    let maps = load_maps(alloc, disk, &uuid)?;
    let groups = load_groups(alloc, disk, &uuid)?;
    Ok(Loaded { maps, groups })
}

/// Whether each tree of each group of the clean image that the disk reads holds just the records that are defined from the file
/// maps, and where not. Refusals are those of `load`, and the disk is read as there.
pub fn check<D: Disk>(alloc: Global, disk: &mut D) -> Result<Verdict, CheckFault>
    ensures verdict { IfOk result (λ verdict. WasSeen (D.view disk.old).seen (λ image. IsVerdictOn image verdict)) }
    ensures refused { IfErr result (λ fault. WasSeen (D.view disk.old).seen (λ image. RefusesLoad image fault)) }
    ensures readable { IfOk result (λ _. WasSeen (D.view disk.old).seen IsReadable) }
    ensures refusable { IfErr result (OfImage (λ _. WasSeen (D.view disk.old).seen IsReadable)) }
    ensures reads { OnlyReads (D.view disk.old) (D.view disk.new) }
    ensures clock { (D.view disk.new).moment ≤ (D.view disk.old).moment + 2 + FILES + GROUPS }
    ensures kept { (D.view disk.old).faults ≤ (D.view disk.new).faults }
    ensures cause { IfErr result (HasRisen (D.view disk.old).faults (D.view disk.new).faults) }
{
    let loaded = load(alloc, disk)?;
    Ok(judge(alloc, &loaded)?)
}
